//! Operations on polynomials.

ghost use Rattle.std.specs.Prelude.{◌≤ℤ◌, pos};

use poly_tree::{Poly, PolyFault};
use std::alloc::Global;
use std::test::Fail;

fn quadratic(alloc: Global, square: i8, linear: i8, den: i8) -> Result<Poly, Fail>
    requires { pos 1 ≤ℤ den }
{
    let first = vec![in alloc; 2]?;
    let second = vec![in alloc; 1]?;
    let terms = vec![in alloc; (i128::from(square), first), (i128::from(linear), second)]?;
    Ok(Poly::from_terms(alloc, &terms, i128::from(den))?)
}

#[test]
fn adds_and_shifts(rt: HostRuntime) -> Result<(), Fail> {
    let alloc = rt.alloc();
    let up = quadratic(alloc, 1, 1, 2)?;
    let down = quadratic(alloc, 1, -1, 2)?;
    let square = quadratic(alloc, 1, 0, 1)?;
    assert!(rt; up.add(alloc, &down)?.same(&square));
    assert!(rt; up.shift(alloc, 0)?.same(&down));
    assert!(rt; up.sub(alloc, &down)?.same(&quadratic(alloc, 0, 1, 1)?));
    Ok(())
}

#[test]
fn compares_values(rt: HostRuntime) -> Result<(), Fail> {
    let alloc = rt.alloc();
    let half = quadratic(alloc, 1, -1, 2)?;
    assert!(rt; half.same(&quadratic(alloc, 1, -1, 2)?));
    assert!(rt; half.same(&quadratic(alloc, 2, -2, 4)?));
    assert!(rt; !half.same(&quadratic(alloc, 1, -1, 1)?));
    assert_eq!(rt; half.den(), 2);
    assert!(rt; half.uses_below(1));
    assert_eq!(rt; half.numer(&[4]), Ok(12));
    Ok(())
}

#[test]
fn multiplies(rt: HostRuntime) -> Result<(), Fail> {
    let alloc = rt.alloc();
    let half = quadratic(alloc, 0, 1, 2)?;
    let double = quadratic(alloc, 0, 2, 1)?;
    assert!(rt; half.mul(alloc, &double)?.same(&quadratic(alloc, 1, 0, 1)?));
    Ok(())
}

#[test]
fn refuses_what_is_wide(rt: HostRuntime) -> Result<(), Fail> {
    let alloc = rt.alloc();
    let terms = vec![in alloc; (1i128 << 62, vec![in alloc; 1]?)]?;
    let wide = Poly::from_terms(alloc, &terms, 1 << 64);
    assert!(rt; matches!(wide, Err(PolyFault::Wide)));
    Ok(())
}
