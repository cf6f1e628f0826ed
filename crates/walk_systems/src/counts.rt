//! What a nest's polynomials are asked to sum.

use affine_form::{Form, Memory, Name};
use affine_program::Program;
use plain_pages::Page;
use poly_tree::{Poly, PolyFault};
use std::alloc::Global;

/// The names of the parameters, and `u1`, `u2` and so on for the first nine variables of a nest.
fn names_of(alloc: Global, program: &Program, count: usize) -> Result<Vec<Name>, Memory> {
    let mut all = Vec::new(alloc);
    for name in program.params() {
        all.push(name.try_clone(alloc)?)?;
    }
    for digit in 0..count.min(9) {
        all.push(Name::new(vec![in alloc; b'u', b'1' + digit as u8]?))?;
    }
    Ok(all)
}

/// What a variable's polynomial counts between its bounds.
fn between(alloc: Global, var: u16, bounds: &(Form, Form), sum: &Poly) -> Result<Poly, PolyFault> {
    let upper = sum.substitute(alloc, var, &bounds.1)?;
    let lower = sum.shift(alloc, var)?.substitute(alloc, var, &bounds.0)?;
    upper.sub(alloc, &lower)
}

/// What the variables behind one count: 1 where there is none.
fn behind(
    alloc: Global,
    params: usize,
    bounds: &[(Form, Form)],
    sums: &[Poly],
    number: usize,
) -> Result<Poly, PolyFault> {
    let next = number.saturating_add(1);
    let var = u16::try_from(params.saturating_add(next)).unwrap_or(0);
    match (bounds.get(next), sums.get(next)) {
        (Some(bounds), Some(sum)) => between(alloc, var, bounds, sum),
        _ => Ok(Poly::from_form(alloc, &Form::new(Vec::new(alloc), 1))?),
    }
}

/// How much a polynomial grows with a variable.
fn growth(alloc: Global, var: u16, sum: &Poly) -> Result<Poly, PolyFault> {
    sum.sub(alloc, &sum.shift(alloc, var)?)
}

/// The growth of the polynomial of this number and what the variables behind count, as text.
fn texts(
    alloc: Global,
    program: &Program,
    bounds: &[(Form, Form)],
    sums: &[Poly],
    number: usize,
    sum: &Poly,
) -> Result<(Vec<u8>, Vec<u8>), PolyFault> {
    let params = program.params().len();
    let var = u16::try_from(params.saturating_add(number)).unwrap_or(0);
    let names = names_of(alloc, program, bounds.len())?;
    let here = growth(alloc, var, sum)?.text(alloc, names.as_slice())?;
    let called = behind(alloc, params, bounds, sums, number)?.text(alloc, names.as_slice())?;
    Ok((here, called))
}

/// Writes how much the polynomial of this number of a nest grows with its variable, and what is called for: what the
/// variables behind it count. Nothing where an operation passes its limit.
pub fn write_sum(
    page: &mut Page,
    program: &Program,
    bounds: &[(Form, Form)],
    sums: &[Poly],
    number: usize,
) -> Result<(), Memory> {
    let alloc = page.alloc();
    let Some(sum) = sums.get(number) else {
        return Ok(());
    };
    let (here, called) = match texts(alloc, program, bounds, sums, number, sum) {
        Ok(texts) => texts,
        Err(PolyFault::Memory) => return Err(Memory),
        Err(PolyFault::Wide) => return Ok(()),
    };
    let digit = number.saturating_add(1);
    page.text(format!(in alloc; "the difference in u{digit}: ")?.as_str())?;
    page.write_bytes(here.as_slice())?;
    page.text(" here, ")?;
    page.write_bytes(called.as_slice())?;
    page.line(" called for")?;
    Ok(())
}
