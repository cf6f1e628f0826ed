//! Forms and matrices whose answers are known.

use affine_form::{Form, Matrix, NotInverse, UniPair};
use std::test::Fail;

#[test]
fn matrices_are_inverse(rt: HostRuntime) -> Result<(), Fail> {
    let alloc = rt.alloc();
    let identity = Matrix::new(2, 2, vec![in alloc; 1, 0, 0, 1]?);
    let inverse = Matrix::new(2, 2, vec![in alloc; 1, 1, 0, 1]?);
    let found = UniPair::of(identity, inverse);
    assert!(rt; matches!(found, Err(NotInverse { row: 0, col: 1 })));
    let shear = Matrix::new(2, 2, vec![in alloc; 1, 2, 0, 1]?);
    let back = Matrix::new(2, 2, vec![in alloc; 1, -2, 0, 1]?);
    assert!(rt; UniPair::of(shear, back).is_ok());
    Ok(())
}

#[test]
fn forms_are_put_in(rt: HostRuntime) -> Result<(), Fail> {
    let alloc = rt.alloc();
    let map = vec![in alloc; Form::new(vec![in alloc; 3]?, 1)]?;
    let composed = Form::new(vec![in alloc; 2]?, 5).substitute(alloc, &map)?;
    assert_eq!(rt; composed.coef(), [6i128].as_slice());
    assert_eq!(rt; composed.constant(), 7);
    assert_eq!(rt; composed.value(&[10]), 67);
    Ok(())
}
