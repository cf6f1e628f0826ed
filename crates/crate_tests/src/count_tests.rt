//! Counts of nests that are made.

use affine_c::read_program;
use affine_form::Form;
use claims::Place;
use domain_count::{CountFault, Nest, check_count, make_count};
use std::test::Fail;

/// A program whose parameter is at least 1.
const ROW: &[u8] =
    b"#pragma iolb assume N >= 1\n#pragma scop\nfor (i = 0; i < N; i++) A[i] = B[i];\n#pragma endscop\n";

#[test]
fn a_triangle_is_counted(rt: HostRuntime) -> Result<(), Fail> {
    let alloc = rt.alloc();
    let program = read_program(alloc, ROW)?;
    assert_eq!(rt; program.params().len(), 1);
    let zero = Form::new(vec![in alloc; 0]?, 0);
    let last = Form::new(vec![in alloc; 1]?, -1);
    let first = Form::new(vec![in alloc; 0, 0]?, 0);
    let outer = Form::new(vec![in alloc; 0, 1]?, 0);
    let nest = Nest::new(vec![in alloc; (zero, last), (first, outer)]?);
    let sums = make_count(alloc, &program, &nest)?;
    let count = check_count(alloc, &program, &nest, &sums, &Place::new(Vec::new(alloc)))?;
    let text = count.text(alloc, program.params())?;
    assert_eq!(rt; text.as_slice(), b"(N^2 + N)/2".as_slice());
    Ok(())
}

#[test]
fn a_range_may_not_be_shown(rt: HostRuntime) -> Result<(), Fail> {
    let alloc = rt.alloc();
    let program = read_program(alloc, ROW)?;
    assert_eq!(rt; program.params().len(), 1);
    let second = Form::new(vec![in alloc; 0]?, 1);
    let before_last = Form::new(vec![in alloc; 1]?, -2);
    let nest = Nest::new(vec![in alloc; (second, before_last)]?);
    let made = make_count(alloc, &program, &nest);
    assert!(rt; matches!(made, Err(CountFault::NotProved(0))));
    Ok(())
}
