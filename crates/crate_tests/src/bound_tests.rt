//! Certificates that are made.

use affine_c::read_program;
use dep_quast::Quast;
use find_terms::{Accepted, made_within};
use std::test::Fail;

/// A letter for the leaf that is the source tree of a statement's first read.
fn leaf_letter(accepted: &Accepted, statement: u16) -> u8 {
    match accepted.certificate.quasts().tree(statement, 0) {
        Some(Quast::Source { .. }) => b's',
        Some(Quast::Input { .. }) => b'i',
        Some(Quast::Blank) => b'b',
        _ => b'?',
    }
}

/// Whether a certificate has one branch, and these leaves for the first reads of the first two statements.
fn has_leaves(accepted: &Accepted, first: u8, second: u8) -> bool {
    accepted.certificate.branches().len() == 1
        && accepted.bound.branches() == 1
        && leaf_letter(accepted, 0) == first
        && leaf_letter(accepted, 1) == second
}

/// The opening branch is about `a`; where the text is too long, the tree of the read of `x` is blank, and that of `a` stays.
#[test]
fn long_texts_are_made_shorter(rt: HostRuntime) -> Result<(), Fail> {
    let alloc = rt.alloc();
    let program = read_program(alloc, b"#pragma scop\nx = a; y = x;\n#pragma endscop\n")?;
    let whole = made_within(alloc, &program, 1 << 20)?;
    assert!(rt; has_leaves(&whole, b'i', b's'));
    let short = made_within(alloc, &program, 100)?;
    assert!(rt; has_leaves(&short, b'i', b'b'));
    assert!(rt; short.text.len() < whole.text.len());
    Ok(())
}
