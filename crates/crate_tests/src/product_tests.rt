//! Programs of matrix products against their texts.

ghost use Rattle.std.specs.Prelude.{◌≤◌};

use affine_c::{products, program_text, read_program};
use std::alloc::Global;
use std::test::Fail;

/// The text of so many products.
fn text_of(alloc: Global, count: u8) -> Result<Vec<u8>, Fail> {
    let mut text = Vec::from_slice(alloc, b"#pragma iolb assume N >= 1\n#pragma scop\n")?;
    for q in 0..count {
        text.extend_from_slice(b"for (i = 0; i < N; i++)\nfor (j = 0; j < N; j++)\n")?;
        text.extend_from_slice(b"for (k = 0; k < N; k++)\n")?;
        let line = format!(in alloc; "C{q}[i][j] += A{q}[i][k] * B{q}[k][j];\n")?;
        text.extend_from_slice(line.as_bytes())?;
    }
    text.extend_from_slice(b"#pragma endscop\n")?;
    Ok(text)
}

/// Whether the program of so many products is the one that their text means: both are printed as one text.
fn is_text(alloc: Global, count: u8) -> Result<bool, Fail>
    requires some { 1 ≤ count }
    requires few { count ≤ 32 }
{
    let read = read_program(alloc, text_of(alloc, count)?.as_slice())?;
    let made = products(alloc, count)?;
    Ok(program_text(alloc, &made)? == program_text(alloc, &read)?)
}

#[test]
fn products_are_their_texts(rt: HostRuntime) -> Result<(), Fail> {
    let alloc = rt.alloc();
    assert!(rt; is_text(alloc, 1)?);
    assert!(rt; is_text(alloc, 2)?);
    assert!(rt; is_text(alloc, 32)?);
    Ok(())
}
