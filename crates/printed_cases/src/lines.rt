//! Programs that stand in one line, and what is said of them.

use affine_c::read_program;
use affine_program::Program;
use std::alloc::{AllocError, Global};

/// The program of a line: what is assumed of its parameters, if anything, `|`, and its statements.
pub(crate) fn program_of(alloc: Global, line: &str) -> Result<Option<Program>, AllocError> {
    let Some((assumed, statements)) = line.split_once('|') else {
        return Ok(None);
    };
    let assumption = if assumed.trim().is_empty() {
        String::new(alloc)
    } else {
        format!(in alloc; "#pragma iolb assume {assumed}\n")?
    };
    let text = format!(in alloc; "{assumption}#pragma scop\n{statements}\n#pragma endscop\n")?;
    Ok(read_program(alloc, text.as_bytes()).ok())
}

/// Writes a line, and what is said of it: a line for each of these, or that nothing is known.
pub(crate) fn write_said(
    line: &str,
    said: Option<Vec<u8>>,
    page: &mut Vec<u8>,
) -> Result<(), AllocError> {
    page.extend_from_slice(line.as_bytes())?;
    page.push(b'\n')?;
    match said {
        Some(said) => page.extend_from_slice(said.as_slice()),
        None => page.extend_from_slice(b"  isn't read\n"),
    }
}
