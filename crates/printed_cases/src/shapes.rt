//! What the shapes of programs are, where they are projective.

use crate::lines::{program_of, write_said};
use projective::as_projective;
use std::alloc::{AllocError, Global};

/// Writes the places of loops, behind a blank.
fn write_places(alloc: Global, places: &[u8], text: &mut Vec<u8>) -> Result<(), AllocError> {
    text.push(b' ')?;
    for place in places {
        text.extend_from_slice(format!(in alloc; "{place}")?.as_bytes())?;
    }
    Ok(())
}

/// How many loops a program has, and for each array which of them stand in its reference; or that it isn't projective.
fn said_of(alloc: Global, line: &str) -> Result<Option<Vec<u8>>, AllocError> {
    let Some(program) = program_of(alloc, line)? else {
        return Ok(None);
    };
    let mut said = Vec::from_slice(alloc, b"  ")?;
    match as_projective(alloc, &program) {
        Ok(Some(shape)) => {
            said.push(b'0' + shape.depth() % 10)?;
            for set in shape.sets() {
                write_places(alloc, set.coords(), &mut said)?;
            }
        }
        Ok(None) => said.extend_from_slice(b"not projective")?,
        Err(_) => return Ok(None),
    }
    said.push(b'\n')?;
    Ok(Some(said))
}

/// Writes of each line's program what its shape is.
pub(crate) fn write(alloc: Global, bytes: &[u8], page: &mut Vec<u8>) -> Result<(), AllocError> {
    let text = str::from_utf8(bytes).unwrap_or("");
    for line in text.lines() {
        let said = said_of(alloc, line)?;
        write_said(line, said, page)?;
    }
    Ok(())
}
