//! Programs, as they are written again.

use crate::graphs;
use affine_c::{program_text, read_program};
use affine_form::Name;
use affine_program::Program;
use std::alloc::{AllocError, Global};

/// Writes an array, with its number of subscripts.
fn write_array(
    alloc: Global,
    name: &Name,
    subscripts: u8,
    page: &mut Vec<u8>,
) -> Result<(), AllocError> {
    page.push(b' ')?;
    page.extend_from_slice(name.bytes())?;
    page.extend_from_slice(format!(in alloc; "/{subscripts}")?.as_bytes())
}

/// Writes the arrays of a program, each with its number of subscripts.
fn write_arrays(alloc: Global, program: &Program, page: &mut Vec<u8>) -> Result<(), AllocError> {
    page.extend_from_slice(b"arrays")?;
    for (name, subscripts) in program.arrays() {
        write_array(alloc, name, *subscripts, page)?;
    }
    page.push(b'\n')?;
    Ok(())
}

/// Writes whether the text of a program is the same when it is read and written again.
fn write_again(alloc: Global, text: &[u8], page: &mut Vec<u8>) -> Result<(), AllocError> {
    let Ok(program) = read_program(alloc, text) else {
        return page.extend_from_slice(b"isn't read again\n");
    };
    let again = match program_text(alloc, &program) {
        Ok(again) => again,
        Err(_) => return page.extend_from_slice(b"isn't written again\n"),
    };
    page.extend_from_slice(if again.as_slice() == text {
        b"stays\n"
    } else {
        b"changes\n"
    })
}

/// Writes what is said of a program.
pub(crate) fn write(alloc: Global, bytes: &[u8], page: &mut Vec<u8>) -> Result<(), AllocError> {
    let Ok(program) = read_program(alloc, bytes) else {
        return page.extend_from_slice(b"isn't read\n");
    };
    write_arrays(alloc, &program, page)?;
    graphs::write(alloc, &program, page)?;
    match program_text(alloc, &program) {
        Ok(text) => {
            page.extend_from_slice(text.as_slice())?;
            write_again(alloc, text.as_slice(), page)
        }
        Err(_) => page.extend_from_slice(b"isn't written\n"),
    }
}
