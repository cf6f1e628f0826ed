//! Names of variables.

use affine_form::{Memory, Name};
use affine_program::Program;
use program_pages::names_at;
use std::alloc::Global;

/// Puts copies of names behind others, each with a mark behind it.
fn put_names(
    alloc: Global,
    all: &mut Vec<Vec<u8>>,
    names: &[Name],
    mark: &str,
) -> Result<(), Memory> {
    for name in names {
        let mut bytes = Vec::from_slice(alloc, name.bytes())?;
        bytes.extend_from_slice(mark.as_bytes())?;
        all.push(bytes)?;
    }
    Ok(())
}

/// The names of the parameters and of the loops around a statement.
pub(crate) fn reader_names(
    alloc: Global,
    program: &Program,
    statement: u16,
) -> Result<Vec<Vec<u8>>, Memory> {
    let mut all = Vec::new(alloc);
    let names = names_at(alloc, program, statement)?;
    put_names(alloc, &mut all, names.as_slice(), "")?;
    Ok(all)
}

/// Puts the names of the loops around a statement behind others, each with a mark behind it.
pub fn put_loop_names(
    alloc: Global,
    all: &mut Vec<Vec<u8>>,
    program: &Program,
    statement: u16,
    mark: &str,
) -> Result<(), Memory> {
    let names = names_at(alloc, program, statement)?;
    match names.as_slice().get(program.params().len()..) {
        Some(loops) => put_names(alloc, all, loops, mark),
        None => Ok(()),
    }
}

/// The names of the parameters, and `u1`, `u2` and so on for so many variables of a nest.
pub fn nest_names(alloc: Global, program: &Program, count: usize) -> Result<Vec<Vec<u8>>, Memory> {
    let mut all = Vec::new(alloc);
    put_names(alloc, &mut all, program.params(), "")?;
    for number in 0..count {
        let number = number.saturating_add(1);
        all.push(format!(in alloc; "u{number}")?.into_bytes())?;
    }
    Ok(all)
}
