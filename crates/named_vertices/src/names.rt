//! Vertices in words.

use crate::vertices::Named;
use affine_form::{Memory, Name};
use affine_program::Program;
use plain_pages::Page;
use program_pages::names_at;

/// Writes the values of loops, each behind its name.
fn write_loops(page: &mut Page, names: &[Name], values: &[i128]) -> Result<(), Memory> {
    for (place, value) in values.iter().enumerate() {
        page.text(if place == 0 { " at " } else { ", " })?;
        if let Some(name) = names.get(place) {
            page.write_bytes(name.bytes())?;
            page.text(" = ")?;
        }
        page.text(format!(in page.alloc(); "{value}")?.as_str())?;
    }
    Ok(())
}

/// Writes subscripts in brackets.
fn write_subscripts(page: &mut Page, values: &[i128]) -> Result<(), Memory> {
    for value in values {
        page.text(format!(in page.alloc(); "[{value}]")?.as_str())?;
    }
    Ok(())
}

/// Writes what a vertex is: `statement 0 at t = 1, i = 3`, or `the input A[3]`.
pub fn write_named(page: &mut Page, program: &Program, named: &Named) -> Result<(), Memory> {
    let alloc = page.alloc();
    match named {
        Named::Instance { statement, loops } => {
            page.text(format!(in alloc; "statement {statement}")?.as_str())?;
            let names = names_at(alloc, program, *statement)?;
            match names.as_slice().get(program.params().len()..) {
                Some(around) => write_loops(page, around, loops.as_slice()),
                None => write_loops(page, &[], loops.as_slice()),
            }
        }
        Named::Input { array, subscripts } => {
            page.text("the input ")?;
            if let Some((name, _)) = program.arrays().get(usize::from(*array)) {
                page.write_bytes(name.bytes())?;
            }
            write_subscripts(page, subscripts.as_slice())
        }
    }
}
