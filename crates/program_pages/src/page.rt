//! The page of a program.

use crate::arrays::{write_arrays, write_assumptions, write_names};
use crate::places::Places;
use crate::statements::{Source, write_items};
use affine_form::Memory;
use affine_program::Program;
use plain_pages::Page;

/// Writes what a program consists of, which was read from a file of this name with this text: its parameters, its assumptions, its
/// arrays, and its statements with their reads, with the numbers that certificates give them and their places in the text.
pub fn write_program(
    page: &mut Page,
    file: &str,
    text: &[u8],
    program: &Program,
    places: &Places,
) -> Result<(), Memory> {
    let alloc = page.alloc();
    page.line(format!(in alloc; "{file} is read")?.as_str())?;
    page.text("parameters: ")?;
    write_names(page, program.params())?;
    page.line("")?;
    write_assumptions(page, program)?;
    write_arrays(page, program)?;
    page.line("statements:")?;
    let source = Source { text, places };
    write_items(
        alloc,
        page,
        source,
        program,
        program.params(),
        &[],
        program.tree(),
    )
}
