//! Parameters, assumptions and arrays, in words.

use affine_form::{Memory, Name};
use affine_program::Program;
use plain_pages::Page;

/// Writes names with commas between them, or `none`.
pub(crate) fn write_names(page: &mut Page, names: &[Name]) -> Result<(), Memory> {
    if names.is_empty() {
        page.text("none")?;
    }
    for (number, name) in names.iter().enumerate() {
        if number > 0 {
            page.text(", ")?;
        }
        page.write_bytes(name.bytes())?;
    }
    Ok(())
}

/// Writes the assumptions of a program.
pub(crate) fn write_assumptions(page: &mut Page, program: &Program) -> Result<(), Memory> {
    let names = program.params();
    page.line("assumptions:")?;
    for row in program.assumed().rows() {
        let text = row.text(page.alloc(), names)?;
        page.text("  ")?;
        page.write_bytes(text.as_slice())?;
        page.line(" >= 0")?;
    }
    Ok(())
}

/// Whether a statement of a program writes the array of this number.
fn is_written(program: &Program, array: usize) -> bool {
    for statement in program.statements() {
        if usize::from(statement.writes.array) == array {
            return true;
        }
    }
    false
}

/// Writes the arrays of a program.
pub(crate) fn write_arrays(page: &mut Page, program: &Program) -> Result<(), Memory> {
    page.line("arrays:")?;
    for (number, (name, subscripts)) in program.arrays().iter().enumerate() {
        page.text(format!(in page.alloc(); "  {number} is ")?.as_str())?;
        page.write_bytes(name.bytes())?;
        let use_of = if is_written(program, number) {
            "written"
        } else {
            "only read"
        };
        page.line(format!(in page.alloc(); ", subscripts: {subscripts}, {use_of}")?.as_str())?;
    }
    Ok(())
}
