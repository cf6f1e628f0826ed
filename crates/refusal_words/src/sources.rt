//! Sources that write another array.

use affine_form::Memory;
use affine_program::{Program, Reference};
use asked_systems::{behind, index_at, key_at};
use claims::Step;
use dep_quast::{Quast, Quasts};
use plain_pages::Page;

/// The statement that the leaf at a place under a source tree names.
fn named_at(quast: &Quast, steps: &[Step]) -> Option<u16> {
    match quast {
        Quast::Test { yes, no, .. } => {
            let rest = behind(steps, 1);
            if key_at(steps, 0) == Some("yes") {
                named_at(yes, rest)
            } else {
                named_at(no, rest)
            }
        }
        Quast::Source { statement, .. } => Some(*statement),
        _ => None,
    }
}

/// The read of the tree at a place of the source trees, the number of the statement that the leaf there names, and what
/// it writes.
fn references_at<'a>(
    program: &'a Program,
    quasts: &Quasts,
    steps: &[Step],
) -> Option<(&'a Reference, u16, &'a Reference)> {
    let statement = u16::try_from(index_at(steps, 0)?).ok()?;
    let read = u16::try_from(index_at(steps, 1)?).ok()?;
    let source = named_at(quasts.tree(statement, read)?, behind(steps, 2))?;
    let reader = program.statements().get(usize::from(statement))?;
    let writer = program.statements().get(usize::from(source))?;
    Some((reader.reads.get(usize::from(read))?, source, &writer.writes))
}

/// Writes the name of an array.
fn write_array(page: &mut Page, program: &Program, reference: &Reference) -> Result<(), Memory> {
    if let Some((name, _)) = program.arrays().get(usize::from(reference.array)) {
        page.write_bytes(name.bytes())?;
    }
    Ok(())
}

/// Writes which array the source at a place of the source trees writes, and which is read.
pub(crate) fn write_arrays(
    page: &mut Page,
    program: &Program,
    quasts: &Quasts,
    steps: &[Step],
) -> Result<(), Memory> {
    let Some((read, source, written)) = references_at(program, quasts, steps) else {
        return Ok(());
    };
    page.text(format!(in page.alloc(); "statement {source} writes ")?.as_str())?;
    write_array(page, program, written)?;
    page.text("; the read is of ")?;
    write_array(page, program, read)?;
    page.line("")?;
    Ok(())
}
