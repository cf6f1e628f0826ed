//! Statements and their reads, in words.

ghost use Rattle.std.specs.Prelude.{length, map};
ghost use Rattle.std.specs.List.{AllByRecursion};
ghost use Rattle.iolb_model.specs.Program.{AccessFits, IsOver, ItemFits, RowFits, StatementFits};
ghost use Rattle.affine_program.specs.Parts.{access_of, meaning};
ghost use Rattle.affine_program.specs.Tree.{item_of, row_of};

use crate::places::Places;
use crate::references::write_reference;
use affine_form::{Form, Memory, Name};
use affine_program::{Item, Program, Reference, with_name};
use plain_pages::{Page, position_of};
use std::alloc::Global;

/// A program's text, and where its loops and references stand in it.
#[derive(Clone, Copy)]
pub(crate) struct Source<'a> {
    pub(crate) text: &'a [u8],
    pub(crate) places: &'a Places,
}

/// Writes ` at LINE:COLUMN`, where a place is known.
fn write_place(page: &mut Page, text: &[u8], place: Option<usize>) -> Result<(), Memory> {
    if let Some(place) = place {
        let position = position_of(text, place);
        let (line, column) = (position.line, position.column);
        page.text(format!(in page.alloc(); " at {line}:{column}")?.as_str())?;
    }
    Ok(())
}

impl Source<'_> {
    /// The place of the reference that a statement writes.
    fn written_at(&self, number: usize) -> Option<usize> {
        Some(self.places.statements.as_slice().get(number)?.writes)
    }

    /// The place of a read of a statement.
    fn read_at(&self, number: usize, read: usize) -> Option<usize> {
        let statement = self.places.statements.as_slice().get(number)?;
        statement.reads.as_slice().get(read).copied()
    }
}

/// Writes the reads of the statement of this number, each on a line.
fn write_reads(
    page: &mut Page,
    source: Source<'_>,
    program: &Program,
    names: &[Name],
    number: usize,
    reads: &[Reference],
) -> Result<(), Memory>
    requires { AllByRecursion (AccessFits (meaning program.now) (length names.now)) (map access_of reads.now) }
{
    for (read, reference) in reads.iter().enumerate() {
        page.text(format!(in page.alloc(); "    read {read}")?.as_str())?;
        write_place(page, source.text, source.read_at(number, read))?;
        page.text(" is ")?;
        write_reference(page, program, names, reference)?;
        page.line("")?;
    }
    Ok(())
}

/// Writes the names of loops with commas between them, and which run downward, or `none`.
fn write_loops(page: &mut Page, names: &[Name], down: &[bool]) -> Result<(), Memory> {
    if names.is_empty() {
        page.text("none")?;
    }
    for (number, (name, falls)) in names.iter().zip(down.iter()).enumerate() {
        if number > 0 {
            page.text(", ")?;
        }
        page.write_bytes(name.bytes())?;
        if *falls {
            page.text(" downward")?;
        }
    }
    Ok(())
}

/// Writes the rows of guards, each on a line.
fn write_guards(page: &mut Page, guards: &[Vec<u8>]) -> Result<(), Memory> {
    for text in guards {
        page.text("    where ")?;
        page.write_bytes(text.as_slice())?;
        page.line(" >= 0")?;
    }
    Ok(())
}

/// Copies of texts.
fn copied(alloc: Global, texts: &[Vec<u8>]) -> Result<Vec<Vec<u8>>, Memory> {
    let mut all = Vec::new(alloc);
    for text in texts {
        all.push(Vec::from_slice(alloc, text.as_slice())?)?;
    }
    Ok(all)
}

/// The texts of the rows of guards, and those of one more.
fn with_guard(
    alloc: Global,
    guards: &[Vec<u8>],
    names: &[Name],
    rows: &[Form],
) -> Result<Vec<Vec<u8>>, Memory>
    requires { AllByRecursion (IsOver (length names.now)) rows.now }
{
    let mut all = copied(alloc, guards)?;
    for row in rows {
        all.push(row.text(alloc, names)?)?;
    }
    Ok(all)
}

/// Writes the statement of this number, with the rows of the guards round it and its reads.
fn write_statement(
    page: &mut Page,
    source: Source<'_>,
    program: &Program,
    names: &[Name],
    guards: &[Vec<u8>],
    number: u16,
) -> Result<(), Memory>
    requires { StatementFits (meaning program.now) (length names.now) number }
{
    let number = usize::from(number);
    let statement = &program.statements()[number];
    page.text(format!(in page.alloc(); "  {number}")?.as_str())?;
    write_place(page, source.text, source.written_at(number))?;
    page.text(" writes ")?;
    write_reference(page, program, names, &statement.writes)?;
    page.text(", loops: ")?;
    let loops = names.get(program.params().len()..).unwrap_or(&[]);
    write_loops(page, loops, statement.down.as_slice())?;
    page.line("")?;
    write_guards(page, guards)?;
    write_reads(
        page,
        source,
        program,
        names,
        number,
        statement.reads.as_slice(),
    )
}

/// Writes the statements of items in a row, round which are guards whose rows have these texts.
#[cycle(walk)]
pub(crate) fn write_items(
    alloc: Global,
    page: &mut Page,
    source: Source<'_>,
    program: &Program,
    names: &[Name],
    guards: &[Vec<u8>],
    items: &[Item],
) -> Result<(), Memory>
    requires { RowFits (meaning program.now) (length names.now) (row_of items.now) }
{
    for item in items {
        write_item(alloc, page, source, program, names, guards, item)?;
    }
    Ok(())
}

/// Writes the statements of an item.
#[cycle(walk)]
fn write_item(
    alloc: Global,
    page: &mut Page,
    source: Source<'_>,
    program: &Program,
    names: &[Name],
    guards: &[Vec<u8>],
    item: &Item,
) -> Result<(), Memory>
    requires { ItemFits (meaning program.now) (length names.now) (item_of item.now) }
{
    match item {
        Item::Assign(number) => write_statement(page, source, program, names, guards, *number),
        Item::Loop { name, body, .. } => {
            let inner = with_name(alloc, names, name)?;
            write_items(alloc, page, source, program, inner.as_slice(), guards, body)
        }
        Item::Guard { rows, body } => {
            let inner = with_guard(alloc, guards, names, rows)?;
            write_items(alloc, page, source, program, names, inner.as_slice(), body)
        }
    }
}
