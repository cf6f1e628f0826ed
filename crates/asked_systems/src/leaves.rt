//! Systems of the leaves of source trees.

ghost use Rattle.std.specs.Prelude.{◌≡◌, ◌<◌, length};
ghost use Rattle.std.specs.List.{AllByRecursion};
ghost use Rattle.iolb_model.specs.Program.{statement_at};
ghost use Rattle.affine_form.specs.Rows.{IsSmallOver};
ghost use Rattle.affine_form.specs.System.{AllOver};
ghost use Rattle.affine_program.specs.Domain.{depth_of};
ghost use Rattle.affine_program.specs.Parts.{meaning};
ghost use Rattle.dep_quast.specs.Context.{reference_of, variables_at, variables_with};
ghost use Rattle.dep_quast.specs.Levels.{IsWriter};
ghost use Rattle.dep_quast.specs.Truth.{ReadFits};
ghost use Rattle.dep_quast.specs.Views.{read_of};

use crate::fits::are_over;
use crate::names::{put_loop_names, reader_names};
use crate::steps::{index_at, key_at};
use crate::sums::Sum;
use crate::systems::{Says, Section, System};
use affine_form::{Form, Memory, Multipliers};
use affine_program::Program;
use claims::Step;
use dep_quast::claimed::Claimed;
use dep_quast::context::context_rows;
use dep_quast::levels::{level_count, writers};
use dep_quast::point_rows::{domain_rows, precedence_rows, written_rows};
use dep_quast::reader::{Reader, depth, reference, variables, written};
use dep_quast::writes::{rows_after_source, rows_before_reader, rows_of_write, values_of_reader};
use plain_pages::Page;
use std::alloc::Global;

/// The sections of the rows of a leaf with so many tests on the way.
fn leaf_sections(
    alloc: Global,
    program: &Program,
    reader: Reader,
    tests: usize,
) -> Result<Vec<Section>, Memory>
    requires { reader.statement < length program.now.statements }
{
    let mut all = Vec::new(alloc);
    all.push(Section {
        count: program.assumed().rows().len(),
        says: Says::Assumed,
    })?;
    all.push(Section {
        count: program.domain_size(reader.statement),
        says: Says::Reader,
    })?;
    all.push(Section {
        count: tests,
        says: Says::Test,
    })?;
    Ok(all)
}

/// Writes the system of a leaf with this goal.
fn write_at_leaf(
    page: &mut Page,
    program: &Program,
    reader: Reader,
    tests: &[Form],
    goal: &Sum,
    shown: &Multipliers,
) -> Result<(), Memory>
    requires read { ReadFits (meaning program.now) (read_of reader) }
    requires tests_over { AllOver (variables_at (meaning program.now) (read_of reader)) tests.now }
{
    let alloc = page.alloc();
    let names = reader_names(alloc, program, reader.statement)?;
    let rows = context_rows(alloc, program, reader, tests)?;
    let sections = leaf_sections(alloc, program, reader, tests.len())?;
    let system = System::of(alloc, names, rows.as_slice(), sections.as_slice())?;
    system.write(page, goal, shown)
}

/// Writes the system of an empty leaf, whose goal is -1.
pub(crate) fn write_empty(
    page: &mut Page,
    program: &Program,
    reader: Reader,
    tests: &[Form],
    shown: &Multipliers,
) -> Result<(), Memory>
    requires read { ReadFits (meaning program.now) (read_of reader) }
    requires tests_over { AllOver (variables_at (meaning program.now) (read_of reader)) tests.now }
{
    let goal = Sum::new(page.alloc(), variables(program, reader), -1)?;
    write_at_leaf(page, program, reader, tests, &goal, shown)
}

/// The goals of a list of a source's claim, by its key: that it is an instance, that it writes the cell, or that it comes before the
/// reader; none for another key.
fn goals_of(
    alloc: Global,
    program: &Program,
    reader: Reader,
    claimed: &Claimed<'_>,
    key: &str,
) -> Result<Vec<Form>, Memory>
    requires read { ReadFits (meaning program.now) (read_of reader) }
    requires there { claimed.now.statement < length program.now.statements }
    requires point { length claimed.now.point.now ≡ depth_of (meaning program.now) claimed.now.statement }
    requires forms { AllByRecursion (IsSmallOver (variables_at (meaning program.now) (read_of reader))) claimed.now.point.now }
{
    let vars = variables(program, reader);
    let source = claimed.statement;
    if key == "domain" {
        return domain_rows(alloc, program, vars, source, claimed.point);
    }
    if key == "cell" && written(program, source).array == reference(program, reader).array {
        return written_rows(alloc, program, reader, vars, source, claimed.point);
    }
    let level = usize::from(claimed.level);
    if key == "before" && level <= program.common(source, reader.statement) {
        let values = values_of_reader(alloc, program, reader, vars)?;
        return precedence_rows(
            alloc,
            program,
            vars,
            level,
            source,
            claimed.point,
            reader.statement,
            values.as_slice(),
        );
    }
    Ok(Vec::new(alloc))
}

/// The multipliers of a source's claim in the list with this key; none for another key.
fn shown_of<'a>(claimed: &Claimed<'a>, key: &str) -> &'a [Multipliers] {
    match key {
        "domain" => claimed.domain,
        "cell" => claimed.cell,
        "before" => claimed.before,
        _ => &[],
    }
}

/// Writes the system of the multipliers at a place in a source's claim.
pub(crate) fn write_source(
    page: &mut Page,
    program: &Program,
    reader: Reader,
    tests: &[Form],
    claimed: &Claimed<'_>,
    steps: &[Step],
) -> Result<(), Memory>
    requires read { ReadFits (meaning program.now) (read_of reader) }
    requires tests_over { AllOver (variables_at (meaning program.now) (read_of reader)) tests.now }
{
    let (Some(key), Some(number)) = (key_at(steps, 0), index_at(steps, 1)) else {
        return Ok(());
    };
    if usize::from(claimed.statement) >= program.statements().len()
        || claimed.point.len() != depth(program, claimed.statement)
        || !are_over(variables(program, reader), claimed.point)
    {
        return Ok(());
    }
    if key == "between" {
        return write_between(page, program, reader, tests, claimed, number);
    }
    let goals = goals_of(page.alloc(), program, reader, claimed, key)?;
    match (
        goals.as_slice().get(number),
        shown_of(claimed, key).get(number),
    ) {
        (Some(goal), Some(shown)) => {
            let sum = Sum::of(page.alloc(), variables(program, reader), goal)?;
            write_at_leaf(page, program, reader, tests, &sum, shown)
        }
        _ => Ok(()),
    }
}

/// Writes the system of a write that is claimed not to be, whose goal is -1: the rows, of which those behind the leaf's say that a
/// writer is an instance and writes the cell, so many of them that it comes after the source, and the others that it comes before the
/// reader.
fn write_of_writer(
    page: &mut Page,
    program: &Program,
    reader: Reader,
    tests: usize,
    writer: u16,
    rows: &[Form],
    after: usize,
    shown: &Multipliers,
) -> Result<(), Memory>
    requires read { ReadFits (meaning program.now) (read_of reader) }
    requires writer { writer < length program.now.statements }
{
    let alloc = page.alloc();
    let mut names = reader_names(alloc, program, reader.statement)?;
    put_loop_names(alloc, &mut names, program, writer, "'")?;
    let mut sections = leaf_sections(alloc, program, reader, tests)?;
    sections.push(Section {
        count: program.domain_size(writer),
        says: Says::Writer,
    })?;
    sections.push(Section {
        count: reference(program, reader)
            .subs
            .as_slice()
            .len()
            .saturating_mul(2),
        says: Says::Cell,
    })?;
    sections.push(Section {
        count: after,
        says: Says::After,
    })?;
    sections.push(Section {
        count: rows.len(),
        says: Says::Before,
    })?;
    let goal = Sum::new(alloc, names.len(), -1)?;
    let system = System::of(alloc, names, rows, sections.as_slice())?;
    system.write(page, &goal, shown)
}

/// The writer of an array and the number behind its own, of those that a list goes through, where each writer has so many members.
fn write_input_of(
    page: &mut Page,
    program: &Program,
    reader: Reader,
    tests: &[Form],
    writer: u16,
    level: usize,
    shown: &Multipliers,
) -> Result<(), Memory>
    requires read { ReadFits (meaning program.now) (read_of reader) }
    requires tests_over { AllOver (variables_at (meaning program.now) (read_of reader)) tests.now }
    requires writes { IsWriter (meaning program.now) (reference_of (meaning program.now) (read_of reader)).array writer }
{
    let alloc = page.alloc();
    if level >= level_count(program, writer, reader.statement) {
        return Ok(());
    }
    let leaf = context_rows(alloc, program, reader, tests)?;
    let rows = rows_of_write(alloc, program, reader, leaf.as_slice(), writer)?;
    let all = rows_before_reader(alloc, program, reader, writer, rows.as_slice(), level)?;
    write_of_writer(
        page,
        program,
        reader,
        tests.len(),
        writer,
        all.as_slice(),
        0,
        shown,
    )
}

/// Writes the system of the multipliers at a place in the list of an input.
pub(crate) fn write_input(
    page: &mut Page,
    program: &Program,
    reader: Reader,
    tests: &[Form],
    earlier: &[Multipliers],
    steps: &[Step],
) -> Result<(), Memory>
    requires read { ReadFits (meaning program.now) (read_of reader) }
    requires tests_over { AllOver (variables_at (meaning program.now) (read_of reader)) tests.now }
{
    let Some(number) = index_at(steps, 1) else {
        return Ok(());
    };
    let Some(shown) = earlier.get(number) else {
        return Ok(());
    };
    let mut level = number;
    for writer in writers(page.alloc(), program, reference(program, reader).array)?.as_slice() {
        let many = level_count(program, *writer, reader.statement);
        if level < many {
            return write_input_of(page, program, reader, tests, *writer, level, shown);
        }
        level -= many;
    }
    Ok(())
}

/// Writes the system in which a writer comes after the source and before the reader, each at its level.
fn write_between_of(
    page: &mut Page,
    program: &Program,
    reader: Reader,
    tests: &[Form],
    claimed: &Claimed<'_>,
    writer: u16,
    levels: (usize, usize),
    shown: &Multipliers,
) -> Result<(), Memory>
    requires read { ReadFits (meaning program.now) (read_of reader) }
    requires tests_over { AllOver (variables_at (meaning program.now) (read_of reader)) tests.now }
    requires writes { IsWriter (meaning program.now) (reference_of (meaning program.now) (read_of reader)).array writer }
    requires there { claimed.now.statement < length program.now.statements }
    requires point { length claimed.now.point.now ≡ depth_of (meaning program.now) claimed.now.statement }
    requires forms { AllByRecursion (IsSmallOver (variables_at (meaning program.now) (read_of reader))) claimed.now.point.now }
{
    let alloc = page.alloc();
    let (after, before) = levels;
    if after >= level_count(program, claimed.statement, writer)
        || before >= level_count(program, writer, reader.statement)
    {
        return Ok(());
    }
    let leaf = context_rows(alloc, program, reader, tests)?;
    let rows = rows_of_write(alloc, program, reader, leaf.as_slice(), writer)?;
    let behind = rows_after_source(
        alloc,
        program,
        reader,
        writer,
        rows.as_slice(),
        claimed,
        after,
    )?;
    let all = rows_before_reader(alloc, program, reader, writer, behind.as_slice(), before)?;
    let many = behind.len().saturating_sub(rows.len());
    write_of_writer(
        page,
        program,
        reader,
        tests.len(),
        writer,
        all.as_slice(),
        many,
        shown,
    )
}

/// Writes the system of the multipliers of this number in the list of the writes between a source and the reader.
fn write_between(
    page: &mut Page,
    program: &Program,
    reader: Reader,
    tests: &[Form],
    claimed: &Claimed<'_>,
    number: usize,
) -> Result<(), Memory>
    requires read { ReadFits (meaning program.now) (read_of reader) }
    requires tests_over { AllOver (variables_at (meaning program.now) (read_of reader)) tests.now }
    requires there { claimed.now.statement < length program.now.statements }
    requires point { length claimed.now.point.now ≡ depth_of (meaning program.now) claimed.now.statement }
    requires forms { AllByRecursion (IsSmallOver (variables_at (meaning program.now) (read_of reader))) claimed.now.point.now }
{
    let Some(shown) = claimed.between.get(number) else {
        return Ok(());
    };
    let mut rest = number;
    for writer in writers(page.alloc(), program, reference(program, reader).array)?.as_slice() {
        let after = level_count(program, claimed.statement, *writer);
        let before = level_count(program, *writer, reader.statement);
        let many = after.saturating_mul(before);
        if rest < many {
            let levels = (rest / before, rest % before);
            return write_between_of(
                page, program, reader, tests, claimed, *writer, levels, shown,
            );
        }
        rest -= many;
    }
    Ok(())
}
