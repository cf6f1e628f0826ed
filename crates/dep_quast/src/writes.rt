//! Rows of writes of the cell that is read.

ghost use Rattle.std.specs.Prelude.{◌≡◌, ◌<◌, ◌≤◌, length, IfOk, ◌+◌, ◌++◌};
ghost use Rattle.std.specs.List.{AllByRecursion};
ghost use Rattle.affine_form.specs.System.{AllOver};
ghost use Rattle.affine_form.specs.Rows.{IsSmallOver};
ghost use Rattle.affine_program.specs.Domain.{depth_of};
ghost use Rattle.affine_program.specs.Parts.{meaning};
ghost use Rattle.dep_quast.specs.Context.{reference_of, variables_at, variables_with, reader_values, writer_values, write_rows, before_reader, after_source};
ghost use Rattle.dep_quast.specs.Levels.{IsWriter, level_count};
ghost use Rattle.dep_quast.specs.Truth.{ReadFits};
ghost use Rattle.dep_quast.specs.Views.{read_of, claim_of};
ghost use Rattle.iolb_model.specs.declared.limits.TheConstants.{VARIABLES, LOOPS, PARAMETERS};

use crate::claimed::Claimed;
use crate::point_rows::{domain_rows, precedence_rows, written_rows};
use crate::reader::{Reader, depth, variables};
use affine_form::{Form, Memory, variables_from};
use affine_program::Program;
use claims::lists::{all_widened, followed_by};
use std::alloc::Global;

/// How many variables there are with a writer's.
pub fn variables_beside(program: &Program, reader: Reader, writer: u16) -> usize
    requires read { reader.statement < length program.now.statements }
    requires writer { writer < length program.now.statements }
    ensures variables { result ≡ variables_with (meaning program.now) (read_of reader) writer }
    ensures few { result ≤ PARAMETERS + LOOPS + LOOPS }
{
    variables(program, reader) + depth(program, writer)
}

/// The loop values of a writer, of all variables.
fn values_of_writer(
    alloc: Global,
    program: &Program,
    reader: Reader,
    writer: u16,
) -> Result<Vec<Form>, Memory>
    requires read { reader.statement < length program.now.statements }
    requires writer { writer < length program.now.statements }
    ensures forms { IfOk result (λ values. values.items ≡ writer_values (meaning program.now) (read_of reader) writer (variables_with (meaning program.now) (read_of reader) writer)) }
    ensures many { IfOk result (λ values. length values.items ≡ depth_of (meaning program.now) writer) }
    ensures over { IfOk result (λ values. AllByRecursion (IsSmallOver (variables_with (meaning program.now) (read_of reader) writer)) values.items) }
{
    let first = variables(program, reader);
    let count = depth(program, writer);
    variables_from(alloc, first + count, first, count)
}

/// The loop values of the reader, of so many variables.
pub fn values_of_reader(
    alloc: Global,
    program: &Program,
    reader: Reader,
    vars: usize,
) -> Result<Vec<Form>, Memory>
    requires read { reader.statement < length program.now.statements }
    requires few { vars ≤ VARIABLES }
    requires room { variables_at (meaning program.now) (read_of reader) ≤ vars }
    ensures forms { IfOk result (λ values. values.items ≡ reader_values (meaning program.now) (read_of reader) vars) }
    ensures many { IfOk result (λ values. length values.items ≡ depth_of (meaning program.now) reader.statement) }
    ensures over { IfOk result (λ values. AllByRecursion (IsSmallOver vars) values.items) }
{
    let first = program.params().len();
    let count = depth(program, reader.statement);
    variables_from(alloc, vars, first, count)
}

/// The rows of a write of the cell by another statement: those given, the writer's domain, and that the cells are one.
pub fn rows_of_write(
    alloc: Global,
    program: &Program,
    reader: Reader,
    rows: &[Form],
    writer: u16,
) -> Result<Vec<Form>, Memory>
    requires read { ReadFits (meaning program.now) (read_of reader) }
    requires writes { IsWriter (meaning program.now) (reference_of (meaning program.now) (read_of reader)).array writer }
    requires rows_over { AllOver (variables_at (meaning program.now) (read_of reader)) rows.now }
    ensures rows { IfOk result (λ all. all.items ≡ write_rows (meaning program.now) (read_of reader) rows.now writer) }
    ensures over { IfOk result (λ all. AllOver (variables_with (meaning program.now) (read_of reader) writer) all.items) }
{
    let vars = variables_beside(program, reader, writer);
    let values = values_of_writer(alloc, program, reader, writer)?;
    let wide = all_widened(alloc, vars, rows)?;
    let domain = domain_rows(alloc, program, vars, writer, values.as_slice())?;
    let cell = written_rows(alloc, program, reader, vars, writer, values.as_slice())?;
    let inside = followed_by(alloc, wide, domain.as_slice())?;
    followed_by(alloc, inside, cell.as_slice())
}

/// The rows of the system of rows about a writer, with those which say that it comes before the reader at a level.
pub fn rows_before_reader(
    alloc: Global,
    program: &Program,
    reader: Reader,
    writer: u16,
    rows: &[Form],
    level: usize,
) -> Result<Vec<Form>, Memory>
    requires read { reader.statement < length program.now.statements }
    requires writer { writer < length program.now.statements }
    requires level_in { level < level_count (meaning program.now) writer reader.statement }
    requires rows_over { AllOver (variables_with (meaning program.now) (read_of reader) writer) rows.now }
    ensures rows { IfOk result (λ all. all.items ≡ (before_reader (meaning program.now) (read_of reader) writer rows.now level).rows) }
    ensures over { IfOk result (λ all. AllOver (variables_with (meaning program.now) (read_of reader) writer) all.items) }
{
    let vars = variables_beside(program, reader, writer);
    let zs = values_of_writer(alloc, program, reader, writer)?;
    let xs = values_of_reader(alloc, program, reader, vars)?;
    let order = precedence_rows(
        alloc,
        program,
        vars,
        level,
        writer,
        zs.as_slice(),
        reader.statement,
        xs.as_slice(),
    )?;
    joined(alloc, rows, order.as_slice())
}

/// Rows about a writer, and those which say that it comes after the source at a level.
pub fn rows_after_source(
    alloc: Global,
    program: &Program,
    reader: Reader,
    writer: u16,
    rows: &[Form],
    claimed: &Claimed,
    level: usize,
) -> Result<Vec<Form>, Memory>
    requires read { reader.statement < length program.now.statements }
    requires writer { writer < length program.now.statements }
    requires source { claimed.now.statement < length program.now.statements }
    requires point { length claimed.now.point.now ≡ depth_of (meaning program.now) claimed.now.statement }
    requires forms { AllByRecursion (IsSmallOver (variables_at (meaning program.now) (read_of reader))) claimed.now.point.now }
    requires level_in { level < level_count (meaning program.now) claimed.now.statement writer }
    requires rows_over { AllOver (variables_with (meaning program.now) (read_of reader) writer) rows.now }
    ensures rows { IfOk result (λ all. all.items ≡ after_source (meaning program.now) (read_of reader) writer rows.now (claim_of claimed.now) level) }
    ensures over { IfOk result (λ all. AllOver (variables_with (meaning program.now) (read_of reader) writer) all.items) }
{
    let vars = variables_beside(program, reader, writer);
    let zs = values_of_writer(alloc, program, reader, writer)?;
    let order = precedence_rows(
        alloc,
        program,
        vars,
        level,
        claimed.statement,
        claimed.point,
        writer,
        zs.as_slice(),
    )?;
    joined(alloc, rows, order.as_slice())
}

/// Copies of forms, and then of others.
fn joined(alloc: Global, forms: &[Form], more: &[Form]) -> Result<Vec<Form>, Memory>
    ensures { IfOk result (λ all. all.items ≡ forms.now ++ more.now) }
{
    let copies = followed_by(alloc, Vec::new(alloc), forms)?;
    followed_by(alloc, copies, more)
}
