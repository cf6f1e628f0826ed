//! Rows of later writes of an output's cell.

ghost use Rattle.std.specs.Prelude.{◌≡◌, ◌<◌, ◌≤◌, ◌+◌, length, IfOk};
ghost use Rattle.std.specs.List.{AllByRecursion};
ghost use Rattle.affine_form.specs.Form.{IsSmallForm, variables as form_variables};
ghost use Rattle.affine_form.specs.Rows.{IsSmallOver, equality_rows};
ghost use Rattle.affine_form.specs.System.{AllOver};
ghost use Rattle.affine_program.specs.Domain.{depth_of};
ghost use Rattle.affine_program.specs.Parts.{meaning};
ghost use Rattle.dep_quast.specs.Levels.{level_count};
ghost use Rattle.iolb_model.specs.declared.limits.TheConstants.{LOOPS, NEST_VARIABLES, PARAMETERS, PUT_SIZE, VARIABLES};
ghost use Rattle.last_writers.specs.OutputClaims.{later_values, later_write, output_variables, variables_with, write_rows, written_forms};
ghost use Rattle.last_writers.specs.Fitting.{OutputFits};
ghost use Rattle.store_terms.specs.Claims.{claim_of_output};

use crate::output_shown::variables;
use affine_form::{Form, Memory, put_all, variables_from};
use affine_program::Program;
use claims::lists::{all_widened, equal_rows, followed_by};
use dep_quast::point_rows::{domain_rows, precedence_rows};
use dep_quast::reader::{depth, written};
use domain_count::rows_before;
use std::alloc::Global;
use store_terms::Output;

/// How many variables there are with the loop values of a later writer.
pub(crate) fn variables_beside(program: &Program, output: &Output, writer: u16) -> usize
    requires fits { OutputFits (meaning program.now) (claim_of_output output.now) }
    requires writer { writer < length program.now.statements }
    ensures variables { result ≡ variables_with (meaning program.now) (claim_of_output output.now) writer }
    ensures few { result ≤ PARAMETERS + NEST_VARIABLES + LOOPS }
{
    variables(program, output) + depth(program, writer)
}

/// The loop values of a later writer, of all variables.
fn values_of_writer(
    alloc: Global,
    program: &Program,
    output: &Output,
    writer: u16,
) -> Result<Vec<Form>, Memory>
    requires fits { OutputFits (meaning program.now) (claim_of_output output.now) }
    requires writer { writer < length program.now.statements }
    ensures forms { IfOk result (λ values. values.items ≡ later_values (meaning program.now) (claim_of_output output.now) writer) }
    ensures many { IfOk result (λ values. length values.items ≡ depth_of (meaning program.now) writer) }
    ensures over { IfOk result (λ values. AllByRecursion (IsSmallOver (variables_with (meaning program.now) (claim_of_output output.now) writer)) values.items) }
{
    let first = variables(program, output);
    let count = depth(program, writer);
    variables_from(alloc, first + count, first, count)
}

/// The cell that an instance of a statement writes, whose loop values are over so many variables.
fn written_at(
    alloc: Global,
    program: &Program,
    vars: usize,
    statement: u16,
    values: &[Form],
) -> Result<Vec<Form>, Memory>
    requires there { statement < length program.now.statements }
    requires few { vars ≤ VARIABLES }
    requires room { length program.now.params ≤ vars }
    requires one_each { length values.now ≡ depth_of (meaning program.now) statement }
    requires values_over { AllByRecursion (IsSmallOver vars) values.now }
    ensures cell { IfOk result (λ forms. forms.items ≡ written_forms (meaning program.now) vars statement values.now) }
    ensures within { IfOk result (λ forms. AllByRecursion (λ form. form_variables form ≤ vars) forms.items) }
    ensures small { IfOk result (λ forms. AllByRecursion (IsSmallForm PUT_SIZE) forms.items) }
{
    let params = variables_from(alloc, vars, 0, program.params().len())?;
    let point = followed_by(alloc, params, values)?;
    let subscripts = written(program, statement).subs.as_slice();
    put_all(alloc, vars, subscripts, point.as_slice())
}

/// The rows which say that a writer writes the output's cell.
fn cell_rows(
    alloc: Global,
    program: &Program,
    output: &Output,
    writer: u16,
    values: &[Form],
) -> Result<Vec<Form>, Memory>
    requires fits { OutputFits (meaning program.now) (claim_of_output output.now) }
    requires writer { writer < length program.now.statements }
    requires one_each { length values.now ≡ depth_of (meaning program.now) writer }
    requires values_over { AllByRecursion (IsSmallOver (variables_with (meaning program.now) (claim_of_output output.now) writer)) values.now }
    ensures rows { IfOk result (λ rows. rows.items ≡ equality_rows (variables_with (meaning program.now) (claim_of_output output.now) writer)
        (written_forms (meaning program.now) (output_variables (meaning program.now) (claim_of_output output.now)) output.now.statement output.now.point.items)
        (written_forms (meaning program.now) (variables_with (meaning program.now) (claim_of_output output.now) writer) writer values.now)) }
    ensures over { IfOk result (λ rows. AllOver (variables_with (meaning program.now) (claim_of_output output.now) writer) rows.items) }
{
    let vars = variables_beside(program, output, writer);
    let first = variables(program, output);
    let point = output.point.as_slice();
    let here = written_at(alloc, program, first, output.statement, point)?;
    let there = written_at(alloc, program, vars, writer, values)?;
    equal_rows(alloc, vars, here.as_slice(), there.as_slice())
}

/// The rows of a write of the cell by another statement: those of the nest's point, the writer's domain, and that the cells are
/// one.
pub(crate) fn rows_of_write(
    alloc: Global,
    program: &Program,
    output: &Output,
    writer: u16,
) -> Result<Vec<Form>, Memory>
    requires fits { OutputFits (meaning program.now) (claim_of_output output.now) }
    requires writer { writer < length program.now.statements }
    ensures rows { IfOk result (λ all. all.items ≡ write_rows (meaning program.now) (claim_of_output output.now) writer) }
    ensures over { IfOk result (λ all. AllOver (variables_with (meaning program.now) (claim_of_output output.now) writer) all.items) }
{
    let vars = variables_beside(program, output, writer);
    let nest = rows_before(alloc, program, output.nest.bounds())?;
    let values = values_of_writer(alloc, program, output, writer)?;
    let wide = all_widened(alloc, vars, nest.rows())?;
    let domain = domain_rows(alloc, program, vars, writer, values.as_slice())?;
    let cell = cell_rows(alloc, program, output, writer, values.as_slice())?;
    let inside = followed_by(alloc, wide, domain.as_slice())?;
    followed_by(alloc, inside, cell.as_slice())
}

/// The rows of a later write at a level: those of the write, and those which say that it comes after the output's instance.
pub(crate) fn rows_later(
    alloc: Global,
    program: &Program,
    output: &Output,
    writer: u16,
    rows: &[Form],
    level: usize,
) -> Result<Vec<Form>, Memory>
    requires fits { OutputFits (meaning program.now) (claim_of_output output.now) }
    requires writer { writer < length program.now.statements }
    requires level_in { level < level_count (meaning program.now) output.now.statement writer }
    requires write { rows.now ≡ write_rows (meaning program.now) (claim_of_output output.now) writer }
    requires rows_over { AllOver (variables_with (meaning program.now) (claim_of_output output.now) writer) rows.now }
    ensures rows { IfOk result (λ all. all.items ≡ (later_write (meaning program.now) (claim_of_output output.now) writer level).rows) }
    ensures over { IfOk result (λ all. AllOver (variables_with (meaning program.now) (claim_of_output output.now) writer) all.items) }
{
    let vars = variables_beside(program, output, writer);
    let values = values_of_writer(alloc, program, output, writer)?;
    let order = precedence_rows(
        alloc,
        program,
        vars,
        level,
        output.statement,
        output.point.as_slice(),
        writer,
        values.as_slice(),
    )?;
    let copies = followed_by(alloc, Vec::new(alloc), rows)?;
    followed_by(alloc, copies, order.as_slice())
}
