//! Rows about points: that they lie in a domain, touch the cell that is read, and come in an order.

ghost use Rattle.std.specs.Prelude.{◌≡◌, ◌≤◌, ◌<◌, ◌*◌, ◌++◌, length, IfOk};
ghost use Rattle.std.specs.List.{AllByRecursion};
ghost use Rattle.iolb_model.specs.Program.{statement_at};
ghost use Rattle.iolb_model.specs.Order.{common_loops};
ghost use Rattle.affine_form.specs.System.{AllOver};
ghost use Rattle.affine_form.specs.Rows.{equality_rows, put_in, order_rows, IsSmallOver, IsSmallWithin};
ghost use Rattle.affine_program.specs.Domain.{depth_of, domain_rows, domain_size};
ghost use Rattle.affine_program.specs.Parts.{meaning};
ghost use Rattle.dep_quast.specs.Context.{reference_of, variables_at, parameter_point, reader_point};
ghost use Rattle.dep_quast.specs.Truth.{ReadFits};
ghost use Rattle.dep_quast.specs.Views.{read_of};
ghost use Rattle.iolb_model.specs.declared.limits.TheConstants.{VARIABLES};

use crate::reader::{Reader, reference, variables, written};
use affine_form::{Form, Memory, cell_rows, order_rows, variables_from};
use affine_program::Program;
use claims::lists::followed_by;
use std::alloc::Global;

/// The rows which say that loop values of a statement are in its domain.
pub fn domain_rows(
    alloc: Global,
    program: &Program,
    vars: usize,
    statement: u16,
    values: &[Form],
) -> Result<Vec<Form>, Memory>
    requires there { statement < length program.now.statements }
    requires few { vars ≤ VARIABLES }
    requires room { length program.now.params ≤ vars }
    requires one_each { length values.now ≡ depth_of (meaning program.now) statement }
    requires values_over { AllByRecursion (IsSmallOver vars) values.now }
    ensures rows { IfOk result (λ rows. rows.items ≡ domain_rows (meaning program.now) statement vars (parameter_point (meaning program.now) vars) values.now) }
    ensures many { IfOk result (λ rows. length rows.items ≡ domain_size (meaning program.now) statement) }
    ensures over { IfOk result (λ rows. AllOver vars rows.items) }
{
    let params = variables_from(alloc, vars, 0, program.params().len())?;
    let point = followed_by(alloc, params, values)?;
    let rows = program.domain_rows(alloc, vars, statement, point.as_slice())?;
    Ok(rows)
}

/// The rows which say that a statement at these loop values writes the cell that is read.
pub fn written_rows(
    alloc: Global,
    program: &Program,
    reader: Reader,
    vars: usize,
    statement: u16,
    values: &[Form],
) -> Result<Vec<Form>, Memory>
    requires there { statement < length program.now.statements }
    requires read { ReadFits (meaning program.now) (read_of reader) }
    requires one_array { (statement_at (meaning program.now) statement).writes.array ≡ (reference_of (meaning program.now) (read_of reader)).array }
    requires few { vars ≤ VARIABLES }
    requires room { variables_at (meaning program.now) (read_of reader) ≤ vars }
    requires one_each { length values.now ≡ depth_of (meaning program.now) statement }
    requires values_over { AllByRecursion (IsSmallOver vars) values.now }
    ensures rows { IfOk result (λ rows. rows.items ≡ equality_rows vars
        (put_in (parameter_point (meaning program.now) vars ++ values.now) (statement_at (meaning program.now) statement).writes.subscripts)
        (put_in (reader_point (meaning program.now) (read_of reader) vars) (reference_of (meaning program.now) (read_of reader)).subscripts)) }
    ensures many { IfOk result (λ rows. length rows.items ≡ 2 * length (reference_of (meaning program.now) (read_of reader)).subscripts) }
    ensures over { IfOk result (λ rows. AllOver vars rows.items) }
{
    let params = variables_from(alloc, vars, 0, program.params().len())?;
    let at = followed_by(alloc, params, values)?;
    let here = variables_from(alloc, vars, 0, variables(program, reader))?;
    let writes = written(program, statement).subs.as_slice();
    let reads = reference(program, reader).subs.as_slice();
    let rows = cell_rows(alloc, vars, writes, at.as_slice(), reads, here.as_slice())?;
    Ok(rows)
}

/// The rows which say that loop values ys of statement t come before loop values xs of statement s at a level.
pub fn precedence_rows(
    alloc: Global,
    program: &Program,
    vars: usize,
    level: usize,
    t: u16,
    ys: &[Form],
    s: u16,
    xs: &[Form],
) -> Result<Vec<Form>, Memory>
    requires t_there { t < length program.now.statements }
    requires s_there { s < length program.now.statements }
    requires few { vars ≤ VARIABLES }
    requires level_in { level ≤ length (common_loops (meaning program.now) t s) }
    requires ys_each { length ys.now ≡ depth_of (meaning program.now) t }
    requires xs_each { length xs.now ≡ depth_of (meaning program.now) s }
    requires ys_within { AllByRecursion (IsSmallWithin vars) ys.now }
    requires xs_within { AllByRecursion (IsSmallWithin vars) xs.now }
    ensures rows { IfOk result (λ rows. rows.items ≡ order_rows vars (common_loops (meaning program.now) t s) level ys.now xs.now) }
    ensures over { IfOk result (λ rows. AllOver vars rows.items) }
{
    let _params = program.params();
    let down = program.common_down(t, s);
    let rows = order_rows(alloc, vars, down, level, ys, xs)?;
    Ok(rows)
}
