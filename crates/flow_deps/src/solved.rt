//! Points of origins, solved from the cell that is read.

ghost use Rattle.std.specs.Prelude.{◌≡◌, ◌≤◌, ◌<◌, length, IfOk, IfSome};
ghost use Rattle.std.specs.List.{AllByRecursion};
ghost use Rattle.affine_form.specs.Form.{variables};
ghost use Rattle.affine_form.specs.Rows.{IsSmallOver};
ghost use Rattle.affine_program.specs.Domain.{depth_of};
ghost use Rattle.affine_program.specs.Parts.{meaning};
ghost use Rattle.dep_quast.specs.Context.{reference_of, variables_at};
ghost use Rattle.dep_quast.specs.Levels.{IsWriter};
ghost use Rattle.dep_quast.specs.Truth.{ReadFits};
ghost use Rattle.dep_quast.specs.Views.{read_of};
ghost use Rattle.flow_deps.specs.Origins.{OriginFits};
ghost use Rattle.iolb_model.specs.declared.limits.TheConstants.{VARIABLES};

use crate::origins::Origin;
use crate::planted::{first_values, turn_before};
use crate::points::{last_bound, last_value, runs_down};
use affine_form::{Form, Memory, difference};
use affine_program::{Program, is_small_form};
use claims::lists::followed_by;
use dep_quast::point_rows::{domain_rows, written_rows};
use dep_quast::reader::{Reader, depth, variables, written};
use std::alloc::Global;

/// 1 or -1 where that is a form's coefficient at a variable and all later ones are 0; else 0.
fn sign_at(form: &Form, place: usize) -> i128 {
    let mut sign = 0;
    for (variable, coefficient) in form.coef().iter().enumerate() {
        if variable == place && (*coefficient == 1 || *coefficient == -1) {
            sign = *coefficient;
        } else if variable >= place && *coefficient != 0 {
            return 0;
        }
    }
    sign
}

/// The form over so many variables that is 0 everywhere.
fn zero(alloc: Global, vars: usize) -> Result<Form, Memory>
    requires { vars ≤ VARIABLES }
    ensures { IfOk result (λ form. IsSmallOver vars form) }
{
    let coef = vec![in alloc; 0; vars]?;
    Ok(Form::new(coef, 0))
}

/// These values, and 0 for each later loop of a writer.
fn padded(
    alloc: Global,
    program: &Program,
    reader: Reader,
    writer: u16,
    before: &[Form],
) -> Result<Vec<Form>, Memory>
    requires read { ReadFits (meaning program.now) (read_of reader) }
    requires writer { writer < length program.now.statements }
    requires few { length before.now ≤ depth_of (meaning program.now) writer }
    requires before { AllByRecursion (IsSmallOver (variables_at (meaning program.now) (read_of reader))) before.now }
    ensures over { IfOk result (λ values. AllByRecursion (IsSmallOver (variables_at (meaning program.now) (read_of reader))) values.items) }
    ensures many { IfOk result (λ values. length values.items ≡ depth_of (meaning program.now) writer) }
{
    let vars = variables(program, reader);
    let mut values = followed_by(alloc, Vec::new(alloc), before)?;
    for _later in before.len()..depth(program, writer) {
        values.push(zero(alloc, vars)?)?;
    }
    Ok(values)
}

/// The value of a writer's next loop, solved from a subscript in which it stands alone among the loops that aren't known:
/// with 0 for all of these the written subscript less the read one, or the read one less the written one.
fn solved_loop(
    alloc: Global,
    program: &Program,
    reader: Reader,
    writer: u16,
    before: &[Form],
) -> Result<Option<Form>, Memory>
    requires read { ReadFits (meaning program.now) (read_of reader) }
    requires writes { IsWriter (meaning program.now) (reference_of (meaning program.now) (read_of reader)).array writer }
    requires few { length before.now < depth_of (meaning program.now) writer }
    requires before { AllByRecursion (IsSmallOver (variables_at (meaning program.now) (read_of reader))) before.now }
    ensures { IfOk result (λ found. IfSome found (λ value. variables value ≡ variables_at (meaning program.now) (read_of reader))) }
{
    let vars = variables(program, reader);
    let place = program.params().len() + before.len();
    let values = padded(alloc, program, reader, writer, before)?;
    let rows = written_rows(alloc, program, reader, vars, writer, values.as_slice())?;
    let subscripts = written(program, writer).subs.as_slice();
    for row in 0..rows.len() {
        let sign = match subscripts.get(row / 2) {
            Some(subscript) => sign_at(subscript, place),
            None => 0,
        };
        let solves = if row % 2 == 0 { sign < 0 } else { sign > 0 };
        if solves {
            return Ok(Some(rows.as_slice()[row].try_clone(alloc)?));
        }
    }
    Ok(None)
}

/// What a row says of a variable that has coefficient 1 or -1 in it, where 0 stands for the variable: what it is at least, or
/// at most. None where that is too large.
fn limit_of(alloc: Global, vars: usize, sign: i128, row: &Form) -> Result<Option<Form>, Memory>
    requires few { vars ≤ VARIABLES }
    requires over { variables row.now ≡ vars }
    ensures { IfOk result (λ found. IfSome found (λ value. variables value ≡ vars)) }
{
    if !is_small_form(row) {
        return Ok(None);
    }
    if sign < 0 {
        return Ok(Some(row.try_clone(alloc)?));
    }
    let zero = Form::new(Vec::new(alloc), 0);
    Ok(Some(difference(alloc, vars, &zero, row, 0)?))
}

/// The last value of a writer's next loop by the first guard that says what it is at most, or at least where the loop runs
/// downward, by the loops around it.
fn guarded_last(
    alloc: Global,
    program: &Program,
    reader: Reader,
    writer: u16,
    before: &[Form],
) -> Result<Option<Form>, Memory>
    requires read { ReadFits (meaning program.now) (read_of reader) }
    requires writer { writer < length program.now.statements }
    requires few { length before.now < depth_of (meaning program.now) writer }
    requires before { AllByRecursion (IsSmallOver (variables_at (meaning program.now) (read_of reader))) before.now }
    ensures { IfOk result (λ found. IfSome found (λ value. variables value ≡ variables_at (meaning program.now) (read_of reader))) }
{
    let vars = variables(program, reader);
    let place = program.params().len() + before.len();
    let wanted = if runs_down(program, writer, before.len()) {
        1
    } else {
        -1
    };
    let values = padded(alloc, program, reader, writer, before)?;
    let rows = domain_rows(alloc, program, vars, writer, values.as_slice())?;
    let guards = program.statements()[usize::from(writer)].guards.as_slice();
    let first = rows.len().saturating_sub(guards.len());
    for number in first..rows.len() {
        let sign = match guards.get(number - first) {
            Some(guard) => sign_at(guard, place),
            None => 0,
        };
        if sign == wanted {
            return limit_of(alloc, vars, sign, &rows.as_slice()[number]);
        }
    }
    Ok(None)
}

/// The value of an origin's next loop: solved where it can be; else one turn before the reader's in the loop behind the
/// level; else its last value, by a guard or by its bound.
fn next_value(
    alloc: Global,
    program: &Program,
    reader: Reader,
    origin: Origin,
    before: &[Form],
) -> Result<Form, Memory>
    requires read { ReadFits (meaning program.now) (read_of reader) }
    requires origin { OriginFits (meaning program.now) (read_of reader) origin }
    requires few { length before.now < depth_of (meaning program.now) origin.writer }
    requires before { AllByRecursion (IsSmallOver (variables_at (meaning program.now) (read_of reader))) before.now }
    ensures { IfOk result (λ value. variables value ≡ variables_at (meaning program.now) (read_of reader)) }
{
    let _params = program.params();
    if let Some(value) = solved_loop(alloc, program, reader, origin.writer, before)? {
        return Ok(value);
    }
    let level = usize::from(origin.level);
    let common = program.common(origin.writer, reader.statement);
    if level < common && before.len() == level {
        return turn_before(alloc, program, reader, level);
    }
    if let Some(value) = guarded_last(alloc, program, reader, origin.writer, before)? {
        return Ok(value);
    }
    let bound = last_bound(program, origin.writer, before.len());
    last_value(alloc, program, reader, bound, before)
}

/// The point of an origin: the reader's values in the loops before its level, and then loop by loop. None where some value
/// is too large.
pub(crate) fn solved_point(
    alloc: Global,
    program: &Program,
    reader: Reader,
    origin: Origin,
) -> Result<Option<Vec<Form>>, Memory>
    requires read { ReadFits (meaning program.now) (read_of reader) }
    requires origin { OriginFits (meaning program.now) (read_of reader) origin }
    ensures { IfOk result (λ found. IfSome found (λ point. (length point.items ≡ depth_of (meaning program.now) origin.writer)
        × AllByRecursion (IsSmallOver (variables_at (meaning program.now) (read_of reader))) point.items)) }
{
    let _params = program.params();
    let mut values = first_values(alloc, program, reader, usize::from(origin.level))?;
    for _level in values.len()..depth(program, origin.writer) {
        let value = next_value(alloc, program, reader, origin, values.as_slice())?;
        if !is_small_form(&value) {
            return Ok(None);
        }
        values.push(value)?;
    }
    Ok(Some(values))
}
