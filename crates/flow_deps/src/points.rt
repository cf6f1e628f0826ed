//! Points of writers, which follow from the cell that is read.

ghost use Rattle.std.specs.Prelude.{◌≡◌, ◌≤◌, ◌<◌, ◌+◌, length, slice_index_or, IfOk};
ghost use Rattle.std.specs.List.{AllByRecursion};
ghost use Rattle.iolb_model.specs.Form.{AffineForm};
ghost use Rattle.affine_form.specs.Form.{variables};
ghost use Rattle.affine_form.specs.Rows.{IsSmallOver, direction_of};
ghost use Rattle.affine_program.specs.Domain.{bounds_at, depth_of};
ghost use Rattle.affine_program.specs.Parts.{meaning};
ghost use Rattle.dep_quast.specs.Context.{variables_at};
ghost use Rattle.dep_quast.specs.Truth.{ReadFits};
ghost use Rattle.dep_quast.specs.Views.{read_of};
ghost use Rattle.flow_deps.specs.Candidates.{are_zero, direction_at, is_unit, is_name, last_bound, subscript_for, last_value, loop_value, FindsPoint};
ghost use Rattle.iolb_model.specs.declared.limits.TheConstants.{LOOPS};

use affine_form::{Form, Memory, put, variables_from, widened};
use affine_program::{Program, is_small_form};
use claims::lists::followed_by;
use dep_quast::reader::{Reader, depth, reference, variables, written};
use std::alloc::Global;

/// Whether all numbers are 0.
fn are_zero(numbers: &[i128]) -> bool
    ensures { result ≡ are_zero numbers.now }
{
    match numbers.split_first() {
        Some((first, others)) => *first == 0 && are_zero(others),
        None => true,
    }
}

/// Whether the number at a place is 1, and all others are 0.
fn is_unit(place: usize, numbers: &[i128]) -> bool
    ensures { result ≡ is_unit place numbers.now }
{
    match numbers.split_first() {
        Some((first, others)) => {
            if place == 0 {
                *first == 1 && are_zero(others)
            } else {
                *first == 0 && is_unit(place - 1, others)
            }
        }
        None => false,
    }
}

/// Whether a form is this variable alone.
fn is_name(place: usize, form: &Form) -> bool
    ensures { result ≡ is_name place form.now }
{
    is_unit(place, form.coef()) && form.constant() == 0
}

/// The read subscript at the first place at which the written one is this variable alone.
fn subscript_for(
    alloc: Global,
    place: usize,
    written: &[Form],
    read: &[Form],
) -> Result<Option<Form>, Memory>
    ensures { IfOk result (λ found. found ≡ subscript_for place written.now read.now) }
{
    for (i, subscript) in written.iter().enumerate() {
        if i >= read.len() {
            return Ok(None);
        }
        if is_name(place, subscript) {
            return Ok(Some(read[i].try_clone(alloc)?));
        }
    }
    Ok(None)
}

/// The bounds of a loop around a statement.
pub fn bounds_at(program: &Program, statement: u16, level: usize) -> &(Form, Form)
    requires there { statement < length program.now.statements }
    requires level_in { level < depth_of (meaning program.now) statement }
    ensures lower { IsSmallOver (length program.now.params + level) result.now.0 }
    ensures upper { IsSmallOver (length program.now.params + level) result.now.1 }
    ensures bounds { (none : AffineForm × AffineForm) → slice_index_or (bounds_at (meaning program.now) statement) level none ≡ result.now }
{
    let _params = program.params();
    &program.statements()[usize::from(statement)]
        .bounds
        .as_slice()[level]
}

/// Whether a loop around a statement runs downward.
pub fn runs_down(program: &Program, statement: u16, level: usize) -> bool
    requires { statement < length program.now.statements }
    ensures { direction_of result ≡ direction_at (meaning program.now) statement level }
{
    match program.common_down(statement, statement).get(level) {
        Some(down) => *down,
        None => false,
    }
}

/// The bound at which a loop around a statement ends.
pub(crate) fn last_bound(program: &Program, statement: u16, level: usize) -> &Form
    requires there { statement < length program.now.statements }
    requires level_in { level < depth_of (meaning program.now) statement }
    ensures over { IsSmallOver (length program.now.params + level) result.now }
    ensures bound { (none : AffineForm × AffineForm) → result.now ≡ last_bound (direction_at (meaning program.now) statement level) (slice_index_or (bounds_at (meaning program.now) statement) level none) }
{
    let bounds = bounds_at(program, statement, level);
    if runs_down(program, statement, level) {
        &bounds.0
    } else {
        &bounds.1
    }
}

/// The value of the next loop of a writer: the read subscript at the first place at which the written one is that loop's
/// name alone; and where there is none the bound at which it ends, at the values before it.
fn loop_value(
    alloc: Global,
    program: &Program,
    reader: Reader,
    writer: u16,
    bound: &Form,
    before: &[Form],
) -> Result<Form, Memory>
    requires read { ReadFits (meaning program.now) (read_of reader) }
    requires writer { writer < length program.now.statements }
    requires few { length before.now < depth_of (meaning program.now) writer }
    requires bound { IsSmallOver (length program.now.params + length before.now) bound.now }
    requires before { AllByRecursion (IsSmallOver (variables_at (meaning program.now) (read_of reader))) before.now }
    ensures value { IfOk result (λ value. value ≡ loop_value (meaning program.now) (read_of reader) writer bound.now before.now) }
    ensures over { IfOk result (λ value. variables value ≡ variables_at (meaning program.now) (read_of reader)) }
{
    let params = program.params().len();
    let writes = written(program, writer).subs.as_slice();
    let reads = reference(program, reader).subs.as_slice();
    if let Some(value) = subscript_for(alloc, params + before.len(), writes, reads)? {
        return Ok(value);
    }
    last_value(alloc, program, reader, bound, before)
}

/// The last value of a writer's next loop: the bound at which it ends, at the values before it.
pub(crate) fn last_value(
    alloc: Global,
    program: &Program,
    reader: Reader,
    bound: &Form,
    before: &[Form],
) -> Result<Form, Memory>
    requires read { ReadFits (meaning program.now) (read_of reader) }
    requires few { length before.now ≤ LOOPS }
    requires bound { IsSmallOver (length program.now.params + length before.now) bound.now }
    requires before { AllByRecursion (IsSmallOver (variables_at (meaning program.now) (read_of reader))) before.now }
    ensures value { IfOk result (λ value. value ≡ last_value (meaning program.now) (read_of reader) bound.now before.now) }
    ensures over { IfOk result (λ value. variables value ≡ variables_at (meaning program.now) (read_of reader)) }
{
    let vars = variables(program, reader);
    let known = variables_from(alloc, vars, 0, program.params().len())?;
    let point = followed_by(alloc, known, before)?;
    let last = put(alloc, vars, bound, point.as_slice())?;
    widened(alloc, vars, &last)
}

/// The point of a writer whose first loops have the values that are given. None only where some value is too large.
pub(crate) fn point_from(
    alloc: Global,
    program: &Program,
    reader: Reader,
    writer: u16,
    given: Vec<Form>,
) -> Result<Option<Vec<Form>>, Memory>
    requires read { ReadFits (meaning program.now) (read_of reader) }
    requires writer { writer < length program.now.statements }
    requires few { length given.items ≤ depth_of (meaning program.now) writer }
    requires given { AllByRecursion (IsSmallOver (variables_at (meaning program.now) (read_of reader))) given.items }
    ensures { IfOk result (λ found. FindsPoint (meaning program.now) (read_of reader) writer given.items found) }
{
    let mut values = given;
    for level in values.len()..depth(program, writer) {
        let bound = last_bound(program, writer, level);
        let value = loop_value(alloc, program, reader, writer, bound, values.as_slice())?;
        if !is_small_form(&value) {
            return Ok(None);
        }
        values.push(value)?;
    }
    Ok(Some(values))
}
