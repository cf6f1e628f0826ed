//! Loop values one turn before.

ghost use Rattle.std.specs.Prelude.{◌≡◌, ◌≤◌, ◌+◌, ◌<◌, length, negsuc, IfOk};
ghost use Rattle.std.specs.List.{AllByRecursion};
ghost use Rattle.affine_form.specs.Form.{variables};
ghost use Rattle.affine_form.specs.Rows.{IsSmallOver};
ghost use Rattle.affine_program.specs.Domain.{depth_of};
ghost use Rattle.affine_program.specs.Parts.{meaning};
ghost use Rattle.projective.specs.Turns.{is_kept, later_turn, turn_before, turn_value, width};

use crate::forms::one_less;
use crate::standing::is_in;
use affine_form::{Form, Memory, variable, widened};
use affine_program::Program;
use dep_quast::reader::{depth, written};
use std::alloc::Global;

/// Whether a loop stands in the reference that the statement writes.
pub fn is_kept(program: &Program, level: usize) -> bool
    requires some { 0 < length program.now.statements }
    requires there { level < depth_of (meaning program.now) 0 }
    ensures { result ≡ is_kept (meaning program.now) level }
{
    is_in(program.params().len() + level, written(program, 0))
}

/// The form that is at least 0 where a loop isn't in its first turn: its value less 1.
pub fn later_turn(alloc: Global, program: &Program, level: usize) -> Result<Form, Memory>
    requires some { 0 < length program.now.statements }
    requires there { level < depth_of (meaning program.now) 0 }
    ensures { IfOk result (λ form. form ≡ later_turn (meaning program.now) level) }
{
    let params = program.params().len();
    one_less(alloc, params + depth(program, 0), params + level)
}

/// The value of the loop at a place one turn of a loop before, where this is its upper bound.
fn turn_value(
    alloc: Global,
    program: &Program,
    level: usize,
    place: usize,
    upper: &Form,
) -> Result<Form, Memory>
    requires some { 0 < length program.now.statements }
    requires there { place < depth_of (meaning program.now) 0 }
    requires within { variables upper.now ≤ width (meaning program.now) }
    ensures { IfOk result (λ form. form ≡ turn_value (meaning program.now) level place upper.now) }
{
    let params = program.params().len();
    let vars = params + depth(program, 0);
    if place == level {
        return one_less(alloc, vars, params + place);
    }
    if place < level || is_kept(program, place) {
        return variable(alloc, vars, params + place);
    }
    widened(alloc, vars, upper)
}

/// The loop values of the last write of the cell one turn of a loop before: those before the loop and those that stand in the
/// reference are the reader's, the loop's is 1 less, and each other is its last.
pub fn turn_before(alloc: Global, program: &Program, level: usize) -> Result<Vec<Form>, Memory>
    requires some { 0 < length program.now.statements }
    ensures { IfOk result (λ point. point.items ≡ turn_before (meaning program.now) level) }
{
    let mut point = Vec::new(alloc);
    for (place, bounds) in program.statements()[0].bounds.iter().enumerate() {
        point.push(turn_value(alloc, program, level, place, &bounds.1)?)?;
    }
    Ok(point)
}
