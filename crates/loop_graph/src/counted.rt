//! Counting turns and instances.

ghost use Rattle.std.specs.Prelude.{◌≡◌, ◌↔◌, ◌+◌, IsTrue, length, IfOk, MatchOption};
ghost use Rattle.std.specs.List.{AllByRecursion};
ghost use Rattle.iolb_model.specs.Program.{AffineProgram, ItemFits, RowFits};
ghost use Rattle.iolb_model.specs.Execution.{item_runs, row_runs, execution};
ghost use Rattle.affine_form.specs.Form.{IsSmall};
ghost use Rattle.affine_program.specs.Tree.{item_of, row_of};
ghost use Rattle.affine_program.specs.Parts.{meaning};
ghost use Rattle.loop_graph.specs.Turns.{item_turns, row_turns, turns as turns_of};
ghost use Rattle.loop_graph.specs.Rooms.{HasRoom, IsLeft, MayBegin};
ghost use Rattle.iolb_model.specs.declared.limits.TheConstants.{VALUE_SIZE};

use crate::guards::are_met;
use crate::listed::put_point;
use crate::values::Values;
use affine_form::Memory;
use affine_program::{Item, Program};
use std::alloc::Global;

/// Room for so many turns and so many instances.
#[derive(Clone, Copy, Debug)]
pub struct Room {
    pub turns: u32,
    pub instances: u32,
}

/// Whether a number is of size below 2^40.
fn is_small(number: i128) -> bool
    ensures { IsTrue result ↔ IsSmall VALUE_SIZE number }
{
    number.unsigned_abs() < 1 << 40
}

/// Whether a loop has room for a turn with each of its values, each of size below 2^40.
fn may_begin(values: Values, room: Room) -> bool
    ensures { IsTrue result ↔ MayBegin values room }
{
    values.upper < values.lower
        || is_small(values.lower)
            && is_small(values.upper)
            && values.upper < values.lower + i128::from(room.turns)
}

/// The room that a turn leaves.
fn behind_turn(room: Room) -> Option<Room>
    ensures { MatchOption result (room.turns ≡ 0) (λ left. record { turns = left.turns + 1; instances = left.instances } ≡ room) }
{
    let turns = room.turns.checked_sub(1)?;
    Some(Room {
        turns,
        instances: room.instances,
    })
}

/// The room that an instance leaves.
fn behind_instance(room: Room) -> Option<Room>
    ensures { MatchOption result (room.instances ≡ 0) (λ left. record { turns = left.turns; instances = left.instances + 1 } ≡ room) }
{
    let instances = room.instances.checked_sub(1)?;
    Some(Room {
        turns: room.turns,
        instances,
    })
}

/// The room that is left, if there was room.
type Left = Result<Option<Room>, Memory>;

/// The room that an item leaves.
#[cycle(count)]
fn behind_item(alloc: Global, item: &Item, point: &[i128], room: Room) -> Left
    requires fits { (program : AffineProgram) × ItemFits program (length point.now) (item_of item.now) }
    requires point { AllByRecursion (IsSmall VALUE_SIZE) point.now }
    ensures { IfOk result (IsLeft (item_turns (item_of item.now) point.now) (length (item_runs (item_of item.now) point.now)) room) }
{
    match item {
        Item::Assign(_) => Ok(behind_instance(room)),
        Item::Loop {
            lower,
            upper,
            down,
            body,
            ..
        } => {
            let lowest = lower.value(point);
            let highest = upper.value(point);
            let mut values = Values {
                lower: lowest,
                upper: highest,
                down: *down,
            };
            if !may_begin(values, room) {
                return Ok(None);
            }
            let mut left = room;
            let mut inner = Vec::new(alloc);
            while let Some(value) = values.next() {
                put_point(&mut inner, point, value)?;
                let Some(entered) = behind_turn(left) else {
                    return Ok(None);
                };
                match behind_row(alloc, body, inner.as_slice(), entered)? {
                    Some(rest) => left = rest,
                    None => return Ok(None),
                }
            }
            Ok(Some(left))
        }
        Item::Guard { rows, body } if are_met(rows, point) => behind_row(alloc, body, point, room),
        Item::Guard { .. } => Ok(Some(room)),
    }
}

/// The room that items in a row leave.
#[cycle(count)]
fn behind_row(alloc: Global, row: &[Item], point: &[i128], room: Room) -> Left
    requires fits { (program : AffineProgram) × RowFits program (length point.now) (row_of row.now) }
    requires point { AllByRecursion (IsSmall VALUE_SIZE) point.now }
    ensures { IfOk result (IsLeft (row_turns (row_of row.now) point.now) (length (row_runs (row_of row.now) point.now)) room) }
{
    let mut left = room;
    for item in row {
        match behind_item(alloc, item, point, left)? {
            Some(rest) => left = rest,
            None => return Ok(None),
        }
    }
    Ok(Some(left))
}

/// Whether there is room for the turns of a program's loops at these parameter values, each of size below 2^40, and for
/// its instances. It is told before more turns are counted than there is room for.
pub fn has_room(
    alloc: Global,
    program: &Program,
    values: &[i128],
    room: Room,
) -> Result<bool, Memory>
    requires all { length values.now ≡ length program.now.params }
    requires small { AllByRecursion (IsSmall VALUE_SIZE) values.now }
    ensures { IfOk result (λ has. IsTrue has ↔ HasRoom (turns_of (meaning program.now) values.now) (length (execution (meaning program.now) values.now)) room) }
{
    let left = behind_row(alloc, program.tree(), values, room)?;
    Ok(left.is_some())
}
