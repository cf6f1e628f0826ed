//! Computation graphs.

ghost use Rattle.std.specs.Prelude.{◌≡◌, length};
ghost use Rattle.std.specs.List.{AllByRecursion};
ghost use Rattle.affine_form.specs.Form.{IsSmall};
ghost use Rattle.affine_program.specs.Parts.{meaning};
ghost use Rattle.loop_graph.specs.Builds.{Builds};
ghost use Rattle.iolb_model.specs.declared.limits.TheConstants.{VALUE_SIZE};

use crate::counted::{Room, has_room};
use crate::fault::GraphFault;
use crate::limits;
use crate::listed::{runs, values_of};
use crate::predecessors::{Found, gathered};
use affine_program::{Program, first_unmet};
use pebble_game::Graph;
use std::alloc::Global;

/// The computation graph of a program at values for its parameters.
fn graph_at(alloc: Global, program: &Program, values: &[i128]) -> Result<Graph, GraphFault>
    requires each { length values.now ≡ length program.now.params }
    requires small { AllByRecursion (IsSmall VALUE_SIZE) values.now }
    ensures { Builds (meaning program.now) values.now result }
{
    if let Some(number) = first_unmet(program.assumed().rows(), values) {
        return Err(GraphFault::OutsideAssumption(number));
    }
    let room = Room {
        turns: limits::TURNS,
        instances: limits::VERTICES,
    };
    if !has_room(alloc, program, values, room)? {
        return Err(GraphFault::TooMany);
    }
    let runs = runs(alloc, program, values)?;
    let Some(found) = gathered(alloc, program, runs.as_slice())? else {
        return Err(GraphFault::TooMany);
    };
    let Found {
        inputs,
        preds,
        last,
    } = found;
    Ok(Graph::new(runs.as_slice().len() as u32, inputs, preds, last))
}

/// The computation graph of a program at sizes for its parameters.
///
/// # Errors
///
/// `OutsideAssumption` names the first assumption that is false at the sizes. `TooMany` comes where all are true, exactly
/// where there are more than 2^21 vertices, or all loops together enter their bodies more than 2^24 times, or a loop enters
/// its body with a value of size 2^40 or more; it is told before memory is spent on more than that.
pub fn build(alloc: Global, program: &Program, sizes: &[i64]) -> Result<Graph, GraphFault>
    requires each { length sizes.now ≡ length program.now.params }
    requires small { AllByRecursion (IsSmall VALUE_SIZE) sizes.now }
    ensures { Builds (meaning program.now) sizes.now result }
{
    let values = values_of(alloc, sizes)?;
    graph_at(alloc, program, values.as_slice())
}
