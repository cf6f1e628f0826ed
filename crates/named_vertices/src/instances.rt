//! The instances of a program at values of its parameters.

ghost use Rattle.std.specs.Prelude.{◌≡◌, ◌↔◌, drop, length, IfErr, IfOk, IfSome, IsTrue};
ghost use Rattle.std.specs.List.{AllByRecursion};
ghost use Rattle.affine_form.specs.Form.{IsSmall};
ghost use Rattle.affine_program.specs.Parts.{meaning};
ghost use Rattle.named_vertices.specs.Instances.{AreInstances, IsAt, IsUnlisted};
ghost use Rattle.iolb_model.specs.declared.limits.TheConstants.{VALUE_SIZE};

use crate::fault::Unnamed;
use affine_program::{Program, first_unmet};
use loop_graph::{Room, Run, has_room, limits, runs};
use std::alloc::Global;

/// The instances of a program at these values of its parameters, in the order of execution, where its assumptions are met and
/// there are no more than a graph may have.
pub fn find_instances(
    alloc: Global,
    program: &Program,
    values: &[i128],
) -> Result<Vec<Run>, Unnamed>
    requires each { length values.now ≡ length program.now.params }
    requires small { AllByRecursion (IsSmall VALUE_SIZE) values.now }
    ensures listed { IfOk result (λ all. AreInstances (meaning program.now) values.now all.items) }
    ensures refused { IfErr result (IsUnlisted (meaning program.now) values.now) }
{
    if let Some(number) = first_unmet(program.assumed().rows(), values) {
        return Err(Unnamed::Assumption(number));
    }
    let room = Room {
        turns: limits::TURNS,
        instances: limits::VERTICES,
    };
    if !has_room(alloc, program, values, room)? {
        return Err(Unnamed::TooMany);
    }
    Ok(runs(alloc, program, values)?)
}

/// Whether a run is the instance of a statement at these loop values, behind so many parameters.
fn is_instance(run: &Run, params: usize, statement: u16, loops: &[i128]) -> bool
    ensures statement { IsTrue result → run.now.statement ≡ statement }
    ensures loops { IsTrue result → drop params run.now.point.items ≡ loops.now }
{
    match run.point.as_slice().get(params..) {
        Some(found) => run.statement == statement && found == loops,
        None => false,
    }
}

/// The place of the instance of a statement at these loop values, where there is one.
pub fn vertex_place(all: &[Run], params: usize, statement: u16, loops: &[i128]) -> Option<usize>
    ensures { IfSome result (IsAt all.now params statement loops.now) }
{
    for (place, run) in all.iter().enumerate() {
        if is_instance(run, params, statement, loops) {
            return Some(place);
        }
    }
    None
}
