//! Moves over levels of memory that were read, and their play.

ghost use Rattle.std.specs.Prelude.{◌≡◌, ◌++◌, Some, List, IfOk, IfErr, OnOk};
ghost use Rattle.std.specs.List.{AllByRecursion};
ghost use Rattle.affine_form.specs.Form.{IsSmall};
ghost use Rattle.affine_program.specs.Parts.{meaning};
ghost use Rattle.command_words.specs.Sizes.{NamedSize, values_for};
ghost use Rattle.memory_levels.specs.Towers.{AreCapacities};
ghost use Rattle.iolb_commands.specs.Phases.{ClimbComes, MovesCome};
ghost use Rattle.iolb_commands.specs.Stop.{IsCalm};
ghost use Rattle.iolb_commands.specs.Values.{crossing_line, crossing_lines as lines_of_crossings};
ghost use Rattle.iolb_commands.specs.Works.{whole};
ghost use Rattle.iolb_commands.specs.Written.{answer_form, end_of};
ghost use Rattle.iolb_model.specs.declared.limits.TheConstants.{VALUE_SIZE};

use crate::answered::Answer;
use crate::stop::{OtherFault, Refusal, Stop};
use affine_form::Memory;
use affine_program::Program;
use loop_graph::{GraphFault, build};
use memory_levels::{ClimbFault, Crossed, MovesError, TowerMove, climb, read_moves};
use pebble_game::Graph;
use std::alloc::Global;

/// Reads moves from their text, and plays them over levels of these capacities at the sizes.
pub(crate) fn climb_answer(
    alloc: Global,
    program: &Program,
    capacities: &[u64],
    sizes: &[i64],
    bytes: &[u8],
) -> Result<Answer, Stop>
    requires held { AreCapacities capacities.now }
    requires given { (named : List NamedSize) × (values_for program.now.params named ≡ Some sizes.now) }
    requires small { AllByRecursion (IsSmall VALUE_SIZE) sizes.now }
    ensures comes { MovesCome capacities.now (meaning program.now) sizes.now bytes.now (end_of result) }
    ensures kind { IfOk result (λ answer. answer_form answer ≡ whole) }
    ensures calm { IfErr result IsCalm }
{
    let moves = match read_moves(alloc, bytes) {
        Ok(moves) => moves,
        Err(MovesError::Line(place)) => return Err(Stop::OtherText(OtherFault::Moves(place))),
        Err(MovesError::Memory) => return Err(Stop::Memory),
    };
    let graph = match build(alloc, program, sizes) {
        Ok(graph) => graph,
        Err(GraphFault::OutsideAssumption(number)) => return Err(Stop::Refused(Refusal::Assumption(
            number,
        ))),
        Err(GraphFault::TooMany) => return Err(Stop::Refused(Refusal::TooMany)),
        Err(GraphFault::Memory) => return Err(Stop::Memory),
    };
    play_answer(alloc, &graph, capacities, moves.as_slice())
}

/// Plays moves over levels of these capacities on a graph.
fn play_answer(
    alloc: Global,
    graph: &Graph,
    capacities: &[u64],
    moves: &[TowerMove],
) -> Result<Answer, Stop>
    requires held { AreCapacities capacities.now }
    ensures comes { ClimbComes capacities.now graph.now moves.now (end_of result) }
    ensures kind { IfOk result (λ answer. answer_form answer ≡ whole) }
    ensures calm { IfErr result IsCalm }
{
    let crossed = match climb(alloc, graph, capacities, moves) {
        Ok(crossed) => crossed,
        Err(ClimbFault::Illegal(line, illegal)) => return Err(Stop::Refused(Refusal::Illegal {
            line,
            illegal,
        })),
        Err(ClimbFault::NotComplete(vertex)) => return Err(Stop::Refused(Refusal::NotComplete(
            vertex,
        ))),
        Err(ClimbFault::Memory) => return Err(Stop::Memory),
    };
    match crossing_lines(alloc, crossed.as_slice()) {
        Ok(text) => Ok(Answer::Text(text)),
        Err(Memory) => Err(Stop::Memory),
    }
}

/// How many words are brought and sent over each boundary, from the first on.
fn crossing_lines(alloc: Global, crossed: &[Crossed]) -> Result<Vec<u8>, Memory>
    ensures { IfOk result (λ text. text.items ≡ lines_of_crossings 1 crossed.now) }
{
    let mut text = Vec::new(alloc);
    for (place, one) in crossed.iter().enumerate() {
        push_crossing(alloc, &mut text, place + 1, one)?;
    }
    Ok(text)
}

/// What crosses a boundary, on a line at the end.
fn push_crossing(
    alloc: Global,
    text: &mut Vec<u8>,
    boundary: usize,
    crossed: &Crossed,
) -> Result<(), Memory>
    ensures { OnOk result (text.new.items ≡ text.old.items ++ crossing_line boundary crossed.now) }
{
    let brings = crossed.brings;
    let sends = crossed.sends;
    let line = format!(in alloc; "boundary {boundary} brings {brings} sends {sends}\n")?;
    text.extend_from_slice(line.as_bytes())?;
    Ok(())
}
