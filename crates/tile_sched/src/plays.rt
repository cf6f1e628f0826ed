//! Plays.

ghost use Rattle.std.specs.Prelude.{◌≡◌, ◌≤◌, length, IfOk, OnOk, OnErr};
ghost use Rattle.std.specs.List.{AllByRecursion};
ghost use Rattle.iolb_model.specs.Game.{IsCompletePebbling};
ghost use Rattle.affine_form.specs.Form.{IsSmall};
ghost use Rattle.affine_program.specs.Parts.{meaning};
ghost use Rattle.iolb_host.specs.Sink.{AppendsPiece, AppendsPart, after_write};
ghost use Rattle.pebble_replay.specs.Order.{HoldsEachOnce};
ghost use Rattle.tile_sched.specs.Schedules.{IsSchedule};
ghost use Rattle.tile_sched.specs.Lines.{play_text};
ghost use Rattle.tile_sched.specs.Plays.{GivesGraph, GivesPlayer, Readies, moves_of};
ghost use Rattle.iolb_model.specs.declared.limits.TheConstants.{VALUE_SIZE};

use crate::ordered::order;
use crate::schedule::Schedule;
use crate::unplayed::{PlayFault, Unplayed};
use crate::writing::put_lines;
use affine_program::Program;
use iolb_host::{Sink, SinkFault};
use loop_graph::{GraphFault, build};
use pebble_game::Graph;
use pebble_replay::{Player, ReplayFault, what_is_played_is_complete};
use std::alloc::Global;
use std::marker::Model;

/// A schedule that can be played: the program's computation graph at the sizes, the order of the schedule, and a player
/// before the first instance.
#[derive(Drop)]
pub struct Play {
    graph: Graph,
    order: Vec<u32>,
    player: Player,
}

impl Model for Play {
    ghost use Rattle.pebble_replay.specs.Player.{pebbles_of};
    ghost use Rattle.tile_sched.specs.Plays.{IsAtStart, Setting};

    ghost Value = { Setting };

    ghost view = { λ play. record { graph = play.graph; order = play.order.items; s = pebbles_of play.player } };

    ghost invariant = { λ play. IsAtStart play.graph play.order.items (pebbles_of play.player) play.player };
}

/// The computation graph of a program at sizes for its parameters.
///
/// # Errors
///
/// An assumption that is false at the sizes, or a graph out of reach.
pub fn graph_of(alloc: Global, program: &Program, sizes: &[i64]) -> Result<Graph, PlayFault>
    requires each { length sizes.now ≡ length program.now.params }
    requires small { AllByRecursion (IsSmall VALUE_SIZE) sizes.now }
    ensures { GivesGraph (meaning program.now) sizes.now result }
{
    match build(alloc, program, sizes) {
        Ok(graph) => Ok(graph),
        Err(GraphFault::OutsideAssumption(number)) => {
            Err(PlayFault::Refused(Unplayed::Assumption(number)))
        }
        Err(GraphFault::TooMany) => Err(PlayFault::Refused(Unplayed::TooMany)),
        Err(GraphFault::Memory) => Err(PlayFault::Memory),
    }
}

/// A player before the first instance of an order that holds each instance once, with `s` red pebbles, at least one.
///
/// # Errors
///
/// An instance that comes before a source of it, or else one that needs more red pebbles.
pub fn player_of(alloc: Global, graph: &Graph, order: &[u32], s: u64) -> Result<Player, PlayFault>
    requires each { HoldsEachOnce graph.now order.now }
    requires some { 1 ≤ s }
    ensures { GivesPlayer graph.now order.now s result }
{
    match Player::new(alloc, graph, order, s) {
        Ok(player) => Ok(player),
        Err(ReplayFault::OutOfOrder { vertex, source }) => {
            Err(PlayFault::Refused(Unplayed::OutOfOrder { vertex, source }))
        }
        Err(ReplayFault::TooSmall { vertex, need }) => {
            Err(PlayFault::Refused(Unplayed::TooSmall { vertex, need }))
        }
        Err(ReplayFault::Memory) => Err(PlayFault::Memory),
    }
}

impl Play {
    /// The play of a schedule of a program at sizes for its parameters, with `s` red pebbles, at least one; or the first of
    /// these that keeps it from being played: an assumption that is false; a graph out of reach; an instance that comes before
    /// a source of it; one that needs more red pebbles.
    pub fn new(
        alloc: Global,
        program: &Program,
        schedule: &Schedule,
        sizes: &[i64],
        s: u64,
    ) -> Result<Play, PlayFault>
        requires each { length sizes.now ≡ length program.now.params }
        requires small { AllByRecursion (IsSmall VALUE_SIZE) sizes.now }
        requires schedule { IsSchedule (meaning program.now) schedule.now }
        requires some { 1 ≤ s }
        ensures readies { Readies (meaning program.now) schedule.now sizes.now s result }
        ensures complete { IfOk result (λ play. IsCompletePebbling play.graph play.s (moves_of play)) }
    {
        what_is_played_is_complete();
        let graph = graph_of(alloc, program, sizes)?;
        let _instances = graph.instances();
        let order = order(alloc, program, sizes, &graph, schedule)?;
        let player = player_of(alloc, &graph, order.as_slice(), s)?;
        Ok(Play {
            graph,
            order,
            player,
        })
    }

    /// Writes a line for each move, and then the totals, each by one write; the moves of an instance before those of the next
    /// are made. What a failed write or want of memory leaves is a prefix of the lines.
    pub fn put<O: Sink>(self, alloc: Global, out: &mut O) -> Result<(), SinkFault>
        ensures faults { O.faults out.new ≡ after_write (O.faults out.old) result }
        ensures wants { OnOk result (O.wants out.new ≡ O.wants out.old) }
        ensures ok { OnOk result (AppendsPiece (O.written out.old) (O.written out.new) (play_text (moves_of self))) }
        ensures err { OnErr result (AppendsPart (O.written out.old) (O.written out.new) (play_text (moves_of self))) }
    {
        let Play {
            graph,
            order,
            player,
        } = self;
        put_lines(alloc, &graph, order.as_slice(), player, out)
    }
}
