//! Plays of which only the totals are kept.

ghost use Rattle.std.specs.Prelude.{◌≡◌, ◌≤◌, length, IfErr, IfOk};
ghost use Rattle.std.specs.List.{AllByRecursion};
ghost use Rattle.affine_form.specs.Form.{IsSmall};
ghost use Rattle.affine_program.specs.Parts.{meaning};
ghost use Rattle.comparisons.specs.Outcomes.{AreOutcomes, IsOutcome, IsPlayedOut};
ghost use Rattle.pebble_replay.specs.Order.{HoldsEachOnce};
ghost use Rattle.pebble_replay.specs.Played.{played};
ghost use Rattle.pebble_replay.specs.Player.{StandsFor, pebbles_of, totals_of};
ghost use Rattle.tile_sched.specs.Plays.{GivesGraph};
ghost use Rattle.tile_sched.specs.Schedules.{IsSchedule};
ghost use Rattle.iolb_model.specs.declared.limits.TheConstants.{VALUE_SIZE};

use crate::capacity::Capacity;
use affine_form::Memory;
use affine_program::Program;
use pebble_game::Graph;
use pebble_replay::Player;
use std::alloc::Global;
use tile_sched::{PlayFault, Schedule, Unplayed, graph_of, order, player_of};

/// What comes of a schedule with so many words of fast memory: what it loads and stores, or why it can't be played.
#[derive(Clone, Copy, Debug, PartialEq, Eq)]
pub enum Played {
    Totals { loads: u64, stores: u64 },
    Refused(Unplayed),
}

/// Plays on to the end of an order: what was loaded, stored and computed.
fn play_out(
    alloc: Global,
    graph: &Graph,
    order: &[u32],
    mut player: Player,
) -> Result<(u64, u64, u64), Memory>
    requires { StandsFor graph.now order.now player }
    ensures { IfOk result (λ totals. totals ≡ totals_of (played graph.now (pebbles_of player) order.now)) }
{
    'steps: while let Some(_moves) = player.step(alloc, graph, order)? {}
    Ok(player.totals())
}

/// Plays an order with so many words of fast memory.
fn play_order(alloc: Global, graph: &Graph, order: &[u32], s: u64) -> Result<Played, Memory>
    requires each { HoldsEachOnce graph.now order.now }
    requires some { 1 ≤ s }
    ensures { IfOk result (λ outcome. IsOutcome graph.now order.now s outcome) }
{
    let player = match player_of(alloc, graph, order, s) {
        Ok(player) => player,
        Err(PlayFault::Refused(unplayed)) => return Ok(Played::Refused(unplayed)),
        Err(PlayFault::Memory) => return Err(Memory),
    };
    let (loads, stores, _computes) = play_out(alloc, graph, order, player)?;
    Ok(Played::Totals { loads, stores })
}

/// Plays an order with each of these capacities.
fn play_all(
    alloc: Global,
    graph: &Graph,
    order: &[u32],
    capacities: &[Capacity],
) -> Result<Vec<Played>, Memory>
    requires { HoldsEachOnce graph.now order.now }
    ensures { IfOk result (λ all. AreOutcomes graph.now order.now capacities.now all.items) }
{
    let mut all = Vec::with_capacity(alloc, capacities.len())?;
    for capacity in capacities {
        all.push(play_order(alloc, graph, order, capacity.words)?)?;
    }
    Ok(all)
}

/// Plays a schedule of a program at sizes of its parameters, with each of these capacities.
///
/// # Errors
///
/// Those of the graph: an assumption that is false, or too many vertices.
pub fn play_schedule(
    alloc: Global,
    program: &Program,
    schedule: &Schedule,
    sizes: &[i64],
    capacities: &[Capacity],
) -> Result<Vec<Played>, PlayFault>
    requires each { length sizes.now ≡ length program.now.params }
    requires small { AllByRecursion (IsSmall VALUE_SIZE) sizes.now }
    requires schedule { IsSchedule (meaning program.now) schedule.now }
    ensures plays { IfOk result (λ all. IsPlayedOut (meaning program.now) schedule.now sizes.now capacities.now all.items) }
    ensures refused { IfErr result (λ fault. GivesGraph (meaning program.now) sizes.now (Err fault)) }
{
    let graph = graph_of(alloc, program, sizes)?;
    let order = order(alloc, program, sizes, &graph, schedule)?;
    let all = play_all(alloc, &graph, order.as_slice(), capacities)?;
    Ok(all)
}
