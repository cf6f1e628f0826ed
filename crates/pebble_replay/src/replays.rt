//! Replays.

ghost use Rattle.std.specs.Prelude.{◌≡◌, ◌⊎◌, ◌≤◌, None, Some, IfOk, IfErr, OnOk};
ghost use Rattle.iolb_model.specs.Game.{IsCompletePebbling, loads, stores};
ghost use Rattle.pebble_replay.specs.declared.fault.ReplayFault.TheVariants.{Memory as WantOfMemory};
ghost use Rattle.pebble_replay.specs.Order.{HoldsEachOnce, replay_fault};
ghost use Rattle.pebble_replay.specs.Played.{played, computes};

use crate::fault::ReplayFault;
use crate::played::Replay;
use crate::player::Player;
use pebble_game::Graph;
use std::alloc::Global;

/// Plays an order that holds each instance once, with `s` red pebbles, at least one. It is refused where a source comes after
/// its reader, over the whole order first, and then where an instance needs more red pebbles.
pub fn replay(alloc: Global, graph: &Graph, order: &[u32], s: u64) -> Result<Replay, ReplayFault>
    requires each { HoldsEachOnce graph.now order.now }
    requires some { 1 ≤ s }
    ensures moves { IfOk result (λ replay. replay.moves.items ≡ played graph.now s order.now) }
    ensures complete { IfOk result (λ replay. IsCompletePebbling graph.now s replay.moves.items) }
    ensures loads { IfOk result (λ replay. replay.loads ≡ loads replay.moves.items) }
    ensures stores { IfOk result (λ replay. replay.stores ≡ stores replay.moves.items) }
    ensures computes { IfOk result (λ replay. replay.computes ≡ computes replay.moves.items) }
    ensures ok { OnOk result (replay_fault graph.now s order.now ≡ None) }
    ensures err { IfErr result (λ fault. (fault ≡ WantOfMemory) ⊎ (replay_fault graph.now s order.now ≡ Some fault)) }
{
    let _instances = graph.instances();
    let mut player = Player::new(alloc, graph, order, s)?;
    let mut moves = Vec::new(alloc);
    while let Some(mut more) = player.step(alloc, graph, order)? {
        moves.append(&mut more)?;
    }
    let (loads, stores, computes) = player.totals();
    Ok(Replay {
        moves,
        loads,
        stores,
        computes,
    })
}
