//! Players.

ghost use Rattle.std.specs.Prelude.{◌≡◌, ◌⊎◌, ◌<◌, ℕ, List, suc, IsErr, ◌≤◌, length, None, Some, IfOk, IfErr, OnOk, OnErr, IfSome, OnSome, IfNone};
ghost use Rattle.iolb_model.specs.Graph.{ComputationGraph};
ghost use Rattle.pebble_replay.specs.declared.fault.ReplayFault.TheVariants.{Memory as WantOfMemory};
ghost use Rattle.pebble_replay.specs.Order.{HoldsEachOnce, replay_fault};
ghost use Rattle.pebble_replay.specs.Player.{pebbles_of, place_of, moves_before, moves_at, totals_of, StandsFor, IsStopped};

use crate::counts::{Counts, counts_of};
use crate::fault::ReplayFault;
use crate::faults::{order_fault, size_fault};
use crate::hand::Hand;
use iolb_model::game::Move;
use pebble_game::{Graph, Memory};
use std::alloc::Global;

/// A player part of the way through an order, with so many red pebbles.
#[derive(Drop)]
pub struct Player {
    s: u64,
    place: usize,
    hand: Option<Hand>,
    counts: Counts,
}

impl Player {
    /// A player before the first instance of an order that holds each instance once, with `s` red pebbles, at least one.
    pub fn new(alloc: Global, graph: &Graph, order: &[u32], s: u64) -> Result<Player, ReplayFault>
        requires each { HoldsEachOnce graph.now order.now }
        requires some { 1 ≤ s }
        ensures stands { IfOk result (StandsFor graph.now order.now) }
        ensures pebbles { IfOk result (λ player. pebbles_of player ≡ s) }
        ensures first { IfOk result (λ player. place_of player ≡ 0) }
        ensures ok { OnOk result (replay_fault graph.now s order.now ≡ None) }
        ensures err { IfErr result (λ fault. (fault ≡ WantOfMemory) ⊎ (replay_fault graph.now s order.now ≡ Some fault)) }
    {
        if let Some(fault) = order_fault(alloc, graph, order)? {
            return Err(fault);
        }
        if let Some(fault) = size_fault(graph, order, s) {
            return Err(fault);
        }
        Ok(Player {
            s,
            place: 0,
            hand: Some(Hand::new(alloc, graph, order, s)?),
            counts: counts_of(&[]),
        })
    }

    /// The moves of the next instance, and `None` exactly where the order is done. After a want of memory every later call
    /// answers that too.
    pub fn step(
        &mut self,
        alloc: Global,
        graph: &Graph,
        order: &[u32],
    ) -> Result<Option<Vec<Move>>, Memory>
        requires { ¬ IsStopped self.old → StandsFor graph.now order.now self.old }
        ensures moves { IfOk result (λ made. IfSome made (λ moves. moves.items ≡ moves_at graph.now (pebbles_of self.old) order.now (place_of self.old))) }
        ensures more { IfOk result (λ made. OnSome made (StandsFor graph.now order.now self.new × (place_of self.new ≡ suc (place_of self.old)) × (pebbles_of self.new ≡ pebbles_of self.old))) }
        ensures before_end { IfOk result (λ made. OnSome made (place_of self.old < length order.now)) }
        ensures done { IfOk result (λ made. IfNone made ((self.new ≡ self.old) × StandsFor graph.now order.now self.old × (place_of self.old ≡ length order.now))) }
        ensures stopped { OnErr result (IsStopped self.new) }
        ensures stays_stopped { IsStopped self.old → IsErr result }
    {
        let Some(hand) = self.hand.take() else {
            return Err(Memory);
        };
        if self.place == order.len() {
            self.hand = Some(hand);
            return Ok(None);
        }
        let _instances = graph.instances();
        let (hand, moves) = hand.play(alloc, graph, order, self.place)?;
        self.counts = self.counts.with(counts_of(moves.as_slice()));
        self.place += 1;
        self.hand = Some(hand);
        Ok(Some(moves))
    }

    /// How many loads, stores and computations were made.
    pub fn totals(&self) -> (u64, u64, u64)
        ensures { (graph : ComputationGraph) (order : List ℕ) → StandsFor graph order self.now → result ≡ totals_of (moves_before graph (pebbles_of self.now) order (place_of self.now)) }
    {
        (self.counts.loads, self.counts.stores, self.counts.computes)
    }
}
