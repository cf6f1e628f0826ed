//! What a player holds.

ghost use Rattle.std.specs.Prelude.{◌≡◌, ◌<◌, ◌≤◌, suc, drop, length, slice_index_or, IfOk};
ghost use Rattle.iolb_model.specs.Game.{final_board, first_board};
ghost use Rattle.pebble_replay.specs.Order.{HoldsEachOnce};
ghost use Rattle.pebble_replay.specs.Played.{instance_moves};
ghost use Rattle.pebble_replay.specs.Turns.{IsBetween};

use crate::lazy_queue::Queue;
use crate::turn::Turn;
use crate::uses::Uses;
use crate::uses_in::uses_in;
use iolb_model::game::Move;
use pebble_game::{Board, Graph, Memory};
use std::alloc::Global;

/// The board; for each vertex the uses to come; and red vertices by what is left of the order from their next use on, so that
/// the first is the one to go.
#[derive(Drop)]
pub(crate) struct Hand {
    pub(crate) board: Board,
    pub(crate) uses: Uses,
    pub(crate) queue: Queue,
}

impl Hand {
    /// What a player holds before the first instance of an order.
    pub(crate) fn new(alloc: Global, graph: &Graph, order: &[u32], s: u64) -> Result<Hand, Memory>
        requires each { HoldsEachOnce graph.now order.now }
        requires some { 1 ≤ s }
        ensures between { IfOk result (λ hand. IsBetween graph.now order.now hand) }
        ensures board { IfOk result (λ hand. hand.board ≡ record { s = s; board = first_board graph.now }) }
    {
        Ok(Hand {
            board: Board::new(alloc, graph, s)?,
            uses: uses_in(alloc, graph, order)?,
            queue: Queue::new(alloc, s),
        })
    }

    /// Plays the turn of the instance at a place of an order: what is held after it, and its moves.
    pub(crate) fn play(
        self,
        alloc: Global,
        graph: &Graph,
        order: &[u32],
        place: usize,
    ) -> Result<(Hand, Vec<Move>), Memory>
        requires between { IsBetween graph.now (drop place order.now) self }
        requires each { HoldsEachOnce graph.now order.now }
        requires there { place < length order.now }
        ensures between { IfOk result (λ played. IsBetween graph.now (drop (suc place) order.now) played.0) }
        ensures moves { IfOk result (λ played. played.1.items ≡ instance_moves graph.now self.board.s (drop (suc place) order.now) (slice_index_or order.now place 0) self.board.board) }
        ensures board { IfOk result (λ played. played.0.board ≡ record self.board { board = final_board self.board.board (instance_moves graph.now self.board.s (drop (suc place) order.now) (slice_index_or order.now place 0) self.board.board) }) }
    {
        let mut turn = Turn {
            alloc,
            graph,
            order,
            place,
            hand: self,
            moves: Vec::with_capacity(alloc, 12)?,
        };
        turn.finish()?;
        let Turn { hand, moves, .. } = turn;
        Ok((hand, moves))
    }
}
