//! The turn of one instance.

ghost use Rattle.std.specs.Prelude.{ℕ, List, IsTrue, if◌then◌else◌, ◌&&◌, not, nat_lt, ◌≡◌, ◌<◌, ◌∷◌, ◌++◌, [], length, slice_index_or, OnOk};
ghost use Rattle.iolb_model.specs.Game.{final_board, marked, vertices, predecessors_at};
ghost use Rattle.iolb_model.specs.declared.game.Move.TheVariants.{Load, Store, Compute, Drop};
ghost use Rattle.pebble_game.specs.Boards.{IsBoardOf, moved};
ghost use Rattle.pebble_replay.specs.Played.{reads, room_moves, load_moves, store_moves, compute_moves};
ghost use Rattle.pebble_replay.specs.Uses.{AreUses};
ghost use Rattle.pebble_replay.specs.Turns.{current, later, IsBetween, IsHolding, IsInTurn, IsReleasing, IsSameTurn, Gains, load_one, moves_of};

use crate::hand::Hand;
use iolb_model::game::Move;
use pebble_game::{Graph, Memory};
use std::alloc::Global;

/// The turn of the instance at a place of an order: what the player holds, and the moves made so far.
#[derive(Drop)]
pub(crate) struct Turn<'a> {
    pub(crate) alloc: Global,
    pub(crate) graph: &'a Graph,
    pub(crate) order: &'a [u32],
    pub(crate) place: usize,
    pub(crate) hand: Hand,
    pub(crate) moves: Vec<Move>,
}

impl<'a> Turn<'a> {
    /// Makes a move.
    fn make(&mut self, step: Move) -> Result<(), Memory>
        requires fits { IsBoardOf self.old.graph.now self.old.hand.board.board }
        requires there { moved step < vertices self.old.graph.now }
        ensures gains { OnOk result (Gains self.old self.new (step ∷ [])) }
        ensures queue { OnOk result (self.new.hand.queue ≡ self.old.hand.queue) }
    {
        self.moves.push(step)?;
        self.hand.board.make(step);
        Ok(())
    }

    /// Takes the red pebble off a vertex, of which so much is left from its next use on: it is stored first if it has a next use
    /// and no blue pebble.
    fn send_out(&mut self, left: u32, u: u32) -> Result<(), Memory>
        requires fits { IsBoardOf self.old.graph.now self.old.hand.board.board }
        requires there { u < vertices self.old.graph.now }
        ensures gains { OnOk result (Gains self.old self.new (if nat_lt 0 left && not (marked self.old.hand.board.board.blue u) then Store u ∷ Drop u ∷ [] else Drop u ∷ [])) }
        ensures queue { OnOk result (self.new.hand.queue ≡ self.old.hand.queue) }
    {
        if 0 < left && !self.hand.board.is_blue(u) {
            self.make(Move::Store(u))?;
        }
        self.make(Move::Drop(u))
    }

    /// Makes room, where all red pebbles are in use: the first in the queue goes.
    fn make_room(&mut self) -> Result<(), Memory>
        requires { IsInTurn self.old.graph.now (current self.old) (later self.old) self.old.hand }
        ensures gains { OnOk result (Gains self.old self.new (room_moves self.old.graph.now self.old.hand.board.s (later self.old) (current self.old) self.old.hand.board.board)) }
        ensures in_turn { OnOk result (IsInTurn self.old.graph.now (current self.old) (later self.old) self.new.hand) }
    {
        if !self.hand.board.is_full() {
            return Ok(());
        }
        match self.hand.queue.pop_first() {
            Some((left, u)) => self.send_out(left, u),
            None => Ok(()),
        }
    }

    /// Loads a vertex, if it isn't red.
    fn load(&mut self, u: u32) -> Result<(), Memory>
        requires in_turn { IsInTurn self.old.graph.now (current self.old) (later self.old) self.old.hand }
        requires there { u < vertices self.old.graph.now }
        requires read { IsTrue (reads self.old.graph.now u (current self.old)) }
        ensures gains { OnOk result (Gains self.old self.new (load_one self.old.graph.now self.old.hand.board.s (later self.old) (current self.old) self.old.hand.board.board u)) }
        ensures in_turn { OnOk result (IsInTurn self.old.graph.now (current self.old) (later self.old) self.new.hand) }
    {
        if self.hand.board.is_red(u) {
            return Ok(());
        }
        self.make_room()?;
        self.make(Move::Load(u))
    }

    /// Loads those predecessors that aren't red, in order.
    fn load_all(&mut self) -> Result<(), Memory>
        requires in_turn { IsInTurn self.old.graph.now (current self.old) (later self.old) self.old.hand }
        requires place { self.old.place < length self.old.order.now }
        requires there { current self.old < self.old.graph.now.instances }
        ensures gains { OnOk result (Gains self.old self.new (load_moves self.old.graph.now self.old.hand.board.s (later self.old) (current self.old) self.old.hand.board.board (predecessors_at self.old.graph.now (current self.old)))) }
        ensures in_turn { OnOk result (IsInTurn self.old.graph.now (current self.old) (later self.old) self.new.hand) }
    {
        let graph = self.graph;
        let v = self.current();
        for u in graph.preds_of(v) {
            self.load(*u)?;
        }
        Ok(())
    }

    /// The instance whose turn it is.
    fn current(&self) -> u32
        requires { self.now.place < length self.now.order.now }
        ensures { result ≡ current self.now }
    {
        self.order[self.place]
    }

    /// Computes the instance, and stores it if it is a last writer.
    fn compute(&mut self) -> Result<(), Memory>
        requires in_turn { IsInTurn self.old.graph.now (current self.old) (later self.old) self.old.hand }
        requires place { self.old.place < length self.old.order.now }
        requires there { current self.old < self.old.graph.now.instances }
        ensures gains { OnOk result (Gains self.old self.new (compute_moves self.old.graph.now self.old.hand.board.s (later self.old) (current self.old) self.old.hand.board.board)) }
        ensures releasing { OnOk result (IsReleasing self.old.graph.now (later self.old) (current self.old ∷ predecessors_at self.old.graph.now (current self.old)) self.new.hand) }
    {
        self.make_room()?;
        self.compute_only()
    }

    /// Computes the instance where there is room, and stores it if it is a last writer.
    fn compute_only(&mut self) -> Result<(), Memory>
        requires in_turn { IsInTurn self.old.graph.now (current self.old) (later self.old) self.old.hand }
        requires place { self.old.place < length self.old.order.now }
        requires there { current self.old < self.old.graph.now.instances }
        ensures gains { OnOk result (Gains self.old self.new (Compute (current self.old) ∷ store_moves self.old.graph.now (current self.old))) }
        ensures queue { OnOk result (self.new.hand.queue ≡ self.old.hand.queue) }
    {
        let v = self.current();
        self.make(Move::Compute(v))?;
        if self.graph.is_last(v) {
            self.make(Move::Store(v))?;
        }
        Ok(())
    }

    /// Takes a predecessor from those that wait, and its use off.
    fn hold_one(&mut self, u: u32)
        requires { u < length self.old.hand.uses }
        ensures held { (left : List ℕ) → IsHolding self.old.graph.now (current self.old) (later self.old) (u ∷ left) self.old.hand → IsHolding self.old.graph.now (current self.old) (later self.old) left self.new.hand }
        ensures same { IsSameTurn self.old self.new }
    {
        self.hand.queue.remove(self.hand.uses.next(u), u);
        self.hand.uses.pop(u);
    }

    /// Takes the predecessors of the instance from those that wait, and its uses off.
    fn hold(&mut self)
        requires between { IsBetween self.old.graph.now (current self.old ∷ later self.old) self.old.hand }
        requires place { self.old.place < length self.old.order.now }
        requires there { current self.old < self.old.graph.now.instances }
        ensures held { IsInTurn self.old.graph.now (current self.old) (later self.old) self.new.hand }
        ensures same { IsSameTurn self.old self.new }
    {
        let graph = self.graph;
        let v = self.current();
        for u in graph.preds_of(v) {
            self.hold_one(*u);
        }
    }

    /// Puts a vertex among those that wait, if it is red.
    fn release_one(&mut self, u: u32) -> Result<(), Memory>
        requires fits { IsBoardOf self.old.graph.now self.old.hand.board.board }
        requires uses { AreUses self.old.graph.now (later self.old) self.old.hand.uses }
        requires there { u < vertices self.old.graph.now }
        ensures released { (left : List ℕ) → IsReleasing self.old.graph.now (later self.old) (u ∷ left) self.old.hand → OnOk result (IsReleasing self.old.graph.now (later self.old) left self.new.hand) }
        ensures same { OnOk result (IsSameTurn self.old self.new) }
        ensures same_uses { OnOk result (self.new.hand.uses ≡ self.old.hand.uses) }
    {
        if self.hand.board.is_red(u) {
            let left = self.hand.uses.next(u);
            self.hand.queue.insert(self.alloc, left, u)?;
        }
        Ok(())
    }

    /// Puts the instance and its predecessors among those that wait, if they are red.
    fn release(&mut self) -> Result<(), Memory>
        requires releasing { IsReleasing self.old.graph.now (later self.old) (current self.old ∷ predecessors_at self.old.graph.now (current self.old)) self.old.hand }
        requires place { self.old.place < length self.old.order.now }
        requires there { current self.old < self.old.graph.now.instances }
        ensures released { OnOk result (IsBetween self.old.graph.now (later self.old) self.new.hand) }
        ensures same { OnOk result (IsSameTurn self.old self.new) }
    {
        let graph = self.graph;
        let v = self.current();
        self.release_one(v)?;
        for u in graph.preds_of(v) {
            self.release_one(*u)?;
        }
        Ok(())
    }

    /// Makes all the moves of the turn.
    pub(crate) fn finish(&mut self) -> Result<(), Memory>
        requires between { IsBetween self.old.graph.now (current self.old ∷ later self.old) self.old.hand }
        requires place { self.old.place < length self.old.order.now }
        requires there { current self.old < self.old.graph.now.instances }
        ensures between { OnOk result (IsBetween self.old.graph.now (later self.old) self.new.hand) }
        ensures moves { OnOk result (self.new.moves.items ≡ self.old.moves.items ++ moves_of self.old) }
        ensures board { OnOk result (self.new.hand.board ≡ record self.old.hand.board { board = final_board self.old.hand.board.board (moves_of self.old) }) }
    {
        self.hold();
        self.load_all()?;
        self.compute()?;
        self.release()
    }
}
