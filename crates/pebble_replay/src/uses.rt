//! The uses of each vertex that are still to come.

ghost use Rattle.std.specs.Prelude.{◌≡◌, ◌+◌, ◌<◌, ◌∷◌, [], length, drop, replicate, slice_index_or, slice_set, IfOk, OnOk};
ghost use Rattle.pebble_replay.specs.Uses.{first_or_zero};

use pebble_game::Memory;
use std::alloc::Global;
use std::marker::Model;

/// For each vertex its uses, in order, each by how many instances of the order stand from it on. The uses of all vertices
/// stand in one list, each with the number in it, from 1 on, of the one that follows, and 0 where none does; for each vertex
/// there is the number of its next use.
#[derive(Debug, Drop)]
pub(crate) struct Uses {
    firsts: Vec<usize>,
    all: Vec<(u32, usize)>,
}

impl Model for Uses {
    ghost use Rattle.std.specs.Prelude.{List, ℕ, map};
    ghost use Rattle.pebble_replay.specs.Chains.{uses_from, AreLinked};

    ghost Value = { List (List ℕ) };

    ghost view = { λ uses. map (uses_from uses.all.items) uses.firsts.items };

    ghost invariant = { λ uses. AreLinked uses.all.items uses.firsts.items };
}

impl Uses {
    /// No uses of so many vertices.
    pub(crate) fn new(alloc: Global, vertices: usize) -> Result<Uses, Memory>
        ensures { IfOk result (λ uses. uses ≡ replicate vertices []) }
    {
        Ok(Uses {
            firsts: vec![in alloc; 0; vertices]?,
            all: Vec::new(alloc),
        })
    }

    /// The next use of a vertex, and 0 where it has none.
    pub(crate) fn next(&self, u: u32) -> u32
        requires { u < length self.now }
        ensures { result ≡ first_or_zero (slice_index_or self.now u []) }
    {
        let first = self.firsts[u as usize];
        if first == 0 {
            return 0;
        }
        self.all[first - 1].0
    }

    /// Puts a use before those of a vertex.
    pub(crate) fn push(&mut self, u: u32, left: u32) -> Result<(), Memory>
        requires { u < length self.old }
        ensures { OnOk result (self.new ≡ slice_set self.old u (left ∷ slice_index_or self.old u [])) }
    {
        let first = self.firsts[u as usize];
        self.all.push((left, first))?;
        self.firsts[u as usize] = self.all.len();
        Ok(())
    }

    /// Takes the next use of a vertex off, if it has one.
    pub(crate) fn pop(&mut self, u: u32)
        requires { u < length self.old }
        ensures { self.new ≡ slice_set self.old u (drop 1 (slice_index_or self.old u [])) }
    {
        let first = self.firsts[u as usize];
        if first != 0 {
            self.firsts[u as usize] = self.all[first - 1].1;
        }
    }
}
