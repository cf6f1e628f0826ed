//! Counts of moves.

ghost use Rattle.std.specs.Prelude.{◌≡◌, ◌+◌, ◌<◌, ◌^◌};
ghost use Rattle.iolb_model.specs.Game.{loads, stores};
ghost use Rattle.pebble_replay.specs.Played.{computes};

use iolb_model::game::Move;

/// How many moves load, store and compute.
#[derive(Clone, Copy)]
pub(crate) struct Counts {
    pub(crate) loads: u64,
    pub(crate) stores: u64,
    pub(crate) computes: u64,
}

impl Counts {
    /// These counts and others together.
    pub(crate) fn with(self, more: Counts) -> Counts
        requires loads { self.loads + more.loads < 2 ^ 64 }
        requires stores { self.stores + more.stores < 2 ^ 64 }
        requires computes { self.computes + more.computes < 2 ^ 64 }
        ensures { result ≡ record { loads = self.loads + more.loads; stores = self.stores + more.stores; computes = self.computes + more.computes } }
    {
        Counts {
            loads: self.loads + more.loads,
            stores: self.stores + more.stores,
            computes: self.computes + more.computes,
        }
    }
}

/// How many of some moves load, store and compute.
pub(crate) fn counts_of(moves: &[Move]) -> Counts
    ensures loads { result.loads ≡ loads moves.now }
    ensures stores { result.stores ≡ stores moves.now }
    ensures computes { result.computes ≡ computes moves.now }
{
    let mut counts = Counts {
        loads: 0,
        stores: 0,
        computes: 0,
    };
    for step in moves {
        match step {
            Move::Load(_) => counts.loads += 1,
            Move::Store(_) => counts.stores += 1,
            Move::Compute(_) => counts.computes += 1,
            Move::Drop(_) | Move::Erase(_) => {}
        }
    }
    counts
}
