//! Branches of terms whose values add up.

ghost use Rattle.pebble_game.specs.Branches.{BranchesAreLoaded};

/// A law: the value of a branch whose terms cost their values in loads of footprints of which no two have a vertex in common is
/// at most the loads of every complete pebbling.
pub fn branches_are_loaded()
    ensures { BranchesAreLoaded }
{}
