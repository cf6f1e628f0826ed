//! What points that two words fix cost in red runs and in complete pebblings.

ghost use Rattle.pair_laws.specs.Laws.{PairsAreLoaded, PointsTakeMeetings, RunsMeetPairs};

use stretch_laws::runs::{complete_pebblings_are_runs, different_computations_are_few};

/// A law over any list of moves that computes instances alone, from red predecessors, and never has more than s red vertices,
/// whichever are red at its start: it computes at most as many points as its events bring, each s - 1 times the labels of two
/// words, and as the words that are red at the start bring by themselves.
pub fn points_take_meetings()
    ensures { PointsTakeMeetings }
{}

/// A law over such a list from nothing red: where it computes n points, one at least, it makes at least n over the points that an
/// event brings, rounded up, loads of the families' words and computations of credited vertices together.
pub fn runs_meet_pairs()
    ensures { RunsMeetPairs }
{
    points_take_meetings();
}

/// A law: every complete pebbling makes at least as many loads of the families' words as all points take, less the number of
/// credited vertices.
pub fn pairs_are_loaded()
    ensures { PairsAreLoaded }
{
    runs_meet_pairs();
    different_computations_are_few();
    complete_pebblings_are_runs();
}
