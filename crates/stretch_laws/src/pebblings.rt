//! What joint partitions cost in complete pebblings.

ghost use Rattle.stretch_laws.specs.Laws.{JointsAreLoaded};

use crate::runs::{complete_pebblings_are_runs, different_computations_are_few, runs_are_loaded};

/// A law: every complete pebbling makes at least t times the quotient of the number of points less 1 by u loads of the
/// families' words, less the number of credited vertices.
pub fn joints_are_loaded()
    ensures { JointsAreLoaded }
{
    runs_are_loaded();
    different_computations_are_few();
    complete_pebblings_are_runs();
}
