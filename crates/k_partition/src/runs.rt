//! What red runs take.

ghost use Rattle.k_partition.specs.Laws.{RunsAreLoadedEach, RunsAreLoadedSum};

use stretch_laws::runs as joint;

/// A law: a red run that computes n points makes at least t times the quotient of n less 1 by u loads of the families' words
/// and computations of credited vertices together, where u is the greatest number of points that go into a stretch of t events.
pub fn runs_are_loaded()
    ensures each { RunsAreLoadedEach }
    ensures sum { RunsAreLoadedSum }
{
    joint::runs_are_loaded();
}
