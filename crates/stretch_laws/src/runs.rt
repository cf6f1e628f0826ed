//! What red runs take, and that complete pebblings are such runs.

ghost use Rattle.stretch_laws.specs.Laws.{CompletePebblingsAreRuns, DifferentComputationsAreFew, RunsAreLoaded};

use crate::stretches::points_take_events;

/// A law: a red run that computes n points makes at least t times the quotient of n less 1 by u loads of the families' words
/// and computations of credited vertices together, where u is the greatest number of points that go into a stretch of t events.
pub fn runs_are_loaded()
    ensures { RunsAreLoaded }
{
    points_take_events();
}

/// A law: moves that compute no vertex again compute the vertices of a set at most as often as it has members.
pub fn different_computations_are_few()
    ensures { DifferentComputationsAreFew }
{}

/// A law: a complete pebbling is a red run from nothing red, which computes each instance, and no vertex again.
pub fn complete_pebblings_are_runs()
    ensures { CompletePebblingsAreRuns }
{}
