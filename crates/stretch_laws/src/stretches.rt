//! Stretches of red runs, and what points that are computed take.

ghost use Rattle.stretch_laws.specs.Laws.{PointsTakeEvents, StretchesAreRedRuns, StretchesHoldPoints, StretchesHoldWords};

use pebble_game::sets::disjoint_loads_add_up;

/// A law: any part of the moves of a red run is a red run, from the red marks at its start.
pub fn stretches_are_red_runs()
    ensures { StretchesAreRedRuns }
{}

/// A law over any list of moves that computes instances alone, from red predecessors, and never has more than s red
/// vertices, whichever are red at its start: if it has at most t events, the starts of the points that it computes have the
/// labels of at most s + t words, group by group; and at most u points are computed, the greatest number that the cover
/// inequality and the inequality of the means allow at so many words.
pub fn stretches_are_small()
    ensures words { StretchesHoldWords }
    ensures points { StretchesHoldPoints }
{
    disjoint_loads_add_up();
}

/// A law over any such list of moves, of any number of events: where at most u points go into a stretch of t events, more
/// than j times u points take at least j times t events.
pub fn points_take_events()
    ensures { PointsTakeEvents }
{
    stretches_are_small();
}
