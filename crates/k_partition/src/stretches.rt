//! Stretches of red runs, and what points that are computed take.

ghost use Rattle.k_partition.specs.Laws.{PointsTakeEventsEach, PointsTakeEventsSum, StretchesHoldLabelsEach, StretchesHoldLabelsSum, StretchesHoldPointsEach, StretchesHoldPointsSum};

use stretch_laws::stretches as joint;

/// A law over any list of moves that computes instances alone, from red predecessors, and never has more than s red
/// vertices, whichever are red at its start: if it has at most t events, the starts of the points that it computes have at
/// most s + t different labels, and at most u points are computed, the greatest number that the cover inequality allows at so
/// many labels. In the first case each family has at most so many; in the second, where no two families have a word in
/// common, all families together.
pub fn stretches_are_small()
    ensures labels_each { StretchesHoldLabelsEach }
    ensures labels_sum { StretchesHoldLabelsSum }
    ensures points_each { StretchesHoldPointsEach }
    ensures points_sum { StretchesHoldPointsSum }
{
    joint::stretches_are_small();
}

/// A law over any such list of moves, of any number of events: where at most u points go into a stretch of t events, more
/// than j times u points take at least j times t events.
pub fn points_take_events()
    ensures each { PointsTakeEventsEach }
    ensures sum { PointsTakeEventsSum }
{
    joint::points_take_events();
}
