//! Several processors seen as one.

ghost use Rattle.parallel_bound.specs.Merging.{ParallelPebblingsMerge};

/// A law: for every complete parallel pebbling of any graph there is a complete pebbling by one player, with the red pebbles of
/// all processors, who makes as many loads of each set of vertices as they make together.
pub fn parallel_pebblings_merge()
    ensures { ParallelPebblingsMerge }
{}
