//! What is shown of source trees.

ghost use Rattle.projective_bounds.specs.KeptLaws.{SourceTreesKeepLoops};

/// The source trees of a projective program keep the loops that stand in the references that are read.
pub fn source_trees_keep_loops()
    ensures { SourceTreesKeepLoops }
{}
