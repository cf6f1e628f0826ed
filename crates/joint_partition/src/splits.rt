//! What splits show.

ghost use Rattle.joint_partition.specs.Splits.{SplitsShow};

/// A law: where the claims of a split hold, no point meets all rows of its system.
pub fn splits_show()
    ensures { SplitsShow }
{}
