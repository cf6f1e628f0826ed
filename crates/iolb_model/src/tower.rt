//! The moves of the pebble game over several levels of memory.

/// A move of the pebble game over levels of memory: which level, counted from 1 for the fastest, and which vertex of the
/// computation graph. Instances have the vertices from 0 on, in the order of execution, and the inputs follow.
#[derive(Clone, Copy, Debug, PartialEq, Eq)]
pub enum TowerMove {
    /// A word comes to this level from the next slower one.
    Bring(u8, u32),
    /// A word goes from this level to the next slower one.
    Send(u8, u32),
    /// An instance is computed at level 1, where all its predecessors are.
    Compute(u32),
    /// A word is given up at this level.
    Drop(u8, u32),
}
