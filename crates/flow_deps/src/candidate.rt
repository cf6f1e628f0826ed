//! The trees that may be a read's plain tree.

/// A tree that may be a read's plain tree.
#[derive(Clone, Copy, Debug)]
pub enum Candidate {
    /// No write is earlier.
    NoWrite,
    /// The last write is by this statement, in the same turn of all loops around both.
    SameTurn { writer: u16 },
    /// The last write is by this statement one turn of this loop before, and there is none in the loop's first turn.
    TurnBefore { level: u8, writer: u16 },
}
