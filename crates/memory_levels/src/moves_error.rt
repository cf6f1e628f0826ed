//! Why a text of moves isn't read.

/// Why a text of moves isn't read.
#[derive(Clone, Copy, Debug, PartialEq, Eq)]
pub enum MovesError {
    /// The first line that is none of a move begins at this byte, counted from 0.
    Line(u64),
    /// There was no memory for the moves.
    Memory,
}
