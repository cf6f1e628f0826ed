//! Refusals of moves.

/// Why a move isn't allowed.
#[derive(Clone, Copy, Debug, PartialEq, Eq)]
pub enum Illegal {
    /// The vertex has no blue pebble.
    NoBlue,
    /// The vertex has no red pebble.
    NoRed,
    /// This predecessor, the first such, has no red pebble.
    NeedsRed(u32),
    /// The instance was computed before.
    Computed,
    /// All red pebbles are in use.
    Full,
    /// The vertex is an input.
    InputVertex,
}
