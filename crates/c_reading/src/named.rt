//! Kinds of names.

/// What a name stands for, from where it is first seen.
#[derive(Clone, Copy)]
pub enum Kind {
    /// A parameter, by its number.
    Parameter(u8),
    /// The loop at this depth, from 0, in whose body the text now is.
    OpenLoop(u8),
    /// A loop that was left, or whose header is read.
    ClosedLoop,
    /// An array, by its number, with its number of subscripts.
    Array(u16, usize),
}
