//! Tokens.

/// What a token is.
#[derive(Clone, Copy, PartialEq, Eq)]
pub enum TokenKind {
    /// The head of a line that names parameters, up to the last byte of `#pragma iolb param`.
    Parameters,
    /// The head of a line that assumes, up to the last byte of `#pragma iolb assume`.
    Assumptions,
    /// A letter or `_`, then letters, digits and `_`.
    Name,
    /// A name that C keeps for itself, as `for`.
    Word,
    /// A digit, or `.` and a digit, then letters, digits, `.`, and signs behind `e` or `E`.
    Number,
    /// One of C's symbols, of one or two bytes.
    Symbol,
    /// The end of a directive's line.
    LineEnd,
    /// A line between the opening and the closing one that begins with `#pragma iolb`. No tokens follow it.
    Directive,
    /// A byte that begins no token, or a comment that isn't closed. No tokens follow it there.
    Bad,
    /// The closing line.
    End,
}

/// A token: what it is, its first byte's place in the text, from 0, and how many bytes it has. The last four kinds have
/// none.
#[derive(Clone, Copy)]
pub struct Token {
    pub kind: TokenKind,
    pub place: usize,
    pub length: usize,
}
