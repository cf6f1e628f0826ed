//! Numbers of few bytes.

/// A number of a coordinate or of a credit; one that is too large is the largest.
pub fn narrow(number: usize) -> u8 {
    u8::try_from(number).unwrap_or(u8::MAX)
}

/// A number of a statement or of a read; one that is too large is the largest.
pub fn short(number: usize) -> u16 {
    u16::try_from(number).unwrap_or(u16::MAX)
}
