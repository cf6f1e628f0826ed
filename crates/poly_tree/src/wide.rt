//! A value that could leave 128 bits.

/// A value could pass its limit, by its measure.
#[derive(Clone, Copy, Debug, PartialEq, Eq)]
pub struct Wide;
