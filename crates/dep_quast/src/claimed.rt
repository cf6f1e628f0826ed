//! What a leaf claims of a source.

use affine_form::{Form, Multipliers};

/// A leaf that names a source, by its parts.
#[derive(Clone, Copy)]
pub struct Claimed<'a> {
    pub statement: u16,
    pub level: u8,
    pub point: &'a [Form],
    pub domain: &'a [Multipliers],
    pub cell: &'a [Multipliers],
    pub before: &'a [Multipliers],
    pub between: &'a [Multipliers],
}
