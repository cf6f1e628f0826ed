//! Cold terms.

use affine_form::{Form, Matrix, Multipliers};
use domain_count::{Nest, Sums};
use reuse_paths::Leaf;

/// A matrix that turns the subscripts of a reference back into a number times a nest's variables.
#[derive(Debug, Drop)]
pub struct Inverse {
    pub matrix: Matrix,
    pub scale: u32,
}

/// A cold term: for each point of a nest an instance of a statement that reads a word which no instance wrote before.
/// The instance's loop values are forms over the parameters and the nest's variables.
#[derive(Debug, Drop)]
pub struct Cold {
    pub statement: u16,
    pub read: u16,
    pub nest: Nest,
    pub sums: Sums,
    pub point: Vec<Form>,
    pub inside: Vec<Multipliers>,
    pub inverse: Inverse,
    pub leaves: Vec<Leaf>,
}
