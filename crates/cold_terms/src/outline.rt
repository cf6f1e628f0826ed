//! Outlines of cold terms.

use affine_form::Form;
use domain_count::Nest;
use wavefront::Inverse;

/// What a cold term is filled into: its read, its nest, the loop values of the reading instance as forms over the
/// parameters and the nest's variables, and the matrix which is to show that different points read different cells.
#[derive(Debug, Drop)]
pub struct Outline {
    pub statement: u16,
    pub read: u16,
    pub nest: Nest,
    pub point: Vec<Form>,
    pub inverse: Inverse,
}
