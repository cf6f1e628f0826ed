//! Pieces of footprints.

use affine_form::{Form, System};

/// Where the vertices of a piece are: input cells of an array, or instances of a statement, by number.
#[derive(Clone, Copy, Debug)]
pub enum Target {
    Cell(u16),
    Instance(u16),
}

/// Vertices: for all values of the parameters and of some variables at which the rows are at least 0, that of the target
/// with these subscripts or loop values.
#[derive(Debug, Drop)]
pub struct Piece {
    pub target: Target,
    pub vars: u8,
    pub rows: System,
    pub point: Vec<Form>,
}
