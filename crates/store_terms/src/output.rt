//! Outputs.

use affine_form::{Form, Multipliers};
use domain_count::{Nest, Sums};
use wavefront::Inverse;

/// An output: for each point of a nest an instance of a statement that writes its cell last. The instance's loop values are
/// forms over the parameters and the nest's variables, which the matrix turns back into a number times these variables. That
/// the instance is in its statement's domain is shown by `inside`, and by `later` that no later instance writes the cell: for
/// each statement that writes the array, ascending, and each level at which its instances may come later, ascending.
#[derive(Debug, Drop)]
pub struct Output {
    pub statement: u16,
    pub nest: Nest,
    pub sums: Sums,
    pub point: Vec<Form>,
    pub inside: Vec<Multipliers>,
    pub inverse: Inverse,
    pub later: Vec<Multipliers>,
}
