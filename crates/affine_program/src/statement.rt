//! Statements.

use crate::reference::Reference;
use affine_form::Form;

/// A statement: the lower and the upper bound of each loop around it, outermost first, and whether it runs downward; the rows
/// of all guards around it, outermost first, over the parameters and all loops around it; the reference that it writes, and
/// those that it reads, in order, repeats included.
#[derive(Debug, Drop)]
pub struct Statement {
    pub bounds: Vec<(Form, Form)>,
    pub down: Vec<bool>,
    pub guards: Vec<Form>,
    pub writes: Reference,
    pub reads: Vec<Reference>,
}
