//! References to arrays.

use affine_form::Form;

/// A reference to an array: the array's number, and a form for each subscript, over the parameters and the loops
/// around the statement.
#[derive(Debug, Drop)]
pub struct Reference {
    pub array: u16,
    pub subs: Vec<Form>,
}
