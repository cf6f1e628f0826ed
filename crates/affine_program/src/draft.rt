//! Parts of a program that aren't yet known to be one.

use crate::item::Item;
use crate::statement::Statement;
use affine_form::{Name, System};

/// What a program is made of.
#[derive(Debug, Drop)]
pub(crate) struct Draft {
    pub(crate) params: Vec<Name>,
    pub(crate) assumed: System,
    pub(crate) arrays: Vec<(Name, u8)>,
    pub(crate) statements: Vec<Statement>,
    pub(crate) tree: Vec<Item>,
}
