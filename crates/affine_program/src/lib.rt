//! Affine loop programs.
#![tactic(auto)]

mod assumptions;
mod domain;
mod draft;
mod item;
mod limits;
mod names;
mod printable;
mod program;
mod reference;
mod statement;
mod well_formed;

pub use assumptions::first_unmet;
pub use item::Item;
pub use limits::{is_small, is_small_form};
pub use names::with_name;
pub use program::Program;
pub use reference::Reference;
pub use statement::Statement;
