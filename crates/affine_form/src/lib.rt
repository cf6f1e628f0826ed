//! Affine forms, systems of rows, and what Farkas multipliers show of them.
//!
//! A form is a whole-number coefficient for each variable and a constant. A system is a list of forms, its rows,
//! each to be at least 0. Multipliers show that a goal follows from the rows of a system, or that no point meets
//! them all (Farkas 1902; only the sound direction is used).
#![tactic(auto)]

mod differences;
mod form;
mod matrix;
mod memory;
mod multipliers;
mod name;
mod rows;
mod same;
mod shown;
mod substitution;
mod system;
mod systems;
mod terms_text;
mod uni_pair;
mod variables;
mod wide;

pub use differences::{difference, widened};
pub use form::Form;
pub use matrix::Matrix;
pub use memory::Memory;
pub use multipliers::Multipliers;
pub use name::Name;
pub use rows::{cell_rows, order_rows, push_equal, push_guards, put, put_all, within_rows};
pub use shown::{empty, entails};
pub use system::System;
pub use systems::system_of;
pub use terms_text::TermsText;
pub use uni_pair::{NotInverse, UniPair};
pub use variables::{variable, variables_from};
pub use wide::{add_entry, add_product};
