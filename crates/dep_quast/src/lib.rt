//! Source trees: quasi-affine selection trees whose leaves name, for each point of a statement's domain, the instance
//! that last wrote the cell which a read of the statement reads (Feautrier 1991), with Farkas multipliers that show it.
#![tactic(auto)]

mod check;
mod check_all;
pub mod claimed;
pub mod context;
pub mod fitting;
mod leaves;
pub mod levels;
pub mod open_leaves;
pub mod point_rows;
mod quast;
mod quasts;
pub mod reader;
mod source_claims;
pub mod truth;
pub mod writes;
mod writes_shown;

pub use check::check_quast;
pub use check_all::check_quasts;
pub use quast::{Quast, leaf_count};
pub use quasts::Quasts;
