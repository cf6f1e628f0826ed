//! What multipliers of a certificate are asked to show: the variables, the rows and the goal of their system, and what they sum to.
#![tactic(auto)]

mod fits;
mod leaves;
mod names;
mod nests;
mod steps;
mod sums;
mod systems;
mod trees;

pub use fits::is_there;
pub use names::{nest_names, put_loop_names};
pub use nests::{NestAsked, write_inside, write_range};
pub use steps::{behind, index_at, key_at};
pub use sums::Sum;
pub use systems::{Says, System};
pub use trees::write_in_tree;
