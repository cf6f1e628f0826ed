//! A search for Farkas multipliers that show a goal from the rows of a system.
//!
//! Short lists are found by halves: two halves of at most two rows each make the goal where their values at a fixed point add up
//! to the goal's. Longer ones are found by linear programming.
#![tactic(auto)]

mod chains;
mod dictionary;
mod fingerprint;
mod half;
mod line;
mod longer;
mod proving;
mod short;

pub use proving::prove;
pub use short::short_list;
