//! The computation graph of a program at given parameter values (Hong and Kung 1981), where it is within reach: at most
//! 2^21 vertices, and 2^24 turns of loops.
#![tactic(auto)]

mod cells;
mod counted;
mod fault;
mod graphs;
mod guards;
mod known;
pub mod limits;
mod listed;
mod predecessors;
mod values;

pub use counted::{Room, has_room};
pub use fault::GraphFault;
pub use graphs::build;
pub use listed::{Run, runs, values_of};
