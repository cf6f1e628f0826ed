//! What the companion says of commands, of faults of program texts, and of conditions of certificates.
#![tactic(auto)]

mod commands;
mod conditions;
mod faults;

pub use commands::{Topic, USAGE, command_help};
pub use conditions::{Condition, condition_of};
pub use faults::{Fault, fault_of};
