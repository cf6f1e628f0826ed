//! Messages about faults of program texts, in the form that compilers and editors share.
#![tactic(auto)]

mod key;
mod message;
mod rules;
mod words;

pub use message::fault_message;
pub use rules::Rule;
