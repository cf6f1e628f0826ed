//! What is claimed to be stored: outputs, which are instances that write cells last, and stores, which are outputs beside a
//! branch of a certificate; and the limits of both.
#![tactic(auto)]

mod limits;
mod output;
mod stores;

pub use limits::OUTPUTS;
pub use output::Output;
pub use stores::Stores;
