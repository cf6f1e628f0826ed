//! Cold terms, part by part: what shows that their instances are in their domain, read inputs, and read different cells.
#![tactic(auto)]

mod entries;
mod outline;
pub mod outlined;
mod undone;

pub use outline::Outline;
