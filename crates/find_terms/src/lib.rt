//! Terms of bounds and branches of them, found, and certificates that are made for a program: source trees that are found,
//! and the proposed branches that the checker accepts over them.
#![tactic(auto)]

mod accepted;
mod counted;
mod filling;
mod gathering;
mod growing;
pub mod law;
mod making;
mod named;
mod nests;
mod openings;
mod outlines;
pub mod products;
mod proposed;
mod trees;

pub use accepted::Accepted;
pub use cold_terms::Outline;
pub use filling::filled;
pub use making::{made, made_within};
pub use openings::opening;
pub use proposed::{ProposedBranches, candidates};
