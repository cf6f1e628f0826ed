//! Questions about systems, answered by multipliers that are looked for; leaves of source trees, found with the multipliers
//! that show them; and source trees of reads, found: the plain ones first, in their order, and past them trees that split on candidate last
//! writers (Feautrier 1991), with the multipliers that show them.
#![tactic(auto)]

mod answers;
pub mod candidate;
mod candidates;
mod growth;
pub mod leaves;
mod no_writes;
mod origins;
mod plain_trees;
mod planted;
pub mod points;
mod solved;
mod source_trees;
mod wanted;

pub use answers::{goals_answered, is_answered, system_answered, with_answers};
pub use plain_trees::plain;
pub use source_trees::quast;
pub use wanted::Wanted;
