//! The parts of certificates: whether they are within their limits, and whether they fit a program (condition 1): lists,
//! forms, nests, matrices, polynomials, source trees, entries at their leaves, spots, walks, families of walks, and credited
//! nests.
#![tactic(auto)]

pub mod counts;
pub mod credits;
pub mod entries;
pub mod families;
pub mod family_limits;
pub mod labels;
pub mod lists;
pub mod part_limits;
mod sources;
mod tree_limits;
pub mod trees;
pub mod walk_limits;
pub mod walks;

pub use tree_limits::rows_are_small;
