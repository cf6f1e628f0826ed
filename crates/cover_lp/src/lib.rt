//! Least covers of coordinates by sets: the cover's weights and a packing of the same total, in whole numbers over the least
//! denominator.
#![tactic(auto)]

mod cover;
pub mod law;
mod least;
mod packings;
mod ratio;
mod tableau;
mod weights;

pub use cover::{CoordSet, Cover, CoverFault};
pub use least::least_cover;
