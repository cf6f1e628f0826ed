//! Bounds by stretches of moves: how many loads and other events lie between the computations of points that reuse words
//! along walks, by the uniform cover inequality. (The partition argument of Hong and Kung 1981.)
#![tactic(auto)]

mod bound;
mod cover_shown;
pub mod credits_counted;
mod families_checked;
mod inside_shown;
mod partition_checker;
pub mod partitions;
pub mod pebblings;
pub mod runs;
mod sound_checker;
pub mod stretches;
mod term;
pub mod term_runs;
pub mod terms_loaded;
mod unit_shown;

pub use bound::weight_of;
pub use partition_checker::{check_partition, partition_pieces};
pub use sound_checker::check_sound;
pub use term::{Partition, PartitionBound, Shape};
