//! Schedules of tiled programs: their texts, the order of the instances that they say, and their play at sizes of the
//! parameters with so many red pebbles, whose moves are written line by line and then their totals.
#![tactic(auto)]

mod error;
mod law;
mod lines;
mod ordered;
mod plays;
mod reading;
mod schedule;
mod unplayed;
mod writing;

pub use error::{SchedError, SchedFault};
pub use law::{replays_are_one, schedules_are_one};
pub use ordered::order;
pub use plays::{Play, graph_of, player_of};
pub use reading::read_schedule;
pub use schedule::{Key, Schedule};
pub use unplayed::{PlayFault, Unplayed};
