//! Schedules of a program played at sizes of its parameters, for one size of the fast memory after another, and tables of what
//! they load and store beside a bound.
#![tactic(auto)]

mod capacity;
mod choices;
mod plays;
mod ratio;
mod rows;
mod strings;
mod tables;

pub use capacity::Capacity;
pub use choices::{ScheduleText, put_choices};
pub use plays::{Played, play_schedule};
pub use rows::Row;
pub use tables::{Shape, write_head, write_row};
