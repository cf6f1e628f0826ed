//! Replay: an order of computation played on a computation graph by the rule that the word goes whose next use is furthest.
//! (Belady 1966.)
#![tactic(auto)]

mod counts;
pub mod fault;
mod faults;
mod hand;
pub mod law;
mod lazy_queue;
pub mod played;
pub mod player;
pub mod replays;
mod turn;
mod uses;
mod uses_in;

pub use fault::ReplayFault;
pub use law::what_is_played_is_complete;
pub use played::Replay;
pub use player::Player;
pub use replays::replay;
