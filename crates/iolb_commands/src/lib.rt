//! What `iolb` does when it is called: it makes certificates of lower bounds on the loads of affine loop nests, checks
//! certificates, evaluates them, for one processor, several, or levels of memory, and plays schedules of the nests and moves over
//! levels of memory, whose loads are upper bounds.
#![tactic(auto)]

mod answer;
mod answered;
mod bounding;
mod call;
mod checking;
mod climbing;
mod law;
mod levelling;
mod lines;
mod playing;
mod pointer_text;
mod requests;
mod sampling;
mod sharing;
mod status;
mod stop;
mod system;
mod traffic;
mod writing;

pub use call::run;
pub use law::{causes_are_answered, outcomes_are_one, sure_calls_have_no_fault};
pub use status::Status;
pub use system::{called, finished};
pub use writing::no_memory;
