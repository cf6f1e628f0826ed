//! What `iolb-explain` does when it is called: it says in words what `iolb` answers by numbers.
#![tactic(auto)]

mod bounding;
mod call;
mod certificates;
mod comparing;
mod files;
mod helping;
mod programs;
mod refusals;
mod requests;
mod schedules;
mod sizes;
mod status;
mod stop;
mod system;
mod tries;
mod vertices;

pub use call::run;
pub use status::Status;
pub use system::run_from_system;
