//! What bounds on loads say of several processors, each with a fast memory of its own over one slow memory: how many loads the
//! busiest of them makes at least. (The red-blue pebble game of Hong and Kung 1981, with red pebbles for each processor.)
#![tactic(auto)]

mod busiest;
mod evaluation;
mod fault;
pub mod holds;
pub mod merging;
pub mod shares;

pub use busiest::parallel;
pub use evaluation::value_in_parallel;
pub use fault::ParallelFault;
