//! The outside of the program: the files that it reads and the sinks that it writes.
//!
//! The traits say what a read or a write may answer. Files and sinks in memory tell what they hold, so that a contract
//! can name it. Those of the system tell no bytes. All tell their
//! faults: of a read with the name of the file, of a write by a count.
#![tactic(auto)]

mod chunks;
mod count;
mod failing;
mod fault_list;
mod files;
mod held;
mod mem_files;
mod mem_sink;
mod sink;
mod std_files;
mod std_sink;
mod sure_files;
mod sure_sink;

pub use files::{FileFault, Files};
pub use mem_files::MemFiles;
pub use mem_sink::MemSink;
pub use sink::{Sink, SinkFault};
pub use std_files::StdFiles;
pub use std_sink::StdSink;
pub use sure_files::{SureFiles, sure_files_never_fail};
pub use sure_sink::SureSink;

#[cfg(test)]
mod tests;
