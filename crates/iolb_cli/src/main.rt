//! The program `iolb`: makes certificates of lower bounds on the loads of affine loop nests, checks and evaluates them, for one
//! processor, several, or levels of memory, with stores beside them, and plays schedules of the nests and moves over levels of memory.
#![tactic(auto)]

use iolb_commands::{called, finished, no_memory};
use iolb_host::{StdFiles, StdSink};
use std::env;
use std::process::ExitCode;

/// A call over the system's files and streams, with the words that the system gives. The last of the output is handed to the
/// system at the end, and the exit code is the status's number.
fn main(rt: HostRuntime) -> ExitCode {
    let alloc = rt.alloc();
    let mut err = StdSink::error(&rt);
    let Ok(mut out) = StdSink::output(alloc, &rt) else {
        return ExitCode::from(no_memory(&mut err).number());
    };
    let mut files = StdFiles::new(&rt);
    let status = called(alloc, env::args(&rt), &mut files, &mut out, &mut err);
    ExitCode::from(finished(status, &mut out).number())
}
