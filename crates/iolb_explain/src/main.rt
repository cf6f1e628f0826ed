//! The program `iolb-explain`: says in words what `iolb` answers by numbers.
#![tactic(auto)]

use explain_commands::{Status, run_from_system};
use iolb_host::{StdFiles, StdSink};
use std::env;
use std::process::ExitCode;

/// A call over the system's files and streams, with the words that the system gives.
fn main(rt: HostRuntime) -> ExitCode {
    let alloc = rt.alloc();
    let mut err = StdSink::error(&rt);
    let Ok(mut out) = StdSink::output(alloc, &rt) else {
        return ExitCode::from(Status::Failed.number());
    };
    let mut files = StdFiles::new(&rt);
    let status = run_from_system(alloc, env::args(&rt), &mut files, &mut out, &mut err);
    ExitCode::from(status.number())
}
