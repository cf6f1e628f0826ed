//! Worked calls of `iolb-explain`, as a script says them.
//!
//! Each word behind the program's name is the name of a script. Its lines are printed, and behind each call what it
//! wrote to the output, what it wrote to the standard error, and `status` with its number. The program ends with the
//! status of the last call.
//!
//! The lines of a script:
//!
//! - `# TEXT` is a comment;
//! - `file NAME TEXT` makes a file of these bytes, where `\n` stands for a newline;
//! - `scop NAME TEXT` makes the file of a program whose lines between the opening and the closing one are these;
//! - `edit NAME OTHER OLD -> NEW` makes the file NAME of OTHER, which the script made or which lies in the folder, with NEW in the place
//!   of the first text that is OLD;
//! - `$ WORDS` is a call with these words, over the files that they name: those that the script made, and those that lie in the folder.
#![tactic(auto)]

mod script;

use iolb_host::StdFiles;
use std::io::Write;
use std::process::ExitCode;
use std::{env, io};

fn main(rt: HostRuntime) -> io::Result<ExitCode> {
    let alloc = rt.alloc();
    let mut folder = StdFiles::new(&rt);
    let mut transcript = Vec::new(alloc);
    let mut names = env::args(&rt)?;
    let _program = names.next();
    let mut status = 0;
    for name in names {
        status = script::play(alloc, &mut folder, name.as_str(), &mut transcript)?;
    }
    io::writer(&rt).write_all(transcript.as_slice())?;
    Ok(ExitCode::from(status))
}
