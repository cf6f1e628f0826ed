//! Worked calls of `iolb`, as scripts say them.
//!
//! Each word behind the program's name is the name of a script. Its lines are printed, and behind each call what it wrote to
//! the output, what it wrote to the standard error, and `status` with its number. The program ends with the status of the last
//! call.
//!
//! The lines of a script:
//!
//! - `# TEXT` is a comment;
//! - `file NAME TEXT` makes a file of these bytes, where `\n` stands for a newline;
//! - `scop NAME TEXT` makes the file of a program whose lines between the opening and the closing one are these;
//! - `repeat NAME N TEXT` makes a file of N times the text;
//! - `$ WORDS` is a call with these words, over the files that they name: those that the script made, and those that lie
//!   in the folder.
//!
//! The other lines are about the next call alone:
//!
//! - `edit NAME OLD -> NEW` puts a text in the place of the first that is OLD, in one file, and says so where there is none;
//! - `cut NAME N` cuts a file after N bytes;
//! - `cuts NAME` repeats the call for each N below the file's length without its last byte, and cuts the file after N bytes;
//!   lengths in a row with the same answer have it once;
//! - `keep NAME` makes a file of what the call writes to the output;
//! - `last N` prints only the last N lines that the call wrote to the output;
//! - `fail read N`, `fail out N`, `fail err N` let the read or the write of this number fail, counted from 0.
#![tactic(auto)]

mod calls;
mod lines;
mod scene;

use iolb_host::StdFiles;
use std::io::Write;
use std::process::ExitCode;
use std::{env, io};

fn main(rt: HostRuntime) -> io::Result<ExitCode> {
    let alloc = rt.alloc();
    let mut folder = StdFiles::new(&rt);
    let mut transcript = Vec::new(alloc);
    let mut names = env::args(&rt)?;
    let _program = names.next();
    let mut status = 0;
    for name in names {
        status = lines::play(alloc, &mut folder, name.as_str(), &mut transcript)?;
    }
    io::writer(&rt).write_all(transcript.as_slice())?;
    Ok(ExitCode::from(status))
}
