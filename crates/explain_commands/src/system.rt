//! The call that the system makes.

use crate::call::run;
use crate::status::Status;
use iolb_host::{Files, Sink, StdSink};
use std::alloc::{AllocError, Global};
use std::env::Args;
use std::io;
use std::io::{BufWriter, Write};

/// The words after the program's name, of all the words of a call.
fn without_program_name(alloc: Global, mut words: Args) -> Result<Vec<String>, AllocError> {
    let _name = words.next();
    let mut arguments = Vec::new(alloc);
    for word in words {
        arguments.push(word)?;
    }
    Ok(arguments)
}

/// Calls the program with the words that the system gave, of which the first is its name, and hands what was written to the
/// output on to the system. Words that are no text are refused as no words are.
pub fn run_from_system<F: Files, W: Write + Drop, E: Sink>(
    alloc: Global,
    words: io::Result<Args>,
    files: &mut F,
    out: &mut StdSink<BufWriter<W>>,
    err: &mut E,
) -> Status {
    let arguments = match words {
        Ok(words) => without_program_name(alloc, words),
        Err(_) => Ok(Vec::new(alloc)),
    };
    let Ok(arguments) = arguments else {
        return Status::Failed;
    };
    let status = run(alloc, arguments.as_slice(), files, out, err);
    match out.finish() {
        Ok(()) => status,
        Err(_) => Status::Failed,
    }
}
