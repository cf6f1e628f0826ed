//! The program's call.

ghost use Rattle.std.specs.Prelude.{◌≡◌};
ghost use Rattle.explain_commands.specs.Calls.{EndsWith};

use crate::files::word_at;
use crate::requests::answer_to;
use crate::status::Status;
use crate::stop::Stop;
use affine_form::Memory;
use help_pages::USAGE;
use iolb_host::{FileFault, Files, Sink};
use plain_pages::Page;
use std::alloc::Global;

/// What is said where the file of this name wasn't read.
fn file_words(fault: FileFault) -> &'static str {
    match fault {
        FileFault::Missing => "file missing: ",
        FileFault::TooLong => "file too long: ",
        FileFault::Failed => "read failed: ",
        FileFault::Memory => "out of memory: ",
    }
}

/// The page that says why the file that the word at a place after the command names wasn't read.
fn file_page(
    alloc: Global,
    words: &[String],
    place: usize,
    fault: FileFault,
) -> Result<Page, Memory> {
    let mut page = Page::new(alloc);
    page.text(file_words(fault))?;
    page.line(word_at(words, place.saturating_add(1)))?;
    Ok(page)
}

/// Says on the standard error why the file that the word at a place after the command names wasn't read, as far as that can be said.
fn report_file<E: Sink>(
    alloc: Global,
    words: &[String],
    place: usize,
    fault: FileFault,
    err: &mut E,
) {
    if let Ok(page) = file_page(alloc, words, place, fault) {
        let _told = err.put(page.bytes());
    }
}

/// Answers the words after the program's name: what was asked for, or what was found wrong, is written to the output, and why there
/// is no answer to the standard error.
pub fn run<F: Files, O: Sink, E: Sink>(
    alloc: Global,
    words: &[String],
    files: &mut F,
    out: &mut O,
    err: &mut E,
) -> Status
    ensures told_stays { F.told files.new ≡ F.told files.old }
    ensures ends { EndsWith result (O.written out.old) (O.written out.new) (E.written err.old) (E.written err.new) }
{
    match answer_to(alloc, words, files) {
        Ok(page) => match out.put(page.bytes()) {
            Ok(()) => Status::Done,
            Err(_) => Status::Failed,
        },
        Err(Stop::Wrong(page)) => match out.put(page.bytes()) {
            Ok(()) => Status::Wrong,
            Err(_) => Status::Failed,
        },
        Err(Stop::Words) => match err.put(USAGE.as_bytes()) {
            Ok(()) => Status::Words,
            Err(_) => Status::Failed,
        },
        Err(Stop::File { place, fault }) => {
            report_file(alloc, words, place, fault, err);
            Status::Failed
        }
        Err(Stop::Memory) => {
            let _told = err.put(b"out of memory\n");
            Status::Failed
        }
    }
}
