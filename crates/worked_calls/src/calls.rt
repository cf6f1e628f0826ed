//! Calls, and what they answer.

ghost use Rattle.std.specs.Prelude.{◌≢◌};

use crate::scene::{Failing, Scene};
use iolb_commands::{Status, run, sure_calls_have_no_fault};
use iolb_host::{Files, MemFiles, MemSink, SureFiles, SureSink};
use std::alloc::{AllocError, Global};
use std::collections::BTreeMap;

/// The numbers of the calls that fail: one, or none.
fn numbers(alloc: Global, number: Option<u32>) -> Result<Vec<u32>, AllocError> {
    let mut numbers = Vec::new(alloc);
    if let Some(number) = number {
        numbers.push(number)?;
    }
    Ok(numbers)
}

/// The words of a line.
fn words_of(alloc: Global, line: &str) -> Result<Vec<String>, AllocError> {
    let mut words = Vec::new(alloc);
    for word in line.split_whitespace() {
        words.push(word.to_string(alloc)?)?;
    }
    Ok(words)
}

/// The last lines of a text that ends with a newline, so many.
fn last_lines(text: &[u8], count: usize) -> &[u8] {
    let mut left = count;
    for place in (0..text.len()).rev() {
        if text[place] == b'\n' {
            if left == 0 {
                return &text[place + 1..];
            }
            left -= 1;
        }
    }
    text
}

/// What a call wrote to the output, what is printed of it, and its status.
#[derive(Drop)]
struct Answered {
    output: Vec<u8>,
    printed: Vec<u8>,
    status: u8,
}

/// The line of a status: of any but 0 with how many bytes the output gained.
fn status_line(alloc: Global, status: u8, gained: usize) -> Result<String, AllocError> {
    if status == 0 {
        format!(in alloc; "status 0\n")
    } else {
        format!(in alloc; "status {status}, output {gained} bytes\n")
    }
}

/// What is kept of a call that wrote this and ended with this status: all of the output, or the last lines of it, are printed,
/// and what was written to the standard error, and the status.
fn answer_of(
    alloc: Global,
    scene: &Scene,
    output: &[u8],
    error: &[u8],
    status: u8,
) -> Result<Answered, AllocError> {
    let written = match scene.last {
        Some(count) => last_lines(output, count),
        None => output,
    };
    let mut printed = Vec::from_slice(alloc, written)?;
    printed.extend_from_slice(error)?;
    printed.extend_from_slice(status_line(alloc, status, output.len())?.as_bytes())?;
    Ok(Answered {
        output: Vec::from_slice(alloc, output)?,
        printed,
        status,
    })
}

/// What a call with these words over these files answers, where a read or a write fails.
fn failing_answer(
    alloc: Global,
    scene: &Scene,
    words: &Vec<String>,
    files: BTreeMap<String, Vec<u8>>,
    failing: Failing,
) -> Result<Answered, AllocError> {
    let (reads, output, error) = match failing {
        Failing::Read(number) => (Some(number), None, None),
        Failing::Output(number) => (None, Some(number), None),
        Failing::Error(number) => (None, None, Some(number)),
    };
    let mut files = MemFiles::new(alloc, files, numbers(alloc, reads)?);
    let mut out = MemSink::new(alloc, numbers(alloc, output)?);
    let mut err = MemSink::new(alloc, numbers(alloc, error)?);
    let status = run(alloc, words, &mut files, &mut out, &mut err);
    answer_of(alloc, scene, out.bytes(), err.bytes(), status.number())
}

/// Makes a call over files and sinks of which every read and every write succeeds. It ends neither with 6 nor with 7.
fn sure_call(
    alloc: Global,
    words: &Vec<String>,
    files: &mut SureFiles,
    out: &mut SureSink,
    err: &mut SureSink,
) -> Status
    ensures read { result ≢ Status.ReadFault }
    ensures write { result ≢ Status.WriteFault }
{
    sure_calls_have_no_fault();
    run(alloc, words, files, out, err)
}

/// What a call with these words over these files answers.
fn answer(
    alloc: Global,
    scene: &Scene,
    words: &Vec<String>,
    files: BTreeMap<String, Vec<u8>>,
) -> Result<Answered, AllocError> {
    if let Some(failing) = scene.failing {
        return failing_answer(alloc, scene, words, files, failing);
    }
    let mut files = SureFiles::new(alloc, files);
    let mut out = SureSink::new(alloc);
    let mut err = SureSink::new(alloc);
    let status = sure_call(alloc, words, &mut files, &mut out, &mut err);
    answer_of(alloc, scene, out.bytes(), err.bytes(), status.number())
}

/// Writes lengths in a row, and the answer that they have in common.
fn write_lengths(
    alloc: Global,
    transcript: &mut Vec<u8>,
    first: usize,
    last: usize,
    answer: &[u8],
) -> Result<(), AllocError> {
    let line = if first == last {
        format!(in alloc; "after {first}\n")?
    } else {
        format!(in alloc; "after {first} to {last}\n")?
    };
    transcript.extend_from_slice(line.as_bytes())?;
    transcript.extend_from_slice(answer)
}

/// What the scene's call answers where a file is cut after so many bytes.
fn cut_answer<F: Files>(
    alloc: Global,
    scene: &Scene,
    folder: &mut F,
    words: &Vec<String>,
    name: &str,
    length: usize,
) -> Result<Vec<u8>, AllocError> {
    let mut files = scene.files(folder, words.as_slice())?;
    if let Some(bytes) = files.get_mut(name) {
        bytes.truncate(length);
    }
    Ok(answer(alloc, scene, words, files)?.printed)
}

/// The length of a file without its last byte; 0 where there is none.
fn length_without_end<F: Files>(
    scene: &Scene,
    folder: &mut F,
    name: &str,
) -> Result<usize, AllocError> {
    match scene.content(folder, name)? {
        Some(bytes) => Ok(bytes.len().saturating_sub(1)),
        None => Ok(0),
    }
}

/// Makes the scene's call with a file that is cut after each of its bytes, and writes the answers.
fn call_cut<F: Files>(
    alloc: Global,
    scene: &Scene,
    folder: &mut F,
    words: &Vec<String>,
    name: &str,
    transcript: &mut Vec<u8>,
) -> Result<(), AllocError> {
    let length = length_without_end(scene, folder, name)?;
    let mut first = 0;
    let mut common = cut_answer(alloc, scene, folder, words, name, 0)?;
    for cut in 1..length {
        let next = cut_answer(alloc, scene, folder, words, name, cut)?;
        if next.as_slice() != common.as_slice() {
            write_lengths(alloc, transcript, first, cut - 1, common.as_slice())?;
            first = cut;
            common = next;
        }
    }
    write_lengths(
        alloc,
        transcript,
        first,
        length.saturating_sub(1),
        common.as_slice(),
    )
}

/// Makes the scene's call with the words of a line, and writes what it answers.
pub(crate) fn call<F: Files>(
    alloc: Global,
    scene: &mut Scene,
    folder: &mut F,
    line: &str,
    transcript: &mut Vec<u8>,
) -> Result<(), AllocError> {
    let words = words_of(alloc, line)?;
    match &scene.cuts {
        Some(name) => call_cut(alloc, scene, folder, &words, name.as_str(), transcript),
        None => {
            let files = scene.files(folder, words.as_slice())?;
            let answer = answer(alloc, scene, &words, files)?;
            transcript.extend_from_slice(answer.printed.as_slice())?;
            scene.status = answer.status;
            scene.keep(answer.output)
        }
    }
}
