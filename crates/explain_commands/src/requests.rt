//! What words ask for.

ghost use Rattle.std.specs.Prelude.{◌≡◌};

use crate::bounding::bound_answer;
use crate::certificates::Given;
use crate::comparing::{Compared, compare_answer, schedules_in};
use crate::files::read_at;
use crate::helping::{help_answer, version_answer};
use crate::programs::program_answer;
use crate::refusals::refusal_answer;
use crate::schedules::schedule_answer;
use crate::stop::Stop;
use crate::vertices::vertex_answer;
use affine_form::Memory;
use comparisons::{Capacity, Shape};
use iolb_host::Files;
use iolb_model::limits::{CERTIFICATE_BYTES, PROGRAM_BYTES, SCHEDULE_BYTES};
use plain_pages::Page;
use std::alloc::Global;

/// The answer to `program` with these words after it.
fn program_request<F: Files>(alloc: Global, words: &[String], files: &mut F) -> Result<Page, Stop>
    ensures told_stays { F.told files.new ≡ F.told files.old }
{
    let [file] = words else {
        return Err(Stop::Words);
    };
    let text = read_at(words, 0, PROGRAM_BYTES, files)?;
    program_answer(alloc, file.as_str(), text.as_slice())
}

/// The answer to `vertex` with these words after it.
fn vertex_request<F: Files>(alloc: Global, words: &[String], files: &mut F) -> Result<Page, Stop>
    ensures told_stays { F.told files.new ≡ F.told files.old }
{
    if words.len() < 2 {
        return Err(Stop::Words);
    }
    let text = read_at(words, 0, PROGRAM_BYTES, files)?;
    vertex_answer(alloc, words, text.as_slice())
}

/// The answer to `schedule` with these words after it.
fn schedule_request<F: Files>(alloc: Global, words: &[String], files: &mut F) -> Result<Page, Stop>
    ensures told_stays { F.told files.new ≡ F.told files.old }
{
    if words.len() < 2 {
        return Err(Stop::Words);
    }
    let text = read_at(words, 0, PROGRAM_BYTES, files)?;
    let schedule = read_at(words, 1, SCHEDULE_BYTES, files)?;
    schedule_answer(alloc, words, text.as_slice(), schedule.as_slice())
}

/// The capacities that a word lists with commas between them.
fn capacities_in(alloc: Global, word: &str) -> Result<Option<Vec<Capacity>>, Memory> {
    let mut all = Vec::new(alloc);
    for part in word.split(',') {
        let Ok(words) = part.parse::<u64>() else {
            return Ok(None);
        };
        match Capacity::new(words) {
            Some(capacity) => all.push(capacity)?,
            None => return Ok(None),
        }
    }
    Ok(Some(all))
}

/// Whether a word has digits and commas alone, and a digit in front.
fn is_list(word: &str) -> bool {
    let bytes = word.as_bytes();
    matches!(bytes.first().copied(), Some(b'0'..=b'9'))
        && bytes
            .iter()
            .all(|byte| byte.is_ascii_digit() || *byte == b',')
}

/// The words in front of the first that lists numbers, and those from it on.
fn split_at_list(words: &[String]) -> (&[String], &[String]) {
    for (place, word) in words.iter().enumerate() {
        if is_list(word.as_str()) {
            return words.split_at(place);
        }
    }
    words.split_at(words.len())
}

/// The shape of a table that a word in front names, and how many words that takes.
fn shape_in(words: &[String]) -> (Shape, usize) {
    match words.first() {
        Some(word) => match word.as_str() {
            "csv" => (Shape::Csv, 1),
            "json" => (Shape::Json, 1),
            _ => (Shape::Text, 0),
        },
        None => (Shape::Text, 0),
    }
}

/// Reads the files of schedules that so many words name, from a place on.
fn read_schedules<F: Files>(
    alloc: Global,
    words: &[String],
    first: usize,
    count: usize,
    files: &mut F,
) -> Result<Vec<Vec<u8>>, Stop>
    ensures told_stays { F.told files.new ≡ F.told files.old }
{
    let mut all = Vec::new(alloc);
    for number in 0..count {
        all.push(read_at(words, first.saturating_add(number), SCHEDULE_BYTES, files)?)?;
    }
    Ok(all)
}

/// The answer to `compare` with these words after it.
fn compare_request<F: Files>(alloc: Global, words: &[String], files: &mut F) -> Result<Page, Stop>
    ensures told_stays { F.told files.new ≡ F.told files.old }
{
    let (shape, skipped) = shape_in(words);
    let rest = words.get(skipped..).unwrap_or(&[]);
    let [file, name, more @ ..] = rest else {
        return Err(Stop::Words);
    };
    let (names, numbers) = split_at_list(more);
    let [list, given @ ..] = numbers else {
        return Err(Stop::Words);
    };
    let Some(capacities) = capacities_in(alloc, list.as_str())? else {
        return Err(Stop::Words);
    };
    let text = read_at(words, skipped, PROGRAM_BYTES, files)?;
    let certificate = read_at(words, skipped.saturating_add(1), CERTIFICATE_BYTES, files)?;
    let texts = read_schedules(alloc, words, skipped.saturating_add(2), names.len(), files)?;
    let schedules = schedules_in(alloc, names, texts.as_slice())?;
    let compared = Compared {
        shape,
        schedules: schedules.as_slice(),
        capacities: capacities.as_slice(),
    };
    let stated = Given {
        name: name.as_str(),
        text: certificate.as_slice(),
    };
    compare_answer(
        alloc,
        file.as_str(),
        text.as_slice(),
        stated,
        compared,
        given,
    )
}

/// The answer to `refusal` with these words after it.
fn refusal_request<F: Files>(alloc: Global, words: &[String], files: &mut F) -> Result<Page, Stop>
    ensures told_stays { F.told files.new ≡ F.told files.old }
{
    let [file, name] = words else {
        return Err(Stop::Words);
    };
    let text = read_at(words, 0, PROGRAM_BYTES, files)?;
    let certificate = read_at(words, 1, CERTIFICATE_BYTES, files)?;
    let given = Given {
        name: name.as_str(),
        text: certificate.as_slice(),
    };
    refusal_answer(alloc, file.as_str(), text.as_slice(), given)
}

/// The answer to `bound` with these words after it.
fn bound_request<F: Files>(alloc: Global, words: &[String], files: &mut F) -> Result<Page, Stop>
    ensures told_stays { F.told files.new ≡ F.told files.old }
{
    match words {
        [file] => {
            let text = read_at(words, 0, PROGRAM_BYTES, files)?;
            bound_answer(alloc, file.as_str(), text.as_slice(), None)
        }
        [file, name] => {
            let text = read_at(words, 0, PROGRAM_BYTES, files)?;
            let certificate = read_at(words, 1, CERTIFICATE_BYTES, files)?;
            let given = Given {
                name: name.as_str(),
                text: certificate.as_slice(),
            };
            bound_answer(alloc, file.as_str(), text.as_slice(), Some(given))
        }
        _ => Err(Stop::Words),
    }
}

/// The answer to the words after the program's name.
pub(crate) fn answer_to<F: Files>(
    alloc: Global,
    words: &[String],
    files: &mut F,
) -> Result<Page, Stop>
    ensures told_stays { F.told files.new ≡ F.told files.old }
{
    let Some((command, rest)) = words.split_first() else {
        return Err(Stop::Words);
    };
    match command.as_str() {
        "help" => help_answer(alloc, rest),
        "version" => version_answer(alloc),
        "program" => program_request(alloc, rest, files),
        "vertex" => vertex_request(alloc, rest, files),
        "schedule" => schedule_request(alloc, rest, files),
        "compare" => compare_request(alloc, rest, files),
        "bound" => bound_request(alloc, rest, files),
        "refusal" => refusal_request(alloc, rest, files),
        _ => Err(Stop::Words),
    }
}
