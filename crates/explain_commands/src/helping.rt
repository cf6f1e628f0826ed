//! Help.

use crate::stop::Stop;
use help_pages::{Topic, USAGE, command_help, condition_of, fault_of};
use plain_pages::Page;
use std::alloc::Global;

/// The name of the program and its version.
const VERSION: &str = "iolb-explain 1";

/// The answer that is this text.
fn answer_of(alloc: Global, text: &str) -> Result<Page, Stop> {
    let mut page = Page::new(alloc);
    page.text(text)?;
    Ok(page)
}

/// What is said of a fault of this number.
fn fault_help(alloc: Global, word: &str) -> Result<Page, Stop> {
    let Ok(number) = word.parse::<u64>() else {
        return Err(Stop::Words);
    };
    match fault_of(number) {
        Some(fault) => {
            let (wrong, instead) = (fault.wrong, fault.instead);
            answer_of(
                alloc,
                format!(in alloc; "fault {number}: {wrong}\nhelp: {instead}\n")?.as_str(),
            )
        }
        None => Err(Stop::Words),
    }
}

/// What is said of a condition of this number.
fn condition_help(alloc: Global, word: &str) -> Result<Page, Stop> {
    let Ok(number) = word.parse::<u64>() else {
        return Err(Stop::Words);
    };
    match condition_of(number) {
        Some(condition) => {
            let (holds, place) = (condition.holds, condition.place);
            answer_of(
                alloc,
                format!(in alloc; "condition {number}: {holds}\nplace: {place}\n")?.as_str(),
            )
        }
        None => Err(Stop::Words),
    }
}

/// What is said of what words after `help` name.
pub(crate) fn help_answer(alloc: Global, words: &[String]) -> Result<Page, Stop> {
    match words {
        [] => answer_of(alloc, USAGE),
        [word] => match Topic::of(word.as_str()) {
            Some(topic) => answer_of(alloc, command_help(topic)),
            None => Err(Stop::Words),
        },
        [kind, number] => match kind.as_str() {
            "fault" => fault_help(alloc, number.as_str()),
            "condition" => condition_help(alloc, number.as_str()),
            _ => Err(Stop::Words),
        },
        _ => Err(Stop::Words),
    }
}

/// The program's name and version.
pub(crate) fn version_answer(alloc: Global) -> Result<Page, Stop> {
    let mut page = Page::new(alloc);
    page.line(VERSION)?;
    Ok(page)
}
