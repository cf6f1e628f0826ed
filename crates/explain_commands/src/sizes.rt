//! The numbers that words give to parameters.

ghost use Rattle.std.specs.Prelude.{◌≡◌, length, IfOk};
ghost use Rattle.std.specs.List.{AllByRecursion};
ghost use Rattle.affine_form.specs.Form.{IsSmall};
ghost use Rattle.iolb_model.specs.declared.limits.TheConstants.{VALUE_SIZE};

use crate::stop::Stop;
use affine_form::{Memory, Name};
use iolb_model::limits::VALUE_SIZE;
use plain_pages::Page;
use std::alloc::Global;

/// The number that a word `NAME=NUMBER` gives to this name.
fn number_in(word: &str, name: &Name) -> Option<i64> {
    let (given, number) = word.split_once('=')?;
    if given.as_bytes() != name.bytes() {
        return None;
    }
    number.parse::<i64>().ok()
}

/// The number that some word gives to this name.
fn number_among(words: &[String], name: &Name) -> Option<i64> {
    for word in words {
        let found = number_in(word.as_str(), name);
        if found.is_some() {
            return found;
        }
    }
    None
}

/// Whether a word `NAME=NUMBER` names one of these parameters.
fn names_one(word: &str, names: &[Name]) -> bool {
    let (given, _) = word.split_once('=').unwrap_or((word, ""));
    for name in names {
        if given.as_bytes() == name.bytes() {
            return true;
        }
    }
    false
}

/// The page that these are the parameters to which words give numbers, behind what is wrong with a word or a name.
fn sizes_page(alloc: Global, names: &[Name], subject: &[u8], wrong: &str) -> Result<Page, Memory> {
    let mut page = Page::new(alloc);
    page.text("error: `")?;
    page.write_bytes(subject)?;
    page.text("`: ")?;
    page.line(wrong)?;
    page.text("help: give each parameter one number of size below 2^40:")?;
    for name in names {
        page.text(" ")?;
        page.write_bytes(name.bytes())?;
        page.text("=NUMBER")?;
    }
    page.line("")?;
    Ok(page)
}

/// The stop where a word or a parameter's name has this against it.
fn sizes_stop(alloc: Global, names: &[Name], subject: &[u8], wrong: &str) -> Stop {
    match sizes_page(alloc, names, subject, wrong) {
        Ok(page) => Stop::Wrong(page),
        Err(Memory) => Stop::Memory,
    }
}

/// The first word that names none of these parameters.
fn misnamed<'a>(words: &'a [String], names: &[Name]) -> Option<&'a str> {
    for word in words {
        if !names_one(word.as_str(), names) {
            return Some(word.as_str());
        }
    }
    None
}

/// The numbers that words `NAME=NUMBER` give to parameters with these names, one word for each, each number of size
/// below 2^40; else the stop that tells which word or name is wrong.
pub(crate) fn sizes_for(alloc: Global, names: &[Name], words: &[String]) -> Result<Vec<i64>, Stop>
    ensures each { IfOk result (λ sizes. length sizes.items ≡ length names.now) }
    ensures small { IfOk result (λ sizes. AllByRecursion (IsSmall VALUE_SIZE) sizes.items) }
{
    let mut sizes = Vec::new(alloc);
    if let Some(word) = misnamed(words, names) {
        let wrong = "this word names no parameter of the program";
        return Err(sizes_stop(alloc, names, word.as_bytes(), wrong));
    }
    for name in names {
        let Some(number) = number_among(words, name) else {
            let wrong = "no word gives this parameter a number";
            return Err(sizes_stop(alloc, names, name.bytes(), wrong));
        };
        if u128::from(number.unsigned_abs()) >= VALUE_SIZE {
            return Err(sizes_stop(
                alloc,
                names,
                name.bytes(),
                "its number is of size 2^40 or more",
            ));
        }
        sizes.push(number)?;
    }
    match words.get(names.len()) {
        Some(word) => {
            let wrong = "this word is one too many";
            Err(sizes_stop(alloc, names, word.as_str().as_bytes(), wrong))
        }
        None => Ok(sizes),
    }
}
