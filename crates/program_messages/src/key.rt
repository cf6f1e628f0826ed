//! The word by which the rule for a fault is looked up.

ghost use Rattle.std.specs.Prelude.{◌≤◌, length};

use crate::rules::TYPES;
use crate::words::{first_word, is_listed, last_word, without_spaces};

/// The functions that give a least or a greatest value.
const MINIMA: &str = "min max fmin fmax MIN MAX imin imax floord ceild";

/// What a type is that stands behind a text: the type of a loop's name, a cast, or the beginning of a declaration.
fn type_key<'a>(before: &[u8], word: &'a [u8]) -> &'a [u8] {
    let before = without_spaces(before);
    match before.strip_suffix(b"(") {
        Some(head) => {
            if last_word(without_spaces(head)) == b"for".as_slice() {
                b"LOOP_TYPE"
            } else {
                b"CAST"
            }
        }
        None => word,
    }
}

/// What a type is that stands at the end of a text, with or without the bracket of a cast behind it; none where none stands there.
/// A type's name is one of C that programs may use otherwise, so the fault is at what follows it.
fn trailing_type(before: &[u8]) -> Option<&[u8]> {
    let front = without_spaces(before);
    let front = match front.strip_suffix(b")") {
        Some(cast) => without_spaces(cast),
        None => front,
    };
    let word = last_word(front);
    if !is_listed(TYPES, word) {
        return None;
    }
    Some(type_key(front.strip_suffix(word)?, word))
}

/// What is called where a bracket stands behind a text.
fn call_key(before: &[u8]) -> &'static [u8] {
    if is_listed(MINIMA, last_word(without_spaces(before))) {
        b"MINIMUM"
    } else {
        b"CALL"
    }
}

/// The sign of a step that goes the other way than the comparison before it.
fn other_sign(before: &[u8]) -> u8 {
    for byte in before.iter().rev() {
        if *byte == b'>' {
            return b'+';
        }
        if *byte == b'<' {
            return b'-';
        }
    }
    b'-'
}

/// What a loop's step is that begins a text, behind its comparison.
fn step_key(before: &[u8], after: &[u8]) -> &'static [u8] {
    let other = other_sign(before);
    for byte in after {
        if *byte == other {
            return b"OTHERWAY";
        }
        if *byte == b')' || *byte == b';' || *byte == b'\n' {
            return b"STEP";
        }
    }
    b"STEP"
}

/// The word by which the rule is looked up for a fault of this number at a place of a text.
pub(crate) fn key_of(text: &[u8], number: u8, place: usize) -> &[u8]
    requires { place ≤ length text.now }
{
    let (before, after) = text.split_at(place);
    let word = first_word(after);
    if number == 3 {
        if is_listed(TYPES, word) {
            return type_key(before, word);
        }
        if let Some(key) = trailing_type(before) {
            return key;
        }
    }
    if number == 4 && word == b"(".as_slice() {
        return call_key(before);
    }
    if number == 5 {
        return step_key(before, after);
    }
    word
}
