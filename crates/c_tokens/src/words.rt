//! Words at the head of a line.

ghost use Rattle.std.specs.Prelude.{◌≡◌, ◌≤◌, length, option_copied, IfSome};
ghost use Rattle.std.specs.List.{list_all};
ghost use Rattle.c_tokens.specs.Bytes.{is_space};
ghost use Rattle.c_tokens.specs.Words.{past_byte, past_words, past_head, begins_with, reads_as};

use crate::bytes::{blanks, is_blank, is_space, spaces};

/// What follows this byte in front, where a blank stands for one or more.
fn past_byte(w: u8, bytes: &[u8]) -> Option<&[u8]>
    ensures rest { option_copied result ≡ past_byte w bytes.now }
    ensures within { IfSome result (λ rest. length rest.now ≤ length bytes.now) }
{
    let (b, rest) = bytes.split_first()?;
    if is_blank(w) {
        if is_blank(*b) {
            Some(&rest[blanks(rest)..])
        } else {
            None
        }
    } else if *b == w {
        Some(rest)
    } else {
        None
    }
}

/// What follows these words, where they stand in front.
fn past_words<'a>(words: &[u8], bytes: &'a [u8]) -> Option<&'a [u8]>
    ensures rest { option_copied result ≡ past_words words.now bytes.now }
    ensures within { IfSome result (λ rest. length rest.now ≤ length bytes.now) }
{
    let mut rest = bytes;
    for w in words {
        rest = past_byte(*w, rest)?;
    }
    Some(rest)
}

/// What follows these words at the head of a line, behind any spaces.
pub(crate) fn past_head<'a>(words: &[u8], line: &'a [u8]) -> Option<&'a [u8]>
    ensures rest { option_copied result ≡ past_head words.now line.now }
    ensures within { IfSome result (λ rest. length rest.now ≤ length line.now) }
{
    past_words(words, &line[spaces(line)..])
}

/// Whether a line begins with these words.
pub(crate) fn begins_with(words: &[u8], line: &[u8]) -> bool
    ensures { result ≡ begins_with words.now line.now }
{
    past_head(words, line).is_some()
}

/// Whether there are only spaces.
fn are_spaces(bytes: &[u8]) -> bool
    ensures { result ≡ list_all is_space bytes.now }
{
    for b in bytes {
        if !is_space(*b) {
            return false;
        }
    }
    true
}

/// Whether a line reads as these words, but for spaces at its ends.
pub(crate) fn reads_as(words: &[u8], line: &[u8]) -> bool
    ensures { result ≡ reads_as words.now line.now }
{
    match past_head(words, line) {
        Some(rest) => are_spaces(rest),
        None => false,
    }
}
