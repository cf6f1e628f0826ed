//! Where a text stops to be JSON (RFC 8259).

use json::{Reader, Scratch, Token};
use std::alloc::{AllocError, Global};

/// What is open at a place of a text.
#[derive(Clone, Copy, PartialEq, Eq)]
enum Open {
    /// An array.
    Array,
    /// An object.
    Object,
    /// A member of an object, whose key was read.
    Member,
}

/// Whether a value may begin in what is open last.
fn takes_value(open: &[Open]) -> bool {
    open.last().copied() != Some(Open::Object)
}

/// Ends a value: the member whose value it is ends with it.
fn end_value(open: &mut Vec<Open>) {
    if open.last().copied() == Some(Open::Member) {
        open.pop();
    }
}

/// Ends an array or an object, if it is what is open last.
fn close(open: &mut Vec<Open>, kind: Open) -> bool {
    if open.pop() != Some(kind) {
        return false;
    }
    end_value(open);
    true
}

/// Takes a token, where it may stand behind what is open.
fn take(open: &mut Vec<Open>, token: &Token<'_>) -> Result<bool, AllocError> {
    let fits = takes_value(open.as_slice());
    match token {
        Token::Key(_) => open.push(Open::Member)?,
        Token::BeginArray => open.push(Open::Array)?,
        Token::BeginObject => open.push(Open::Object)?,
        Token::EndArray => return Ok(close(open, Open::Array)),
        Token::EndObject => return Ok(close(open, Open::Object)),
        Token::String(_) | Token::Number(_) | Token::Bool(_) | Token::Null => end_value(open),
        Token::Bad => return Ok(false),
    }
    Ok(fits != matches!(token, Token::Key(_)))
}

/// Where a text stops to be JSON: the first token that can't stand where it does, the first byte that is no UTF-8, or the end of the
/// text where more has to come; none where it doesn't stop. Numbers of any size and nesting of any depth are no matter here.
pub fn first_error(alloc: Global, text: &[u8]) -> Result<Option<usize>, AllocError> {
    let text = match str::from_utf8(text) {
        Ok(text) => text,
        Err(error) => return Ok(Some(error.valid_up_to())),
    };
    let mut scratch = Scratch::new(alloc);
    let mut reader = Reader::new(text, &mut scratch)?;
    let mut open = Vec::new(alloc);
    for turn in 0..=text.len() {
        let place = reader.offset();
        let Some(token) = reader.next() else {
            let whole = turn > 0 && open.is_empty();
            return Ok(if whole { None } else { Some(text.len()) });
        };
        let behind = turn > 0 && open.is_empty();
        if behind || !take(&mut open, &token)? {
            return Ok(Some(place));
        }
    }
    Ok(None)
}
