//! The lines of a text.

ghost use Rattle.std.specs.Prelude.{◌≡◌, ◌≤◌, ◌+◌, length, find, option_map, IfSome};
ghost use Rattle.c_tokens.specs.Lines.{lines_from, span_of};
ghost use Rattle.c_tokens.specs.Words.{reads_as};

use crate::bytes::{behind, first_line};
use crate::words::reads_as;

/// Where a line stands: its first byte's place, and the place behind its last byte.
#[derive(Clone, Copy)]
pub(crate) struct Span {
    pub start: usize,
    pub end: usize,
}

/// The first line from this place on that reads as these words.
pub(crate) fn find_line(bytes: &[u8], from: usize, words: &[u8]) -> Option<Span>
    requires { from ≤ length bytes.now }
    ensures found { result ≡ option_map span_of (find (λ l. reads_as words.now l.bytes) (lines_from bytes.now from)) }
    ensures within { IfSome result (λ span. (from ≤ span.start) × (span.start ≤ span.end) × (span.end ≤ length bytes.now)) }
{
    let mut start = from;
    loop {
        let line = first_line(behind(bytes, start));
        let end = start + line.len();
        if reads_as(words, line) {
            return Some(Span { start, end });
        }
        if end == bytes.len() {
            return None;
        }
        start = end + 1;
    }
}
