//! The part of a line round a place.

ghost use Rattle.std.specs.Prelude.{◌≡◌, take};
ghost use Rattle.std.specs.List.{after_last, before_first};
ghost use Rattle.plain_pages.specs.Excerpt.{excerpt_after, excerpt_before, is_newline, take_last};

/// How many bytes of a line are shown on either side of a place, at most.
pub const EXCERPT_BYTES: usize = 100;

/// What stands round a place on its line: before it, and from it on, at most 100 bytes each.
#[derive(Clone, Copy)]
pub struct Excerpt<'a> {
    pub before: &'a [u8],
    pub after: &'a [u8],
}

/// The last line of a text.
fn last_line(text: &[u8]) -> &[u8]
    ensures { result.now ≡ after_last is_newline text.now }
{
    let mut start = text.len();
    while start > 0 && text[start - 1] != b'\n' {
        start -= 1;
    }
    &text[start..]
}

/// The first line of a text.
fn first_line(text: &[u8]) -> &[u8]
    ensures { result.now ≡ before_first is_newline text.now }
{
    let mut end = 0;
    while end < text.len() && text[end] != b'\n' {
        end += 1;
    }
    &text[..end]
}

/// The last bytes of a line, as many as an excerpt has.
fn line_end(line: &[u8]) -> &[u8]
    ensures { result.now ≡ take_last EXCERPT_BYTES line.now }
{
    &line[line.len().saturating_sub(EXCERPT_BYTES)..]
}

/// The first bytes of a line, as many as an excerpt has.
#[tactic(auto, using(std::proofs::lemmas::List::take_min))]
fn line_start(line: &[u8]) -> &[u8]
    ensures { result.now ≡ take EXCERPT_BYTES line.now }
{
    &line[..EXCERPT_BYTES.min(line.len())]
}

/// What stands round a place of a text on its line. A place past the end is the end.
pub fn excerpt_at(text: &[u8], place: usize) -> Excerpt<'_>
    ensures before { result.before.now ≡ excerpt_before text.now place }
    ensures after { result.after.now ≡ excerpt_after text.now place }
{
    let (before, after) = if place < text.len() {
        text.split_at(place)
    } else {
        text.split_at(text.len())
    };
    Excerpt {
        before: line_end(last_line(before)),
        after: line_start(first_line(after)),
    }
}
