//! Values by their places.

ghost use Rattle.std.specs.Prelude.{◌≡◌, IfSome};
ghost use Rattle.json_places.specs.Values.{StandsAt, StandsBehind, opener};
ghost use Rattle.claims.specs.declared.place.Step.TheVariants.{Index};

use crate::cursor::Cursor;
use claims::{Place, Step};

/// The place of the member of this key of the object that begins at a cursor.
fn member_at<'a>(at: Cursor<'a>, key: &[u8]) -> Option<Cursor<'a>>
    ensures text { IfSome result (λ value. value.text.now ≡ at.entry.text.now) }
    ensures behind { IfSome result (λ value. StandsBehind at.entry.text.now 58 value.place) }
{
    let mut at = at.skip_byte(b'{')?;
    for _turn in 0..at.text.len() {
        let (found, after) = at.string()?;
        let value = after.skip_byte(b':')?;
        if found == key {
            return Some(value.skip_blanks());
        }
        at = value.skip_value().skip_byte(b',')?;
    }
    None
}

/// The place of the member of this number of the list that begins at a cursor.
fn item_at(at: Cursor<'_>, index: u64) -> Option<Cursor<'_>>
    ensures text { IfSome result (λ value. value.text.now ≡ at.entry.text.now) }
    ensures behind { IfSome result (λ value. StandsBehind at.entry.text.now (opener (Index index)) value.place) }
{
    let first = at.skip_byte(b'[')?;
    if index == 0 {
        return Some(first.skip_blanks());
    }
    let mut before = first;
    for _turn in 1..index {
        before = before.skip_value().skip_byte(b',')?;
    }
    Some(before.skip_value().skip_byte(b',')?.skip_blanks())
}

/// The place of the value behind a step from the value that begins at a cursor.
fn step_at<'a>(at: Cursor<'a>, step: &Step) -> Option<Cursor<'a>>
    ensures text { IfSome result (λ value. value.text.now ≡ at.entry.text.now) }
    ensures behind { IfSome result (λ value. StandsBehind at.entry.text.now (opener step.now) value.place) }
{
    match step {
        Step::Key(key) => member_at(at, key.0.as_bytes()),
        Step::Index(index) => item_at(at, *index),
    }
}

/// The first byte of the value at a place of a JSON text; none where the text has no such place.
pub fn value_place(text: &[u8], place: &Place) -> Option<usize>
    ensures { IfSome result (StandsAt text.now place.now) }
{
    let mut at = Cursor { text, place: 0 }.skip_blanks();
    for step in place.steps() {
        at = step_at(at, step)?;
    }
    Some(at.place)
}
