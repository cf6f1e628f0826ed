//! Texts that aren't read.

use crate::heads::{write_head, write_pointer, write_source};
use affine_form::Memory;
use claims::Place;
use json_places::{first_error, value_place};
use plain_pages::Page;

/// Writes the fault of this number of a certificate's or a schedule's text, which the file of this name has: what is
/// said of it, the place of the value at fault, and its line with a caret; for fault 1, that the text isn't JSON, where
/// it stops to be.
pub fn write_unread(
    page: &mut Page,
    file: &str,
    text: &[u8],
    number: u8,
    said: &str,
    place: &Place,
) -> Result<(), Memory> {
    let at = if number == 1 {
        first_error(page.alloc(), text)?
    } else {
        value_place(text, place)
    };
    write_head(page, file, at, text)?;
    page.text(format!(in page.alloc(); "{said} [fault {number}]")?.as_str())?;
    if number != 1 {
        page.text(" at ")?;
        write_pointer(page, place)?;
    }
    page.line("")?;
    write_source(page, at, text)
}
