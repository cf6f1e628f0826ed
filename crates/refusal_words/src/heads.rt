//! Parts of messages.

use affine_form::Memory;
use claims::{Place, Step};
use json_places::item_places;
use plain_pages::{Page, position_of};

/// Writes a place as a JSON Pointer (RFC 6901).
pub(crate) fn write_pointer(page: &mut Page, place: &Place) -> Result<(), Memory> {
    for step in place.steps() {
        page.text("/")?;
        match step {
            Step::Key(key) => page.text(key.0)?,
            Step::Index(index) => page.text(format!(in page.alloc(); "{index}")?.as_str())?,
        }
    }
    Ok(())
}

/// Writes `FILE:LINE:COLUMN: error: ` for a place of a text, as far as the text has it.
pub(crate) fn write_head(
    page: &mut Page,
    file: &str,
    at: Option<usize>,
    text: &[u8],
) -> Result<(), Memory> {
    page.text(file)?;
    if let Some(at) = at {
        let position = position_of(text, at);
        let (line, column) = (position.line, position.column);
        page.text(format!(in page.alloc(); ":{line}:{column}")?.as_str())?;
    }
    page.text(": error: ")?;
    Ok(())
}

/// Writes the line at a place of a text, with a caret, where there is one.
pub(crate) fn write_source(page: &mut Page, at: Option<usize>, text: &[u8]) -> Result<(), Memory> {
    if let Some(at) = at {
        page.caret(text, at)?;
    }
    Ok(())
}

/// Writes how many members a list has that begins at a place of a text, and how many it has to have, where that is
/// known and another number.
pub(crate) fn write_length(
    page: &mut Page,
    text: &[u8],
    at: Option<usize>,
    called: Option<usize>,
) -> Result<(), Memory> {
    let alloc = page.alloc();
    let (Some(at), Some(called)) = (at, called) else {
        return Ok(());
    };
    let found = item_places(alloc, text, at)?.len();
    if text.get(at).copied() == Some(b'[') && found != called {
        page.line(format!(in alloc; "length: {found} here, {called} called for")?.as_str())?;
    }
    Ok(())
}
