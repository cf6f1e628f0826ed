//! The items of lists.

use crate::cursor::Cursor;
use std::alloc::{AllocError, Global};

/// Where the items of the list begin that begins at a place of a JSON text; none where no list begins there.
pub fn item_places(alloc: Global, text: &[u8], place: usize) -> Result<Vec<usize>, AllocError> {
    let mut places = Vec::new(alloc);
    let Some(first) = (Cursor { text, place }).skip_byte(b'[') else {
        return Ok(places);
    };
    if first.skip_byte(b']').is_some() {
        return Ok(places);
    }
    let mut at = first.skip_blanks();
    for _turn in 0..text.len() {
        places.push(at.place)?;
        match at.skip_value().skip_byte(b',') {
            Some(next) => at = next.skip_blanks(),
            None => return Ok(places),
        }
    }
    Ok(places)
}

/// The place behind the value that begins at a place of a JSON text.
pub fn value_end(text: &[u8], place: usize) -> usize {
    Cursor { text, place }.skip_value().place
}
