//! Names.

ghost use Rattle.std.specs.Prelude.{◌≡◌, ◌↔◌, IsTrue};
ghost use Rattle.std.specs.List.{list_all};
ghost use Rattle.c_tokens.specs.Bytes.{is_name_byte};
ghost use Rattle.c_tokens.specs.Names.{IsName, begins_name};

use crate::bytes::{is_name_byte, is_name_start};
use crate::piece::is_keyword;
use iolb_model::limits::NAME_BYTES;

/// Whether bytes begin as a name does.
fn begins_name(bytes: &[u8]) -> bool
    ensures { result ≡ begins_name bytes.now }
{
    match bytes.first() {
        Some(b) => is_name_start(*b),
        None => false,
    }
}

/// Whether each byte is one of a name.
fn are_name_bytes(bytes: &[u8]) -> bool
    ensures { result ≡ list_all is_name_byte bytes.now }
{
    for b in bytes {
        if !is_name_byte(*b) {
            return false;
        }
    }
    true
}

/// Whether bytes are a name of a text: a letter or `_`, then letters, digits and `_`, few enough, and no word that C keeps
/// for itself.
pub fn is_name(bytes: &[u8]) -> bool
    ensures { IsTrue result ↔ IsName bytes.now }
{
    begins_name(bytes) && are_name_bytes(bytes) && bytes.len() <= NAME_BYTES && !is_keyword(bytes)
}
