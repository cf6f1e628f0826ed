//! Pages of text.

ghost use Rattle.std.specs.Prelude.{◌≡◌, ◌↔◌, ◌++◌, ◌∷◌, [], IsTrue, OnOk};
ghost use Rattle.std.specs.List.{cons_option, filter_map};
ghost use Rattle.plain_pages.specs.Caret.{caret_lines, printable, room_of};

use crate::excerpt::excerpt_at;
use std::alloc::{AllocError, Global};
use std::marker::Model;

/// A text that is laid out line by line. After an error it may have a part of what was to be written.
#[derive(Drop)]
pub struct Page {
    alloc: Global,
    bytes: Vec<u8>,
}

impl Model for Page {
    ghost use Rattle.std.specs.Prelude.{ℕ, List};

    ghost Value = { List ℕ };

    ghost view = { λ page. page.bytes.items };
}

/// How a byte of a source line is written: control characters but tabs as `?`, and carriage returns not at all.
fn printable_byte(byte: u8) -> Option<u8>
    ensures { result ≡ printable byte }
{
    if byte == b'\r' {
        None
    } else if (byte < b' ' && byte != b'\t') || byte == 127 {
        Some(b'?')
    } else {
        Some(byte)
    }
}

/// The byte that takes as much room as one of a source line; none below the later bytes of a character.
fn room_byte(byte: u8) -> Option<u8>
    ensures { result ≡ room_of byte }
{
    if byte == b'\t' {
        Some(byte)
    } else if byte == b'\r' || (byte & 0xC0) == 0x80 {
        None
    } else {
        Some(b' ')
    }
}

impl Page {
    /// An empty page.
    pub fn new(alloc: Global) -> Page
        ensures { result ≡ [] }
    {
        Page {
            alloc,
            bytes: Vec::new(alloc),
        }
    }

    /// Where its memory comes from.
    pub fn alloc(&self) -> Global {
        self.alloc
    }

    /// What was written.
    pub fn bytes(&self) -> &[u8]
        ensures { result.now ≡ self.now }
    {
        self.bytes.as_slice()
    }

    /// Whether nothing was written.
    pub fn is_empty(&self) -> bool
        ensures { IsTrue result ↔ (self.now ≡ []) }
    {
        self.bytes.is_empty()
    }

    /// Writes bytes as they are.
    pub fn write_bytes(&mut self, bytes: &[u8]) -> Result<(), AllocError>
        ensures { OnOk result (self.new ≡ self.old ++ bytes.now) }
    {
        self.bytes.extend_from_slice(bytes)
    }

    /// Writes a text.
    pub fn text(&mut self, text: &str) -> Result<(), AllocError>
        ensures { OnOk result (self.new ≡ self.old ++ text.now) }
    {
        self.write_bytes(text.as_bytes())
    }

    /// Writes a text and ends the line.
    pub fn line(&mut self, text: &str) -> Result<(), AllocError>
        ensures { OnOk result (self.new ≡ self.old ++ text.now ++ 10 ∷ []) }
    {
        self.text(text)?;
        self.write_bytes(b"\n")
    }

    /// Writes a byte, where there is one.
    fn put(&mut self, byte: Option<u8>) -> Result<(), AllocError>
        ensures { OnOk result (self.new ≡ self.old ++ cons_option byte []) }
    {
        match byte {
            Some(byte) => self.write_bytes(&[byte]),
            None => Ok(()),
        }
    }

    /// Writes bytes of a source line, as they are shown.
    fn write_source(&mut self, bytes: &[u8]) -> Result<(), AllocError>
        ensures { OnOk result (self.new ≡ self.old ++ filter_map printable bytes.now) }
    {
        for byte in bytes {
            self.put(printable_byte(*byte))?;
        }
        Ok(())
    }

    /// Writes as much room as bytes of a source line take.
    fn write_room(&mut self, bytes: &[u8]) -> Result<(), AllocError>
        ensures { OnOk result (self.new ≡ self.old ++ filter_map room_of bytes.now) }
    {
        for byte in bytes {
            self.put(room_byte(*byte))?;
        }
        Ok(())
    }

    /// Writes what stands round a place of a text on its line, and under it a caret at the place.
    pub fn caret(&mut self, text: &[u8], place: usize) -> Result<(), AllocError>
        ensures { OnOk result (self.new ≡ self.old ++ caret_lines text.now place) }
    {
        let excerpt = excerpt_at(text, place);
        self.text("    ")?;
        self.write_source(excerpt.before)?;
        self.write_source(excerpt.after)?;
        self.text("\n    ")?;
        self.write_room(excerpt.before)?;
        self.line("^")
    }
}
