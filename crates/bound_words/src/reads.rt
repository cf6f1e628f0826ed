//! Reads and arrays, by name and place.

use affine_form::Memory;
use affine_program::Program;
use plain_pages::{Page, position_of};
use program_pages::Places;

/// A program with its text, and where its references stand in it.
#[derive(Clone, Copy)]
pub(crate) struct Source<'a> {
    pub(crate) program: &'a Program,
    pub(crate) text: &'a [u8],
    pub(crate) places: &'a Places,
}

impl Source<'_> {
    /// The number of the array of a read of a statement, where there is one.
    pub(crate) fn array_read(self, statement: u16, read: u16) -> Option<u16> {
        let statement = self.program.statements().get(usize::from(statement))?;
        let reference = statement.reads.as_slice().get(usize::from(read))?;
        Some(reference.array)
    }

    /// Writes the name of an array.
    pub(crate) fn write_array(self, page: &mut Page, array: Option<u16>) -> Result<(), Memory> {
        if let Some(array) = array {
            if let Some((name, _)) = self.program.arrays().get(usize::from(array)) {
                page.write_bytes(name.bytes())?;
            }
        }
        Ok(())
    }

    /// Writes ` at LINE:COLUMN`, where a place is known.
    fn write_place(self, page: &mut Page, place: Option<usize>) -> Result<(), Memory> {
        if let Some(place) = place {
            let position = position_of(self.text, place);
            let (line, column) = (position.line, position.column);
            page.text(format!(in page.alloc(); " at {line}:{column}")?.as_str())?;
        }
        Ok(())
    }

    /// Writes `statement N at LINE:COLUMN`.
    pub(crate) fn write_statement(self, page: &mut Page, statement: u16) -> Result<(), Memory> {
        page.text(format!(in page.alloc(); "statement {statement}")?.as_str())?;
        let places = self.places.statements.as_slice();
        let place = match places.get(usize::from(statement)) {
            Some(found) => Some(found.writes),
            None => None,
        };
        self.write_place(page, place)
    }

    /// The place of a read, where it is known.
    fn read_place(self, statement: u16, read: u16) -> Option<usize> {
        let places = self
            .places
            .statements
            .as_slice()
            .get(usize::from(statement))?;
        places.reads.as_slice().get(usize::from(read)).copied()
    }

    /// Writes `ARRAY, read R of statement N at LINE:COLUMN`.
    pub(crate) fn write_read(
        self,
        page: &mut Page,
        statement: u16,
        read: u16,
    ) -> Result<(), Memory> {
        self.write_array(page, self.array_read(statement, read))?;
        page.text(format!(in page.alloc(); ", read {read} of statement {statement}")?.as_str())?;
        self.write_place(page, self.read_place(statement, read))
    }
}
