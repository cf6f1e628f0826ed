//! Cells that are read before they are written.

use affine_form::{Form, Memory};
use affine_program::Reference;
use arrayvec::ArrayVec;
use std::alloc::Global;
use std::collections::HashMap;

/// A cell of an array: the array's number, and its subscripts.
pub(crate) type Cell = (u16, ArrayVec<i128, 4>);

/// The value of a form at a point. The numbers of instances are so small that it doesn't leave 128 bits.
fn value_at(form: &Form, point: &[i128]) -> i128 {
    let mut sum = form.constant();
    for (place, value) in point.iter().enumerate() {
        sum = sum.saturating_add(form.coefficient(place).saturating_mul(*value));
    }
    sum
}

/// The cell of a reference at a point.
pub(crate) fn cell_at(reference: &Reference, point: &[i128]) -> Cell {
    let mut subscripts = ArrayVec::new();
    for form in reference.subs.as_slice() {
        if !subscripts.is_full() {
            subscripts.push(value_at(form, point));
        }
    }
    (reference.array, subscripts)
}

/// The cell of these subscripts of an array, of which the first four count.
pub(crate) fn cell_of(array: u16, values: &[i128]) -> Cell {
    let mut subscripts = ArrayVec::new();
    for value in values {
        if !subscripts.is_full() {
            subscripts.push(*value);
        }
    }
    (array, subscripts)
}

/// The cells that were read or written so far, and how many of them are inputs.
#[derive(Drop)]
pub(crate) struct Cells {
    known: HashMap<Cell, ()>,
    inputs: usize,
}

impl Cells {
    /// None.
    pub(crate) fn new(alloc: Global) -> Cells {
        Cells {
            known: HashMap::new(alloc),
            inputs: 0,
        }
    }

    /// Reads a cell: the number of the input that it is, where it wasn't read or written before.
    pub(crate) fn read(&mut self, cell: Cell) -> Result<Option<usize>, Memory> {
        if self.known.get(&cell).is_some() {
            return Ok(None);
        }
        self.known.insert(cell, ())?;
        let number = self.inputs;
        self.inputs = number.saturating_add(1);
        Ok(Some(number))
    }

    /// Writes a cell.
    pub(crate) fn write(&mut self, cell: Cell) -> Result<(), Memory> {
        self.known.insert(cell, ())?;
        Ok(())
    }
}
