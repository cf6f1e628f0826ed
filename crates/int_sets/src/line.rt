//! Lines of a dictionary: rows as sums of other rows.

use affine_form::{Form, Memory};
use std::alloc::Global;

/// A row as a sum: a number for each column, and a constant, over the dictionary's denominator. Its label says which row it is.
#[derive(Drop)]
pub(crate) struct Line {
    pub(crate) label: usize,
    pub(crate) cells: Vec<i64>,
    pub(crate) constant: i64,
}

impl Line {
    /// A form as a sum of its variables, or None where a number is too large.
    pub(crate) fn of(alloc: Global, label: usize, form: &Form) -> Result<Option<Line>, Memory> {
        let Some(cells) = cells_of(alloc, form.coef())? else {
            return Ok(None);
        };
        let Ok(constant) = i64::try_from(form.constant()) else {
            return Ok(None);
        };
        Ok(Some(Line {
            label,
            cells,
            constant,
        }))
    }

    /// A copy of the line.
    pub(crate) fn try_clone(&self, alloc: Global) -> Result<Line, Memory> {
        let cells = Vec::from_slice(alloc, self.cells.as_slice())?;
        Ok(Line {
            label: self.label,
            cells,
            constant: self.constant,
        })
    }

    /// The number in a column, 0 past the columns.
    pub(crate) fn cell(&self, column: usize) -> i64 {
        self.cells.get(column).copied().unwrap_or(0)
    }

    /// The line itself, after it and a column have changed places, where `sign` is that of their number and `den` was the
    /// denominator; None where a number would be too large.
    pub(crate) fn turn(&mut self, column: usize, sign: i64, den: i64) -> Option<()> {
        for cell in self.cells.iter_mut() {
            *cell = opposite(sign, *cell)?;
        }
        self.constant = opposite(sign, self.constant)?;
        if let Some(cell) = self.cells.get_mut(column) {
            *cell = sign.checked_mul(den)?;
        }
        Some(())
    }

    /// Another line, after `pivot` and a column have changed places, where their number has this size and sign and `den` was
    /// the denominator; None where a number would be too large.
    pub(crate) fn combine(
        &mut self,
        pivot: &Line,
        column: usize,
        size: i64,
        sign: i64,
        den: i64,
    ) -> Option<()> {
        let factor = self.cell(column).checked_mul(sign)?;
        if factor == 0 && size == den {
            return Some(());
        }
        for (cell, other) in self.cells.iter_mut().zip(pivot.cells.iter()) {
            *cell = reduced(size, *cell, factor, *other, den)?;
        }
        self.constant = reduced(size, self.constant, factor, pivot.constant, den)?;
        if let Some(cell) = self.cells.get_mut(column) {
            *cell = factor;
        }
        Some(())
    }
}

/// Coefficients as cells, or None where one is too large.
fn cells_of(alloc: Global, coefficients: &[i128]) -> Result<Option<Vec<i64>>, Memory> {
    let mut cells = Vec::new(alloc);
    for coefficient in coefficients {
        let Ok(cell) = i64::try_from(*coefficient) else {
            return Ok(None);
        };
        cells.push(cell)?;
    }
    Ok(Some(cells))
}

/// A number times a sign, turned.
fn opposite(sign: i64, number: i64) -> Option<i64> {
    sign.checked_mul(number)?.checked_neg()
}

/// The product of two numbers.
fn product(x: i64, y: i64) -> Option<i128> {
    i128::from(x).checked_mul(i128::from(y))
}

/// The difference of two products.
fn difference(size: i64, cell: i64, factor: i64, other: i64) -> Option<i128> {
    product(size, cell)?.checked_sub(product(factor, other)?)
}

/// The difference of two products over a denominator that divides it, or None where that is too large.
fn reduced(size: i64, cell: i64, factor: i64, other: i64, den: i64) -> Option<i64> {
    let difference = difference(size, cell, factor, other)?;
    if den == 1 {
        return i64::try_from(difference).ok();
    }
    i64::try_from(difference.checked_div(i128::from(den))?).ok()
}
