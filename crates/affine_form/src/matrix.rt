//! Matrices of whole numbers.

ghost use Rattle.std.specs.Prelude.{◌≡◌, ◌≤◌, ◌<◌, IfOk};
ghost use Rattle.std.specs.List.{AllByRecursion};
ghost use Rattle.affine_form.specs.Form.{IsSmall};
ghost use Rattle.affine_form.specs.Matrix.{HasShape, entry};
ghost use Rattle.iolb_model.specs.declared.limits.TheConstants.{NUMBER_SIZE};

use crate::memory::Memory;
use std::alloc::Global;
use std::marker::Model;

/// A matrix of whole numbers: at most 6 by 6, no columns without rows, entries of size below 2^20.
#[derive(Debug, Drop)]
pub struct Matrix {
    rows: usize,
    cols: usize,
    cells: Vec<i32>,
}

impl Model for Matrix {
    ghost use Rattle.std.specs.Prelude.{◌^◌};
    ghost use Rattle.std.specs.List.{AllByRecursion};
    ghost use Rattle.affine_form.specs.Form.{IsSmall};
    ghost use Rattle.affine_form.specs.Matrix.{IntegerMatrix, HasShape};
    ghost use Rattle.iolb_model.specs.declared.limits.TheConstants.{NUMBER_SIZE};

    ghost Value = { IntegerMatrix };

    ghost view = { λ matrix. record { rows = matrix.rows; columns = matrix.cols; cells = matrix.cells.items } };

    ghost invariant = { λ matrix. HasShape matrix.rows matrix.cols matrix.cells.items
        × AllByRecursion (IsSmall NUMBER_SIZE) matrix.cells.items };
}

impl Matrix {
    /// The matrix with these entries, row after row.
    pub fn new(rows: usize, cols: usize, cells: Vec<i32>) -> Matrix
        requires shape { HasShape rows cols cells.items }
        requires small { AllByRecursion (IsSmall NUMBER_SIZE) cells.items }
        ensures { result ≡ record { rows = rows; columns = cols; cells = cells.items } }
    {
        Matrix { rows, cols, cells }
    }

    /// How many rows there are, at most 6.
    pub fn rows(&self) -> usize
        ensures rows { result ≡ self.now.rows }
        ensures shape { HasShape self.now.rows self.now.columns self.now.cells }
    {
        self.rows
    }

    /// How many columns there are, at most 6.
    pub fn cols(&self) -> usize
        ensures columns { result ≡ self.now.columns }
        ensures shape { HasShape self.now.rows self.now.columns self.now.cells }
    {
        self.cols
    }

    /// The entries, row after row.
    pub fn cells(&self) -> &[i32]
        ensures cells { result.now ≡ self.now.cells }
        ensures shape { HasShape self.now.rows self.now.columns self.now.cells }
        ensures small { AllByRecursion (IsSmall NUMBER_SIZE) self.now.cells }
    {
        self.cells.as_slice()
    }

    /// The entry in a row and a column.
    pub fn entry(&self, row: usize, col: usize) -> i32
        requires row_in { row < self.now.rows }
        requires col_in { col < self.now.columns }
        ensures { result ≡ entry self.now row col }
    {
        self.cells[row * self.cols + col]
    }

    /// A copy of the matrix.
    pub fn try_clone(&self, alloc: Global) -> Result<Matrix, Memory>
        ensures { IfOk result (λ matrix. matrix ≡ self.now) }
    {
        let cells = Vec::from_slice(alloc, self.cells.as_slice())?;
        Ok(Matrix {
            rows: self.rows,
            cols: self.cols,
            cells,
        })
    }
}
