//! Coordinates of loop values: whole-number matrices with an inverse.

ghost use Rattle.std.specs.Prelude.{◌≡◌, ◌≤◌, ◌<◌, ◌*◌, length, unsigned_abs, IfOk};
ghost use Rattle.std.specs.List.{AllByRecursion};
ghost use Rattle.affine_form.specs.Form.{IsSmall};
ghost use Rattle.iolb_model.specs.declared.limits.TheConstants.{LOOPS, NUMBER_SIZE};

use affine_facts::affine::Affine;
use affine_form::{Matrix, Memory};
use iolb_model::limits;
use std::alloc::Global;

/// Which coordinates a term has.
#[derive(Clone, Copy)]
pub(crate) enum Coordinates {
    /// The loop values.
    Loops,
    /// The first loop value less all others, and the others: what words of a stencil keep that move by one in a step.
    Skewed,
    /// The loop values, with two of them in each other's place.
    Turned(u8, u8),
    /// So many times the first loop value, and a statement's place among as many, less all others, and the others: what words of a
    /// stencil keep that move by one from statement to statement.
    Timed(u8, u8),
}

/// The loop at a place where two are in each other's place.
fn turned(first: u8, second: u8, place: usize) -> usize {
    if place == usize::from(first) {
        usize::from(second)
    } else if place == usize::from(second) {
        usize::from(first)
    } else {
        place
    }
}

impl Coordinates {
    /// The entry of the matrix.
    fn entry(self, row: usize, column: usize) -> i32
        ensures { IsSmall NUMBER_SIZE result }
    {
        match self {
            Coordinates::Turned(first, second) => i32::from(turned(first, second, row) == column),
            Coordinates::Timed(count, _) if row == 0 && column == 0 => i32::from(count),
            _ if row == column => 1,
            Coordinates::Skewed | Coordinates::Timed(_, _) if row == 0 => -1,
            _ => 0,
        }
    }

    /// What a coordinate is where each loop value is 0.
    fn offset(self, row: usize) -> i64 {
        match self {
            Coordinates::Timed(_, place) if row == 0 => i64::from(place),
            _ => 0,
        }
    }

    /// A coordinate as a form over the parameters and the loop values.
    fn form(
        self,
        alloc: Global,
        params: usize,
        depth: usize,
        row: usize,
    ) -> Result<Affine, Memory> {
        let mut form = Affine::number(alloc, self.offset(row));
        for column in 0..depth {
            let number = i64::from(self.entry(row, column));
            form.add_variable(params.saturating_add(column), number)?;
        }
        Ok(form)
    }

    /// All coordinates of so many loops as forms.
    pub(crate) fn forms(
        self,
        alloc: Global,
        params: usize,
        depth: usize,
    ) -> Result<Vec<Affine>, Memory> {
        let mut all = Vec::new(alloc);
        for row in 0..depth {
            all.push(self.form(alloc, params, depth, row)?)?;
        }
        Ok(all)
    }

    /// The entries of the matrix, row after row.
    fn entries(self, alloc: Global, depth: usize) -> Result<Vec<i32>, Memory>
        requires few { depth ≤ LOOPS }
        ensures full { IfOk result (λ cells. length cells.items ≡ depth * depth) }
        ensures small { IfOk result (λ cells. AllByRecursion (IsSmall NUMBER_SIZE) cells.items) }
    {
        let mut cells = Vec::new(alloc);
        for place in 0..depth * depth {
            let row = place.checked_div(depth).unwrap_or(0);
            let column = place.checked_rem(depth).unwrap_or(0);
            cells.push(self.entry(row, column))?;
        }
        Ok(cells)
    }

    /// The matrix, for loops within the limits.
    pub(crate) fn matrix(self, alloc: Global, depth: usize) -> Result<Matrix, Memory> {
        let depth = depth.min(limits::LOOPS);
        let cells = self.entries(alloc, depth)?;
        Ok(Matrix::new(depth, depth, cells))
    }
}
