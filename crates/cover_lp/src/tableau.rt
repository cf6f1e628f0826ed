//! The most that can be packed, by the simplex method in whole numbers over one denominator (Dantzig 1963; exact division as
//! Edmonds 1967 and Bareiss 1968 have it; the least column first, so that it ends, Bland 1977). It isn't proved of what is found
//! that it is best, but that the search is safe and ends: who asks tests the answer.

use crate::cover::CoordSet;
use affine_form::Memory;
use std::alloc::Global;

/// The greatest number of pivots.
const MOST_PIVOTS: usize = 1_000;

/// A set's room: the column of its basic variable, a number for each column, and its right side at the end.
#[derive(Drop)]
struct Row {
    basic: usize,
    cells: Vec<i128>,
}

/// The columns are the coordinates, a slack for each set, and the right side; the objective is the total that is packed. All
/// numbers are over `den`.
#[derive(Drop)]
struct Tableau {
    rows: Vec<Row>,
    objective: Vec<i128>,
    den: i128,
}

/// Weights of sets and amounts of coordinates over a denominator, as they were found.
#[derive(Drop)]
pub(crate) struct Optimum {
    pub(crate) weights: Vec<u64>,
    pub(crate) packing: Vec<u64>,
    pub(crate) q: u64,
}

/// What was found, or None where a number would be too large or there were too many pivots.
pub(crate) fn solution(alloc: Global, sets: &[CoordSet], d: u8) -> Result<Option<Optimum>, Memory> {
    let mut tableau = Tableau::of(alloc, sets, d)?;
    for _ in 0..MOST_PIVOTS {
        let Some(column) = tableau.entering() else {
            return tableau.solution(alloc, sets.len(), d);
        };
        let Some(row) = tableau.leaving(column) else {
            return Ok(None);
        };
        if !tableau.pivot(alloc, row, column)? {
            return Ok(None);
        }
    }
    Ok(None)
}

impl Tableau {
    /// Nothing is packed: each slack is its set's whole room.
    fn of(alloc: Global, sets: &[CoordSet], d: u8) -> Result<Tableau, Memory> {
        let slacks = sets.len();
        let mut rows = Vec::new(alloc);
        for (slack, set) in sets.iter().enumerate() {
            rows.push(Row {
                basic: usize::from(d).wrapping_add(slack),
                cells: cells_of(alloc, set, d, slack, slacks)?,
            })?;
        }
        let mut objective = Vec::new(alloc);
        objective.resize(usize::from(d), -1)?;
        objective.resize(width_of(d, slacks), 0)?;
        Ok(Tableau {
            rows,
            objective,
            den: 1,
        })
    }

    /// The first column that makes the objective grow.
    fn entering(&self) -> Option<usize> {
        for (column, cell) in self.objective.iter().enumerate() {
            if *cell < 0 {
                return Some(column);
            }
        }
        None
    }

    /// The row that a growing column fills first, or None where no row is filled or a number would be too large.
    fn leaving(&self, column: usize) -> Option<usize> {
        let mut found = None;
        for (i, row) in self.rows.iter().enumerate() {
            if cell_of(row.cells.as_slice(), column) > 0 && self.is_before(row, found, column)? {
                found = Some(i);
            }
        }
        found
    }

    /// Whether a growing column fills a row before another, or, where both are filled at once, the row's basic variable is the
    /// lesser; None where a number would be too large.
    fn is_before(&self, row: &Row, found: Option<usize>, column: usize) -> Option<bool> {
        let Some(place) = found else {
            return Some(true);
        };
        let other = self.rows.get(place)?;
        let (cells, others) = (row.cells.as_slice(), other.cells.as_slice());
        let left = cells.last()?.checked_mul(cell_of(others, column))?;
        let right = others.last()?.checked_mul(cell_of(cells, column))?;
        Some(left < right || left == right && row.basic < other.basic)
    }

    /// Makes a column's variable the basic one of a row; false where a number would be too large.
    fn pivot(&mut self, alloc: Global, row: usize, column: usize) -> Result<bool, Memory> {
        let Some(chosen) = self.rows.get(row) else {
            return Ok(false);
        };
        let cells = Vec::from_slice(alloc, chosen.cells.as_slice())?;
        Ok(self.exchange(cells.as_slice(), row, column).is_some())
    }

    /// The same where the row's numbers are at hand.
    fn exchange(&mut self, cells: &[i128], row: usize, column: usize) -> Option<()> {
        let den = self.den;
        reduce(self.objective.as_mut_slice(), cells, column, den)?;
        for (i, other) in self.rows.iter_mut().enumerate() {
            if i == row {
                other.basic = column;
            } else {
                reduce(other.cells.as_mut_slice(), cells, column, den)?;
            }
        }
        self.den = cell_of(cells, column);
        Some(())
    }

    /// The weights, which stand below the slacks in the objective, and the amounts; None where a number is too large.
    fn solution(&self, alloc: Global, slacks: usize, d: u8) -> Result<Option<Optimum>, Memory> {
        let Some(weights) = self.weights(alloc, slacks, d)? else {
            return Ok(None);
        };
        let Some(packing) = self.packing(alloc, d)? else {
            return Ok(None);
        };
        let Ok(q) = u64::try_from(self.den) else {
            return Ok(None);
        };
        Ok(Some(Optimum {
            weights,
            packing,
            q,
        }))
    }

    /// The weights of the sets.
    fn weights(&self, alloc: Global, slacks: usize, d: u8) -> Result<Option<Vec<u64>>, Memory> {
        let mut weights = Vec::new(alloc);
        for slack in 0..slacks {
            let column = usize::from(d).wrapping_add(slack);
            let Ok(weight) = u64::try_from(cell_of(self.objective.as_slice(), column)) else {
                return Ok(None);
            };
            weights.push(weight)?;
        }
        Ok(Some(weights))
    }

    /// The amounts of the coordinates.
    fn packing(&self, alloc: Global, d: u8) -> Result<Option<Vec<u64>>, Memory> {
        let mut packing = Vec::new(alloc);
        for coordinate in 0..d {
            let Ok(amount) = u64::try_from(self.amount(usize::from(coordinate))) else {
                return Ok(None);
            };
            packing.push(amount)?;
        }
        Ok(Some(packing))
    }

    /// A variable's value: its row's right side, 0 where it is basic in none.
    fn amount(&self, variable: usize) -> i128 {
        for row in self.rows.iter() {
            if row.basic == variable {
                return row.cells.last().copied().unwrap_or(0);
            }
        }
        0
    }
}

/// How many columns there are.
fn width_of(d: u8, slacks: usize) -> usize {
    usize::from(d).saturating_add(slacks).saturating_add(1)
}

/// A set's row where nothing is packed.
fn cells_of(
    alloc: Global,
    set: &CoordSet,
    d: u8,
    slack: usize,
    slacks: usize,
) -> Result<Vec<i128>, Memory> {
    let mut cells = Vec::new(alloc);
    for coordinate in 0..d {
        cells.push(if set.holds(coordinate) { 1 } else { 0 })?;
    }
    cells.resize(width_of(d, slacks), 0)?;
    if let Some(cell) = cells.get_mut(usize::from(d).wrapping_add(slack)) {
        *cell = 1;
    }
    if let Some(side) = cells.last_mut() {
        *side = 1;
    }
    Ok(cells)
}

/// The number in a column, 0 past the columns.
fn cell_of(cells: &[i128], column: usize) -> i128 {
    cells.get(column).copied().unwrap_or(0)
}

/// Takes a column out of a row by so much of the pivot's row, where `den` was the denominator and the pivot's number in the
/// column is the new one; None where a number would be too large.
fn reduce(cells: &mut [i128], pivot: &[i128], column: usize, den: i128) -> Option<()> {
    let size = cell_of(pivot, column);
    let factor = cell_of(cells, column);
    for (cell, other) in cells.iter_mut().zip(pivot.iter()) {
        *cell = reduced(size, *cell, factor, *other, den)?;
    }
    Some(())
}

/// The difference of two products over a denominator that divides it, or None where a number would be too large.
fn reduced(size: i128, cell: i128, factor: i128, other: i128, den: i128) -> Option<i128> {
    let difference = size
        .checked_mul(cell)?
        .checked_sub(factor.checked_mul(other)?)?;
    difference.checked_div(den)
}
