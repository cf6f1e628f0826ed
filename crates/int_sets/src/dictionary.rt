//! Dictionaries of a linear program: where all rows are at least 0, how low is the goal?
//!
//! Each row is a number for each column and a constant, over one denominator, where the columns stand for other rows (Dantzig
//! 1963; exact division as Edmonds 1967 and Bareiss 1968 have it). It isn't proved of what is found here that it is right, but
//! that the search is safe and ends: who asks tests the answer.

use crate::line::Line;
use affine_form::{Form, Memory, System};
use std::alloc::Global;

/// How many numbers are made anew, at most, before the search gives up.
const WORK: usize = 300_000;

/// The rows that are sums, the goal as a sum, the labels of the columns, and the denominator of all numbers. Labels below the
/// number of rows are rows; those from there on are variables.
#[derive(Drop)]
pub(crate) struct Dictionary {
    lines: Vec<Line>,
    goal: Line,
    columns: Vec<usize>,
    rows: usize,
    den: i64,
}

/// A sum of rows that was found: `scale` times a form is `rest` and rows, by their numbers, each times its own.
#[derive(Drop)]
pub(crate) struct Found {
    pub(crate) scale: i64,
    pub(crate) rest: i64,
    pub(crate) terms: Vec<(usize, i64)>,
    pub(crate) of_goal: bool,
}

/// What comes next.
#[derive(Clone, Copy)]
enum Step {
    /// The goal is a sum with no number below 0.
    Shown,
    /// The line is a number below 0 less other rows.
    Contradiction(usize),
    /// The line and the column change places.
    Exchange(usize, usize),
    /// Nothing is found.
    Nothing,
}

/// A sum of rows that is the goal, or one that no point meets, or None where none was found.
pub(crate) fn find(alloc: Global, system: &System, goal: &Form) -> Result<Option<Found>, Memory> {
    let Some(mut dictionary) = Dictionary::of(alloc, system, goal)? else {
        return Ok(None);
    };
    if !dictionary.leave_variables(alloc)? {
        return Ok(None);
    }
    for _ in 0..dictionary.exchanges() {
        match dictionary.step() {
            Step::Shown => return Ok(Some(dictionary.shown(alloc)?)),
            Step::Contradiction(line) => return dictionary.contradiction(alloc, line),
            Step::Exchange(line, column) => {
                if !dictionary.exchange(alloc, line, column)? {
                    return Ok(None);
                }
            }
            Step::Nothing => return Ok(None),
        }
    }
    Ok(None)
}

impl Dictionary {
    /// The rows and the goal as sums of the variables, or None where a number is too large.
    fn of(alloc: Global, system: &System, goal: &Form) -> Result<Option<Dictionary>, Memory> {
        let mut lines = Vec::new(alloc);
        for (label, row) in system.rows().iter().enumerate() {
            let Some(line) = Line::of(alloc, label, row)? else {
                return Ok(None);
            };
            lines.push(line)?;
        }
        let Some(goal) = Line::of(alloc, 0, goal)? else {
            return Ok(None);
        };
        let rows = lines.len();
        let mut columns = Vec::new(alloc);
        for variable in 0..system.vars() {
            columns.push(rows.wrapping_add(variable))?;
        }
        Ok(Some(Dictionary {
            lines,
            goal,
            columns,
            rows,
            den: 1,
        }))
    }

    /// How often a line and a column may change places.
    fn exchanges(&self) -> usize {
        let cells = self.lines.len().saturating_mul(self.columns.len());
        WORK / cells.saturating_add(1)
    }

    /// Puts rows in the place of the variables, as far as there are any; such a row is no sum any more. False where a number
    /// would be too large.
    fn leave_variables(&mut self, alloc: Global) -> Result<bool, Memory> {
        for column in 0..self.columns.len() {
            if let Some(line) = line_with(self.lines.as_slice(), column) {
                if !self.exchange(alloc, line, column)? {
                    return Ok(false);
                }
                if line < self.lines.len() {
                    let _variable = self.lines.swap_remove(line);
                }
            }
        }
        Ok(true)
    }

    /// Lets a line and a column change places; false where a number would be too large.
    fn exchange(&mut self, alloc: Global, line: usize, column: usize) -> Result<bool, Memory> {
        let Some(chosen) = self.lines.get(line) else {
            return Ok(false);
        };
        let pivot = chosen.try_clone(alloc)?;
        Ok(self.exchanged(&pivot, line, column).is_some())
    }

    /// The same where the line's numbers are at hand.
    fn exchanged(&mut self, pivot: &Line, line: usize, column: usize) -> Option<()> {
        let cell = pivot.cell(column);
        if cell == 0 {
            return None;
        }
        let sign = if cell < 0 { -1 } else { 1 };
        let size = cell.checked_mul(sign)?;
        let den = self.den;
        self.goal.combine(pivot, column, size, sign, den)?;
        for (i, other) in self.lines.iter_mut().enumerate() {
            if i == line {
                other.turn(column, sign, den)?;
            } else {
                other.combine(pivot, column, size, sign, den)?;
            }
        }
        let label = self.columns.get_mut(column)?;
        let entering = *label;
        *label = pivot.label;
        let leaving = self.lines.get_mut(line)?;
        leaving.label = entering;
        self.den = size;
        Some(())
    }

    /// What comes next, by the least label (Terlaky 1985, after Bland 1977).
    fn step(&self) -> Step {
        if self.has_variable() {
            return Step::Nothing;
        }
        let low_column = least_column(self.columns.as_slice(), &self.goal, -1);
        if low_column.is_none() && self.goal.constant >= 0 {
            return Step::Shown;
        }
        let low_line = low_line(self.lines.as_slice());
        match (low_line, low_column) {
            (None, None) => Step::Nothing,
            (Some(line), None) => self.leaving(line),
            (None, Some(column)) => self.entering(column),
            (Some(line), Some(column)) => {
                if self.line_is_first(line, column) {
                    self.leaving(line)
                } else {
                    self.entering(column)
                }
            }
        }
    }

    /// Whether the goal still has a variable.
    fn has_variable(&self) -> bool {
        for (column, label) in self.columns.iter().enumerate() {
            if *label >= self.rows && self.goal.cell(column) != 0 {
                return true;
            }
        }
        false
    }

    /// Whether a line's label is less than a column's.
    fn line_is_first(&self, line: usize, column: usize) -> bool {
        match (self.lines.get(line), self.columns.get(column)) {
            (Some(line), Some(label)) => line.label < *label,
            _ => false,
        }
    }

    /// The line, whose constant is below 0, and the column that takes its place.
    fn leaving(&self, line: usize) -> Step {
        let Some(chosen) = self.lines.get(line) else {
            return Step::Nothing;
        };
        match least_column(self.columns.as_slice(), chosen, 1) {
            Some(column) => Step::Exchange(line, column),
            None => Step::Contradiction(line),
        }
    }

    /// The column, whose number in the goal is below 0, and the line that takes its place.
    fn entering(&self, column: usize) -> Step {
        match blocking_line(self.lines.as_slice(), column) {
            Some(line) => Step::Exchange(line, column),
            None => Step::Nothing,
        }
    }

    /// The goal as a sum of rows.
    fn shown(&self, alloc: Global) -> Result<Found, Memory> {
        let terms = terms_of(alloc, self.columns.as_slice(), &self.goal, 1)?;
        Ok(Found {
            scale: self.den,
            rest: self.goal.constant,
            terms,
            of_goal: true,
        })
    }

    /// A number below 0 as a sum of rows: the line, less what it is without its constant.
    fn contradiction(&self, alloc: Global, line: usize) -> Result<Option<Found>, Memory> {
        let Some(chosen) = self.lines.get(line) else {
            return Ok(None);
        };
        let mut terms = terms_of(alloc, self.columns.as_slice(), chosen, -1)?;
        terms.push((chosen.label, self.den))?;
        let Some(scale) = chosen.constant.checked_neg() else {
            return Ok(None);
        };
        Ok(Some(Found {
            scale,
            rest: 0,
            terms,
            of_goal: false,
        }))
    }
}

/// A line with a number other than 0 in the column, of size 1 where there is one.
fn line_with(lines: &[Line], column: usize) -> Option<usize> {
    let mut found = None;
    for (i, line) in lines.iter().enumerate() {
        let cell = line.cell(column);
        if cell == 1 || cell == -1 {
            return Some(i);
        }
        if cell != 0 && found.is_none() {
            found = Some(i);
        }
    }
    found
}

/// The column of the least label in which the line has a number of this sign.
fn least_column(columns: &[usize], line: &Line, sign: i64) -> Option<usize> {
    let mut least = usize::MAX;
    let mut found = None;
    for (column, label) in columns.iter().enumerate() {
        if *label < least && line.cell(column).signum() == sign {
            least = *label;
            found = Some(column);
        }
    }
    found
}

/// The line of the least label whose constant is below 0.
fn low_line(lines: &[Line]) -> Option<usize> {
    let mut least = usize::MAX;
    let mut found = None;
    for (i, line) in lines.iter().enumerate() {
        if line.label < least && line.constant < 0 {
            least = line.label;
            found = Some(i);
        }
    }
    found
}

/// The line of the least label whose number in the column is below 0.
fn blocking_line(lines: &[Line], column: usize) -> Option<usize> {
    let mut least = usize::MAX;
    let mut found = None;
    for (i, line) in lines.iter().enumerate() {
        if line.label < least && line.cell(column) < 0 {
            least = line.label;
            found = Some(i);
        }
    }
    found
}

/// The columns' labels with the line's numbers, each with this sign, but for those that are 0.
fn terms_of(
    alloc: Global,
    columns: &[usize],
    line: &Line,
    sign: i64,
) -> Result<Vec<(usize, i64)>, Memory> {
    let mut terms = Vec::new(alloc);
    for (column, label) in columns.iter().enumerate() {
        let cell = line.cell(column);
        if cell != 0 {
            terms.push((*label, sign.wrapping_mul(cell)))?;
        }
    }
    Ok(terms)
}
