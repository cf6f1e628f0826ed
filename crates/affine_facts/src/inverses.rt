//! Matrices that turn forms back into a number times the variables that stand in them.

ghost use Rattle.std.specs.Prelude.{◌≡◌, ◌≤◌, ◌*◌, length, IfOk, IfSome};
ghost use Rattle.std.specs.List.{AllByRecursion};
ghost use Rattle.affine_form.specs.Form.{IsSmall};
ghost use Rattle.iolb_model.specs.declared.limits.TheConstants.{LOOPS, NEST_VARIABLES, NUMBER_SIZE};

use crate::affine::Affine;
use affine_form::{Matrix, Memory};
use affine_program::is_small;
use iolb_model::limits;
use std::alloc::Global;

/// A matrix that turns forms back into variables: times the forms, less what they are where each variable is 0, it is the scale
/// times the variables.
#[derive(Drop)]
pub struct Undoing {
    pub matrix: Matrix,
    pub scale: u32,
}

/// A line of the elimination: the numbers of the variables, and behind them how many times each form was taken. The other lines
/// have no number at the variable whose pivot it is.
#[derive(Drop)]
struct Line {
    pivot_of: Option<usize>,
    numbers: Vec<i64>,
}

impl Undoing {
    /// The scale times a variable, where the forms less what they are at 0 have these values.
    pub fn scaled_variable(
        &self,
        alloc: Global,
        variable: usize,
        values: &[Affine],
    ) -> Result<Affine, Memory> {
        let mut form = Affine::number(alloc, 0);
        let before = variable.saturating_mul(self.matrix.cols());
        let entries = self.matrix.cells().iter().skip(before);
        for (entry, value) in entries.zip(values.iter()) {
            form.add(value, i64::from(*entry))?;
        }
        Ok(form)
    }
}

impl Line {
    /// The number at a place.
    fn at(&self, place: usize) -> i64 {
        match self.numbers.as_slice().get(place) {
            Some(number) => *number,
            None => 0,
        }
    }

    /// The same line, as the pivot of a variable or of none.
    fn copied(&self, alloc: Global, pivot_of: Option<usize>) -> Result<Line, Memory> {
        let numbers = Vec::from_slice(alloc, self.numbers.as_slice())?;
        Ok(Line { pivot_of, numbers })
    }

    /// A line without a number at a variable: the pivot's number there times this one, less this one's times the pivot.
    fn cleared(
        &self,
        alloc: Global,
        pivot: &Line,
        variable: usize,
    ) -> Result<Option<Line>, Memory> {
        let (own, other) = (self.at(variable), pivot.at(variable));
        if own == 0 {
            return Ok(Some(self.copied(alloc, self.pivot_of)?));
        }
        let mut numbers = Vec::new(alloc);
        for (number, taken) in self
            .numbers
            .as_slice()
            .iter()
            .zip(pivot.numbers.as_slice().iter())
        {
            let Some(number) = difference(*number, other, *taken, own) else {
                return Ok(None);
            };
            numbers.push(number)?;
        }
        Ok(Some(Line {
            pivot_of: self.pivot_of,
            numbers,
        }))
    }
}

/// A product less another.
fn difference(first: i64, times: i64, second: i64, times_second: i64) -> Option<i64> {
    let product = first.checked_mul(times)?;
    product.checked_sub(second.checked_mul(times_second)?)
}

/// A form's line: taken once, it is itself.
fn line_of(
    alloc: Global,
    params: usize,
    vars: usize,
    forms: usize,
    place: usize,
    form: &Affine,
) -> Result<Line, Memory> {
    let mut numbers = Vec::new(alloc);
    for column in 0..vars.saturating_add(forms) {
        numbers.push(if column < vars {
            form.at(params.saturating_add(column))
        } else {
            i64::from(column - vars == place)
        })?;
    }
    Ok(Line {
        pivot_of: None,
        numbers,
    })
}

/// The lines of forms.
fn lines_of(
    alloc: Global,
    params: usize,
    vars: usize,
    forms: &[Affine],
) -> Result<Vec<Line>, Memory> {
    let mut lines = Vec::new(alloc);
    for (place, form) in forms.iter().enumerate() {
        lines.push(line_of(alloc, params, vars, forms.len(), place, form)?)?;
    }
    Ok(lines)
}

/// The first line with a number at a variable that isn't the pivot of another one yet.
fn pivot_at(lines: &[Line], variable: usize) -> Option<usize> {
    lines
        .iter()
        .position(|line| line.pivot_of.is_none() && line.at(variable) != 0)
}

/// The lines where one is the pivot of a variable, and the others have no number at it.
fn pivoted(
    alloc: Global,
    lines: Vec<Line>,
    place: usize,
    variable: usize,
) -> Result<Option<Vec<Line>>, Memory> {
    let Some(pivot) = lines.as_slice().get(place) else {
        return Ok(None);
    };
    let mut all = Vec::new(alloc);
    for (number, line) in lines.as_slice().iter().enumerate() {
        if number == place {
            all.push(line.copied(alloc, Some(variable))?)?;
        } else {
            let Some(cleared) = line.cleared(alloc, pivot, variable)? else {
                return Ok(None);
            };
            all.push(cleared)?;
        }
    }
    Ok(Some(all))
}

/// The lines where each variable has a pivot, where there are such.
fn all_pivoted(alloc: Global, lines: Vec<Line>, vars: usize) -> Result<Option<Vec<Line>>, Memory> {
    let mut all = lines;
    for variable in 0..vars {
        let Some(place) = pivot_at(all.as_slice(), variable) else {
            return Ok(None);
        };
        match pivoted(alloc, all, place, variable)? {
            Some(lines) => all = lines,
            None => return Ok(None),
        }
    }
    Ok(Some(all))
}

/// The line that is the pivot of a variable.
fn pivot_of(lines: &[Line], variable: usize) -> Option<&Line> {
    for line in lines {
        if line.pivot_of == Some(variable) {
            return Some(line);
        }
    }
    None
}

/// The product of the pivots' sizes, where it is a scale.
fn scale_of(lines: &[Line], vars: usize) -> Option<u32> {
    let mut scale: u32 = 1;
    for variable in 0..vars {
        let pivot = pivot_of(lines, variable)?.at(variable).checked_abs()?;
        scale = scale.checked_mul(u32::try_from(pivot).ok()?)?;
        if scale > limits::SCALE {
            return None;
        }
    }
    Some(scale)
}

/// The entry of the matrix in a variable's row and a form's column.
fn scaled_entry(
    lines: &[Line],
    vars: usize,
    scale: u32,
    variable: usize,
    column: usize,
) -> Option<i32>
    ensures { IfSome result (IsSmall NUMBER_SIZE) }
{
    let line = pivot_of(lines, variable)?;
    let share = i64::from(scale).checked_div(line.at(variable))?;
    let number = share.checked_mul(line.at(vars.saturating_add(column)))?;
    if !is_small(i128::from(number)) {
        return None;
    }
    match i32::try_from(number) {
        Ok(entry) => Some(entry),
        Err(_) => None,
    }
}

/// The entries of the matrix, row after row, where they are within the limits.
fn scaled_entries(
    alloc: Global,
    lines: &[Line],
    vars: usize,
    forms: usize,
    scale: u32,
) -> Result<Option<Vec<i32>>, Memory>
    requires few { vars ≤ NEST_VARIABLES }
    requires few_forms { forms ≤ LOOPS }
    ensures full { IfOk result (λ found. IfSome found (λ cells. length cells.items ≡ vars * forms)) }
    ensures small { IfOk result (λ found. IfSome found (λ cells. AllByRecursion (IsSmall NUMBER_SIZE) cells.items)) }
{
    let mut cells = Vec::new(alloc);
    for place in 0..vars * forms {
        let row = place.checked_div(forms).unwrap_or(0);
        let column = place.checked_rem(forms).unwrap_or(0);
        let Some(entry) = scaled_entry(lines, vars, scale, row, column) else {
            return Ok(None);
        };
        cells.push(entry)?;
    }
    Ok(Some(cells))
}

/// The matrix that turns forms back into a number times so many variables, where no two points of these have the same values and
/// its numbers are within the limits. It has no columns where there are no variables.
pub fn scaled_matrix(
    alloc: Global,
    params: usize,
    vars: usize,
    forms: &[Affine],
) -> Result<Option<Undoing>, Memory> {
    if vars > limits::NEST_VARIABLES || forms.len() > limits::LOOPS {
        return Ok(None);
    }
    if vars == 0 {
        let matrix = Matrix::new(0, 0, Vec::new(alloc));
        return Ok(Some(Undoing { matrix, scale: 1 }));
    }
    let lines = lines_of(alloc, params, vars, forms)?;
    let Some(lines) = all_pivoted(alloc, lines, vars)? else {
        return Ok(None);
    };
    let Some(scale) = scale_of(lines.as_slice(), vars) else {
        return Ok(None);
    };
    match scaled_entries(alloc, lines.as_slice(), vars, forms.len(), scale)? {
        Some(cells) => Ok(Some(Undoing {
            matrix: Matrix::new(vars, forms.len(), cells),
            scale,
        })),
        None => Ok(None),
    }
}
