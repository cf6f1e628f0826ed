//! Points, by a sum for each coordinate, and rows about them.

use affine_form::{Form, Memory};
use asked_systems::Sum;
use std::alloc::Global;

/// The variables at so many places from one on, over so many variables.
pub(crate) fn variables(
    alloc: Global,
    vars: usize,
    first: usize,
    count: usize,
) -> Result<Vec<Sum>, Memory> {
    let mut all = Vec::new(alloc);
    for number in 0..count {
        all.push(Sum::variable(alloc, vars, first.saturating_add(number))?)?;
    }
    Ok(all)
}

/// Forms with a point put in for their variables.
pub(crate) fn put_all(
    alloc: Global,
    vars: usize,
    forms: &[Form],
    point: &[Sum],
) -> Result<Vec<Sum>, Memory> {
    let mut all = Vec::new(alloc);
    for form in forms {
        all.push(Sum::put(alloc, vars, form, point)?)?;
    }
    Ok(all)
}

/// A point, and copies of the coordinates of another behind it.
pub(crate) fn followed(alloc: Global, front: Vec<Sum>, behind: &[Sum]) -> Result<Vec<Sum>, Memory> {
    let mut all = front;
    for sum in behind {
        all.push(sum.times(alloc, 1)?)?;
    }
    Ok(all)
}

/// The rows which say that values are within the bounds of variables, whose forms are over the parameters and the
/// values before.
pub(crate) fn bound_rows(
    alloc: Global,
    vars: usize,
    bounds: &[(Form, Form)],
    params: &[Sum],
    values: &[Sum],
) -> Result<Vec<Sum>, Memory> {
    let front = followed(alloc, Vec::new(alloc), params)?;
    let point = followed(alloc, front, values)?;
    let mut rows = Vec::new(alloc);
    for (value, (lower, upper)) in values.iter().zip(bounds) {
        let least = Sum::put(alloc, vars, lower, point.as_slice())?;
        rows.push(value.less(alloc, &least)?)?;
        rows.push(Sum::put(alloc, vars, upper, point.as_slice())?.less(alloc, value)?)?;
    }
    Ok(rows)
}

/// The rows which say that points are equal, two for each coordinate.
pub(crate) fn equal_rows(alloc: Global, one: &[Sum], other: &[Sum]) -> Result<Vec<Sum>, Memory> {
    let mut rows = Vec::new(alloc);
    for (first, second) in one.iter().zip(other) {
        rows.push(first.less(alloc, second)?)?;
        rows.push(second.less(alloc, first)?)?;
    }
    Ok(rows)
}
