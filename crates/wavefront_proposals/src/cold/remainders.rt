//! What is left of a piece without the cells that cold terms count.

use crate::cold::outlines::Outline;
use crate::cold::pieces::{Piece, loop_values, settled};
use affine_facts::affine::Affine;
use affine_facts::facts::{Facts, with_row};
use affine_facts::nests::{Limit, copied_bounds, limit_of, nest_rows};
use affine_facts::shown::{Rows, all_put, all_shown, no_point};
use affine_form::Memory;
use std::alloc::Global;

/// How many parts are left of a piece at most.
const PARTS: usize = 16;

/// The scale of an outline times the value of a form over its nest's variables, where these have their values times the scale.
fn scaled(
    alloc: Global,
    params: usize,
    taken: &Outline,
    form: &Affine,
    variables: &[Affine],
) -> Result<Affine, Memory> {
    let scale = i64::from(taken.undoing.scale);
    let mut value = Affine::number(alloc, 0);
    value.add(&form.put(alloc, params, &[])?, scale)?;
    for (place, variable) in variables.iter().enumerate() {
        value.add(variable, form.at(params.saturating_add(place)))?;
    }
    Ok(value)
}

/// The scale of an outline times its variables, where its cell would be this one.
fn scaled_variables(
    alloc: Global,
    params: usize,
    taken: &Outline,
    cell: &[Affine],
) -> Result<Vec<Affine>, Memory> {
    let mut moved = Vec::new(alloc);
    for (own, other) in cell.iter().zip(taken.cell.as_slice().iter()) {
        moved.push(own.less(alloc, &other.put(alloc, params, &[])?, 0)?)?;
    }
    let mut variables = Vec::new(alloc);
    for place in 0..taken.bounds.len() {
        let moved = moved.as_slice();
        variables.push(taken.undoing.scaled_variable(alloc, place, moved)?)?;
    }
    Ok(variables)
}

/// The rows which say that a cell is one of those that a nest's points without their bounds have.
fn cell_rows(
    alloc: Global,
    params: usize,
    taken: &Outline,
    cell: &[Affine],
    variables: &[Affine],
) -> Result<Vec<Affine>, Memory> {
    let scale = i64::from(taken.undoing.scale);
    let mut rows = Vec::new(alloc);
    for (own, other) in cell.iter().zip(taken.cell.as_slice().iter()) {
        let mut more = Affine::number(alloc, 0);
        more.add(own, scale)?;
        more.add(&scaled(alloc, params, taken, other, variables)?, -1)?;
        let mut less = Affine::number(alloc, 0);
        less.add(&more, -1)?;
        rows.push(more)?;
        rows.push(less)?;
    }
    Ok(rows)
}

/// The rows which say that a cell is one of those that an outline counts, as far as its nest tells.
fn taken_rows(
    alloc: Global,
    params: usize,
    taken: &Outline,
    cell: &[Affine],
) -> Result<Vec<Affine>, Memory> {
    let found = scaled_variables(alloc, params, taken, cell)?;
    let variables = found.as_slice();
    let mut rows = cell_rows(alloc, params, taken, cell, variables)?;
    for ((lower, upper), variable) in taken.bounds.as_slice().iter().zip(variables.iter()) {
        let least = scaled(alloc, params, taken, lower, variables)?;
        let most = scaled(alloc, params, taken, upper, variables)?;
        rows.push(variable.less(alloc, &least, 0)?)?;
        rows.push(most.less(alloc, variable, 0)?)?;
    }
    Ok(rows)
}

/// Whether no point is seen to meet rows and one more.
fn has_none(alloc: Global, given: &Rows, row: &Affine) -> Result<bool, Memory> {
    if row.is_number() {
        return Ok(row.constant() < 0);
    }
    let rows = with_row(alloc, given.rows.as_slice(), row.copied(alloc)?)?;
    let vars = given.vars;
    Ok(no_point(alloc, &Rows { vars, rows })?.is_some())
}

/// Whether a bound is seen to leave no more than another one on its side.
fn is_within(
    alloc: Global,
    given: &Rows,
    is_lower: bool,
    bound: &Affine,
    other: &Affine,
) -> Result<bool, Memory> {
    let (more, less) = if is_lower {
        (bound, other)
    } else {
        (other, bound)
    };
    let goals = vec![in alloc; more.less(alloc, less, 0)?]?;
    Ok(all_shown(alloc, given, goals.as_slice())?.is_some())
}

/// The bounds of a loop that meets a limit: with the limit on its side, where this is seen to leave no more turns than there are,
/// or else the last turn on the other side, where the limit leaves that.
fn limited(
    alloc: Global,
    given: &Rows,
    lower: &Affine,
    upper: &Affine,
    limit: &Limit,
) -> Result<Option<(Affine, Affine)>, Memory> {
    let Limit {
        bound,
        is_lower,
        ..
    } = limit;
    let (near, far) = if *is_lower {
        (lower, upper)
    } else {
        (upper, lower)
    };
    let bound = if is_within(alloc, given, *is_lower, bound, near)? {
        bound
    } else if is_within(alloc, given, *is_lower, far, bound)? {
        far
    } else {
        return Ok(None);
    };
    let (first, last) = if *is_lower {
        (bound, far)
    } else {
        (far, bound)
    };
    Ok(Some((first.copied(alloc)?, last.copied(alloc)?)))
}

/// Instances of a piece that meet a row, where they have bounds that are seen to be among its own.
fn narrowed(
    alloc: Global,
    params: usize,
    given: &Rows,
    piece: &Piece,
    row: &Affine,
) -> Result<Option<Piece>, Memory> {
    let Some(limit) = limit_of(alloc, params, row)? else {
        return Ok(None);
    };
    let Some((lower, upper)) = piece.bounds.as_slice().get(limit.place) else {
        return Ok(None);
    };
    let Some(fewer) = limited(alloc, given, lower, upper, &limit)? else {
        return Ok(None);
    };
    let mut bounds = copied_bounds(alloc, piece.bounds.as_slice())?;
    if let Some(pair) = bounds.get_mut(limit.place) {
        *pair = fewer;
    }
    Ok(Some(Piece {
        statement: piece.statement,
        read: piece.read,
        bounds: settled(alloc, params, bounds.as_slice())?,
    }))
}

/// The rows which say that the cells of a piece are among those that an outline counts.
fn rows_of(
    alloc: Global,
    facts: &Facts,
    piece: &Piece,
    taken: &Outline,
) -> Result<Vec<Affine>, Memory> {
    let Some(read) = facts.read(piece.statement, piece.read) else {
        return Ok(Vec::new(alloc));
    };
    let values = loop_values(alloc, facts.params, piece.bounds.as_slice())?;
    let subs = read.access.subs.as_slice();
    let cell = all_put(alloc, facts.params, subs, values.as_slice())?;
    taken_rows(alloc, facts.params, taken, cell.as_slice())
}

/// Parts of a piece with none of the cells that an outline counts, behind others: row by row, those that fail it and meet all
/// rows before.
fn without(
    alloc: Global,
    facts: &Facts,
    piece: Piece,
    taken: &Outline,
    mut parts: Vec<Piece>,
) -> Result<Vec<Piece>, Memory> {
    let params = facts.params;
    let mut rest = piece;
    for row in rows_of(alloc, facts, &rest, taken)? {
        let row = row.reduced(alloc, params)?;
        let opposite = row.negated(alloc)?.reduced(alloc, params)?;
        let given = nest_rows(alloc, facts, rest.bounds.as_slice())?;
        if has_none(alloc, &given, &row)? {
            parts.push(rest)?;
            return Ok(parts);
        }
        if !has_none(alloc, &given, &opposite)? {
            if let Some(part) = narrowed(alloc, params, &given, &rest, &opposite)? {
                parts.push(part)?;
            }
            match narrowed(alloc, params, &given, &rest, &row)? {
                Some(fewer) => rest = fewer,
                None => return Ok(parts),
            }
        }
    }
    Ok(parts)
}

/// The same of each of some pieces.
fn all_without(
    alloc: Global,
    facts: &Facts,
    pieces: Vec<Piece>,
    taken: &Outline,
) -> Result<Vec<Piece>, Memory> {
    let mut parts = Vec::new(alloc);
    for piece in pieces {
        if parts.len() < PARTS {
            parts = without(alloc, facts, piece, taken, parts)?;
        }
    }
    Ok(parts)
}

/// Parts of a piece with none of the cells of its array that outlines count.
pub(crate) fn remainders(
    alloc: Global,
    facts: &Facts,
    piece: Piece,
    array: u16,
    taken: &[Outline],
) -> Result<Vec<Piece>, Memory> {
    let mut parts = vec![in alloc; piece]?;
    for outline in taken {
        if outline.array == array {
            parts = all_without(alloc, facts, parts, outline)?;
        }
    }
    Ok(parts)
}
