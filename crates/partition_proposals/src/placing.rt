//! Where the points of a part more are to lie, so that their images differ from those of the others.

use crate::coordinates::Coordinates;
use crate::points::{Points, all_points, apart_from};
use crate::schemes::Scheme;
use affine_facts::affine::{Affine, loops};
use affine_facts::facts::Facts;
use affine_facts::nests::{nest_rows, ranged, tightened, wide_loops};
use affine_facts::shown::all_shown;
use affine_form::Memory;
use std::alloc::Global;

/// How much greater one loop is than another, and a number more.
fn ahead(
    alloc: Global,
    facts: &Facts,
    depth: usize,
    greater: u8,
    less: u8,
    number: i64,
) -> Result<Option<Affine>, Memory> {
    let values = loops(alloc, facts.params, depth)?;
    let one = values.get(usize::from(greater));
    let other = values.get(usize::from(less));
    match (one, other) {
        (Some(one), Some(other)) => Ok(Some(one.less(alloc, other, number)?)),
        _ => Ok(None),
    }
}

/// Whether a loop is never less than another, within bounds.
fn is_ahead(
    alloc: Global,
    facts: &Facts,
    bounds: &[(Affine, Affine)],
    greater: u8,
    less: u8,
) -> Result<bool, Memory> {
    let given = nest_rows(alloc, facts, bounds)?;
    match ahead(alloc, facts, bounds.len(), greater, less, 0)? {
        Some(row) => {
            let goals = vec![in alloc; row]?;
            Ok(all_shown(alloc, &given, goals.as_slice())?.is_some())
        }
        None => Ok(false),
    }
}

/// The bounds without the diagonal of two loops, of which one is never less than the other, where no loop becomes one value by it.
fn off_diagonal(
    alloc: Global,
    facts: &Facts,
    bounds: &[(Affine, Affine)],
    greater: u8,
    less: u8,
) -> Result<Option<Vec<(Affine, Affine)>>, Memory> {
    if !is_ahead(alloc, facts, bounds, greater, less)? {
        return Ok(None);
    }
    let Some(row) = ahead(alloc, facts, bounds.len(), greater, less, -1)? else {
        return Ok(None);
    };
    let Some(tight) = tightened(alloc, facts.params, bounds, &row)? else {
        return Ok(None);
    };
    let Some(all) = ranged(alloc, facts, tight)? else {
        return Ok(None);
    };
    if wide_loops(alloc, all.as_slice())? < all.len() {
        return Ok(None);
    }
    Ok(Some(all))
}

/// Points and others of the same statement, both off a diagonal.
fn both_off_diagonal(
    alloc: Global,
    facts: &Facts,
    first: &Points,
    points: &Points,
    greater: u8,
    less: u8,
) -> Result<Option<Vec<Points>>, Memory> {
    let found = off_diagonal(alloc, facts, first.bounds.as_slice(), greater, less)?;
    let Some(bounds) = found else {
        return Ok(None);
    };
    let mut one = first.copied(alloc)?;
    let mut other = points.copied(alloc)?;
    one.bounds = bounds;
    let Some(bounds) = off_diagonal(alloc, facts, points.bounds.as_slice(), greater, less)? else {
        return Ok(None);
    };
    other.bounds = bounds;
    let parts = vec![in alloc; one]?;
    if apart_from(alloc, facts, parts.as_slice(), &other)? {
        return Ok(Some(with_points(parts, other)?));
    }
    Ok(None)
}

/// Parts, and one more.
fn with_points(mut parts: Vec<Points>, points: Points) -> Result<Vec<Points>, Memory> {
    parts.push(points)?;
    Ok(parts)
}

/// The bounds of a coordinate that is a loop, by the parameters alone.
fn range_of(params: usize, points: &Points, coordinate: usize) -> Option<(&Affine, &Affine)> {
    let form = points.image.as_slice().get(coordinate)?;
    let place = form.only_loop(params)?;
    let (lower, upper) = points.bounds.as_slice().get(place)?;
    let is_free = lower.first_loop(params).is_none() && upper.first_loop(params).is_none();
    let is_plain = form.at(params.saturating_add(place)) == 1 && form.constant() == 0;
    if is_free && is_plain {
        Some((lower, upper))
    } else {
        None
    }
}

/// Points with a coordinate moved past those of others.
fn moved_past(
    alloc: Global,
    params: usize,
    other: &Points,
    points: &Points,
    coordinate: usize,
) -> Result<Option<Points>, Memory> {
    let (Some((_lower, upper)), Some((lower, _upper))) = (
        range_of(params, other, coordinate),
        range_of(params, points, coordinate),
    ) else {
        return Ok(None);
    };
    let by = upper.less(alloc, lower, 1)?;
    let mut moved = points.copied(alloc)?;
    if let Some(form) = moved.image.get_mut(coordinate) {
        form.add(&by, 1)?;
    }
    Ok(Some(moved))
}

/// Parts whose images differ, and whether the last one's were moved.
#[derive(Drop)]
pub(crate) struct Placed {
    pub(crate) parts: Vec<Points>,
    pub(crate) is_moved: bool,
}

/// The parts with points moved past those of the last part by one coordinate, for each by which the images differ.
fn moved_parts(
    alloc: Global,
    facts: &Facts,
    parts: &[Points],
    points: &Points,
) -> Result<Vec<Placed>, Memory> {
    let mut all = Vec::new(alloc);
    let Some(last) = parts.last() else {
        return Ok(all);
    };
    for coordinate in 0..points.bounds.len() {
        if let Some(moved) = moved_past(alloc, facts.params, last, points, coordinate)? {
            if apart_from(alloc, facts, parts, &moved)? {
                all.push(Placed {
                    parts: with_points(all_points(alloc, parts)?, moved)?,
                    is_moved: true,
                })?;
            }
        }
    }
    Ok(all)
}

/// The parts of a scheme with points more, whose images differ: as they are; or both off a diagonal, where they are those of one
/// statement with two loops turned; or moved past those of another statement. There may be several ways.
pub(crate) fn placed_parts(
    alloc: Global,
    facts: &Facts,
    scheme: &Scheme,
    points: Points,
    kind: Coordinates,
) -> Result<Vec<Placed>, Memory> {
    let parts = scheme.parts.as_slice();
    let mut all = Vec::new(alloc);
    let is_moved = false;
    if apart_from(alloc, facts, parts, &points)? {
        let parts = with_points(all_points(alloc, parts)?, points)?;
        all.push(Placed { parts, is_moved })?;
        return Ok(all);
    }
    let is_present = parts
        .iter()
        .any(|other| other.statement == points.statement);
    if !is_present {
        return moved_parts(alloc, facts, parts, &points);
    }
    if let (1, Some(first), Coordinates::Turned(one, other)) = (parts.len(), parts.first(), kind) {
        for (greater, less) in [(one, other), (other, one)] {
            let found = both_off_diagonal(alloc, facts, first, &points, greater, less)?;
            if let Some(parts) = found {
                all.push(Placed { parts, is_moved })?;
            }
        }
    }
    Ok(all)
}
