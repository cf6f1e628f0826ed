//! Cuts: the instances of a statement in parts of their own where two loops run over the same values, so that words that are read where
//! one is the other's value are told from the others.

use crate::drafts::{Draft, copied, kept_within};
use crate::points::Points;
use crate::schemes::{Plan, Scheme};
use affine_facts::affine::Affine;
use affine_facts::facts::Facts;
use affine_facts::nests::{copied_bounds, ranged, tightened, wide_loops};
use affine_form::Memory;
use std::alloc::Global;

/// Points of a cut, and the rows that all of them meet.
#[derive(Drop)]
struct Piece {
    bounds: Vec<(Affine, Affine)>,
    rows: Vec<Affine>,
}

/// The loops within the first that run over the same values, at most two.
fn alike(alloc: Global, bounds: &[(Affine, Affine)]) -> Result<Vec<usize>, Memory> {
    let mut all = Vec::new(alloc);
    let Some((least, most)) = bounds.first() else {
        return Ok(all);
    };
    for (place, (lower, upper)) in bounds.iter().enumerate().skip(1) {
        if all.len() < 2 && lower.is_same(least) && upper.is_same(most) {
            all.push(place)?;
        }
    }
    Ok(all)
}

/// The row which says that a loop is at least two less than the first, or at least one more.
fn row_of(alloc: Global, params: usize, place: usize, is_less: bool) -> Result<Affine, Memory> {
    let (first, second, number) = if is_less { (1, -1, -2) } else { (-1, 1, -1) };
    let mut row = Affine::number(alloc, number);
    row.add_variable(params, first)?;
    row.add_variable(params.saturating_add(place), second)?;
    Ok(row)
}

/// The side of a piece that meets a row, where it has as many wide loops.
fn side(alloc: Global, facts: &Facts, piece: &Piece, row: Affine) -> Result<Option<Piece>, Memory> {
    let bounds = piece.bounds.as_slice();
    let Some(bounds) = tightened(alloc, facts.params, bounds, &row)? else {
        return Ok(None);
    };
    let Some(bounds) = ranged(alloc, facts, bounds)? else {
        return Ok(None);
    };
    if wide_loops(alloc, bounds.as_slice())? < bounds.len() {
        return Ok(None);
    }
    let mut rows = Vec::new(alloc);
    for own in piece.rows.as_slice() {
        rows.push(own.copied(alloc)?)?;
    }
    rows.push(row)?;
    Ok(Some(Piece { bounds, rows }))
}

/// The pieces on one side of a loop, behind others.
fn with_sides(
    alloc: Global,
    facts: &Facts,
    pieces: &[Piece],
    place: usize,
    is_less: bool,
    mut all: Vec<Piece>,
) -> Result<Vec<Piece>, Memory> {
    for piece in pieces {
        let row = row_of(alloc, facts.params, place, is_less)?;
        if let Some(own) = side(alloc, facts, piece, row)? {
            all.push(own)?;
        }
    }
    Ok(all)
}

/// The pieces of points, cut at each of these loops.
fn pieces_of(
    alloc: Global,
    facts: &Facts,
    points: &Points,
    loops: &[usize],
) -> Result<Vec<Piece>, Memory> {
    let whole = Piece {
        bounds: copied_bounds(alloc, points.bounds.as_slice())?,
        rows: Vec::new(alloc),
    };
    let mut pieces = vec![in alloc; whole]?;
    for place in loops {
        let own = pieces.as_slice();
        let less = with_sides(alloc, facts, own, *place, true, Vec::new(alloc))?;
        let all = with_sides(alloc, facts, own, *place, false, less)?;
        pieces = all;
    }
    Ok(pieces)
}

/// The drafts of a family for pieces.
fn drafts_of(alloc: Global, draft: &Draft, pieces: &[Piece]) -> Result<Vec<Draft>, Memory> {
    let mut all = Vec::new(alloc);
    for piece in pieces {
        let own = copied(alloc, draft)?;
        all.push(kept_within(alloc, own, piece.rows.as_slice())?)?;
    }
    Ok(all)
}

/// The families of a scheme for pieces.
fn plans_of(alloc: Global, plans: &[Plan], pieces: &[Piece]) -> Result<Vec<Plan>, Memory> {
    let mut all = Vec::new(alloc);
    for plan in plans {
        if let Some(draft) = plan.drafts.as_slice().first() {
            all.push(Plan {
                drafts: drafts_of(alloc, draft, pieces)?,
            })?;
        }
    }
    Ok(all)
}

/// The points of pieces.
fn parts_of(alloc: Global, points: &Points, pieces: Vec<Piece>) -> Result<Vec<Points>, Memory> {
    let mut all = Vec::new(alloc);
    for piece in pieces {
        let mut own = points.copied(alloc)?;
        own.bounds = piece.bounds;
        all.push(own)?;
    }
    Ok(all)
}

/// A scheme of one part, cut at each loop that runs over the same values as the first, where there are such.
pub(crate) fn cut(alloc: Global, facts: &Facts, scheme: &Scheme) -> Result<Option<Scheme>, Memory> {
    let (1, Some(points)) = (scheme.parts.len(), scheme.parts.as_slice().first()) else {
        return Ok(None);
    };
    let loops = alike(alloc, points.bounds.as_slice())?;
    if loops.is_empty() {
        return Ok(None);
    }
    let pieces = pieces_of(alloc, facts, points, loops.as_slice())?;
    let plans = plans_of(alloc, scheme.plans.as_slice(), pieces.as_slice())?;
    let parts = parts_of(alloc, points, pieces)?;
    if parts.len() < 2 {
        return Ok(None);
    }
    Ok(Some(Scheme {
        kind: scheme.kind,
        images: scheme.images,
        parts,
        plans,
        weights: Vec::from_slice(alloc, scheme.weights.as_slice())?,
        q: scheme.q,
    }))
}
