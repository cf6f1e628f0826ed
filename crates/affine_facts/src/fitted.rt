//! Nests whose points are instances of a statement.

use crate::affine::Affine;
use crate::facts::{Facts, StatementFacts};
use crate::nests::{nest_rows, ranged, tightened};
use crate::shown::all_shown;
use affine_form::Memory;
use std::alloc::Global;

/// The rows which say that bounds are within others.
fn nested_rows(
    alloc: Global,
    bounds: &[(Affine, Affine)],
    domain: &[(Affine, Affine)],
) -> Result<Vec<Affine>, Memory> {
    let mut rows = Vec::new(alloc);
    for ((lower, upper), (least, most)) in bounds.iter().zip(domain.iter()) {
        rows.push(lower.less(alloc, least, 0)?)?;
        rows.push(most.less(alloc, upper, 0)?)?;
    }
    Ok(rows)
}

/// The bounds tightened by each of these rows that isn't seen to be met between them.
fn tightened_to(
    alloc: Global,
    facts: &Facts,
    bounds: Vec<(Affine, Affine)>,
    rows: &[Affine],
) -> Result<Option<Vec<(Affine, Affine)>>, Memory> {
    let mut all = bounds;
    for row in rows {
        let given = nest_rows(alloc, facts, all.as_slice())?;
        let goals = vec![in alloc; row.copied(alloc)?]?;
        if all_shown(alloc, &given, goals.as_slice())?.is_none() {
            match tightened(alloc, facts.params, all.as_slice(), row)? {
                Some(fewer) => all = fewer,
                None => return Ok(None),
            }
        }
    }
    Ok(Some(all))
}

/// The bounds with those of the loops around tightened, as far as they are seen to pass the statement's own.
fn within_loops(
    alloc: Global,
    facts: &Facts,
    bounds: Vec<(Affine, Affine)>,
    own: &StatementFacts,
) -> Result<Option<Vec<(Affine, Affine)>>, Memory> {
    let rows = nested_rows(alloc, bounds.as_slice(), own.bounds.as_slice())?;
    tightened_to(alloc, facts, bounds, rows.as_slice())
}

/// The bounds tightened as far as they are seen to pass the statement's own, or a guard isn't seen to be met.
fn within_domain(
    alloc: Global,
    facts: &Facts,
    bounds: Vec<(Affine, Affine)>,
    own: &StatementFacts,
) -> Result<Option<Vec<(Affine, Affine)>>, Memory> {
    let found = within_loops(alloc, facts, bounds, own)?;
    if own.guards.is_empty() {
        return Ok(found);
    }
    let Some(bounds) = found else {
        return Ok(None);
    };
    match tightened_to(alloc, facts, bounds, own.guards.as_slice())? {
        Some(bounds) => within_loops(alloc, facts, bounds, own),
        None => Ok(None),
    }
}

/// The bounds tightened until the points between them are seen to be instances of the statement, and each range to be whole.
pub fn fitted(
    alloc: Global,
    facts: &Facts,
    bounds: Vec<(Affine, Affine)>,
    own: &StatementFacts,
) -> Result<Option<Vec<(Affine, Affine)>>, Memory> {
    match within_domain(alloc, facts, bounds, own)? {
        Some(bounds) => ranged(alloc, facts, bounds),
        None => Ok(None),
    }
}
