//! Where pieces of what a read takes from the input begin.

use crate::cold::pieces::settled;
use crate::cold::turns::{Turns, all_turned};
use affine_facts::affine::Affine;
use affine_facts::facts::{Facts, StatementFacts, TreeLeaf};
use affine_facts::fitted::fitted;
use affine_facts::nests::{copied_bounds, restricted};
use affine_facts::placed::stands_in;
use affine_form::Memory;
use std::alloc::Global;

/// The bounds of the instances that come to a leaf of a read's tree, where each loop that doesn't stand in the subscripts has one
/// turn, its first or its last.
fn started(
    alloc: Global,
    params: usize,
    bounds: &[(Affine, Affine)],
    subs: &[Affine],
    turns: Turns,
) -> Result<Vec<(Affine, Affine)>, Memory> {
    let mut all = Vec::new(alloc);
    for place in 0..bounds.len() {
        all.push(if stands_in(subs, params.saturating_add(place)) {
            Turns::All
        } else {
            turns
        })?;
    }
    let some = all_turned(alloc, bounds, all.as_slice())?;
    settled(alloc, params, some.as_slice())
}

/// The bounds of the instances that come to a leaf, without turns that are seen to have none, where that can be had.
fn bounds_at(
    alloc: Global,
    facts: &Facts,
    own: &StatementFacts,
    leaf: &TreeLeaf,
) -> Result<Option<Vec<(Affine, Affine)>>, Memory> {
    let (domain, tests) = (own.nest.as_slice(), leaf.tests.as_slice());
    let Some(bounds) = restricted(alloc, facts.params, domain, tests)? else {
        return Ok(None);
    };
    let fewer = fitted(alloc, facts, copied_bounds(alloc, bounds.as_slice())?, own)?;
    Ok(Some(fewer.unwrap_or(bounds)))
}

/// The bounds with which the instances that come to a leaf begin, one or two.
pub(crate) fn starts_at(
    alloc: Global,
    facts: &Facts,
    own: &StatementFacts,
    subs: &[Affine],
    leaf: &TreeLeaf,
) -> Result<Vec<Vec<(Affine, Affine)>>, Memory> {
    let mut all = Vec::new(alloc);
    let params = facts.params;
    if let Some(bounds) = bounds_at(alloc, facts, own, leaf)? {
        let first = started(alloc, params, bounds.as_slice(), subs, Turns::First)?;
        let last = started(alloc, params, bounds.as_slice(), subs, Turns::Last)?;
        let is_one = are_same_in(params, subs, first.as_slice(), last.as_slice());
        all.push(first)?;
        if !is_one {
            all.push(last)?;
        }
    }
    Ok(all)
}

/// Whether the loops that stand in subscripts have the same bounds.
fn are_same_in(
    params: usize,
    subs: &[Affine],
    first: &[(Affine, Affine)],
    second: &[(Affine, Affine)],
) -> bool {
    for (place, (one, other)) in first.iter().zip(second.iter()).enumerate() {
        if stands_in(subs, params.saturating_add(place))
            && !(one.0.is_same(&other.0) && one.1.is_same(&other.1))
        {
            return false;
        }
    }
    true
}
