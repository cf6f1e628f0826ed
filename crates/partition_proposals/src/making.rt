//! The families of a scheme with their claims, by the ways of a code.

use crate::apart::digit;
use crate::entries::Room;
use crate::families::{Families, anew, families_over, way_of};
use crate::merged::{Merged, merge_drafts};
use crate::points::all_points;
use crate::schemes::{Plan, Scheme};
use affine_facts::facts::Facts;
use affine_form::Memory;
use iolb_model::limits;
use joint_partition::limits::JOINT_CREDITS;
use std::alloc::Global;

/// The families of plans by the ways of a code.
pub(crate) fn all_merged(
    alloc: Global,
    facts: &Facts,
    plans: &[Plan],
    code: u32,
) -> Result<Option<Vec<Merged>>, Memory> {
    let mut all = Vec::new(alloc);
    for (family, plan) in plans.iter().enumerate() {
        let way = way_of(digit(code, family));
        let Some(drafts) = anew(alloc, facts, plan.drafts.as_slice(), way)? else {
            return Ok(None);
        };
        let Some(one) = merge_drafts(alloc, drafts.as_slice())? else {
            return Ok(None);
        };
        all.push(one)?;
    }
    Ok(Some(all))
}

/// The product of the numbers of labelings, each raised to the family's weight.
pub(crate) fn labelings_factor(all: &[Merged], weights: &[u8]) -> u128 {
    let mut product: u128 = 1;
    for (one, weight) in all.iter().zip(weights.iter()) {
        let labelings = one.labelings() as u128;
        product = product.saturating_mul(labelings.saturating_pow(u32::from(*weight)));
    }
    product
}

/// How many nests may be credited in the term of so many parts.
fn most_credits(parts: usize) -> usize {
    if parts > 1 {
        JOINT_CREDITS
    } else {
        limits::CREDITS
    }
}

/// The families of a scheme by the ways of a code, over credited nests that are as close as can be, where these are no more than
/// others would be. What was restricted for one room stays so for the others.
pub(crate) fn made_by(
    alloc: Global,
    facts: &Facts,
    scheme: &Scheme,
    code: u32,
) -> Result<Option<Families>, Memory> {
    let Some(mut all) = all_merged(alloc, facts, scheme.plans.as_slice(), code)? else {
        return Ok(None);
    };
    let all = all.as_mut_slice();
    let weights = scheme.weights.as_slice();
    let most = most_credits(scheme.parts.len());
    let parts = scheme.parts.as_slice();
    let found = families_over(alloc, facts, parts, all, weights, Room::Wide, most)?;
    let Some(mut best) = found else {
        return Ok(None);
    };
    for room in [Room::Fitted, Room::Narrow, Room::Close] {
        let parts = all_points(alloc, best.work.parts.as_slice())?;
        let found = families_over(alloc, facts, parts.as_slice(), all, weights, room, most)?;
        if let Some(made) = found {
            if made.work.stops.len() <= best.work.stops.len() {
                best = made;
            }
        }
    }
    Ok(Some(best))
}
