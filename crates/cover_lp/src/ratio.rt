//! The least total that a cover can have, as a ratio.

ghost use Rattle.std.specs.Prelude.{◌≡◌, ◌*◌, ◌≤◌, ℕ, sum, IsTrue, IfOk, IfSome, IfNone};
ghost use Rattle.std.specs.List.{AllByRecursion};
ghost use Rattle.cover_lp.specs.Cover.{IsCover, IsPacking, packed_from, weight_at};
ghost use Rattle.cover_lp.specs.Search.{IsRatio};

use crate::cover::CoordSet;
use crate::tableau::{Optimum, solution};
use affine_form::Memory;
use std::alloc::Global;

/// The greatest total that is tried.
pub(crate) const MOST_TOTAL: u8 = 24;

/// A total over a denominator.
#[derive(Clone, Copy)]
pub(crate) struct Ratio {
    pub(crate) total: u64,
    pub(crate) q: u64,
}

/// The total of a cover and a packing of the same total, over their denominator, or None where none was found.
pub(crate) fn least_ratio(alloc: Global, sets: &[CoordSet], d: u8) -> Result<Option<Ratio>, Memory>
    ensures { IfOk result (λ found. IfSome found (λ ratio. IsRatio sets.now d ratio.q ratio.total)) }
{
    let Some(found) = solution(alloc, sets, d)? else {
        return Ok(None);
    };
    Ok(tested(sets, d, &found))
}

/// The ratio of weights and amounts where these are a cover and a packing of the same total.
fn tested(sets: &[CoordSet], d: u8, found: &Optimum) -> Option<Ratio>
    ensures { IfSome result (λ ratio. IsRatio sets.now d ratio.q ratio.total) }
{
    let (weights, packing) = (found.weights.as_slice(), found.packing.as_slice());
    let total = total_of(weights)?;
    let packed = total_of(packing)?;
    if found.q == 0 || total != packed {
        return None;
    }
    if is_cover(sets, d, found.q, weights) && is_packing(sets, d, found.q, packing) {
        return Some(Ratio { total, q: found.q });
    }
    None
}

/// The total over another denominator, where that is whole and at most 24.
pub(crate) fn total_over(ratio: Ratio, q: u8) -> Option<u8>
    requires { 1 ≤ ratio.q }
    ensures small { IfSome result (λ total. total ≤ 24) }
    ensures same { IfSome result (λ total. total * ratio.q ≡ ratio.total * q) }
    ensures none { IfNone result ((total : ℕ) → total ≤ 24 → total * ratio.q ≡ ratio.total * q → ⊥) }
{
    let product = u128::from(ratio.total) * u128::from(q);
    let divisor = u128::from(ratio.q);
    for total in 0..MOST_TOTAL + 1 {
        if u128::from(total) * divisor == product {
            return Some(total);
        }
    }
    None
}

/// The numbers added up.
fn total_of(numbers: &[u64]) -> Option<u64>
    ensures { IfSome result (λ total. total ≡ sum numbers.now) }
{
    match numbers.split_first() {
        Some((number, others)) => number.checked_add(total_of(others)?),
        None => Some(0),
    }
}

/// Whether these are weights of a cover.
fn is_cover(sets: &[CoordSet], d: u8, q: u64, weights: &[u64]) -> bool
    ensures { IsTrue result → IsCover sets.now d q weights.now }
{
    if weights.len() != sets.len() {
        return false;
    }
    for coordinate in 0..d {
        if !is_covered(sets, weights, coordinate, q) {
            return false;
        }
    }
    true
}

/// Whether the sets that hold a coordinate weigh at least this much.
fn is_covered(sets: &[CoordSet], weights: &[u64], coordinate: u8, q: u64) -> bool
    ensures { IsTrue result → q ≤ weight_at sets.now weights.now coordinate }
{
    match weight_at(sets, weights, coordinate) {
        Some(weight) => q <= weight,
        None => false,
    }
}

/// The weights of the sets that hold a coordinate, added up.
fn weight_at(sets: &[CoordSet], weights: &[u64], coordinate: u8) -> Option<u64>
    ensures { IfSome result (λ weight. weight ≡ weight_at sets.now weights.now coordinate) }
{
    let (Some((set, others)), Some((weight, more))) = (sets.split_first(), weights.split_first())
    else {
        return Some(0);
    };
    let part = if set.holds(coordinate) { *weight } else { 0 };
    part.checked_add(weight_at(others, more, coordinate)?)
}

/// Whether these are amounts of a packing.
fn is_packing(sets: &[CoordSet], d: u8, q: u64, packing: &[u64]) -> bool
    ensures { IsTrue result → IsPacking sets.now d q packing.now }
{
    packing.len() == usize::from(d) && are_held(sets, q, packing)
}

/// Whether each set holds at most this much.
fn are_held(sets: &[CoordSet], q: u64, packing: &[u64]) -> bool
    ensures { IsTrue result → AllByRecursion (λ set. packed_from 0 packing.now set ≤ q) sets.now }
{
    match sets.split_first() {
        Some((set, others)) => is_held(set, q, packing) && are_held(others, q, packing),
        None => true,
    }
}

/// Whether a set holds at most this much.
fn is_held(set: &CoordSet, q: u64, packing: &[u64]) -> bool
    ensures { IsTrue result → packed_from 0 packing.now set.now ≤ q }
{
    match packed_from(0, packing, set) {
        Some(packed) => packed <= q,
        None => false,
    }
}

/// What is packed at the coordinates that a set holds, added up, where the amounts begin at the coordinate `first`.
fn packed_from(first: u8, amounts: &[u64], set: &CoordSet) -> Option<u64>
    ensures { IfSome result (λ packed. packed ≡ packed_from first amounts.now set.now) }
{
    let Some((amount, others)) = amounts.split_first() else {
        return Some(0);
    };
    let part = if set.holds(first) { *amount } else { 0 };
    part.checked_add(packed_from(first.checked_add(1)?, others, set)?)
}
