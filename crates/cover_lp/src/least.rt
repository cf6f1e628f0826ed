//! Least covers.

ghost use Rattle.std.specs.Prelude.{◌≡◌, ◌<◌, ◌≤◌, ◌↔◌, ℕ, List, option_map, replicate, sum, IsTrue, Err, IfOk, IfErr, IfSome, IfNone};
ghost use Rattle.std.specs.Option.{ForSome};
ghost use Rattle.cover_lp.specs.Cover.{IsBare, IsLeastPair, IsPair, IsTooFine, IsUncovered};
ghost use Rattle.cover_lp.specs.Search.{IsCoverOf, IsFound, IsPackingOf, IsRatio};

use crate::cover::{CoordSet, Cover, CoverFault};
use crate::packings::amounts_of;
use crate::ratio::{MOST_TOTAL, Ratio, least_ratio, total_over};
use crate::weights::weights_of;
use affine_form::Memory;
use std::alloc::Global;

/// The greatest denominator that is tried.
const MOST_Q: u8 = 12;

/// A cover of d coordinates by the sets and a packing of the same total, over the least denominator that has such a pair.
///
/// # Errors
///
/// `Uncovered` with the least of the coordinates that is in no set, exactly where there is one; `TooFine` exactly where
/// there is none and no pair has a denominator from 1 to 12 and a total of at most 24. Its time grows with the number of
/// lists of small numbers of one total, one for each set or coordinate: it is made for at most 6 of each.
pub fn least_cover(alloc: Global, sets: &[CoordSet], d: u8) -> Result<Cover, CoverFault>
    ensures least { IfOk result (λ cover. IsLeastPair sets.now d cover.q cover.weights.items cover.packing.items) }
    ensures within { IfOk result (λ cover. (cover.q ≤ 12) × (sum cover.weights.items ≤ 24)) }
    ensures uncovered { IfErr result (λ fault. (coordinate : ℕ) → fault ≡ CoverFault.Uncovered coordinate → IsUncovered sets.now d coordinate) }
    ensures too_fine { result ≡ Err CoverFault.TooFine → IsTooFine sets.now d }
{
    if let Some(coordinate) = first_bare(sets, d) {
        return Err(CoverFault::Uncovered(coordinate));
    }
    let ratio = least_ratio(alloc, sets, d)?;
    for q in 1..MOST_Q + 1 {
        if let Some(cover) = pair_over(alloc, sets, d, q, ratio)? {
            return Ok(cover);
        }
    }
    Err(CoverFault::TooFine)
}

/// The least of the d coordinates that is in no set.
fn first_bare(sets: &[CoordSet], d: u8) -> Option<u8>
    ensures some { IfSome result (λ coordinate. IsUncovered sets.now d coordinate) }
    ensures none { IfNone result ((coordinate : ℕ) → coordinate < d → IsBare sets.now coordinate → ⊥) }
{
    for coordinate in 0..d {
        if is_bare(sets, coordinate) {
            return Some(coordinate);
        }
    }
    None
}

/// Whether no set holds the coordinate.
fn is_bare(sets: &[CoordSet], coordinate: u8) -> bool
    ensures { IsTrue result ↔ IsBare sets.now coordinate }
{
    match sets.split_first() {
        Some((set, others)) => !set.holds(coordinate) && is_bare(others, coordinate),
        None => true,
    }
}

/// A cover and a packing of equal totals over this denominator, with a total of at most 24, or none. Where the ratio of total and
/// denominator is known, it leaves one total.
fn pair_over(
    alloc: Global,
    sets: &[CoordSet],
    d: u8,
    q: u8,
    ratio: Option<Ratio>,
) -> Result<Option<Cover>, Memory>
    requires some { 1 ≤ q }
    requires known { ForSome ratio (λ ratio. IsRatio sets.now d ratio.q ratio.total) }
    ensures some { IfOk result (λ found. IfSome found (λ cover. (cover.q ≡ q) × IsPair sets.now d q cover.weights.items cover.packing.items × (sum cover.weights.items ≤ 24))) }
    ensures none { IfOk result (λ found. IfNone found ((weights packing : List ℕ) → sum weights ≤ 24 → IsPair sets.now d q weights packing → ⊥)) }
{
    let Some(ratio) = ratio else {
        return first_pair(alloc, sets, d, q);
    };
    match total_over(ratio, q) {
        Some(total) => pair_of(alloc, sets, d, q, total),
        None => Ok(None),
    }
}

/// A cover and a packing over this denominator of the first total from 0 to 24 that has a cover, or none.
fn first_pair(alloc: Global, sets: &[CoordSet], d: u8, q: u8) -> Result<Option<Cover>, Memory>
    requires { 1 ≤ q }
    ensures some { IfOk result (λ found. IfSome found (λ cover. (cover.q ≡ q) × IsPair sets.now d q cover.weights.items cover.packing.items × (sum cover.weights.items ≤ 24))) }
    ensures none { IfOk result (λ found. IfNone found ((weights packing : List ℕ) → sum weights ≤ 24 → IsPair sets.now d q weights packing → ⊥)) }
{
    for total in 0..MOST_TOTAL + 1 {
        let Some(weights) = cover_of(alloc, sets, d, q, total)? else {
            continue;
        };
        let Some(packing) = packing_of(alloc, sets, d, q, total)? else {
            return Ok(None);
        };
        return Ok(Some(Cover {
            weights,
            packing,
            q,
        }));
    }
    Ok(None)
}

/// A cover and a packing over this denominator of this total, or none.
fn pair_of(
    alloc: Global,
    sets: &[CoordSet],
    d: u8,
    q: u8,
    total: u8,
) -> Result<Option<Cover>, Memory>
    requires { total ≤ 24 }
    ensures some { IfOk result (λ found. IfSome found (λ cover. (cover.q ≡ q) × IsPair sets.now d q cover.weights.items cover.packing.items × (sum cover.weights.items ≡ total))) }
    ensures none { IfOk result (λ found. IfNone found ((weights packing : List ℕ) → sum weights ≡ total → IsPair sets.now d q weights packing → ⊥)) }
{
    let Some(weights) = cover_of(alloc, sets, d, q, total)? else {
        return Ok(None);
    };
    let Some(packing) = packing_of(alloc, sets, d, q, total)? else {
        return Ok(None);
    };
    Ok(Some(Cover {
        weights,
        packing,
        q,
    }))
}

/// The weights of a cover over this denominator of this total, or none.
fn cover_of(
    alloc: Global,
    sets: &[CoordSet],
    d: u8,
    q: u8,
    total: u8,
) -> Result<Option<Vec<u8>>, Memory>
    requires { total ≤ 24 }
    ensures { IfOk result (λ found. IsFound (IsCoverOf sets.now d q total) (option_map (λ weights. weights.items) found)) }
{
    let needs = filled(alloc, usize::from(d), q)?;
    let found = weights_of(alloc, sets, needs.as_slice(), total)?;
    Ok(found)
}

/// The amounts of a packing over this denominator of this total, or none.
fn packing_of(
    alloc: Global,
    sets: &[CoordSet],
    d: u8,
    q: u8,
    total: u8,
) -> Result<Option<Vec<u8>>, Memory>
    requires { total ≤ 24 }
    ensures { IfOk result (λ found. IsFound (IsPackingOf sets.now d q total) (option_map (λ amounts. amounts.items) found)) }
{
    let rooms = filled(alloc, sets.len(), q)?;
    let found = amounts_of(alloc, sets, rooms.as_slice(), 0, d, total)?;
    Ok(found)
}

/// So many times a number.
fn filled(alloc: Global, count: usize, number: u8) -> Result<Vec<u8>, Memory>
    ensures { IfOk result (λ list. list.items ≡ replicate count number) }
{
    let mut list = Vec::new(alloc);
    list.resize(count, number)?;
    Ok(list)
}
