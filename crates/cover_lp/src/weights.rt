//! Weights of sets that meet what coordinates need.

ghost use Rattle.std.specs.Prelude.{◌≡◌, ◌+◌, ◌<◌, ◌≤◌, ◌↔◌, length, option_map, IsTrue, IfOk, []};
ghost use Rattle.std.specs.List.{AllByRecursion};
ghost use Rattle.cover_lp.specs.Search.{IsFound, Meets, lowered};

use crate::cover::CoordSet;
use affine_form::Memory;
use std::alloc::Global;

/// One weight for each set, of this total, that meet the needs, or none.
pub(crate) fn weights_of(
    alloc: Global,
    sets: &[CoordSet],
    needs: &[u8],
    total: u8,
) -> Result<Option<Vec<u8>>, Memory>
    requires few { length needs.now < 256 }
    requires small { total ≤ 24 }
    ensures { IfOk result (λ found. IsFound (Meets sets.now needs.now total) (option_map (λ weights. weights.items) found)) }
{
    let Some((set, others)) = sets.split_first() else {
        return Ok(weights_of_none(alloc, needs, total));
    };
    for weight in 0..total + 1 {
        let needs = lowered_needs(alloc, set, weight, 0, needs)?;
        if let Some(mut weights) = weights_of(alloc, others, needs.as_slice(), total - weight)? {
            weights.insert(0, weight)?;
            return Ok(Some(weights));
        }
    }
    Ok(None)
}

/// No weights, where there are no sets, the total is 0 and nothing is needed.
fn weights_of_none(alloc: Global, needs: &[u8], total: u8) -> Option<Vec<u8>>
    ensures { IsFound (Meets [] needs.now total) (option_map (λ weights. weights.items) result) }
{
    if total != 0 {
        return None;
    }
    if !is_met(needs) {
        return None;
    }
    Some(Vec::new(alloc))
}

/// What is still needed, from the coordinate `first` on, where a set has this weight.
fn lowered_needs(
    alloc: Global,
    set: &CoordSet,
    weight: u8,
    first: u8,
    needs: &[u8],
) -> Result<Vec<u8>, Memory>
    requires { first + length needs.now < 256 }
    ensures lower { IfOk result (λ lower. lower.items ≡ lowered set.now weight first needs.now) }
    ensures len { IfOk result (λ lower. length lower.items ≡ length needs.now) }
{
    let Some((need, others)) = needs.split_first() else {
        return Ok(Vec::new(alloc));
    };
    let part = if set.holds(first) { weight } else { 0 };
    let mut lower = lowered_needs(alloc, set, weight, first + 1, others)?;
    lower.insert(0, need.saturating_sub(part))?;
    Ok(lower)
}

/// Whether nothing is needed.
fn is_met(needs: &[u8]) -> bool
    ensures { IsTrue result ↔ AllByRecursion (λ need. need ≡ 0) needs.now }
{
    match needs.split_first() {
        Some((need, others)) => *need == 0 && is_met(others),
        None => true,
    }
}
