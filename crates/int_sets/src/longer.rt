//! Longer lists that show a goal.

ghost use Rattle.std.specs.Prelude.{◌≡◌, ◌≤◌, ◌<◌, length, IfOk, IfSome};
ghost use Rattle.std.specs.List.{AllByRecursion};
ghost use Rattle.affine_form.specs.Form.{variables};
ghost use Rattle.affine_form.specs.Multipliers.{IsWeight, RowsRise};
ghost use Rattle.affine_form.specs.Shown.{Shows, Follows};
ghost use Rattle.iolb_model.specs.declared.limits.TheConstants.{MULTIPLIER_SIZE};

use crate::dictionary::{Found, find};
use affine_form::{Form, Memory, Multipliers, System, entails};
use iolb_model::limits::MULTIPLIER_SIZE;
use std::alloc::Global;

/// Multipliers of any length that show the goal, where a search for the least value of the goal finds some.
pub(crate) fn longer_list(
    alloc: Global,
    system: &System,
    goal: &Form,
) -> Result<Option<Multipliers>, Memory>
    ensures shows { IfOk result (λ found. IfSome found (λ shown. Shows system.now goal.now shown)) }
    ensures scale { IfOk result (λ found. IfSome found (λ shown. 1 ≤ shown.scale)) }
    ensures follows { IfOk result (λ found. IfSome found (λ shown. Follows system.now goal.now)) }
{
    let Some(found) = find(alloc, system, goal)? else {
        return Ok(None);
    };
    let Some(shown) = multipliers_of(alloc, system.rows().len(), goal, &found)? else {
        return Ok(None);
    };
    // Its reader says that the scale is at least 1.
    let _scale = shown.c();
    if !entails(system, goal, &shown) {
        return Ok(None);
    }
    Ok(Some(shown))
}

/// The multipliers of a sum of rows that is the goal, or of one that is a number below 0, where the goal is too.
fn multipliers_of(
    alloc: Global,
    rows: usize,
    goal: &Form,
    found: &Found,
) -> Result<Option<Multipliers>, Memory>
    requires { rows ≤ 128 }
{
    let factor = if found.of_goal {
        1
    } else {
        i64::try_from(goal.constant().saturating_neg()).unwrap_or(0)
    };
    let divisor = common_factor(found);
    let Some(weights) = weights_of(alloc, rows, found.terms.as_slice(), factor, divisor)? else {
        return Ok(None);
    };
    let (Some(scale), Some(rest)) = (weight(found.scale, divisor), weight(found.rest, divisor))
    else {
        return Ok(None);
    };
    if scale == 0 {
        return Ok(None);
    }
    Ok(Some(Multipliers::new(scale, rest, weights)))
}

/// The greatest number that divides all numbers of a sum, 1 where all are 0.
fn common_factor(found: &Found) -> u64 {
    let mut factor = divisor_of(found.scale.unsigned_abs(), found.rest.unsigned_abs());
    for (_, number) in &found.terms {
        factor = divisor_of(factor, number.unsigned_abs());
    }
    factor.max(1)
}

/// The greatest number that divides two, by Euclid's algorithm.
fn divisor_of(first: u64, second: u64) -> u64 {
    let (mut greater, mut lesser) = (first, second);
    while lesser != 0 {
        (greater, lesser) = (lesser, greater % lesser);
    }
    greater
}

/// A number over one that divides it as a multiplier, where that is from 0 below 2^48.
fn weight(number: i64, divisor: u64) -> Option<u64>
    ensures { IfSome result (λ weight. weight < MULTIPLIER_SIZE) }
{
    if number < 0 || divisor == 0 {
        return None;
    }
    let weight = number.unsigned_abs() / divisor;
    if weight < MULTIPLIER_SIZE {
        Some(weight)
    } else {
        None
    }
}

/// The rows of terms in their order, each with its number times a factor and over a divisor, or None where one is no
/// multiplier.
fn weights_of(
    alloc: Global,
    rows: usize,
    terms: &[(usize, i64)],
    factor: i64,
    divisor: u64,
) -> Result<Option<Vec<(u8, u64)>>, Memory>
    requires { rows ≤ 128 }
    ensures small { IfOk result (λ found. IfSome found (λ weights. AllByRecursion IsWeight weights.items)) }
    ensures rising { IfOk result (λ found. IfSome found (λ weights. RowsRise weights.items)) }
{
    let mut weights = Vec::new(alloc);
    for row in 0..rows {
        let Some(weight) = weight_of(terms, row, factor, divisor) else {
            return Ok(None);
        };
        if weight > 0 {
            weights.push((row as u8, weight))?;
        }
    }
    Ok(Some(weights))
}

/// The number of a row among terms, times a factor and over one that divides it, where that is from 0 below 2^48.
fn weight_of(terms: &[(usize, i64)], row: usize, factor: i64, divisor: u64) -> Option<u64>
    ensures { IfSome result (λ weight. weight < MULTIPLIER_SIZE) }
{
    for (label, number) in terms {
        if *label == row {
            return weight(number.checked_mul(factor)?, divisor);
        }
    }
    Some(0)
}
