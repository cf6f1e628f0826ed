//! Short lists that show a goal.

ghost use Rattle.std.specs.Prelude.{◌≡◌, ◌≤◌, ◌<◌, ◌+ℤ◌, ◌-ℤ◌, ◌++◌, ◌*◌, ◌↔◌, ℕ, ℤ, pos, length, unsigned_abs, IsTrue, IfOk, IfSome, IfNone};
ghost use Rattle.std.specs.List.{AllByRecursion};
ghost use Rattle.affine_form.specs.Form.{variables};
ghost use Rattle.affine_form.specs.Multipliers.{RowsRise};
ghost use Rattle.affine_form.specs.Shown.{Shows};
ghost use Rattle.int_sets.specs.ShortList.{IsShort, HasShortList};
ghost use Rattle.int_sets.specs.Fingerprint.{value_at_point, VALUE_LIMIT};
ghost use Rattle.int_sets.specs.Halves.{IsHalf, HoldUpTo, NeverJoins, weights_of};
ghost use Rattle.int_sets.specs.Chains.{AreChains, half_at};
ghost use Rattle.iolb_model.specs.declared.limits.TheConstants.{MULTIPLIER_SIZE};

use crate::chains::{Chains, chain_of};
use crate::fingerprint::value_of;
use crate::half::{Half, all_halves, small_halves};
use affine_form::{Form, Memory, Multipliers, System, entails};
use iolb_model::limits::MULTIPLIER_SIZE;
use std::alloc::Global;

/// A short list that shows the goal, or None where there is none.
pub fn short_list(
    alloc: Global,
    system: &System,
    goal: &Form,
) -> Result<Option<Multipliers>, Memory>
    ensures some { IfOk result (λ found. IfSome found (λ shown. IsShort shown × Shows system.now goal.now shown)) }
    ensures none { IfOk result (λ found. IfNone found (¬ HasShortList system.now goal.now)) }
{
    let small = small_halves(alloc, system)?;
    if let Some(shown) = first_joined(alloc, system, goal, small.as_slice())? {
        return Ok(Some(shown));
    }
    let halves = all_halves(alloc, system, small.as_slice())?;
    first_joined(alloc, system, goal, halves.as_slice())
}

/// A short list that shows the goal, of two of these halves, or None where there is none.
fn first_joined(
    alloc: Global,
    system: &System,
    goal: &Form,
    halves: &[Half],
) -> Result<Option<Multipliers>, Memory>
    requires halves { AllByRecursion (IsHalf system.now.rows) halves.now }
    ensures some { IfOk result (λ found. IfSome found (λ shown. IsShort shown × Shows system.now goal.now shown)) }
    ensures none { IfOk result (λ found. IfNone found ((i k : ℕ) → i < length halves.now → k < length halves.now → NeverJoins system.now goal.now (half_at halves.now i) (half_at halves.now k))) }
{
    let chains = Chains::of(alloc, halves)?;
    let value = value_of(goal);
    for first in halves {
        if let Some(shown) = joined(alloc, system, goal, value, first, halves, &chains)? {
            return Ok(Some(shown));
        }
    }
    Ok(None)
}

/// A short list that shows the goal, of this half and one of these behind it, or None where there is none.
fn joined(
    alloc: Global,
    system: &System,
    goal: &Form,
    value: i128,
    first: &Half,
    halves: &[Half],
    chains: &Chains,
) -> Result<Option<Multipliers>, Memory>
    requires value { value ≡ value_at_point goal.now }
    requires small { unsigned_abs value ≤ VALUE_LIMIT }
    requires first { IsHalf system.now.rows first.now }
    requires halves { AllByRecursion (IsHalf system.now.rows) halves.now }
    requires chains { AreChains halves.now chains.now }
    ensures some { IfOk result (λ found. IfSome found (λ shown. IsShort shown × Shows system.now goal.now shown)) }
    ensures none { IfOk result (λ found. IfNone found ((k : ℕ) → k < length halves.now → NeverJoins system.now goal.now first.now (half_at halves.now k))) }
{
    let wanted = less(value, first.value);
    let limit = less(goal.constant(), first.constant);
    let mut number = chains.starts[chain_of(wanted)];
    while number > 0 {
        let place = number - 1;
        let link = chains.links[place];
        if link.least > limit {
            return Ok(None);
        }
        if let Some(shown) = tried(alloc, system, goal, value, first, &halves[place])? {
            return Ok(Some(shown));
        }
        number = link.next;
    }
    Ok(None)
}

/// The short list of these halves, the second behind the first, or None where it doesn't show the goal.
fn tried(
    alloc: Global,
    system: &System,
    goal: &Form,
    value: i128,
    first: &Half,
    second: &Half,
) -> Result<Option<Multipliers>, Memory>
    requires value { value ≡ value_at_point goal.now }
    requires small { unsigned_abs value ≤ VALUE_LIMIT }
    requires first { IsHalf system.now.rows first.now }
    requires second { IsHalf system.now.rows second.now }
    ensures some { IfOk result (λ found. IfSome found (λ shown. IsShort shown × Shows system.now goal.now shown)) }
    ensures none { IfOk result (λ found. IfNone found (NeverJoins system.now goal.now first.now second.now)) }
{
    let Some(rest) = rest_beside(system, goal, value, first, second) else {
        return Ok(None);
    };
    let rows = rows_of(alloc, first, second)?;
    if !rises(rows.as_slice()) {
        return Ok(None);
    }
    let shown = Multipliers::new(1, rest, rows);
    if !entails(system, goal, &shown) {
        return Ok(None);
    }
    Ok(Some(shown))
}

/// The number beside two halves whose values and constants make up the goal's, or None where there is none from 0 below
/// 2^48.
fn rest_beside(
    system: &System,
    goal: &Form,
    value: i128,
    first: &Half,
    second: &Half,
) -> Option<u64>
    requires value { value ≡ value_at_point goal.now }
    requires small { unsigned_abs value ≤ VALUE_LIMIT }
    requires first { IsHalf system.now.rows first.now }
    requires second { IsHalf system.now.rows second.now }
    ensures some { IfSome result (λ rest. (rest < MULTIPLIER_SIZE) × (goal.now.constant ≡ (first.now.constant +ℤ second.now.constant) +ℤ pos rest)) }
    ensures none { IfNone result (NeverJoins system.now goal.now first.now second.now) }
{
    if less(value, first.value) != second.value {
        return None;
    }
    rest_of(less(goal.constant(), first.constant), second.constant)
}

/// What a number is above another, where that is from 0 below 2^48.
fn rest_of(number: i128, other: i128) -> Option<u64>
    requires number { unsigned_abs number ≤ 5 * VALUE_LIMIT }
    requires other { unsigned_abs other ≤ 4 * VALUE_LIMIT }
    ensures some { IfSome result (λ rest. (rest < MULTIPLIER_SIZE) × (number ≡ other +ℤ pos rest)) }
    ensures none { IfNone result ((rest : ℕ) → rest < MULTIPLIER_SIZE → number ≡ other +ℤ pos rest → ⊥) }
{
    let rest = less(number, other);
    if rest < 0 || rest >= i128::from(MULTIPLIER_SIZE) {
        return None;
    }
    Some(rest as u64)
}

/// The rows of two halves, one behind the other.
fn rows_of(alloc: Global, first: &Half, second: &Half) -> Result<Vec<(u8, u64)>, Memory>
    requires first { first.now.count ≤ 2 }
    requires second { second.now.count ≤ 2 }
    ensures { IfOk result (λ rows. rows.items ≡ weights_of first.now ++ weights_of second.now) }
{
    let mut rows = Vec::from_slice(alloc, &first.rows[..first.count])?;
    rows.extend_from_slice(&second.rows[..second.count])?;
    Ok(rows)
}

/// Whether each weight names a later row than those before it.
fn rises(weights: &[(u8, u64)]) -> bool
    ensures { IsTrue result ↔ RowsRise weights.now }
{
    match weights.split_first() {
        Some((weight, others)) => are_later(weight.0, others) && rises(others),
        None => true,
    }
}

/// Whether all weights name rows behind this one.
fn are_later(row: u8, weights: &[(u8, u64)]) -> bool
    ensures { IsTrue result ↔ AllByRecursion (λ (later : ℕ × ℕ). row < later.0) weights.now }
{
    match weights.split_first() {
        Some((weight, others)) => row < weight.0 && are_later(row, others),
        None => true,
    }
}

/// A number less another.
fn less(number: i128, other: i128) -> i128
    requires number { unsigned_abs number ≤ 5 * VALUE_LIMIT }
    requires other { unsigned_abs other ≤ 4 * VALUE_LIMIT }
    ensures { result ≡ number -ℤ other }
{
    number - other
}
