//! Halves of short lists.

ghost use Rattle.std.specs.Prelude.{◌≡◌, ◌≤◌, ◌<◌, ◌∷◌, [], ◌++◌, ℕ, List, unsigned_abs, pos, ◌+ℤ◌, ◌*ℤ◌, ◌*◌, ◌↔◌, IsTrue, slice_index_or, IfOk, OnOk};
ghost use Rattle.std.specs.List.{AllByRecursion};
ghost use Rattle.iolb_model.specs.Form.{AffineForm};
ghost use Rattle.affine_form.specs.Shown.{row_at};
ghost use Rattle.int_sets.specs.Fingerprint.{value_at_point, VALUE_LIMIT};
ghost use Rattle.int_sets.specs.Halves.{weights_of, IsHalf, HoldUpTo, Holds, PairsWith};
ghost use Rattle.int_sets.specs.ShortList.{IsOnceOrTwice};

use crate::fingerprint::value_of;
use affine_form::{Form, Memory, System};
use std::alloc::Global;

/// At most two rows of a system, each once or twice, the first before the second, with the fingerprint of their sum.
#[derive(Clone, Copy)]
pub(crate) struct Half {
    pub(crate) rows: [(u8, u64); 2],
    pub(crate) count: usize,
    pub(crate) value: i128,
    pub(crate) constant: i128,
}

/// The half without rows.
fn no_row() -> Half
    ensures weights { weights_of result ≡ [] }
    ensures half { (rows : List AffineForm) → IsHalf rows result }
{
    Half {
        rows: [(0, 0), (0, 0)],
        count: 0,
        value: 0,
        constant: 0,
    }
}

/// The half of one row, which has this value, once or twice.
fn one_row(system: &System, number: u8, row: &Form, value: i128, times: u64) -> Half
    requires row { row_at system.now.rows number ≡ row.now }
    requires value { value ≡ value_at_point row.now }
    requires small { unsigned_abs value ≤ VALUE_LIMIT }
    requires times { IsOnceOrTwice (number, times) }
    ensures weights { weights_of result ≡ (number, times) ∷ [] }
    ensures half { IsHalf system.now.rows result }
{
    Half {
        rows: [(number, times), (0, 0)],
        count: 1,
        value: multiple(times, value),
        constant: multiple(times, row.constant()),
    }
}

/// The half of two rows, each of which is a half.
fn two_rows(system: &System, first: &Half, second: &Half) -> Half
    requires first { IsHalf system.now.rows first.now }
    requires second { IsHalf system.now.rows second.now }
    requires one { first.now.count ≡ 1 }
    requires other { second.now.count ≡ 1 }
    ensures weights { weights_of result ≡ weights_of first.now ++ weights_of second.now }
    ensures half { IsHalf system.now.rows result }
{
    Half {
        rows: [first.rows[0], second.rows[0]],
        count: 2,
        value: sum(first.value, second.value),
        constant: sum(first.constant, second.constant),
    }
}

/// A number once or twice.
fn multiple(times: u64, number: i128) -> i128
    requires times { times ≤ 2 }
    requires small { unsigned_abs number ≤ VALUE_LIMIT }
    ensures { result ≡ pos times *ℤ number }
{
    i128::from(times) * number
}

/// The sum of two numbers.
fn sum(first: i128, second: i128) -> i128
    requires first { unsigned_abs first ≤ 4 * VALUE_LIMIT }
    requires second { unsigned_abs second ≤ 4 * VALUE_LIMIT }
    ensures { result ≡ first +ℤ second }
{
    first + second
}

/// The halves of at most one row: each row once and twice, and none.
pub(crate) fn small_halves(alloc: Global, system: &System) -> Result<Vec<Half>, Memory>
    ensures halves { IfOk result (λ halves. AllByRecursion (IsHalf system.now.rows) halves.items) }
    ensures all { IfOk result (λ halves. HoldUpTo 1 system.now.rows halves.items) }
{
    let mut halves = Vec::new(alloc);
    for (i, row) in system.rows().iter().enumerate() {
        push_row(system, i as u8, row, &mut halves)?;
    }
    halves.push(no_row())?;
    Ok(halves)
}

/// Puts the halves of one row, once and twice, at the end.
fn push_row(system: &System, number: u8, row: &Form, halves: &mut Vec<Half>) -> Result<(), Memory>
    requires row { row_at system.now.rows number ≡ row.now }
    requires halves { AllByRecursion (IsHalf system.now.rows) halves.old.items }
    ensures halves { OnOk result (AllByRecursion (IsHalf system.now.rows) halves.new.items) }
    ensures kept { OnOk result ((weights : List (ℕ × ℕ)) → Holds halves.old.items weights → Holds halves.new.items weights) }
    ensures row { OnOk result ((times : ℕ) → IsOnceOrTwice (number, times) → Holds halves.new.items ((number, times) ∷ [])) }
{
    let value = value_of(row);
    halves.push(one_row(system, number, row, value, 1))?;
    halves.push(one_row(system, number, row, value, 2))?;
    Ok(())
}

/// All halves, where those of at most one row are lent: these, and each two of them of one row.
pub(crate) fn all_halves(
    alloc: Global,
    system: &System,
    small: &[Half],
) -> Result<Vec<Half>, Memory>
    requires halves { AllByRecursion (IsHalf system.now.rows) small.now }
    requires all { HoldUpTo 1 system.now.rows small.now }
    ensures halves { IfOk result (λ halves. AllByRecursion (IsHalf system.now.rows) halves.items) }
    ensures all { IfOk result (λ halves. HoldUpTo 2 system.now.rows halves.items) }
{
    let mut halves = Vec::from_slice(alloc, small)?;
    for first in small {
        push_pairs(system, &mut halves, first, small)?;
    }
    Ok(halves)
}

/// Puts a half of one row, with each half of a later row behind it, at the end.
fn push_pairs(
    system: &System,
    halves: &mut Vec<Half>,
    first: &Half,
    small: &[Half],
) -> Result<(), Memory>
    requires first { IsHalf system.now.rows first.now }
    requires small { AllByRecursion (IsHalf system.now.rows) small.now }
    requires halves { AllByRecursion (IsHalf system.now.rows) halves.old.items }
    ensures halves { OnOk result (AllByRecursion (IsHalf system.now.rows) halves.new.items) }
    ensures kept { OnOk result ((weights : List (ℕ × ℕ)) → Holds halves.old.items weights → Holds halves.new.items weights) }
    ensures pairs { OnOk result (PairsWith first.now small.now halves.new.items) }
{
    if first.count != 1 {
        return Ok(());
    }
    for second in small {
        if is_behind(first, second) {
            halves.push(two_rows(system, first, second))?;
        }
    }
    Ok(())
}

/// Whether the second half is of one row, and that is behind the first row of the first.
fn is_behind(first: &Half, second: &Half) -> bool
    ensures { IsTrue result ↔ ((second.now.count ≡ 1) × (slice_index_or first.now.rows 0 (0, 0)).0 < (slice_index_or second.now.rows 0 (0, 0)).0) }
{
    second.count == 1 && first.rows[0].0 < second.rows[0].0
}
