//! Executions.

ghost use Rattle.std.specs.Prelude.{◌≡◌, ◌++◌, ◌∷◌, [], map, length, IfOk, OnOk};
ghost use Rattle.std.specs.List.{AllByRecursion};
ghost use Rattle.iolb_model.specs.Program.{AffineProgram, ItemFits, RowFits};
ghost use Rattle.iolb_model.specs.Execution.{item_runs, row_runs, execution};
ghost use Rattle.affine_form.specs.Form.{IsSmall};
ghost use Rattle.affine_program.specs.Tree.{item_of, row_of};
ghost use Rattle.affine_program.specs.Parts.{meaning};
ghost use Rattle.loop_graph.specs.Turns.{item_turns, row_turns, turns};
ghost use Rattle.loop_graph.specs.Runs.{with_point, run_of, IsRun};
ghost use Rattle.iolb_model.specs.declared.limits.TheConstants.{VALUE_SIZE};

use crate::guards::are_met;
use crate::values::Values;
use affine_form::Memory;
use affine_program::{Item, Program};
use std::alloc::Global;

/// An instance: its statement, by its number, and its point: the parameters' values, then those of the loops around it,
/// outermost first.
#[derive(Debug, Drop)]
pub struct Run {
    pub statement: u16,
    pub point: Vec<i128>,
}

/// The parameters' values, as those of a point.
pub fn values_of(alloc: Global, sizes: &[i64]) -> Result<Vec<i128>, Memory>
    ensures { IfOk result (λ values. values.items ≡ sizes.now) }
{
    let mut values = Vec::new(alloc);
    for size in sizes {
        values.push(i128::from(*size))?;
    }
    Ok(values)
}

/// Puts a point with one value more in the place of what a buffer held.
pub(crate) fn put_point(buffer: &mut Vec<i128>, point: &[i128], value: i128) -> Result<(), Memory>
    ensures { OnOk result (buffer.new.items ≡ point.now ++ value ∷ []) }
{
    buffer.clear();
    buffer.extend_from_slice(point)?;
    buffer.push(value)?;
    Ok(())
}

/// Puts the instances of an item at the end: of a loop those of its body for each of its values, and of a guard those of its
/// body where its rows are met.
#[cycle(walk)]
fn push_item(alloc: Global, item: &Item, point: &[i128], runs: &mut Vec<Run>) -> Result<(), Memory>
    requires fits { (program : AffineProgram) × ItemFits program (length point.now) (item_of item.now) }
    requires point { AllByRecursion (IsSmall VALUE_SIZE) point.now }
    requires turns { AllByRecursion (IsSmall VALUE_SIZE) (item_turns (item_of item.now) point.now) }
    ensures { OnOk result (map run_of runs.new.items ≡ map run_of runs.old.items ++ map (with_point point.now) (item_runs (item_of item.now) point.now)) }
{
    match item {
        Item::Assign(statement) => runs.push(Run {
            statement: *statement,
            point: Vec::from_slice(alloc, point)?,
        })?,
        Item::Loop {
            lower,
            upper,
            down,
            body,
            ..
        } => {
            let lowest = lower.value(point);
            let highest = upper.value(point);
            let mut values = Values {
                lower: lowest,
                upper: highest,
                down: *down,
            };
            let mut inner = Vec::new(alloc);
            while let Some(value) = values.next() {
                put_point(&mut inner, point, value)?;
                push_row(alloc, body, inner.as_slice(), runs)?;
            }
        }
        Item::Guard { rows, body } => {
            if are_met(rows, point) {
                push_row(alloc, body, point, runs)?;
            }
        }
    }
    Ok(())
}

/// Puts the instances of items in a row at the end.
#[cycle(walk)]
fn push_row(alloc: Global, row: &[Item], point: &[i128], runs: &mut Vec<Run>) -> Result<(), Memory>
    requires fits { (program : AffineProgram) × RowFits program (length point.now) (row_of row.now) }
    requires point { AllByRecursion (IsSmall VALUE_SIZE) point.now }
    requires turns { AllByRecursion (IsSmall VALUE_SIZE) (row_turns (row_of row.now) point.now) }
    ensures { OnOk result (map run_of runs.new.items ≡ map run_of runs.old.items ++ map (with_point point.now) (row_runs (row_of row.now) point.now)) }
{
    for item in row {
        push_item(alloc, item, point, runs)?;
    }
    Ok(())
}

/// The instances of a program at these parameter values, in the order of execution, where each value with which a loop
/// enters its body is of size below 2^40.
pub fn runs(alloc: Global, program: &Program, values: &[i128]) -> Result<Vec<Run>, Memory>
    requires all { length values.now ≡ length program.now.params }
    requires small { AllByRecursion (IsSmall VALUE_SIZE) values.now }
    requires turns { AllByRecursion (IsSmall VALUE_SIZE) (turns (meaning program.now) values.now) }
    ensures runs { IfOk result (λ runs. map run_of runs.items ≡ map (with_point values.now) (execution (meaning program.now) values.now)) }
    ensures each { IfOk result (λ runs. AllByRecursion (IsRun (meaning program.now)) runs.items) }
{
    let mut runs = Vec::new(alloc);
    push_row(alloc, program.tree(), values, &mut runs)?;
    Ok(runs)
}
