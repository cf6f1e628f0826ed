//! Executions.

ghost use Rattle.std.specs.Prelude.{◌≡◌, ◌++◌, ◌∷◌, [], map, IfOk, true, OnOk};
ghost use Rattle.std.specs.List.{AllByRecursion};
ghost use Rattle.iolb_model.specs.Form.{form_value, are_met};
ghost use Rattle.iolb_model.specs.Execution.{rising, falling, range_size, loop_values, at_value, item_runs, row_runs};
ghost use Rattle.affine_form.specs.Form.{IsSmall};
ghost use Rattle.affine_form.specs.Rows.{direction_of};
ghost use Rattle.affine_program.specs.Tree.{item_of, row_of};
ghost use Rattle.plain_graph.specs.Views.{instance_of};
ghost use Rattle.iolb_model.specs.declared.limits.TheConstants.{VALUE_SIZE};

use crate::stopped::Stopped;
use affine_form::Form;
use affine_program::Item;
use std::alloc::Global;

/// A statement, by its number, with the values of the loops around it, outermost first.
#[derive(Debug, Drop)]
pub struct Instance {
    pub statement: u16,
    pub values: Vec<i128>,
}

/// Whether each value is below 2^40 in size.
fn are_small(point: &[i128]) -> bool
    ensures { result ≡ true → AllByRecursion (IsSmall VALUE_SIZE) point.now }
{
    for value in point {
        if *value <= -1_099_511_627_776 || 1_099_511_627_776 <= *value {
            return false;
        }
    }
    true
}

/// A form's value at a point.
pub fn value_at(form: &Form, point: &[i128]) -> Result<i128, Stopped>
    ensures { IfOk result (λ value. value ≡ form_value form.now point.now) }
{
    if form.coef().len() != point.len() || !are_small(point) {
        return Err(Stopped::OutOfReach);
    }
    Ok(form.value(point))
}

/// Whether each of these forms is at least 0 at a point.
fn are_met(forms: &[Form], point: &[i128]) -> Result<bool, Stopped>
    ensures { IfOk result (λ met. met ≡ are_met forms.now point.now) }
{
    for form in forms {
        if value_at(form, point)? < 0 {
            return Ok(false);
        }
    }
    Ok(true)
}

/// The values from a first one on, so many, each one more than the one before.
fn values_up(alloc: Global, first: i128, count: usize) -> Result<Vec<i128>, Stopped>
    ensures { IfOk result (λ values. values.items ≡ rising first count) }
{
    let mut values = Vec::new(alloc);
    let mut value = first;
    for _k in 0..count {
        if 1_099_511_627_776 <= value {
            return Err(Stopped::OutOfReach);
        }
        values.push(value)?;
        value += 1;
    }
    Ok(values)
}

/// The values from a first one on, so many, each one less than the one before.
fn values_down(alloc: Global, first: i128, count: usize) -> Result<Vec<i128>, Stopped>
    ensures { IfOk result (λ values. values.items ≡ falling first count) }
{
    let mut values = Vec::new(alloc);
    let mut value = first;
    for _k in 0..count {
        if value <= -1_099_511_627_776 {
            return Err(Stopped::OutOfReach);
        }
        values.push(value)?;
        value -= 1;
    }
    Ok(values)
}

/// How many whole numbers there are from lower to upper, both included.
fn count_of(lower: i128, upper: i128) -> Result<usize, Stopped>
    ensures { IfOk result (λ count. count ≡ range_size lower upper) }
{
    if upper < lower {
        return Ok(0);
    }
    let size = upper.checked_sub(lower).ok_or(Stopped::OutOfReach)?;
    let count = size.checked_add(1).ok_or(Stopped::OutOfReach)?;
    let Ok(count) = usize::try_from(count) else {
        return Err(Stopped::OutOfReach);
    };
    Ok(count)
}

/// The values of a loop, in the order in which it takes them.
pub fn loop_values(
    alloc: Global,
    down: bool,
    lower: i128,
    upper: i128,
) -> Result<Vec<i128>, Stopped>
    ensures { IfOk result (λ values. values.items ≡ loop_values (direction_of down) lower upper) }
{
    let count = count_of(lower, upper)?;
    if down {
        values_down(alloc, upper, count)
    } else {
        values_up(alloc, lower, count)
    }
}

/// The values of a loop with these bounds at a point.
fn values_between(
    alloc: Global,
    down: bool,
    lower: &Form,
    upper: &Form,
    point: &[i128],
) -> Result<Vec<i128>, Stopped>
    ensures { IfOk result (λ values. values.items ≡ loop_values (direction_of down) (form_value lower.now point.now) (form_value upper.now point.now)) }
{
    loop_values(
        alloc,
        down,
        value_at(lower, point)?,
        value_at(upper, point)?,
    )
}

/// A point with one value more.
pub fn with_value(alloc: Global, point: &[i128], value: i128) -> Result<Vec<i128>, Stopped>
    ensures { IfOk result (λ longer. longer.items ≡ point.now ++ value ∷ []) }
{
    let mut longer = Vec::from_slice(alloc, point)?;
    longer.push(value)?;
    Ok(longer)
}

/// Puts instances of a loop's body at the end, each with the loop's value in front of its own.
fn push_at_value(runs: &mut Vec<Instance>, value: i128, body: Vec<Instance>) -> Result<(), Stopped>
    ensures { OnOk result (map instance_of runs.new.items ≡ map instance_of runs.old.items ++ map (at_value value) (map instance_of body.items)) }
{
    for instance in body {
        let mut instance = instance;
        instance.values.insert(0, value)?;
        runs.push(instance)?;
    }
    Ok(())
}

/// The instances of items in a row at a point, which has the parameters' values and those of the loops around them.
pub fn runs_of_row(alloc: Global, row: &[Item], point: &[i128]) -> Result<Vec<Instance>, Stopped>
    ensures { IfOk result (λ runs. map instance_of runs.items ≡ row_runs (row_of row.now) point.now) }
{
    let mut runs = Vec::new(alloc);
    for item in row {
        match item {
            Item::Assign(statement) => runs.push(Instance {
                statement: *statement,
                values: Vec::new(alloc),
            })?,
            Item::Loop {
                lower,
                upper,
                down,
                body,
                ..
            } => {
                let values = values_between(alloc, *down, lower, upper, point)?;
                for value in values.as_slice() {
                    let inner = with_value(alloc, point, *value)?;
                    push_at_value(
                        &mut runs,
                        *value,
                        runs_of_row(alloc, body, inner.as_slice())?,
                    )?;
                }
            }
            Item::Guard { rows, body } => {
                if are_met(rows, point)? {
                    let mut inner = runs_of_row(alloc, body, point)?;
                    runs.append(&mut inner)?;
                }
            }
        }
    }
    Ok(runs)
}
