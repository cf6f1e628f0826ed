//! Multipliers that show rows, found.

ghost use Rattle.std.specs.Prelude.{◌≤◌, min, IfOk, IfSome};
ghost use Rattle.affine_form.specs.System.{AllOver};
ghost use Rattle.iolb_model.specs.declared.limits.TheConstants.{VARIABLES};

use crate::affine::Affine;
use affine_form::{Form, Memory, Multipliers, system_of};
use flow_deps::{Wanted, goals_answered, system_answered};
use iolb_model::limits;
use std::alloc::Global;

/// Rows over so many variables.
#[derive(Drop)]
pub struct Rows {
    pub vars: usize,
    pub rows: Vec<Affine>,
}

/// The rows as forms over so many variables, where they are within the limits.
fn forms(alloc: Global, vars: usize, rows: &[Affine]) -> Result<Option<Vec<Form>>, Memory>
    requires { vars ≤ VARIABLES }
    ensures { IfOk result (λ found. IfSome found (λ forms. AllOver vars forms.items)) }
{
    let mut all = Vec::new(alloc);
    for row in rows {
        let Some(form) = row.form(alloc, vars)? else {
            return Ok(None);
        };
        all.push(form)?;
    }
    Ok(Some(all))
}

/// The rows as forms over so many variables, or over as many as the limits allow, where they are within the limits.
pub fn all_forms(alloc: Global, vars: usize, rows: &[Affine]) -> Result<Option<Vec<Form>>, Memory>
    ensures { IfOk result (λ found. IfSome found (λ forms. AllOver (min vars VARIABLES) forms.items)) }
{
    forms(alloc, vars.min(limits::VARIABLES), rows)
}

/// Multipliers for each goal.
pub fn all_shown(
    alloc: Global,
    given: &Rows,
    goals: &[Affine],
) -> Result<Option<Vec<Multipliers>>, Memory> {
    if given.vars > limits::VARIABLES {
        return Ok(None);
    }
    let Some(rows) = forms(alloc, given.vars, given.rows.as_slice())? else {
        return Ok(None);
    };
    let Some(goals) = forms(alloc, given.vars, goals)? else {
        return Ok(None);
    };
    if rows.len() > limits::ROWS {
        return Ok(None);
    }
    let system = system_of(alloc, given.vars, rows.as_slice())?;
    goals_answered(alloc, Wanted::Any, &system, goals.as_slice())
}

/// Multipliers that show that no point meets the rows.
pub fn no_point(alloc: Global, given: &Rows) -> Result<Option<Multipliers>, Memory> {
    if given.vars > limits::VARIABLES {
        return Ok(None);
    }
    let Some(rows) = forms(alloc, given.vars, given.rows.as_slice())? else {
        return Ok(None);
    };
    system_answered(alloc, Wanted::Any, given.vars, rows.as_slice())
}

/// The rows that say that the first forms are equal to the second, one by one.
pub fn equalities(
    alloc: Global,
    first: &[Affine],
    second: &[Affine],
) -> Result<Vec<Affine>, Memory> {
    let mut rows = Vec::new(alloc);
    for (left, right) in first.iter().zip(second.iter()) {
        rows.push(left.less(alloc, right, 0)?)?;
        rows.push(right.less(alloc, left, 0)?)?;
    }
    Ok(rows)
}

/// The rows of bounds at values: for each variable, that it is at least the lower and at most the upper form.
pub fn within(
    alloc: Global,
    params: usize,
    bounds: &[(Affine, Affine)],
    values: &[Affine],
) -> Result<Vec<Affine>, Memory> {
    let mut rows = Vec::new(alloc);
    for ((lower, upper), value) in bounds.iter().zip(values.iter()) {
        let least = lower.put(alloc, params, values)?;
        rows.push(value.less(alloc, &least, 0)?)?;
        rows.push(upper.put(alloc, params, values)?.less(alloc, value, 0)?)?;
    }
    Ok(rows)
}

/// Rows behind others.
pub fn followed(
    alloc: Global,
    mut rows: Vec<Affine>,
    more: &[Affine],
) -> Result<Vec<Affine>, Memory> {
    for row in more {
        rows.push(row.copied(alloc)?)?;
    }
    Ok(rows)
}

/// Forms with values put in.
pub fn all_put(
    alloc: Global,
    params: usize,
    forms: &[Affine],
    values: &[Affine],
) -> Result<Vec<Affine>, Memory> {
    let mut all = Vec::new(alloc);
    for form in forms {
        all.push(form.put(alloc, params, values)?)?;
    }
    Ok(all)
}

/// Whether the forms are the same, one by one.
pub fn are_same(first: &[Affine], second: &[Affine]) -> bool {
    if first.len() != second.len() {
        return false;
    }
    for (left, right) in first.iter().zip(second.iter()) {
        if !left.is_same(right) {
            return false;
        }
    }
    true
}
