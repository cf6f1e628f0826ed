//! Whether loops are a nest in which each runs upward, from 0 to below a parameter.

ghost use Rattle.std.specs.Prelude.{◌≡◌, ◌↔◌, ◌+◌, ◌<◌, ◌≤◌, ◌≤ℤ◌, negsuc, IsTrue, IfOk, ℕ, List, length, map};
ghost use Rattle.iolb_model.specs.Form.{AffineForm};
ghost use Rattle.iolb_model.specs.declared.limits.TheConstants.{VARIABLES};
ghost use Rattle.affine_program.specs.Parts.{meaning};
ghost use Rattle.affine_program.specs.Tree.{item_of, row_of};
ghost use Rattle.projective.specs.Projective.{AllRun, HoldsOfOne, IsBareItem, IsBareRow, IsNestItem, IsNestRow, RunsBelow};

use crate::forms::{one_less, zero};
use affine_form::{Form, Memory, variable};
use affine_program::{Item, Program};
use std::alloc::Global;

/// Whether an item is a guard that holds no statement and no loop.
#[cycle(bare)]
fn is_bare(item: &Item) -> bool
    ensures { IsTrue result ↔ IsBareItem (item_of item.now) }
{
    match item {
        Item::Guard { body, .. } => are_bare(body),
        Item::Loop { .. } | Item::Assign(_) => false,
    }
}

/// Whether each item of a row is a guard that holds no statement and no loop.
#[cycle(bare)]
fn are_bare(items: &[Item]) -> bool
    ensures { IsTrue result ↔ IsBareRow (row_of items.now) }
{
    for item in items {
        if !is_bare(item) {
            return false;
        }
    }
    true
}

/// Whether an item is a nest down to a statement, each of whose loops runs upward.
#[cycle(nest)]
fn is_nest_item(item: &Item) -> bool
    ensures { IsTrue result ↔ IsNestItem (item_of item.now) }
{
    match item {
        Item::Loop { down, body, .. } => !*down && is_nest(body),
        Item::Guard { .. } => false,
        Item::Assign(_) => true,
    }
}

/// Whether a row of items is a nest down to a statement, each of whose loops runs upward, besides guards that hold no
/// statement and no loop.
#[cycle(nest)]
pub(crate) fn is_nest(items: &[Item]) -> bool
    ensures { IsTrue result ↔ IsNestRow (row_of items.now) }
{
    for (place, item) in items.iter().enumerate() {
        if !is_bare(item) {
            return is_nest_item(item) && are_bare(&items[place + 1..]);
        }
    }
    false
}

/// Whether a form has these coefficients and a constant below 0.
fn is_below(form: &Form, coef: &[i128]) -> bool
    ensures { IsTrue result ↔ ((form.now.coefficients ≡ coef.now) × (form.now.constant ≤ℤ negsuc 0)) }
{
    if form.constant() > -1 {
        return false;
    }
    form.coef() == coef
}

/// Whether one of some forms has these coefficients and a constant below 0.
fn is_any_below(forms: &[Form], coef: &[i128]) -> bool
    ensures { IsTrue result ↔ HoldsOfOne (λ (form : AffineForm). (form.coefficients ≡ coef.now) × (form.constant ≤ℤ negsuc 0)) forms.now }
{
    match forms.split_first() {
        Some((first, rest)) => is_below(first, coef) || is_any_below(rest, coef),
        None => false,
    }
}

/// Whether a loop runs from 0 to below this parameter, which is assumed to be at least 1.
fn runs_below(
    alloc: Global,
    program: &Program,
    vars: usize,
    bounds: &(Form, Form),
    parameter: usize,
) -> Result<bool, Memory>
    requires there { parameter < length program.now.params }
    requires around { length program.now.params ≤ vars }
    requires few { vars ≤ VARIABLES }
    ensures { IfOk result (λ yes. IsTrue yes ↔ RunsBelow (meaning program.now) vars bounds.now parameter) }
{
    let low = zero(alloc, vars)?;
    let high = one_less(alloc, vars, parameter)?;
    let alone = variable(alloc, program.params().len(), parameter)?;
    if !bounds.0.is_same(&low) {
        return Ok(false);
    }
    if !bounds.1.is_same(&high) {
        return Ok(false);
    }
    Ok(is_any_below(program.assumed().rows(), alone.coef()))
}

/// Whether a loop runs from 0 to below some parameter that is assumed to be at least 1.
fn runs(
    alloc: Global,
    program: &Program,
    vars: usize,
    bounds: &(Form, Form),
) -> Result<bool, Memory>
    requires around { length program.now.params ≤ vars }
    requires few { vars ≤ VARIABLES }
    ensures { IfOk result (λ yes. IsTrue yes ↔ ((parameter : ℕ) × RunsBelow (meaning program.now) vars bounds.now parameter)) }
{
    for parameter in 0..program.params().len() {
        if runs_below(alloc, program, vars, bounds, parameter)? {
            return Ok(true);
        }
    }
    Ok(false)
}

/// Whether each loop, with so many variables around the first, runs from 0 to below a parameter that is assumed to be at
/// least 1.
pub(crate) fn all_run(
    alloc: Global,
    program: &Program,
    vars: usize,
    bounds: &[(Form, Form)],
) -> Result<bool, Memory>
    requires around { length program.now.params ≤ vars }
    requires few { vars + length bounds.now ≤ VARIABLES }
    ensures { IfOk result (λ yes. IsTrue yes ↔ AllRun (meaning program.now) vars bounds.now) }
{
    match bounds.split_first() {
        Some((first, rest)) => {
            if !runs(alloc, program, vars, first)? {
                return Ok(false);
            }
            all_run(alloc, program, vars + 1, rest)
        }
        None => Ok(true),
    }
}
