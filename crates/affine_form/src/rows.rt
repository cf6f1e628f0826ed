//! Rows that say where points lie, which cells they touch and in which order they come.

ghost use Rattle.std.specs.Prelude.{◌≡◌, ◌≤◌, ◌+◌, ◌*◌, ◌∷◌, ◌++◌, [], pos, length, map, replicate, IfOk, OnOk};
ghost use Rattle.std.specs.List.{AllByRecursion};
ghost use Rattle.affine_form.specs.Form.{variables, IsSmallForm};
ghost use Rattle.affine_form.specs.Substitution.{substitution};
ghost use Rattle.affine_form.specs.System.{AllOver};
ghost use Rattle.affine_form.specs.Rows.{within_rows, guard_rows, equality_rows, put_in, earlier_row, direction_of, order_rows, difference, IsSmallOver, IsSmallWithin, BoundsFit};
ghost use Rattle.iolb_model.specs.declared.limits.TheConstants.{PUT_SIZE, VARIABLES};

use crate::differences::{difference, widened};
use crate::{Form, Memory};
use std::alloc::Global;

/// The rows which say that values are within the bounds of their loops, where the first forms stand for the parameters:
/// `value - lower` and `upper - value` for each loop.
pub fn within_rows(
    alloc: Global,
    vars: usize,
    bounds: &[(Form, Form)],
    params: &[Form],
    values: &[Form],
) -> Result<Vec<Form>, Memory>
    requires few { vars ≤ VARIABLES }
    requires few_forms { length params.now + length values.now ≤ VARIABLES }
    requires one_each { length values.now ≡ length bounds.now }
    requires bounds_fit { BoundsFit (length params.now) bounds.now }
    requires params_over { AllByRecursion (IsSmallOver vars) params.now }
    requires values_over { AllByRecursion (IsSmallOver vars) values.now }
    ensures rows { IfOk result (λ rows. rows.items ≡ within_rows vars bounds.now params.now values.now) }
    ensures many { IfOk result (λ rows. length rows.items ≡ 2 * length bounds.now) }
    ensures over { IfOk result (λ rows. AllOver vars rows.items) }
{
    let mut before = copies(alloc, params)?;
    let mut rows = Vec::new(alloc);
    for (i, pair) in bounds.iter().enumerate() {
        let value = &values[i];
        push_within(alloc, vars, pair, &before, value, &mut rows)?;
        before.push(value.try_clone(alloc)?)?;
    }
    Ok(rows)
}

/// Puts the two rows of one loop at the end, where the forms before stand for the variables of its bounds.
fn push_within(
    alloc: Global,
    vars: usize,
    bounds: &(Form, Form),
    before: &[Form],
    value: &Form,
    rows: &mut Vec<Form>,
) -> Result<(), Memory>
    requires few { vars ≤ VARIABLES }
    requires few_forms { length before.now ≤ VARIABLES }
    requires lower_over { IsSmallOver (length before.now) bounds.now.0 }
    requires upper_over { IsSmallOver (length before.now) bounds.now.1 }
    requires before_over { AllByRecursion (IsSmallOver vars) before.now }
    requires value_over { IsSmallOver vars value.now }
    ensures { OnOk result (rows.new.items ≡ rows.old.items ++ within_rows vars (bounds.now ∷ []) before.now (value.now ∷ [])) }
{
    rows.push(row_above(alloc, vars, &bounds.0, before, value)?)?;
    rows.push(row_below(alloc, vars, &bounds.1, before, value)?)?;
    Ok(())
}

/// The row which says that a value is at least a lower bound.
fn row_above(
    alloc: Global,
    vars: usize,
    lower: &Form,
    before: &[Form],
    value: &Form,
) -> Result<Form, Memory>
    requires few { vars ≤ VARIABLES }
    requires few_forms { length before.now ≤ VARIABLES }
    requires over { IsSmallOver (length before.now) lower.now }
    requires before_over { AllByRecursion (IsSmallOver vars) before.now }
    requires value_over { IsSmallOver vars value.now }
    ensures { IfOk result (λ row. row ≡ difference vars value.now (substitution lower.now before.now) (pos 0)) }
{
    let least = put(alloc, vars, lower, before)?;
    difference(alloc, vars, value, &least, 0)
}

/// The row which says that a value is at most an upper bound.
fn row_below(
    alloc: Global,
    vars: usize,
    upper: &Form,
    before: &[Form],
    value: &Form,
) -> Result<Form, Memory>
    requires few { vars ≤ VARIABLES }
    requires few_forms { length before.now ≤ VARIABLES }
    requires over { IsSmallOver (length before.now) upper.now }
    requires before_over { AllByRecursion (IsSmallOver vars) before.now }
    requires value_over { IsSmallOver vars value.now }
    ensures { IfOk result (λ row. row ≡ difference vars (substitution upper.now before.now) value.now (pos 0)) }
{
    let greatest = put(alloc, vars, upper, before)?;
    difference(alloc, vars, &greatest, value, 0)
}

/// Puts the rows at the end which say that guards are met where these forms stand for their variables. Where memory is
/// wanted, some of them may stand there.
pub fn push_guards(
    alloc: Global,
    vars: usize,
    guards: &[Form],
    point: &[Form],
    rows: &mut Vec<Form>,
) -> Result<(), Memory>
    requires few { vars ≤ VARIABLES }
    requires few_forms { length point.now ≤ VARIABLES }
    requires guards_over { AllByRecursion (IsSmallOver (length point.now)) guards.now }
    requires point_over { AllByRecursion (IsSmallOver vars) point.now }
    ensures { OnOk result (rows.new.items ≡ rows.old.items ++ guard_rows vars guards.now point.now) }
{
    for guard in guards {
        let put = put(alloc, vars, guard, point)?;
        rows.push(widened(alloc, vars, &put)?)?;
    }
    Ok(())
}

/// The rows which say that the cell of subscripts at a point is the cell of others at another point: the subscripts
/// are equal pair by pair.
pub fn cell_rows(
    alloc: Global,
    vars: usize,
    written: &[Form],
    at: &[Form],
    read: &[Form],
    reader: &[Form],
) -> Result<Vec<Form>, Memory>
    requires few { vars ≤ VARIABLES }
    requires few_at { length at.now ≤ VARIABLES }
    requires few_reader { length reader.now ≤ VARIABLES }
    requires one_each { length written.now ≡ length read.now }
    requires written_over { AllByRecursion (IsSmallOver (length at.now)) written.now }
    requires read_over { AllByRecursion (IsSmallOver (length reader.now)) read.now }
    requires at_over { AllByRecursion (IsSmallOver vars) at.now }
    requires reader_over { AllByRecursion (IsSmallOver vars) reader.now }
    ensures rows { IfOk result (λ rows. rows.items ≡ equality_rows vars (put_in at.now written.now) (put_in reader.now read.now)) }
    ensures over { IfOk result (λ rows. AllOver vars rows.items) }
{
    let mut rows = Vec::new(alloc);
    for (i, subscript) in written.iter().enumerate() {
        let f = put(alloc, vars, subscript, at)?;
        let g = put(alloc, vars, &read[i], reader)?;
        push_equal(alloc, vars, &f, &g, &mut rows)?;
    }
    Ok(rows)
}

/// Puts the two rows at the end which say that two forms are equal. Where memory is wanted, the first may stand there alone.
pub fn push_equal(
    alloc: Global,
    vars: usize,
    one: &Form,
    other: &Form,
    rows: &mut Vec<Form>,
) -> Result<(), Memory>
    requires few { vars ≤ VARIABLES }
    requires one_within { variables one.now ≤ vars }
    requires other_within { variables other.now ≤ vars }
    requires one_small { IsSmallForm PUT_SIZE one.now }
    requires other_small { IsSmallForm PUT_SIZE other.now }
    ensures { OnOk result (rows.new.items ≡ rows.old.items ++ equality_rows vars (one.now ∷ []) (other.now ∷ [])) }
{
    rows.push(difference(alloc, vars, one, other, 0)?)?;
    rows.push(difference(alloc, vars, other, one, 0)?)?;
    Ok(())
}

/// The row which says that one value of a loop comes before another, in a loop that runs downward or not.
fn earlier_row(
    alloc: Global,
    vars: usize,
    down: bool,
    earlier: &Form,
    later: &Form,
) -> Result<Form, Memory>
    requires few { vars ≤ VARIABLES }
    requires earlier_within { IsSmallWithin vars earlier.now }
    requires later_within { IsSmallWithin vars later.now }
    ensures { IfOk result (λ row. row ≡ earlier_row vars (direction_of down) earlier.now later.now) }
{
    if down {
        difference(alloc, vars, earlier, later, -1)
    } else {
        difference(alloc, vars, later, earlier, -1)
    }
}

/// The rows which say that the loop values ys come before the loop values xs at a level of the loops around both, of each of
/// which it is said whether it runs downward.
pub fn order_rows(
    alloc: Global,
    vars: usize,
    down: &[bool],
    level: usize,
    ys: &[Form],
    xs: &[Form],
) -> Result<Vec<Form>, Memory>
    requires few { vars ≤ VARIABLES }
    requires level_in { level ≤ length down.now }
    requires ys_enough { length down.now ≤ length ys.now }
    requires xs_enough { length down.now ≤ length xs.now }
    requires ys_within { AllByRecursion (IsSmallWithin vars) ys.now }
    requires xs_within { AllByRecursion (IsSmallWithin vars) xs.now }
    ensures rows { IfOk result (λ rows. rows.items ≡ order_rows vars (map direction_of down.now) level ys.now xs.now) }
    ensures over { IfOk result (λ rows. AllOver vars rows.items) }
{
    let mut rows = Vec::new(alloc);
    for i in 0..level {
        push_equal(alloc, vars, &ys[i], &xs[i], &mut rows)?;
    }
    if level < down.len() {
        rows.push(earlier_row(alloc, vars, down[level], &ys[level], &xs[level])?)?;
    }
    Ok(rows)
}

/// A form with forms put in for its variables.
pub fn put(alloc: Global, vars: usize, form: &Form, point: &[Form]) -> Result<Form, Memory>
    requires few { vars ≤ VARIABLES }
    requires few_forms { length point.now ≤ VARIABLES }
    requires over { IsSmallOver (length point.now) form.now }
    requires point_over { AllByRecursion (IsSmallOver vars) point.now }
    ensures form { IfOk result (λ put. put ≡ substitution form.now point.now) }
    ensures within { IfOk result (λ put. variables put ≤ vars) }
    ensures small { IfOk result (λ put. IsSmallForm PUT_SIZE put) }
{
    let put = form.substitute(alloc, point)?;
    Ok(put)
}

/// Forms with forms put in for their variables.
pub fn put_all(
    alloc: Global,
    vars: usize,
    forms: &[Form],
    point: &[Form],
) -> Result<Vec<Form>, Memory>
    requires few { vars ≤ VARIABLES }
    requires few_forms { length point.now ≤ VARIABLES }
    requires over { AllByRecursion (IsSmallOver (length point.now)) forms.now }
    requires point_over { AllByRecursion (IsSmallOver vars) point.now }
    ensures all { IfOk result (λ all. all.items ≡ put_in point.now forms.now) }
    ensures within { IfOk result (λ all. AllByRecursion (λ form. variables form ≤ vars) all.items) }
    ensures small { IfOk result (λ all. AllByRecursion (IsSmallForm PUT_SIZE) all.items) }
{
    let mut all = Vec::new(alloc);
    for form in forms {
        all.push(put(alloc, vars, form, point)?)?;
    }
    Ok(all)
}

/// Copies of forms.
fn copies(alloc: Global, forms: &[Form]) -> Result<Vec<Form>, Memory>
    ensures { IfOk result (λ copies. copies.items ≡ forms.now) }
{
    let mut copies = Vec::new(alloc);
    for form in forms {
        copies.push(form.try_clone(alloc)?)?;
    }
    Ok(copies)
}
