//! Lists of forms, of which systems are made.

ghost use Rattle.std.specs.Prelude.{◌≡◌, ◌≤◌, [], ◌∷◌, ◌++◌, length, map, IfOk};
ghost use Rattle.std.specs.List.{AllByRecursion};
ghost use Rattle.affine_form.specs.Form.{variables, IsSmallForm};
ghost use Rattle.affine_form.specs.Rows.{equality_rows, widened};
ghost use Rattle.iolb_model.specs.declared.limits.TheConstants.{PUT_SIZE, VARIABLES};

use affine_form::{Form, Memory, push_equal, widened};
use std::alloc::Global;

/// Forms, and then copies of others.
pub fn followed_by(alloc: Global, forms: Vec<Form>, more: &[Form]) -> Result<Vec<Form>, Memory>
    ensures { IfOk result (λ all. all.items ≡ forms.items ++ more.now) }
{
    let mut all = forms;
    for form in more {
        all.push(form.try_clone(alloc)?)?;
    }
    Ok(all)
}

/// Copies of forms, and one more.
pub fn with_form(alloc: Global, forms: &[Form], last: Form) -> Result<Vec<Form>, Memory>
    ensures { IfOk result (λ all. all.items ≡ forms.now ++ last ∷ []) }
{
    let mut all = Vec::new(alloc);
    for form in forms {
        all.push(form.try_clone(alloc)?)?;
    }
    all.push(last)?;
    Ok(all)
}

/// Forms read over so many variables.
pub fn all_widened(alloc: Global, vars: usize, forms: &[Form]) -> Result<Vec<Form>, Memory>
    requires few { vars ≤ VARIABLES }
    requires within { AllByRecursion (λ form. variables form ≤ vars) forms.now }
    ensures { IfOk result (λ wide. wide.items ≡ map (widened vars) forms.now) }
{
    let mut wide = Vec::new(alloc);
    for form in forms {
        wide.push(widened(alloc, vars, form)?)?;
    }
    Ok(wide)
}

/// The rows which say that points are equal.
pub fn equal_rows(
    alloc: Global,
    vars: usize,
    one: &[Form],
    other: &[Form],
) -> Result<Vec<Form>, Memory>
    requires few { vars ≤ VARIABLES }
    requires one_within { AllByRecursion (λ form. variables form ≤ vars) one.now }
    requires other_within { AllByRecursion (λ form. variables form ≤ vars) other.now }
    requires one_small { AllByRecursion (IsSmallForm PUT_SIZE) one.now }
    requires other_small { AllByRecursion (IsSmallForm PUT_SIZE) other.now }
    ensures { IfOk result (λ rows. rows.items ≡ equality_rows vars one.now other.now) }
{
    let mut rows = Vec::new(alloc);
    for i in 0..one.len().min(other.len()) {
        push_equal(alloc, vars, &one[i], &other[i], &mut rows)?;
    }
    Ok(rows)
}
