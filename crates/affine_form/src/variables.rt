//! Forms that are a variable.

ghost use Rattle.std.specs.Prelude.{◌≡◌, ◌≤◌, ◌<◌, ◌+◌, length, IfOk};
ghost use Rattle.std.specs.List.{AllByRecursion};
ghost use Rattle.affine_form.specs.Rows.{variable, variables_from, IsSmallOver};
ghost use Rattle.iolb_model.specs.declared.limits.TheConstants.{VARIABLES};

use crate::{Form, Memory};
use std::alloc::Global;

/// The form over so many variables that is the one at this place.
pub fn variable(alloc: Global, vars: usize, place: usize) -> Result<Form, Memory>
    requires there { place < vars }
    requires few { vars ≤ VARIABLES }
    ensures { IfOk result (λ form. form ≡ variable vars place) }
{
    let mut coef = vec![in alloc; 0; vars]?;
    coef[place] = 1;
    Ok(Form::new(coef, 0))
}

/// So many variables in a row, from the first on, as forms over all variables.
pub fn variables_from(
    alloc: Global,
    vars: usize,
    first: usize,
    count: usize,
) -> Result<Vec<Form>, Memory>
    requires there { first + count ≤ vars }
    requires few { vars ≤ VARIABLES }
    ensures forms { IfOk result (λ forms. forms.items ≡ variables_from vars first count) }
    ensures many { IfOk result (λ forms. length forms.items ≡ count) }
    ensures over { IfOk result (λ forms. AllByRecursion (IsSmallOver vars) forms.items) }
{
    let mut forms = Vec::new(alloc);
    for place in first..first + count {
        forms.push(variable(alloc, vars, place)?)?;
    }
    Ok(forms)
}
