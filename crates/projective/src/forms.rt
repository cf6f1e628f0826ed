//! Forms that are a number, or a variable and a number.

ghost use Rattle.std.specs.Prelude.{◌≡◌, ◌<◌, ◌≤◌, IfOk, pos, negsuc};
ghost use Rattle.iolb_model.specs.declared.limits.TheConstants.{VARIABLES};
ghost use Rattle.affine_form.specs.Combination.{constant_form};
ghost use Rattle.projective.specs.Projective.{shifted_variable};

use affine_form::{Form, Memory};
use std::alloc::Global;

/// The form over so many variables that is 0.
pub fn zero(alloc: Global, vars: usize) -> Result<Form, Memory>
    requires few { vars ≤ VARIABLES }
    ensures { IfOk result (λ form. form ≡ constant_form vars (pos 0)) }
{
    Ok(Form::new(vec![in alloc; 0; vars]?, 0))
}

/// The form over so many variables that is one of them less 1.
pub fn one_less(alloc: Global, vars: usize, place: usize) -> Result<Form, Memory>
    requires there { place < vars }
    requires few { vars ≤ VARIABLES }
    ensures { IfOk result (λ form. form ≡ shifted_variable vars place (negsuc 0)) }
{
    let mut coef = vec![in alloc; 0; vars]?;
    coef[place] = 1;
    Ok(Form::new(coef, -1))
}
