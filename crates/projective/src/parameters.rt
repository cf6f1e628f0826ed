//! The parameters below which variables run.

ghost use Rattle.std.specs.Prelude.{◌≡◌, ◌<◌, ◌≤◌, ◌+◌, ℕ, ℤ, IfOk, length, map};
ghost use Rattle.affine_program.specs.Parts.{meaning};
ghost use Rattle.iolb_model.specs.declared.limits.TheConstants.{VARIABLES};
ghost use Rattle.projective.specs.Projective.{AllRun, shifted_variable};
ghost use Rattle.projective.specs.Products.{RunBelow};

use affine_form::{Form, Memory};
use affine_program::Program;
use std::alloc::Global;

/// The variable of a form that is a variable and a number.
pub fn variable_of(form: &Form) -> usize
    requires some { (vars place : ℕ) × (number : ℤ) × (place < vars) × (form.now ≡ shifted_variable vars place number) }
    ensures { (vars place : ℕ) (number : ℤ) → place < vars → form.now ≡ shifted_variable vars place number → result ≡ place }
{
    for (place, number) in form.coef().iter().enumerate() {
        if *number != 0 {
            return place;
        }
    }
    unreachable!()
}

/// The parameters below which the variables of a nest run, with so many variables around the first.
pub fn parameters_from(
    alloc: Global,
    program: &Program,
    vars: usize,
    bounds: &[(Form, Form)],
) -> Result<Vec<usize>, Memory>
    requires around { length program.now.params ≤ vars }
    requires few { vars + length bounds.now ≤ VARIABLES }
    requires run { AllRun (meaning program.now) vars bounds.now }
    ensures { IfOk result (λ parameters. RunBelow (meaning program.now) vars bounds.now parameters.items) }
{
    let Some((first, others)) = bounds.split_first() else {
        return Ok(Vec::new(alloc));
    };
    let mut parameters = parameters_from(alloc, program, vars + 1, others)?;
    parameters.insert(0, variable_of(&first.1))?;
    Ok(parameters)
}
