//! Forms put in for variables.

ghost use Rattle.std.specs.Prelude.{◌≡◌, ◌<◌, ◌≤◌, length, ℤ, List, IfOk, unsigned_abs};
ghost use Rattle.std.specs.List.{AllByRecursion};
ghost use Rattle.iolb_model.specs.Form.{form_value};
ghost use Rattle.affine_form.specs.Combination.{coefficient_of};
ghost use Rattle.affine_form.specs.Form.{IsSmallForm};
ghost use Rattle.affine_form.specs.Substitution.{substitution, values_at, width};
ghost use Rattle.affine_form.specs.System.{AllOver};
ghost use Rattle.iolb_model.specs.declared.limits.TheConstants.{NUMBER_SIZE, COEFFICIENT_SIZE, VARIABLES};

use crate::form::Form;
use crate::memory::Memory;
use crate::wide::add_product;
use std::alloc::Global;

impl Form {
    /// The form with a form put in for each of its variables: at each point its value is this form's at the values
    /// of those.
    pub fn substitute(&self, alloc: Global, map: &[Form]) -> Result<Form, Memory>
        requires one_each { length map.now ≡ length self.now.coefficients }
        requires same_variables { AllOver (width map.now) map.now }
        requires small { IsSmallForm NUMBER_SIZE self.now }
        requires small_map { AllByRecursion (IsSmallForm NUMBER_SIZE) map.now }
        ensures form { IfOk result (λ form. form ≡ substitution self.now map.now) }
        ensures value { IfOk result (λ form. (point : List ℤ)
            → form_value form point ≡ form_value self.now (values_at map.now point)) }
    {
        let mut coef = Vec::new(alloc);
        for variable in 0..variables_of(map) {
            coef.push(composed_coefficient(self, map, variable))?;
        }
        Ok(Form::new(coef, composed_constant(self, map)))
    }
}

/// How many variables the first form has, 0 if there is none.
fn variables_of(map: &[Form]) -> usize
    ensures width { result ≡ width map.now }
    ensures few { result ≤ VARIABLES }
{
    match map.first() {
        Some(form) => form.coef().len(),
        None => 0,
    }
}

/// The coefficient of a variable in a form with forms put in.
fn composed_coefficient(form: &Form, map: &[Form], variable: usize) -> i128
    requires one_each { length map.now ≡ length form.now.coefficients }
    requires same_variables { AllOver (width map.now) map.now }
    requires variable_in { variable < width map.now }
    requires small { IsSmallForm NUMBER_SIZE form.now }
    requires small_map { AllByRecursion (IsSmallForm NUMBER_SIZE) map.now }
    ensures value { result ≡ coefficient_of variable (substitution form.now map.now) }
    ensures small_result { unsigned_abs result < COEFFICIENT_SIZE }
{
    let coef = form.coef();
    let mut sum = 0;
    for (i, inner) in map.iter().enumerate() {
        sum = add_product(sum, coef[i], inner.coef()[variable]);
    }
    sum
}

/// The constant of a form with forms put in.
fn composed_constant(form: &Form, map: &[Form]) -> i128
    requires one_each { length map.now ≡ length form.now.coefficients }
    requires small { IsSmallForm NUMBER_SIZE form.now }
    requires small_map { AllByRecursion (IsSmallForm NUMBER_SIZE) map.now }
    ensures value { result ≡ (substitution form.now map.now).constant }
    ensures small_result { unsigned_abs result < COEFFICIENT_SIZE }
{
    let coef = form.coef();
    let mut sum = 0;
    for (i, inner) in map.iter().enumerate() {
        sum = add_product(sum, coef[i], inner.constant());
    }
    add_product(sum, 1, form.constant())
}
