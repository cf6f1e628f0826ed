//! Affine forms.

ghost use Rattle.std.specs.Prelude.{◌≡◌, ◌<◌, ◌≤◌, length, unsigned_abs, IfOk};
ghost use Rattle.std.specs.List.{AllByRecursion};
ghost use Rattle.iolb_model.specs.Form.{form_value};
ghost use Rattle.iolb_model.specs.Printed.{form_text};
ghost use Rattle.affine_form.specs.Combination.{coefficient_of};
ghost use Rattle.affine_form.specs.Form.{IsSmall, IsLegalForm};
ghost use Rattle.iolb_model.specs.declared.limits.TheConstants.{COEFFICIENT_SIZE, VALUE_SIZE, VARIABLES};

use crate::memory::Memory;
use crate::name::Name;
use crate::terms_text::TermsText;
use crate::wide::add_product;
use std::alloc::Global;
use std::marker::Model;

/// An affine form: a coefficient for each variable, and a constant. It has at most 24 variables, and its numbers
/// are of size below 2^62.
#[derive(Debug, Drop)]
pub struct Form {
    coef: Vec<i128>,
    constant: i128,
}

impl Model for Form {
    ghost use Rattle.std.specs.Prelude.{◌≤◌, length};
    ghost use Rattle.std.specs.List.{AllByRecursion};
    ghost use Rattle.iolb_model.specs.Form.{AffineForm};
    ghost use Rattle.affine_form.specs.Form.{IsSmall};
    ghost use Rattle.iolb_model.specs.declared.limits.TheConstants.{COEFFICIENT_SIZE, VARIABLES};

    ghost Value = { AffineForm };

    ghost view = { λ form. record { coefficients = form.coef.items; constant = form.constant } };

    ghost invariant = { λ form. (length form.coef.items ≤ VARIABLES)
        × AllByRecursion (IsSmall COEFFICIENT_SIZE) form.coef.items
        × IsSmall COEFFICIENT_SIZE form.constant };
}

impl Form {
    /// The form with these coefficients and this constant.
    pub fn new(coef: Vec<i128>, constant: i128) -> Form
        requires few { length coef.items ≤ VARIABLES }
        requires small { AllByRecursion (IsSmall COEFFICIENT_SIZE) coef.items }
        requires small_constant { IsSmall COEFFICIENT_SIZE constant }
        ensures { result ≡ record { coefficients = coef.items; constant = constant } }
    {
        Form { coef, constant }
    }

    /// The coefficients, one for each variable.
    pub fn coef(&self) -> &[i128]
        ensures coefficients { result.now ≡ self.now.coefficients }
        ensures legal { IsLegalForm self.now }
    {
        self.coef.as_slice()
    }

    /// The constant.
    pub fn constant(&self) -> i128
        ensures constant { result ≡ self.now.constant }
        ensures legal { IsLegalForm self.now }
    {
        self.constant
    }

    /// The coefficient of a variable, 0 past the form's variables.
    pub fn coefficient(&self, variable: usize) -> i128
        ensures value { result ≡ coefficient_of variable self.now }
        ensures small { unsigned_abs result < COEFFICIENT_SIZE }
    {
        let coef = self.coef();
        if variable < coef.len() {
            coef[variable]
        } else {
            0
        }
    }

    /// The form's value at a point: each coefficient times its variable's value, and the constant.
    pub fn value(&self, point: &[i128]) -> i128
        requires variables { length point.now ≡ length self.now.coefficients }
        requires small { AllByRecursion (IsSmall VALUE_SIZE) point.now }
        ensures { result ≡ form_value self.now point.now }
    {
        let mut sum = self.constant;
        for (i, value) in point.iter().enumerate() {
            sum = add_product(sum, self.coef[i], *value);
        }
        sum
    }

    /// The form's text: its variables in order by their names, each with its coefficient, then the constant; terms
    /// are joined by ` + ` and ` - `.
    pub fn text(&self, alloc: Global, names: &[Name]) -> Result<Vec<u8>, Memory>
        requires { length names.now ≡ length self.now.coefficients }
        ensures { IfOk result (λ text. text.items ≡ form_text names.now self.now) }
    {
        let mut sum = TermsText::new(alloc);
        for (i, name) in names.iter().enumerate() {
            sum = sum.with_term(alloc, self.coef[i], name.bytes())?;
        }
        sum.with_term(alloc, self.constant, b"")?.finish()
    }

    /// A copy of the form.
    pub fn try_clone(&self, alloc: Global) -> Result<Form, Memory>
        ensures { IfOk result (λ form. form ≡ self.now) }
    {
        let coef = Vec::from_slice(alloc, self.coef.as_slice())?;
        Ok(Form {
            coef,
            constant: self.constant,
        })
    }
}
