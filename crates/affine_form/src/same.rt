//! Whether forms are the same.

ghost use Rattle.std.specs.Prelude.{◌≡◌, ◌↔◌, ◌-◌, ◌++◌, pos, length, replicate, IsTrue};
ghost use Rattle.affine_form.specs.Rows.{widened};

use crate::form::Form;

/// Whether the constants of two forms are the same.
fn has_same_constant(a: &Form, b: &Form) -> bool
    ensures { IsTrue result ↔ (a.now.constant ≡ b.now.constant) }
{
    a.constant() == b.constant()
}

/// Whether each number is 0.
fn are_zeros(numbers: &[i128]) -> bool
    ensures { IsTrue result ↔ (numbers.now ≡ replicate (length numbers.now) (pos 0)) }
{
    for number in numbers {
        if *number != 0 {
            return false;
        }
    }
    true
}

/// Whether numbers are these with so many more behind them that they are as many as is said, or more, each of them 0.
fn are_widened(numbers: &[i128], vars: usize, wide: &[i128]) -> bool
    ensures { IsTrue result ↔ (numbers.now ++ replicate (vars - length numbers.now) (pos 0) ≡ wide.now) }
{
    let own = numbers.len();
    if wide.len() != vars.max(own) {
        return false;
    }
    &wide[..own] == numbers && are_zeros(&wide[own..])
}

impl Form {
    /// Whether two forms are the same: their coefficients are, and their constants.
    pub fn is_same(&self, other: &Form) -> bool
        ensures { IsTrue result ↔ (self.now ≡ other.now) }
    {
        self.coef() == other.coef() && has_same_constant(self, other)
    }

    /// Whether this form, read over so many variables, is another.
    pub fn is_widened(&self, vars: usize, wide: &Form) -> bool
        ensures { IsTrue result ↔ (widened vars self.now ≡ wide.now) }
    {
        are_widened(self.coef(), vars, wide.coef()) && has_same_constant(self, wide)
    }
}
