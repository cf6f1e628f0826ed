//! Whether parts of certificates fit a program, as their systems ask for.

ghost use Rattle.std.specs.Prelude.{◌≡◌, ◌+◌, ◌≤◌, IsTrue, length};
ghost use Rattle.std.specs.List.{AllByRecursion};
ghost use Rattle.affine_form.specs.Rows.{BoundsFit, IsSmallOver};
ghost use Rattle.affine_program.specs.Parts.{meaning};
ghost use Rattle.dep_quast.specs.Truth.{ReadFits};

use affine_form::Form;
use affine_program::{Program, is_small_form};

/// Whether a read of a program is there.
pub fn is_there(program: &Program, statement: u16, read: u16) -> bool
    ensures { IsTrue result → ReadFits (meaning program.now) (record { statement = statement; read = read }) }
{
    match program.statements().get(usize::from(statement)) {
        Some(there) => usize::from(read) < there.reads.as_slice().len(),
        None => false,
    }
}

/// Whether a form is over so many variables, with numbers as certificates may have them.
pub(crate) fn is_over(vars: usize, form: &Form) -> bool
    ensures { IsTrue result → IsSmallOver vars form.now }
{
    form.coef().len() == vars && is_small_form(form)
}

/// Whether each form is.
pub(crate) fn are_over(vars: usize, forms: &[Form]) -> bool
    ensures { IsTrue result → AllByRecursion (IsSmallOver vars) forms.now }
{
    for form in forms {
        if !is_over(vars, form) {
            return false;
        }
    }
    true
}

/// Whether the bounds of a nest's variables are, each over one variable more than those before it.
pub(crate) fn bounds_fit(vars: usize, bounds: &[(Form, Form)]) -> bool
    requires { vars + length bounds.now ≤ 100 }
    ensures { IsTrue result → BoundsFit vars bounds.now }
{
    match bounds.split_first() {
        Some(((lower, upper), rest)) => {
            is_over(vars, lower) && is_over(vars, upper) && bounds_fit(vars + 1, rest)
        }
        None => true,
    }
}
