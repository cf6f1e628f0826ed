//! Whether parts of a program are within their limits.

ghost use Rattle.std.specs.Prelude.{◌≤◌, ◌↔◌, IsTrue, ℕ, List};
ghost use Rattle.std.specs.List.{AllByRecursion};
ghost use Rattle.iolb_model.specs.Form.{AffineForm};
ghost use Rattle.affine_form.specs.Form.{IsSmall, IsSmallForm};
ghost use Rattle.affine_program.specs.Draft.{parts_of};
ghost use Rattle.affine_program.specs.Limits.{IsSmallReference, IsStatementWithinLimits, IsWithinLimits};
ghost use Rattle.iolb_model.specs.declared.limits.TheConstants.{SUBSCRIPTS, NUMBER_SIZE};

use crate::draft::Draft;
use crate::reference::Reference;
use crate::statement::Statement;
use affine_form::{Form, Name};
use iolb_model::limits;

/// Whether a number of a form is within the limits of programs and certificates: of size below 2^20.
pub fn is_small(number: i128) -> bool
    ensures { IsTrue result ↔ IsSmall NUMBER_SIZE number }
{
    number.unsigned_abs() < limits::NUMBER_SIZE
}

/// Whether each number is small.
fn are_small(numbers: &[i128]) -> bool
    ensures { IsTrue result ↔ AllByRecursion (IsSmall NUMBER_SIZE) numbers.now }
{
    for number in numbers {
        if !is_small(*number) {
            return false;
        }
    }
    true
}

/// Whether each number of a form is small.
pub fn is_small_form(form: &Form) -> bool
    ensures { IsTrue result ↔ IsSmallForm NUMBER_SIZE form.now }
{
    are_small(form.coef()) && is_small(form.constant())
}

/// Whether each number of forms is small.
pub(crate) fn are_small_forms(forms: &[Form]) -> bool
    ensures { IsTrue result ↔ AllByRecursion (IsSmallForm NUMBER_SIZE) forms.now }
{
    for form in forms {
        if !is_small_form(form) {
            return false;
        }
    }
    true
}

/// Whether each number of two forms is small.
fn are_both_small(lower: &Form, upper: &Form) -> bool
    ensures { IsTrue result ↔ (IsSmallForm NUMBER_SIZE lower.now × IsSmallForm NUMBER_SIZE upper.now) }
{
    is_small_form(lower) && is_small_form(upper)
}

/// Whether each number of bounds is small.
fn are_small_bounds(bounds: &[(Form, Form)]) -> bool
    ensures { IsTrue result ↔ AllByRecursion (λ (bounds : AffineForm × AffineForm). IsSmallForm NUMBER_SIZE bounds.0 × IsSmallForm NUMBER_SIZE bounds.1) bounds.now }
{
    for pair in bounds {
        if !are_both_small(&pair.0, &pair.1) {
            return false;
        }
    }
    true
}

/// Whether each number of references is small.
fn are_small_references(references: &[Reference]) -> bool
    ensures { IsTrue result ↔ AllByRecursion IsSmallReference references.now }
{
    for reference in references {
        if !are_small_forms(reference.subs.as_slice()) {
            return false;
        }
    }
    true
}

/// Whether a statement is within its limits.
fn is_within_limits(statement: &Statement) -> bool
    ensures { IsTrue result ↔ IsStatementWithinLimits statement.now }
{
    statement.bounds.as_slice().len() <= limits::LOOPS
        && statement.guards.as_slice().len() <= limits::GUARDS
        && statement.reads.as_slice().len() <= limits::READS
        && are_small_bounds(statement.bounds.as_slice())
        && are_small_forms(statement.guards.as_slice())
        && are_small_forms(statement.writes.subs.as_slice())
        && are_small_references(statement.reads.as_slice())
}

/// Whether each statement is within its limits.
fn all_within_limits(statements: &[Statement]) -> bool
    ensures { IsTrue result ↔ AllByRecursion IsStatementWithinLimits statements.now }
{
    for statement in statements {
        if !is_within_limits(statement) {
            return false;
        }
    }
    true
}

/// Whether the subscripts of each array are within the limit.
fn are_ranks_small(arrays: &[(Name, u8)]) -> bool
    ensures { IsTrue result ↔ AllByRecursion (λ (array : List ℕ × ℕ). array.1 ≤ SUBSCRIPTS) arrays.now }
{
    for array in arrays {
        if array.1 > limits::SUBSCRIPTS {
            return false;
        }
    }
    true
}

/// Whether the parts are within their limits.
pub(crate) fn are_parts_within_limits(draft: &Draft) -> bool
    ensures { IsTrue result ↔ IsWithinLimits (parts_of draft.now).params (parts_of draft.now).assumed (parts_of draft.now).arrays (parts_of draft.now).statements }
{
    draft.params.as_slice().len() <= limits::PARAMETERS
        && draft.assumed.rows().len() <= limits::ASSUMPTIONS
        && draft.arrays.as_slice().len() <= limits::ARRAYS
        && draft.statements.as_slice().len() <= limits::STATEMENTS
        && are_small_forms(draft.assumed.rows())
        && are_ranks_small(draft.arrays.as_slice())
        && all_within_limits(draft.statements.as_slice())
}
