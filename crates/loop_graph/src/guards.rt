//! Guards.

ghost use Rattle.std.specs.Prelude.{◌≡◌, length};
ghost use Rattle.std.specs.List.{AllByRecursion};
ghost use Rattle.iolb_model.specs.Form.{are_met};
ghost use Rattle.iolb_model.specs.Program.{IsOver};
ghost use Rattle.affine_form.specs.Form.{IsSmall};
ghost use Rattle.iolb_model.specs.declared.limits.TheConstants.{VALUE_SIZE};

use affine_form::Form;

/// Whether each of these rows is at least 0 at a point.
pub(crate) fn are_met(rows: &[Form], point: &[i128]) -> bool
    requires over { AllByRecursion (IsOver (length point.now)) rows.now }
    requires small { AllByRecursion (IsSmall VALUE_SIZE) point.now }
    ensures { result ≡ are_met rows.now point.now }
{
    for row in rows {
        if row.value(point) < 0 {
            return false;
        }
    }
    true
}
