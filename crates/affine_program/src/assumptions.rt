//! Assumptions about the parameters, at their values.

ghost use Rattle.std.specs.Prelude.{◌≤◌, length, MatchOption};
ghost use Rattle.std.specs.List.{AllByRecursion};
ghost use Rattle.iolb_model.specs.Bound.{AreMet};
ghost use Rattle.affine_form.specs.Form.{IsSmall};
ghost use Rattle.affine_form.specs.System.{AllOver};
ghost use Rattle.affine_program.specs.Assumptions.{IsFirstUnmet};
ghost use Rattle.iolb_model.specs.declared.limits.TheConstants.{ROWS, VALUE_SIZE};

use affine_form::Form;

/// The number of the first assumption that isn't met at a point.
pub fn first_unmet(rows: &[Form], point: &[i128]) -> Option<u16>
    requires few { length rows.now ≤ ROWS }
    requires over { AllOver (length point.now) rows.now }
    requires small { AllByRecursion (IsSmall VALUE_SIZE) point.now }
    ensures { MatchOption result (AreMet rows.now point.now) (λ number. IsFirstUnmet rows.now point.now number) }
{
    for (number, row) in rows.iter().enumerate() {
        if row.value(point) < 0 {
            return Some(number as u16);
        }
    }
    None
}
