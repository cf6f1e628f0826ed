//! Whether a matrix undoes the order of subscripts.

ghost use Rattle.std.specs.Prelude.{◌≡◌, ◌+◌, ◌≤◌, ◌↔◌, length, IsTrue};
ghost use Rattle.wavefront.specs.Inverse.{AreUndone};
ghost use Rattle.iolb_model.specs.declared.limits.TheConstants.{VARIABLES};

use affine_form::Form;
use wavefront::{Inverse, first_difference};

/// Whether a matrix times the forms' coefficients past the parameters, of so many columns, is the scale times the
/// identity.
pub(crate) fn is_undone(inverse: &Inverse, forms: &[Form], parameters: usize, size: usize) -> bool
    requires few { parameters + size ≤ VARIABLES }
    requires rows { inverse.now.matrix.rows ≡ size }
    requires columns { (1 ≤ inverse.now.matrix.rows) → inverse.now.matrix.columns ≡ length forms.now }
    ensures { IsTrue result ↔ AreUndone inverse.now.matrix inverse.now.scale parameters size forms.now }
{
    match first_difference(&inverse.matrix, forms, parameters, inverse.scale, size) {
        None => true,
        Some(_) => false,
    }
}
