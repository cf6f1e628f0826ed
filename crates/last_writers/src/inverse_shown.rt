//! Whether a matrix turns forms back into a number times a nest's variables.

ghost use Rattle.std.specs.Prelude.{◌≡◌, ◌+◌, ◌≤◌, length, IfOk};
ghost use Rattle.claims.specs.Claims.{Decides};
ghost use Rattle.iolb_model.specs.declared.limits.TheConstants.{VARIABLES};
ghost use Rattle.wavefront.specs.InverseClaims.{entry_place, inverse_claims};

use affine_form::{Form, Memory};
use claims::{ObjectKey, Place, Refused, Step, refusal};
use std::alloc::Global;
use wavefront::{Inverse, first_difference};

/// Whether the matrix turns forms back into the scale times the variables behind the parameters, so many of them.
pub(crate) fn inverse_shown(
    alloc: Global,
    inverse: &Inverse,
    forms: &[Form],
    params: usize,
    size: usize,
    place: &Place,
) -> Result<(), Refused>
    requires few { params + size ≤ VARIABLES }
    requires rows { inverse.now.matrix.rows ≡ size }
    requires columns { (1 ≤ inverse.now.matrix.rows) → inverse.now.matrix.columns ≡ length forms.now }
    ensures { Decides (inverse_claims inverse.now.matrix inverse.now.scale params size forms.now place.now) result }
{
    match first_difference(&inverse.matrix, forms, params, inverse.scale, size) {
        Some((row, col)) => {
            let entry = entry_at(alloc, place, row, col)?;
            Err(refusal(alloc, 12, &entry))
        }
        None => Ok(()),
    }
}

/// The place of an entry of the product of the matrix with the forms' coefficients.
fn entry_at(alloc: Global, place: &Place, row: usize, col: usize) -> Result<Place, Memory>
    ensures { IfOk result (λ entry. entry ≡ entry_place place.now row col) }
{
    let inverse = place.within(alloc, Step::Key(ObjectKey("inverse")))?;
    let matrix = inverse.within(alloc, Step::Key(ObjectKey("matrix")))?;
    let row = matrix.within(alloc, Step::Index(row as u64))?;
    row.within(alloc, Step::Index(col as u64))
}
