//! Counts of nests.

ghost use Rattle.std.specs.Prelude.{◌≤◌, IfOk, length, map};
ghost use Rattle.affine_program.specs.Parts.{meaning};
ghost use Rattle.projective.specs.Projective.{AllRun};
ghost use Rattle.projective.specs.Products.{IsProductCount};
ghost use Rattle.iolb_model.specs.declared.limits.TheConstants.{NEST_VARIABLES};

use crate::assumed::all_taken;
use crate::parameters::parameters_from;
use crate::powers::all_repeated;
use affine_form::{Form, Memory};
use affine_program::Program;
use domain_count::Sums;
use std::alloc::Global;

/// What is claimed of the number of points of a nest between these bounds, whose variables run from 0 to below parameters that
/// are assumed to be at least 1: it is the product of these, and all that is claimed is right.
///
/// # Errors
///
/// Want of memory alone.
pub fn product_sums(
    alloc: Global,
    program: &Program,
    bounds: &[(Form, Form)],
) -> Result<Sums, Memory>
    requires few { length bounds.now ≤ NEST_VARIABLES }
    requires run { AllRun (meaning program.now) (length program.now.params) bounds.now }
    ensures { IfOk result (λ sums. IsProductCount (meaning program.now) bounds.now sums) }
{
    let params = program.params().len();
    let parameters = parameters_from(alloc, program, params, bounds)?;
    let shown = all_taken(alloc, program, parameters.as_slice())?;
    let sums = all_repeated(alloc, params, parameters.as_slice())?;
    Ok(Sums::new(shown, sums))
}
