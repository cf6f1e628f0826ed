//! Least covers of a projective program's loops.

ghost use Rattle.std.specs.Prelude.{◌≡◌, Err, IfOk};
ghost use Rattle.affine_program.specs.Domain.{depth_of};
ghost use Rattle.affine_program.specs.Parts.{meaning};
ghost use Rattle.cover_lp.specs.Cover.{IsTooFine};
ghost use Rattle.projective.specs.Projective.{IsProjective, projection_sets};
ghost use Rattle.projective.specs.Shape.{IsShapeOf};
ghost use Rattle.projective_bounds.specs.Certified.{IsCoverInReach};

use crate::fault::CertifyFault;
use affine_program::Program;
use cover_lp::{Cover, CoverFault, least_cover};
use projective::Projective;
use std::alloc::Global;

/// A least cover of the loops by the sets of the arrays. No loop is in none of the sets.
pub(crate) fn cover_of(
    alloc: Global,
    program: &Program,
    shape: &Projective,
) -> Result<Cover, CertifyFault>
    requires projective { IsProjective (meaning program.now) }
    requires shape { IsShapeOf (meaning program.now) shape.now }
    ensures cover { IfOk result (λ cover. IsCoverInReach (meaning program.now) cover.q cover.weights.items cover.packing.items) }
    ensures too_fine { result ≡ Err CertifyFault.TooFine → IsTooFine (projection_sets (meaning program.now)) (depth_of (meaning program.now) 0) }
{
    let _params = program.params();
    let sets = shape.sets();
    let depth = shape.depth();
    match least_cover(alloc, sets, depth) {
        Ok(cover) => Ok(cover),
        Err(CoverFault::TooFine) => Err(CertifyFault::TooFine),
        Err(CoverFault::Memory) => Err(CertifyFault::Memory),
        Err(CoverFault::Uncovered(_)) => unreachable!(),
    }
}
