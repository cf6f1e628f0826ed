//! The certificate of a projective program.

ghost use Rattle.std.specs.Prelude.{◌≡◌, [], ◌∷◌, Err, IfOk};
ghost use Rattle.affine_program.specs.Domain.{depth_of};
ghost use Rattle.affine_program.specs.Parts.{meaning};
ghost use Rattle.cover_lp.specs.Cover.{IsTooFine};
ghost use Rattle.iolb_check.specs.Limits.{IsWithinLimits};
ghost use Rattle.k_partition.specs.View.{partition_of};
ghost use Rattle.projective.specs.Projective.{IsProjective, projection_sets};
ghost use Rattle.projective.specs.Shape.{IsShapeOf};
ghost use Rattle.projective_bounds.specs.Certified.{HasCoverInReach, IsCertified, IsOfLeastExponent};

use crate::branches::whole_branch;
use crate::cold_branches::cold_branch;
use crate::covers::cover_of;
use crate::fault::CertifyFault;
use crate::kept_laws::source_trees_keep_loops;
use crate::law::certified_have_least_exponents;
use crate::terms::cold_terms;
use affine_form::Memory;
use affine_program::Program;
use iolb_check::{Branch, Certificate};
use projective::{Projective, source_trees};
use reuse_paths::Quasts;
use std::alloc::Global;

/// The certificate of source trees and two branches, which are within the limits.
fn certificate_of(
    alloc: Global,
    quasts: Quasts,
    first: Branch,
    second: Branch,
) -> Result<Certificate, Memory>
    requires { IsWithinLimits (record { quasts = quasts; branches = first ∷ second ∷ [] }) }
    ensures { IfOk result (λ certificate. certificate ≡ record { quasts = quasts; branches = first ∷ second ∷ [] }) }
{
    let mut branches = Vec::new(alloc);
    branches.push(first)?;
    branches.push(second)?;
    Ok(Certificate::within(quasts, branches))
}

/// The certificate of a projective program: over its source trees two branches, first the partition term of the whole domain for
/// a least cover of the loops by the sets of the arrays, then a cold term for each array that is read. It meets all conditions,
/// and the exponent of the partition term is the least of all rational covers.
///
/// # Errors
///
/// `TooFine` exactly where `least_cover` is: no cover and packing of equal totals have a denominator from 1 to 12 and a total of
/// at most 24. Want of memory.
pub fn certify(
    alloc: Global,
    program: &Program,
    shape: &Projective,
) -> Result<Certificate, CertifyFault>
    requires projective { IsProjective (meaning program.now) }
    requires shape { IsShapeOf (meaning program.now) shape.now }
    ensures certified { IfOk result (λ certificate. IsCertified (meaning program.now) certificate) }
    ensures exponent { IfOk result (λ certificate. (is : IsCertified (meaning program.now) certificate) → IsOfLeastExponent (meaning program.now) (partition_of is.whole.term)) }
    ensures reach { IfOk result (λ certificate. HasCoverInReach (meaning program.now)) }
    ensures too_fine { result ≡ Err CertifyFault.TooFine → IsTooFine (projection_sets (meaning program.now)) (depth_of (meaning program.now) 0) }
{
    certified_have_least_exponents();
    source_trees_keep_loops();
    let _params = program.params();
    let cover = cover_of(alloc, program, shape)?;
    let quasts = source_trees(alloc, program)?;
    let q = cover.q();
    let weights = cover.weights();
    let first = whole_branch(alloc, program, shape, &quasts, q, weights)?;
    let colds = cold_terms(alloc, program, &quasts)?;
    let second = cold_branch(alloc, colds)?;
    let certificate = certificate_of(alloc, quasts, first, second)?;
    Ok(certificate)
}
