//! The checker.
#![tactic(auto, using(claims::proofs::Found::in_a_row))]

ghost use Rattle.std.specs.Prelude.{◌≡◌, IfOk, IfErr, OnOk};
ghost use Rattle.std.specs.List.{AllByRecursion, AllZip};
ghost use Rattle.iolb_model.specs.Headline.{BoundHolds};
ghost use Rattle.affine_program.specs.Parts.{meaning};
ghost use Rattle.iolb_check.specs.Bounds.{bound_of};
ghost use Rattle.claims.specs.Claims.{IsRefusal};
ghost use Rattle.iolb_check.specs.Claims.{claim_of_certificate};
ghost use Rattle.iolb_check.specs.Conditions.{MeetsConditions, conditions};
ghost use Rattle.iolb_check.specs.Sound.{AreCounted, ArePaid, IsSoundBranch};

use crate::bound::Bound;
use crate::branches::check_branches;
use crate::certificate::Certificate;
use crate::fit_parts::parts_fit;
use affine_program::Program;
use claims::Refused;
use reuse_paths::check_quasts;
use std::alloc::Global;

/// Checks a certificate for a program. The answer is the bound that it gives, and the bound holds: at all parameter values
/// that meet the program's assumptions, of any size, and every number of red pebbles, every complete pebbling of the
/// program's computation graph (Hong and Kung 1981, without recomputation) makes at least as many loads as the bound's
/// value.
///
/// Each branch of the certificate is sound (`IsSoundBranch`): each of its terms is, and at all admitted parameter values no two
/// of them have a vertex of their footprints in common. Each term costs its value in loads of its footprint (`paid`), and the
/// counts of the value are the numbers of points of the term's nests (`counts`).
///
/// # Errors
///
/// The first condition that fails, with its place: whether the certificate fits the program (1), in the order of a walk
/// through its text; then the source trees (2 to 7) by statement, read and leaf; then the branches (2, and 8 to 23), their
/// terms in order and then the pairs of their terms.
pub fn check(alloc: Global, program: &Program, certificate: &Certificate) -> Result<Bound, Refused>
    ensures assumed { IfOk result (λ bound. bound.assumed ≡ program.now.assumed) }
    ensures meets { IfOk result (λ bound. MeetsConditions (meaning program.now) (claim_of_certificate certificate.now) bound.branches) }
    ensures holds { IfOk result (λ bound. BoundHolds (meaning program.now) (bound_of bound)) }
    ensures sound { OnOk result (AllByRecursion (IsSoundBranch program.now) certificate.now.branches) }
    ensures paid { IfOk result (λ bound. AllZip (ArePaid program.now) certificate.now.branches bound.branches) }
    ensures counts { IfOk result (λ bound. AllZip (AreCounted program.now) certificate.now.branches bound.branches) }
    ensures refused { IfErr result (IsRefusal (conditions (meaning program.now) (claim_of_certificate certificate.now))) }
{
    parts_fit(alloc, program, certificate)?;
    let quasts = certificate.quasts();
    check_quasts(alloc, program, quasts)?;
    let values = check_branches(alloc, program, quasts, certificate.branches())?;
    let assumed = program.assumed().try_clone(alloc)?;
    Ok(Bound::new(assumed, values))
}
