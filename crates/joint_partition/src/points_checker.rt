//! The check of a joint term's points: of its parts, of their images, of its credited nests, and of the cover.
#![tactic(auto, using(claims::proofs::Found::in_a_row))]

ghost use Rattle.std.specs.Prelude.{length, map, IfErr, IfOk, OnOk};
ghost use Rattle.affine_program.specs.Parts.{meaning};
ghost use Rattle.claims.specs.Claims.{AllHold, IsRefusal};
ghost use Rattle.joint_partition.specs.Claims.{count_of, points_claims};
ghost use Rattle.joint_partition.specs.View.{FitsPoints, joint_of};
ghost use Rattle.k_partition.specs.PartitionClaims.{no_points, IsCreditsTotal};

use crate::cover_shown::cover_shown;
use crate::distinct_shown::distinct_shown;
use crate::parts_counted::parts_counted;
use crate::term::Joint;
use affine_program::Program;
use claims::{Place, Refused};
use k_partition::credits_counted::credits_counted;
use poly_tree::Poly;
use std::alloc::Global;

/// Checks what a joint term claims of its points, at this place of a certificate. The answer has the sum of the counts of its
/// parts' points, and that of its credited nests'.
///
/// # Errors
///
/// The first claim that doesn't hold, with its place: of the parts, of their images, of the credits, of the cover.
pub(crate) fn check_points(
    alloc: Global,
    program: &Program,
    term: &Joint,
    place: &Place,
) -> Result<(Poly, Poly), Refused>
    requires { FitsPoints program.now term.now }
    ensures count { IfOk result (λ counts. IsCreditsTotal (length program.now.params) no_points (map count_of (joint_of term.now).parts) counts.0) }
    ensures credits { IfOk result (λ counts. IsCreditsTotal (length program.now.params) no_points (joint_of term.now).credits counts.1) }
    ensures holds { OnOk result (AllHold (points_claims (meaning program.now) place.now (joint_of term.now))) }
    ensures refused { IfErr result (λ refused. IsRefusal (points_claims (meaning program.now) place.now (joint_of term.now)) refused) }
{
    let parts = term.parts.as_slice();
    let count = parts_counted(alloc, program, parts, place)?;
    distinct_shown(alloc, program, place, 0, parts, term.distinct.as_slice())?;
    let credits = credits_counted(alloc, program, term.credits.as_slice(), place)?;
    cover_shown(alloc, term, place)?;
    Ok((count, credits))
}
