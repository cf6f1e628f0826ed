//! The check of what a joint term claims.
#![tactic(auto, using(claims::proofs::Found::in_a_row))]

ghost use Rattle.std.specs.Prelude.{length, map, IfErr, IfOk, OnOk};
ghost use Rattle.affine_program.specs.Parts.{meaning};
ghost use Rattle.claims.specs.Claims.{AllHold, IsRefusal};
ghost use Rattle.dep_quast.specs.Quasts.{trees_of};
ghost use Rattle.joint_partition.specs.Claims.{count_of, joint_claims};
ghost use Rattle.joint_partition.specs.FamiliesFit.{FitsJoint};
ghost use Rattle.joint_partition.specs.JointFits.{GroupsFit};
ghost use Rattle.joint_partition.specs.JointPieces.{HasJointPieces};
ghost use Rattle.joint_partition.specs.View.{joint_of};
ghost use Rattle.k_partition.specs.PartitionClaims.{no_points, IsCreditsTotal};

use crate::families_shown::families_shown;
use crate::groups_apart::groups_apart;
use crate::points_checker::check_points;
use crate::term::Joint;
use affine_program::Program;
use claims::{Place, Refused};
use poly_tree::Poly;
use reuse_paths::Quasts;
use std::alloc::Global;

/// Checks what a joint term claims, at this place of a certificate: the term and the source trees fit the program. The answer has
/// the sum of the counts of its parts' points, and that of its credited nests'.
///
/// # Errors
///
/// The first claim that doesn't hold, with its place: those of `check_points`, then of the families, then of the groups.
pub(crate) fn check_claims(
    alloc: Global,
    program: &Program,
    quasts: &Quasts,
    term: &Joint,
    place: &Place,
) -> Result<(Poly, Poly), Refused>
    requires { FitsJoint program.now (trees_of quasts.now) term.now }
    ensures count { IfOk result (λ counts. IsCreditsTotal (length program.now.params) no_points (map count_of (joint_of term.now).parts) counts.0) }
    ensures credits { IfOk result (λ counts. IsCreditsTotal (length program.now.params) no_points (joint_of term.now).credits counts.1) }
    ensures holds { OnOk result (AllHold (joint_claims (meaning program.now) (trees_of quasts.now) place.now (joint_of term.now))) }
    ensures few { OnOk result (HasJointPieces (meaning program.now) (trees_of quasts.now) (joint_of term.now)) }
    ensures groups { OnOk result (GroupsFit (meaning program.now) (trees_of quasts.now) (joint_of term.now)) }
    ensures refused { IfErr result (λ refused. IsRefusal (joint_claims (meaning program.now) (trees_of quasts.now) place.now (joint_of term.now)) refused) }
{
    let counts = check_points(alloc, program, term, place)?;
    families_shown(alloc, program, quasts, term, place)?;
    groups_apart(alloc, program, quasts, term, place)?;
    Ok(counts)
}
