//! The check of joint terms.
#![tactic(auto, using(claims::proofs::Found::in_a_row))]

ghost use Rattle.std.specs.Prelude.{◌≤◌, length, map, IfErr, IfOk, OnOk};
ghost use Rattle.affine_program.specs.Parts.{meaning};
ghost use Rattle.claims.specs.Claims.{AllHold, IsRefusal};
ghost use Rattle.dep_quast.specs.Quasts.{trees_of};
ghost use Rattle.dep_quast.specs.Trees.{RowsAreTrue};
ghost use Rattle.iolb_model.specs.Bound.{joint};
ghost use Rattle.iolb_model.specs.Footprint.{CostsItsValue};
ghost use Rattle.joint_partition.specs.Claims.{count_of, joint_claims};
ghost use Rattle.joint_partition.specs.FamiliesFit.{FitsJoint};
ghost use Rattle.joint_partition.specs.JointCounts.{AreJointCounts};
ghost use Rattle.joint_partition.specs.JointLoads.{joint_footprint, HasJointNumbers};
ghost use Rattle.joint_partition.specs.JointNumbers.{FitsNumbers};
ghost use Rattle.joint_partition.specs.JointPieces.{joint_pieces, HasJointPieces};
ghost use Rattle.footprint_pieces.specs.Pieces.{AreCovered};
ghost use Rattle.joint_partition.specs.JointWords.{AreGroupsApartWhere, IsSoundJointTerm};
ghost use Rattle.joint_partition.specs.View.{joint_of};
ghost use Rattle.k_partition.specs.Numbers.{numbers_of};
ghost use Rattle.k_partition.specs.PartitionClaims.{no_points, IsCreditsTotal};
ghost use Rattle.poly_tree.specs.Printed.{polynomial_of};

use crate::claims_checker::check_claims;
use crate::counts::joint_points_are_counted;
use crate::numbers::joint_bound_of;
use crate::term::Joint;
use crate::terms::joint_claims_are_sound;
use crate::values::{joint_pieces_cover, joint_terms_cost_their_value};
use affine_program::Program;
use claims::{Place, Refused};
use k_partition::PartitionBound;
use reuse_paths::Quasts;
use std::alloc::Global;

/// Checks a joint term, which stands at this place of a certificate. The term and the source trees fit the program, and the trees
/// are true. The answer has the sum of the counts of its parts' images, that of its credited nests' points, and the numbers of its
/// bound.
///
/// After `Ok` the value of this bound is loaded: at all parameter values that meet the program's assumptions, of any size, and for
/// every number of red pebbles, every complete pebbling (Hong and Kung 1981, without recomputation) makes at least as many loads of
/// the term's footprint as the value says.
///
/// # Errors
///
/// The first condition that fails, with its place. Part by part at `parts/i`: 8 at `shown/k`, 9 and 2 at `sums/k` as
/// `check_count` has them, 2 at `sums` where the sum of its count and those before passes the limit, 10 at `inside/r`, and 12 at
/// `inverse/matrix/row/col` for the first entry of the product with the map that isn't that of the scale times the identity. Then
/// 25 at `distinct/i`, behind `yes` or `no` for each test at `empty`, for the first two parts whose images aren't shown to differ;
/// for each credit 8, 9 and 2 at `credits/i`, and 2 at `credits/i/sums`; and 17 at `parts/0/map/x` for the first coordinate that
/// lies in sets of less weight. Then, family by family at `families/j`, what the walks of the starts claim, at `starts/i/tree`, and
/// those in the regions of the ways, at `ways/i/regions/statement/tree`: behind `yes` and `no` there, at `leaves/i` for the first
/// leaf that isn't empty, 15 where it isn't shown that no point comes there (at `empty`), that it is an input where the walk stops,
/// or that its word is in the credited nest or the region that is named (at `rows/i` for a row that isn't shown, else at the leaf),
/// 14 where it isn't shown that the word has the label of the reader (at `stop/i` for an input, else at `label/i`, and at the leaf
/// where the word has no label), and 2 for a system of more than 128 rows, at the leaf's first multipliers, or at the leaf. Then 18
/// and 2 at `apart/i` for the first two pieces of families of different groups with one target that aren't shown to have no vertex
/// in common.
pub fn check_joint(
    alloc: Global,
    program: &Program,
    quasts: &Quasts,
    term: &Joint,
    place: &Place,
) -> Result<PartitionBound, Refused>
    requires fits { FitsJoint program.now (trees_of quasts.now) term.now }
    requires trees_true { RowsAreTrue (meaning program.now) 0 (trees_of quasts.now) }
    requires few { FitsNumbers (joint_of term.now) }
    requires positive { 1 ≤ term.now.q }
    ensures total { IfOk result (λ bound. IsCreditsTotal (length program.now.params) no_points (map count_of (joint_of term.now).parts) bound.count) }
    ensures credited { IfOk result (λ bound. IsCreditsTotal (length program.now.params) no_points (joint_of term.now).credits bound.credits) }
    ensures counts { IfOk result (λ bound. AreJointCounts (meaning program.now) (joint_of term.now) bound.count bound.credits) }
    ensures numbers { IfOk result (λ bound. HasJointNumbers (joint_of term.now) (numbers_of bound)) }
    ensures holds { OnOk result (AllHold (joint_claims (meaning program.now) (trees_of quasts.now) place.now (joint_of term.now))) }
    ensures few { OnOk result (HasJointPieces (meaning program.now) (trees_of quasts.now) (joint_of term.now)) }
    ensures covered { OnOk result (AreCovered (meaning program.now) (joint_footprint (meaning program.now) (joint_of term.now)) (joint_pieces (meaning program.now) (trees_of quasts.now) (joint_of term.now))) }
    ensures footprint { IfOk result (λ bound. CostsItsValue (meaning program.now) (joint (polynomial_of bound.count) (polynomial_of bound.credits) (numbers_of bound)) (joint_footprint (meaning program.now) (joint_of term.now))) }
    ensures sound { OnOk result (IsSoundJointTerm (meaning program.now) (joint_of term.now)) }
    ensures apart { OnOk result (AreGroupsApartWhere (meaning program.now) (joint_of term.now)) }
    ensures refused { IfErr result (λ refused. IsRefusal (joint_claims (meaning program.now) (trees_of quasts.now) place.now (joint_of term.now)) refused) }
{
    let _params = program.params();
    joint_points_are_counted();
    joint_claims_are_sound();
    joint_pieces_cover();
    joint_terms_cost_their_value();
    let (count, credits) = check_claims(alloc, program, quasts, term, place)?;
    // Their readers say that the polynomials are in lowest terms.
    let (_count, _credits) = (count.den(), credits.den());
    let bound = joint_bound_of(term, count, credits);
    Ok(bound)
}
