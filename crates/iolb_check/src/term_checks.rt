//! The conditions of terms.

ghost use Rattle.std.specs.Prelude.{◌≡◌, [], ◌∷◌, ◌++◌, length, IfOk, IfErr, OnOk, codes};
ghost use Rattle.affine_program.specs.Parts.{meaning};
ghost use Rattle.claims.specs.Claims.{AllHold, IsRefusal};
ghost use Rattle.claims.specs.declared.place.Step.TheVariants.{Key, Index};
ghost use Rattle.domain_count.specs.Count.{IsCount, IsSumFrom};
ghost use Rattle.joint_partition.specs.Claims.{joint_claims};
ghost use Rattle.joint_partition.specs.View.{joint_of};
ghost use Rattle.k_partition.specs.PartitionClaims.{partition_claims};
ghost use Rattle.k_partition.specs.View.{partition_of};
ghost use Rattle.dep_quast.specs.Quasts.{tree_for, trees_of};
ghost use Rattle.dep_quast.specs.Trees.{RowsAreTrue, RowsFit};
ghost use Rattle.wavefront.specs.ColdClaims.{cold_claims};
ghost use Rattle.wavefront.specs.FrontClaims.{front_claims};
ghost use Rattle.wavefront.specs.FrontTerm.{outer_nest};
ghost use Rattle.wavefront.specs.View.{front_of, term_of};
ghost use Rattle.iolb_check.specs.Claims.{claim_of_term};
ghost use Rattle.iolb_check.specs.Fit.{ColdTermFits, FrontTermFits, HasPieces, JointTermFits, PartitionTermFits, TermFits};
ghost use Rattle.iolb_check.specs.Sound.{IsSound};
ghost use Rattle.iolb_check.specs.Conditions.{IsJointValue, IsPartitionValue, IsValueOf, term_claims_at};
ghost use Rattle.iolb_check.specs.Holds.{TermHolds};

use crate::bound::Value;
use crate::term::Term;
use affine_form::Memory;
use affine_program::Program;
use claims::{ObjectKey, Place, Refused, Step};
use joint_partition::values::joint_numbers_are_one;
use joint_partition::{Joint, check_joint};
use k_partition::{Partition, PartitionBound, check_partition};
use poly_tree::Poly;
use reuse_paths::Quasts;
use std::alloc::Global;
use wavefront::{Cold, Wavefront, check_cold, check_wavefront, front_pieces_cover};

/// The value of the term that stands in a list at a place.
///
/// # Errors
///
/// The first of its conditions that fails.
pub(crate) fn check_term(
    alloc: Global,
    program: &Program,
    quasts: &Quasts,
    place: &Place,
    index: usize,
    term: &Term,
) -> Result<Value, Refused>
    requires fits { TermFits program.now (trees_of quasts.now) term.now }
    requires trees_fit { RowsFit (meaning program.now) 0 (trees_of quasts.now) }
    requires are_true { RowsAreTrue (meaning program.now) 0 (trees_of quasts.now) }
    ensures accepted { IfOk result (λ value. AllHold (term_claims_at (meaning program.now) (trees_of quasts.now) place.now index (claim_of_term term.now))) }
    ensures value { IfOk result (λ value. IsValueOf (meaning program.now) (claim_of_term term.now) value) }
    ensures holds { IfOk result (λ value. TermHolds program.now (trees_of quasts.now) term.now value) }
    ensures pieces { OnOk result (HasPieces program.now (trees_of quasts.now) term.now) }
    ensures sound { OnOk result (IsSound program.now term.now) }
    ensures refused { IfErr result (IsRefusal (term_claims_at (meaning program.now) (trees_of quasts.now) place.now index (claim_of_term term.now))) }
{
    match term {
        Term::Cold(cold) => {
            let count = check_cold_term(alloc, program, quasts, place, index, cold)?;
            Ok(Value::Cold(count))
        }
        Term::Partition(partition) => {
            let bound = check_partition_term(alloc, program, quasts, place, index, partition)?;
            Ok(Value::Partition(bound))
        }
        Term::Wavefront(front) => {
            let (pairs, outer) = check_front_term(alloc, program, quasts, place, index, front)?;
            Ok(Value::Wavefront { pairs, outer })
        }
        Term::Joint(joint) => {
            let bound = check_joint_term(alloc, program, quasts, place, index, joint)?;
            Ok(Value::Joint(bound))
        }
    }
}

/// The place of a key of the term that stands in a list at a place.
fn term_place(alloc: Global, place: &Place, index: usize, key: ObjectKey) -> Result<Place, Memory>
    ensures { IfOk result (λ term. term ≡ (place.now ++ Index index ∷ []) ++ Key key ∷ []) }
{
    let term = place.within(alloc, Step::Index(index as u64))?;
    term.within(alloc, Step::Key(key))
}

/// The count of the cold term that stands in a list at a place.
fn check_cold_term(
    alloc: Global,
    program: &Program,
    quasts: &Quasts,
    place: &Place,
    index: usize,
    cold: &Cold,
) -> Result<Poly, Refused>
    requires fits { ColdTermFits program.now (trees_of quasts.now) cold.now }
    requires are_true { RowsAreTrue (meaning program.now) 0 (trees_of quasts.now) }
    ensures accepted { IfOk result (λ count. AllHold (cold_claims (meaning program.now) ((place.now ++ Index index ∷ []) ++ Key (codes "cold") ∷ []) (tree_for (trees_of quasts.now) (term_of cold.now).reader) (term_of cold.now))) }
    ensures value { IfOk result (λ count. IsCount (meaning program.now) cold.now.nest cold.now.sums count) }
    ensures holds { IfOk result (λ count. TermHolds program.now (trees_of quasts.now) (Term.Cold cold.now) (Value.Cold count)) }
    ensures pieces { OnOk result (HasPieces program.now (trees_of quasts.now) (Term.Cold cold.now)) }
    ensures sound { OnOk result (IsSound program.now (Term.Cold cold.now)) }
    ensures refused { IfErr result (IsRefusal (cold_claims (meaning program.now) ((place.now ++ Index index ∷ []) ++ Key (codes "cold") ∷ []) (tree_for (trees_of quasts.now) (term_of cold.now).reader) (term_of cold.now))) }
{
    let _params = program.params();
    let Ok(place) = term_place(alloc, place, index, ObjectKey("cold")) else {
        return Err(Refused::Memory);
    };
    let count = check_cold(alloc, program, quasts, cold, &place)?;
    Ok(count)
}

/// The bound of the partition term that stands in a list at a place.
fn check_partition_term(
    alloc: Global,
    program: &Program,
    quasts: &Quasts,
    place: &Place,
    index: usize,
    partition: &Partition,
) -> Result<PartitionBound, Refused>
    requires fits { PartitionTermFits program.now (trees_of quasts.now) partition.now }
    requires trees_fit { RowsFit (meaning program.now) 0 (trees_of quasts.now) }
    requires are_true { RowsAreTrue (meaning program.now) 0 (trees_of quasts.now) }
    ensures accepted { IfOk result (λ bound. AllHold (partition_claims (meaning program.now) (trees_of quasts.now) ((place.now ++ Index index ∷ []) ++ Key (codes "partition") ∷ []) (partition_of partition.now))) }
    ensures value { IfOk result (λ bound. IsPartitionValue (meaning program.now) (partition_of partition.now) bound) }
    ensures holds { IfOk result (λ bound. TermHolds program.now (trees_of quasts.now) (Term.Partition partition.now) (Value.Partition bound)) }
    ensures pieces { OnOk result (HasPieces program.now (trees_of quasts.now) (Term.Partition partition.now)) }
    ensures sound { OnOk result (IsSound program.now (Term.Partition partition.now)) }
    ensures refused { IfErr result (IsRefusal (partition_claims (meaning program.now) (trees_of quasts.now) ((place.now ++ Index index ∷ []) ++ Key (codes "partition") ∷ []) (partition_of partition.now))) }
{
    let _params = program.params();
    let _rows = partition.matrix.rows();
    let Ok(place) = term_place(alloc, place, index, ObjectKey("partition")) else {
        return Err(Refused::Memory);
    };
    let bound = check_partition(alloc, program, quasts, partition, &place)?;
    Ok(bound)
}

/// The counts of the wavefront term that stands in a list at a place: of its points, and of those of its outer variables.
fn check_front_term(
    alloc: Global,
    program: &Program,
    quasts: &Quasts,
    place: &Place,
    index: usize,
    front: &Wavefront,
) -> Result<(Poly, Poly), Refused>
    requires fits { FrontTermFits program.now (trees_of quasts.now) front.now }
    requires trees_fit { RowsFit (meaning program.now) 0 (trees_of quasts.now) }
    requires are_true { RowsAreTrue (meaning program.now) 0 (trees_of quasts.now) }
    ensures accepted { IfOk result (λ counts. AllHold (front_claims (meaning program.now) ((place.now ++ Index index ∷ []) ++ Key (codes "wavefront") ∷ []) (trees_of quasts.now) (front_of front.now))) }
    ensures value { IfOk result (λ counts. IsCount (meaning program.now) front.now.nest front.now.sums counts.0) }
    ensures outer { IfOk result (λ counts. IsSumFrom (length program.now.params) (outer_nest (front_of front.now)) front.now.outer_sums.items counts.1) }
    ensures holds { IfOk result (λ counts. TermHolds program.now (trees_of quasts.now) (Term.Wavefront front.now) (Value.Wavefront counts.0 counts.1)) }
    ensures sound { OnOk result (IsSound program.now (Term.Wavefront front.now)) }
    ensures refused { IfErr result (IsRefusal (front_claims (meaning program.now) ((place.now ++ Index index ∷ []) ++ Key (codes "wavefront") ∷ []) (trees_of quasts.now) (front_of front.now))) }
{
    let _params = program.params();
    front_pieces_cover();
    let Ok(place) = term_place(alloc, place, index, ObjectKey("wavefront")) else {
        return Err(Refused::Memory);
    };
    let counts = check_wavefront(alloc, program, quasts, front, &place)?;
    Ok(counts)
}

/// The bound of the joint term that stands in a list at a place.
fn check_joint_term(
    alloc: Global,
    program: &Program,
    quasts: &Quasts,
    place: &Place,
    index: usize,
    joint: &Joint,
) -> Result<PartitionBound, Refused>
    requires fits { JointTermFits program.now (trees_of quasts.now) joint.now }
    requires are_true { RowsAreTrue (meaning program.now) 0 (trees_of quasts.now) }
    ensures accepted { IfOk result (λ bound. AllHold (joint_claims (meaning program.now) (trees_of quasts.now) ((place.now ++ Index index ∷ []) ++ Key (codes "joint") ∷ []) (joint_of joint.now))) }
    ensures value { IfOk result (λ bound. IsJointValue (meaning program.now) (joint_of joint.now) bound) }
    ensures holds { IfOk result (λ bound. TermHolds program.now (trees_of quasts.now) (Term.Joint joint.now) (Value.Joint bound)) }
    ensures pieces { OnOk result (HasPieces program.now (trees_of quasts.now) (Term.Joint joint.now)) }
    ensures sound { OnOk result (IsSound program.now (Term.Joint joint.now)) }
    ensures refused { IfErr result (IsRefusal (joint_claims (meaning program.now) (trees_of quasts.now) ((place.now ++ Index index ∷ []) ++ Key (codes "joint") ∷ []) (joint_of joint.now))) }
{
    let _params = program.params();
    joint_numbers_are_one();
    let Ok(place) = term_place(alloc, place, index, ObjectKey("joint")) else {
        return Err(Refused::Memory);
    };
    let bound = check_joint(alloc, program, quasts, joint, &place)?;
    Ok(bound)
}
