//! Whether families of different groups are shown to have no word in common.
#![tactic(auto, using(claims::proofs::Found::in_a_row))]

ghost use Rattle.std.specs.Prelude.{◌≡◌, ◌≤◌, ◌+◌, [], ◌∷◌, length, map, drop, OnOk};
ghost use Rattle.std.specs.List.{AllByRecursion};
ghost use Rattle.affine_program.specs.Parts.{meaning};
ghost use Rattle.claims.specs.Claims.{Decides};
ghost use Rattle.claims.specs.Shown.{pointless_claims};
ghost use Rattle.dep_quast.specs.Quasts.{trees_of};
ghost use Rattle.footprint_pieces.specs.DisjointClaims.{systems_with_lists};
ghost use Rattle.footprint_pieces.specs.Pieces.{PieceFits, piece_of, pieces_of};
ghost use Rattle.joint_partition.specs.Claims.{apart_claims_of, family_pieces};
ghost use Rattle.joint_partition.specs.FamiliesFit.{FitsJoint};
ghost use Rattle.joint_partition.specs.GroupSystems.{listed_systems, lists_of_others};
ghost use Rattle.joint_partition.specs.JointPieces.{HasJointPieces};
ghost use Rattle.joint_partition.specs.View.{family_of, joint_of};

use crate::pieces::pieces_of_families;
use crate::term::{Joint, JointFamily};
use affine_form::Multipliers;
use affine_program::Program;
use claims::{ObjectKey, Place, Refused, Step};
use footprint_pieces::later_shown;
use reuse_paths::{Piece, Quasts};
use std::alloc::Global;

/// Whether pieces of a group and those of another family, in a list of one, are shown to have no vertex in common, where that is of
/// another group.
fn other_shown(
    alloc: Global,
    program: &Program,
    group: u8,
    pieces: &[Piece],
    other: &JointFamily,
    one: &[Vec<Piece>],
    shown: &[Multipliers],
    at: &mut usize,
    list: &Place,
) -> Result<(), Refused>
    requires pieces { AllByRecursion (PieceFits (meaning program.now)) (map piece_of pieces.now) }
    requires one { length one.now ≡ 1 }
    requires lists { AllByRecursion (AllByRecursion (PieceFits (meaning program.now))) (map pieces_of one.now) }
    requires enough { at.old + length (systems_with_lists (meaning program.now) (map piece_of pieces.now) (lists_of_others group (family_of other.now ∷ []) (map pieces_of one.now))) ≤ length shown.now }
    ensures found { Decides (pointless_claims 18 list.now at.old (systems_with_lists (meaning program.now) (map piece_of pieces.now) (lists_of_others group (family_of other.now ∷ []) (map pieces_of one.now))) (drop at.old shown.now)) result }
    ensures next { OnOk result (at.new ≡ at.old + length (systems_with_lists (meaning program.now) (map piece_of pieces.now) (lists_of_others group (family_of other.now ∷ []) (map pieces_of one.now)))) }
{
    if other.group == group {
        return Ok(());
    }
    later_shown(alloc, program, pieces, one, shown, at, 18, list)
}

/// Whether pieces of a group and those of families of other groups are shown to have no vertex in common, by the multipliers of the
/// list at this place from one on, which is moved behind those that are read.
fn others_shown(
    alloc: Global,
    program: &Program,
    group: u8,
    pieces: &[Piece],
    others: &[JointFamily],
    lists: &[Vec<Piece>],
    shown: &[Multipliers],
    at: &mut usize,
    list: &Place,
) -> Result<(), Refused>
    requires pieces { AllByRecursion (PieceFits (meaning program.now)) (map piece_of pieces.now) }
    requires one_each { length others.now ≡ length lists.now }
    requires lists { AllByRecursion (AllByRecursion (PieceFits (meaning program.now))) (map pieces_of lists.now) }
    requires enough { at.old + length (systems_with_lists (meaning program.now) (map piece_of pieces.now) (lists_of_others group (map family_of others.now) (map pieces_of lists.now))) ≤ length shown.now }
    ensures found { Decides (pointless_claims 18 list.now at.old (systems_with_lists (meaning program.now) (map piece_of pieces.now) (lists_of_others group (map family_of others.now) (map pieces_of lists.now))) (drop at.old shown.now)) result }
    ensures next { OnOk result (at.new ≡ at.old + length (systems_with_lists (meaning program.now) (map piece_of pieces.now) (lists_of_others group (map family_of others.now) (map pieces_of lists.now)))) }
{
    let Some((other, others)) = others.split_first() else {
        return Ok(());
    };
    let (one, lists) = lists.split_at(1);
    other_shown(alloc, program, group, pieces, other, one, shown, at, list)?;
    others_shown(
        alloc, program, group, pieces, others, lists, shown, at, list,
    )
}

/// Whether each family's pieces and those of each later one of another group are shown to have no vertex in common, by the
/// multipliers of the list at this place from one on, which is moved behind those that are read.
fn families_apart(
    alloc: Global,
    program: &Program,
    families: &[JointFamily],
    lists: &[Vec<Piece>],
    shown: &[Multipliers],
    at: &mut usize,
    list: &Place,
) -> Result<(), Refused>
    requires one_each { length families.now ≡ length lists.now }
    requires lists { AllByRecursion (AllByRecursion (PieceFits (meaning program.now))) (map pieces_of lists.now) }
    requires enough { at.old + length (listed_systems (meaning program.now) (map family_of families.now) (map pieces_of lists.now)) ≤ length shown.now }
    ensures { Decides (pointless_claims 18 list.now at.old (listed_systems (meaning program.now) (map family_of families.now) (map pieces_of lists.now)) (drop at.old shown.now)) result }
{
    let Some((family, families)) = families.split_first() else {
        return Ok(());
    };
    let Some((pieces, lists)) = lists.split_first() else {
        return Ok(());
    };
    let pieces = pieces.as_slice();
    let group = family.group;
    others_shown(
        alloc, program, group, pieces, families, lists, shown, at, list,
    )?;
    families_apart(alloc, program, families, lists, shown, at, list)
}

/// Whether no two families of different groups of a joint term are shown to have a word in common, at `apart/i` for each two of
/// their pieces with one target.
pub(crate) fn groups_apart(
    alloc: Global,
    program: &Program,
    quasts: &Quasts,
    term: &Joint,
    place: &Place,
) -> Result<(), Refused>
    requires fits { FitsJoint program.now (trees_of quasts.now) term.now }
    requires few { HasJointPieces (meaning program.now) (trees_of quasts.now) (joint_of term.now) }
    ensures found { Decides (apart_claims_of (meaning program.now) (trees_of quasts.now) place.now (joint_of term.now)) result }
    ensures fit { OnOk result (AllByRecursion (AllByRecursion (PieceFits (meaning program.now))) (map (family_pieces (meaning program.now) (trees_of quasts.now) (joint_of term.now)) (joint_of term.now).families)) }
{
    let lists = pieces_of_families(alloc, program, quasts, term)?;
    let list = place.within(alloc, Step::Key(ObjectKey("apart")))?;
    let families = term.families.as_slice();
    let shown = term.apart.as_slice();
    let mut at = 0;
    let lists = lists.as_slice();
    families_apart(alloc, program, families, lists, shown, &mut at, &list)?;
    Ok(())
}
