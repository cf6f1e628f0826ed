//! Whether the walks from parts are shown to keep their labels.
#![tactic(auto, using(claims::proofs::Found::in_a_row))]

ghost use Rattle.std.specs.Prelude.{◌≡◌, ◌+◌, ◌<◌, ◌^◌, ◌++◌, ◌∷◌, [], length, map, IfOk, codes};
ghost use Rattle.affine_form.specs.Rows.{BoundsFit};
ghost use Rattle.affine_program.specs.Domain.{depth_of};
ghost use Rattle.affine_program.specs.Parts.{meaning};
ghost use Rattle.claims.specs.Claims.{Decides, numbered};
ghost use Rattle.claims.specs.declared.place.Step.TheVariants.{Key};
ghost use Rattle.dep_quast.specs.Quasts.{trees_of};
ghost use Rattle.reuse_paths.specs.FamilyClaims.{start_rows};
ghost use Rattle.reuse_paths.specs.WalkClaims.{walk_claims};
ghost use Rattle.reuse_paths.specs.WalkFits.{WalkFits};
ghost use Rattle.reuse_paths.specs.WalkSettings.{region_context};
ghost use Rattle.reuse_paths.specs.WalkViews.{walk_of, ReadingFits};
ghost use Rattle.reuse_paths.specs.Walks.{tree_of_walk};
ghost use Rattle.std.specs.List.{AllByRecursion};
ghost use Rattle.joint_partition.specs.Claims.{member_at, start_claims};
ghost use Rattle.joint_partition.specs.FamiliesFit.{FitsJoint, FitsFamily, StartFits, StartsFit};
ghost use Rattle.joint_partition.specs.JointWords.{dimensions_of};
ghost use Rattle.joint_partition.specs.Term.{part_walks, walks_from};
ghost use Rattle.joint_partition.specs.View.{FitsPart, family_of, joint_of, part_of, start_of};

use crate::places::member_at;
use crate::start_label::start_label;
use crate::term::{Joint, JointFamily, Part, Start};
use crate::way_walks::{walking_in, way_at};
use affine_form::Memory;
use affine_program::Program;
use claims::{ObjectKey, Place, Refused, Step};
use domain_count::Nest;
use reuse_paths::walk_shown::walk_shown;
use reuse_paths::{Quasts, Walk, Walking, region_context, start_rows};
use std::alloc::Global;

/// The place of a start's tree.
fn tree_place(alloc: Global, list: &Place, index: usize) -> Result<Place, Memory>
    ensures { IfOk result (λ place. place ≡ member_at list.now (codes "starts") index ++ Key (codes "tree") ∷ []) }
{
    member_at(alloc, list, ObjectKey("starts"), index)?.within(alloc, Step::Key(ObjectKey("tree")))
}

/// Whether what a walk from the instances in a nest claims is shown, at the place of its tree.
fn tree_shown(
    alloc: Global,
    walking: &Walking,
    statement: u16,
    nest: &Nest,
    tree: &Walk,
    place: &Place,
) -> Result<(), Refused>
    requires fits { ReadingFits (walk_of walking.now) statement }
    requires each { length nest.now ≡ depth_of (walk_of walking.now).program statement }
    requires bounds { BoundsFit (length (walk_of walking.now).program.parameters) nest.now }
    requires walk { WalkFits (walk_of walking.now) statement (tree_of_walk tree.now) }
    ensures { Decides (walk_claims walking.now.condition (walk_of walking.now) statement place.now
        (region_context (walk_of walking.now) statement (start_rows (walk_of walking.now) statement nest.now)) (tree_of_walk tree.now)) result }
{
    let own = start_rows(alloc, walking, statement, nest)?;
    let rows = region_context(alloc, walking, statement, own.as_slice())?;
    walk_shown(alloc, walking, place, statement, rows.as_slice(), tree)
}

/// Whether the walk of a family from a part, which has this number, is shown to keep its label.
fn start_shown(
    alloc: Global,
    program: &Program,
    quasts: &Quasts,
    none: &Nest,
    term: &Joint,
    family: &JointFamily,
    list: &Place,
    index: usize,
    part: &Part,
    start: &Start,
) -> Result<(), Refused>
    requires none { none.now ≡ [] }
    requires term { FitsJoint program.now (trees_of quasts.now) term.now }
    requires family { FitsFamily (meaning program.now) (trees_of quasts.now) (joint_of term.now) (family_of family.now) }
    requires part { FitsPart program.now (dimensions_of (joint_of term.now)) part.now }
    requires start { StartFits (meaning program.now) (trees_of quasts.now) (joint_of term.now) (family_of family.now) (part_of part.now) (start_of start.now) }
    ensures { Decides (start_claims (meaning program.now) (trees_of quasts.now) (joint_of term.now) list.now index (walks_from (family_of family.now) (part_of part.now) (start_of start.now))) result }
{
    let label = start_label(alloc, part, family)?;
    let way = way_at(family, start.way);
    let credits = term.credits.as_slice();
    let reader = label.as_slice();
    let walking = walking_in(program, quasts, none, credits, family, way, reader);
    let place = tree_place(alloc, list, index)?;
    tree_shown(
        alloc,
        &walking,
        part.statement,
        &part.nest,
        &start.tree,
        &place,
    )
}

/// Whether the walks of a family from parts, of which the first has this number, are shown to keep their labels.
pub(crate) fn starts_shown(
    alloc: Global,
    program: &Program,
    quasts: &Quasts,
    none: &Nest,
    term: &Joint,
    family: &JointFamily,
    list: &Place,
    index: usize,
    parts: &[Part],
    starts: &[Start],
) -> Result<(), Refused>
    requires none { none.now ≡ [] }
    requires term { FitsJoint program.now (trees_of quasts.now) term.now }
    requires family { FitsFamily (meaning program.now) (trees_of quasts.now) (joint_of term.now) (family_of family.now) }
    requires parts { AllByRecursion (FitsPart program.now (dimensions_of (joint_of term.now))) parts.now }
    requires starts { StartsFit (meaning program.now) (trees_of quasts.now) (joint_of term.now) (family_of family.now) (map part_of parts.now) (map start_of starts.now) }
    requires room { index + length parts.now < 2 ^ 64 }
    ensures { Decides (numbered (start_claims (meaning program.now) (trees_of quasts.now) (joint_of term.now) list.now) index (part_walks (family_of family.now) (map part_of parts.now) (map start_of starts.now))) result }
{
    let Some((part, parts)) = parts.split_first() else {
        return Ok(());
    };
    let Some((start, starts)) = starts.split_first() else {
        return Ok(());
    };
    start_shown(
        alloc, program, quasts, none, term, family, list, index, part, start,
    )?;
    starts_shown(
        alloc,
        program,
        quasts,
        none,
        term,
        family,
        list,
        index + 1,
        parts,
        starts,
    )
}
