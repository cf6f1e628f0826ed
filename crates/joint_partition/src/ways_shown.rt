//! Whether the walks in the regions of ways are shown to keep their labels.
#![tactic(auto, using(claims::proofs::Found::in_a_row))]

ghost use Rattle.std.specs.Prelude.{◌≡◌, ◌+◌, ◌<◌, ◌^◌, ◌++◌, ◌∷◌, [], length, map, option_map, IfOk, codes};
ghost use Rattle.std.specs.List.{AllByRecursion};
ghost use Rattle.affine_program.specs.Domain.{depth_of};
ghost use Rattle.affine_program.specs.Parts.{meaning};
ghost use Rattle.claims.specs.Claims.{Decides, numbered};
ghost use Rattle.claims.specs.declared.place.Step.TheVariants.{Key};
ghost use Rattle.dep_quast.specs.Quasts.{trees_of};
ghost use Rattle.reuse_paths.specs.Families.{boxed_forms};
ghost use Rattle.reuse_paths.specs.FamilyFits.{NodeFits, NodesFit};
ghost use Rattle.reuse_paths.specs.WalkFits.{AreInstanceLabels, IsLabelIf, RegionFits};
ghost use Rattle.reuse_paths.specs.WalkViews.{walk_of, ReadingFits};
ghost use Rattle.reuse_paths.specs.Walks.{boxed_region};
ghost use Rattle.joint_partition.specs.Claims.{member_at, node_claims, region_claims, way_claims};
ghost use Rattle.joint_partition.specs.FamiliesFit.{FitsJoint, FitsFamily, WayFits};
ghost use Rattle.joint_partition.specs.Term.{credited_nests, way_node, way_nodes, way_walks};
ghost use Rattle.joint_partition.specs.View.{family_of, joint_of, way_of};

use crate::places::member_at;
use crate::term::{Joint, JointFamily, Way};
use crate::way_walks::{labeling_at, walking_in};
use affine_form::{Form, Memory};
use affine_program::Program;
use claims::{ObjectKey, Place, Refused, Step};
use domain_count::Nest;
use reuse_paths::walk_shown::walk_shown;
use reuse_paths::{Quasts, Region, Walking, region_context};
use std::alloc::Global;

/// The place of a region's tree.
fn tree_place(alloc: Global, list: &Place, statement: u16) -> Result<Place, Memory>
    ensures { IfOk result (λ place. place ≡ member_at list.now (codes "regions") statement ++ Key (codes "tree") ∷ []) }
{
    let number = usize::from(statement);
    member_at(alloc, list, ObjectKey("regions"), number)?.within(
        alloc,
        Step::Key(ObjectKey("tree")),
    )
}

/// Whether what a walk from the instances in a statement's region claims is shown, where there is one.
fn region_shown(
    alloc: Global,
    walking: &Walking,
    list: &Place,
    statement: u16,
    region: &Option<Box<Region>>,
) -> Result<(), Refused>
    requires fits { ReadingFits (walk_of walking.now) statement }
    requires region { RegionFits (walk_of walking.now) statement (option_map boxed_region region.now) }
    requires condition { walking.now.condition ≡ 15 }
    ensures { Decides (region_claims (walk_of walking.now) list.now statement (option_map boxed_region region.now)) result }
{
    let Some(region) = region else {
        return Ok(());
    };
    let own = region.rows.as_slice();
    let all = region_context(alloc, walking, statement, own)?;
    let place = tree_place(alloc, list, statement)?;
    let rows = all.as_slice();
    walk_shown(alloc, walking, &place, statement, rows, &region.tree)
}

/// Whether the walk in a statement's region is shown to keep its label, where it has a label and a region.
fn node_shown(
    alloc: Global,
    program: &Program,
    quasts: &Quasts,
    none: &Nest,
    term: &Joint,
    family: &JointFamily,
    way: &Way,
    list: &Place,
    statement: u16,
    label: &Option<Box<Vec<Form>>>,
    region: &Option<Box<Region>>,
) -> Result<(), Refused>
    requires none { none.now ≡ [] }
    requires term { FitsJoint program.now (trees_of quasts.now) term.now }
    requires family { FitsFamily (meaning program.now) (trees_of quasts.now) (joint_of term.now) (family_of family.now) }
    requires way { WayFits (meaning program.now) (trees_of quasts.now) (joint_of term.now) (family_of family.now) (way_of way.now) }
    requires there { statement < length (meaning program.now).statements }
    requires label { IsLabelIf (length (family_of family.now).set) (length (meaning program.now).parameters + depth_of (meaning program.now) statement) (option_map boxed_forms label.now) }
    requires region { NodeFits (meaning program.now) (trees_of quasts.now) (credited_nests (joint_of term.now)) (way_walks (family_of family.now) (way_of way.now)) statement
        (option_map (way_node (option_map boxed_region region.now)) (option_map boxed_forms label.now)) }
    ensures { Decides (node_claims (meaning program.now) (trees_of quasts.now) (joint_of term.now) (way_walks (family_of family.now) (way_of way.now)) list.now statement
        (option_map (way_node (option_map boxed_region region.now)) (option_map boxed_forms label.now))) result }
{
    let Some(label) = label else {
        return Ok(());
    };
    let credits = term.credits.as_slice();
    let reader = label.as_slice();
    let walking = walking_in(program, quasts, none, credits, family, way, reader);
    region_shown(alloc, &walking, list, statement, region)
}

/// Whether the walks in the regions of statements from a number on are shown to keep their labels.
fn nodes_shown(
    alloc: Global,
    program: &Program,
    quasts: &Quasts,
    none: &Nest,
    term: &Joint,
    family: &JointFamily,
    way: &Way,
    list: &Place,
    statement: u16,
    labels: &[Option<Box<Vec<Form>>>],
    regions: &[Option<Box<Region>>],
) -> Result<(), Refused>
    requires none { none.now ≡ [] }
    requires term { FitsJoint program.now (trees_of quasts.now) term.now }
    requires family { FitsFamily (meaning program.now) (trees_of quasts.now) (joint_of term.now) (family_of family.now) }
    requires way { WayFits (meaning program.now) (trees_of quasts.now) (joint_of term.now) (family_of family.now) (way_of way.now) }
    requires there { statement + length labels.now ≡ length (meaning program.now).statements }
    requires labels { AreInstanceLabels (meaning program.now) (length (family_of family.now).set) statement (map (option_map boxed_forms) labels.now) }
    requires one_each { length labels.now ≡ length regions.now }
    requires regions { NodesFit (meaning program.now) (trees_of quasts.now) (credited_nests (joint_of term.now)) (way_walks (family_of family.now) (way_of way.now)) statement
        (way_nodes (map (option_map boxed_forms) labels.now) (map (option_map boxed_region) regions.now)) }
    ensures { Decides (numbered (node_claims (meaning program.now) (trees_of quasts.now) (joint_of term.now) (way_walks (family_of family.now) (way_of way.now)) list.now) statement
        (way_nodes (map (option_map boxed_forms) labels.now) (map (option_map boxed_region) regions.now))) result }
{
    let _params = program.params();
    let Some((label, labels)) = labels.split_first() else {
        return Ok(());
    };
    let Some((region, regions)) = regions.split_first() else {
        return Ok(());
    };
    node_shown(
        alloc, program, quasts, none, term, family, way, list, statement, label, region,
    )?;
    let next = statement + 1;
    nodes_shown(
        alloc, program, quasts, none, term, family, way, list, next, labels, regions,
    )
}

/// Whether the walks in the regions of a way, which has this number, are shown to keep their labels.
fn way_shown(
    alloc: Global,
    program: &Program,
    quasts: &Quasts,
    none: &Nest,
    term: &Joint,
    family: &JointFamily,
    list: &Place,
    index: usize,
    way: &Way,
) -> Result<(), Refused>
    requires none { none.now ≡ [] }
    requires term { FitsJoint program.now (trees_of quasts.now) term.now }
    requires family { FitsFamily (meaning program.now) (trees_of quasts.now) (joint_of term.now) (family_of family.now) }
    requires way { WayFits (meaning program.now) (trees_of quasts.now) (joint_of term.now) (family_of family.now) (way_of way.now) }
    ensures { Decides (way_claims (meaning program.now) (trees_of quasts.now) (joint_of term.now) (family_of family.now) list.now index (way_of way.now)) result }
{
    let own = labeling_at(family, way.labels);
    let place = member_at(alloc, list, ObjectKey("ways"), index)?;
    let labels = own.nodes.as_slice();
    let regions = way.regions.as_slice();
    nodes_shown(
        alloc, program, quasts, none, term, family, way, &place, 0, labels, regions,
    )
}

/// Whether the walks in the regions of ways, of which the first has this number, are shown to keep their labels.
pub(crate) fn ways_shown(
    alloc: Global,
    program: &Program,
    quasts: &Quasts,
    none: &Nest,
    term: &Joint,
    family: &JointFamily,
    list: &Place,
    index: usize,
    ways: &[Way],
) -> Result<(), Refused>
    requires none { none.now ≡ [] }
    requires term { FitsJoint program.now (trees_of quasts.now) term.now }
    requires family { FitsFamily (meaning program.now) (trees_of quasts.now) (joint_of term.now) (family_of family.now) }
    requires ways { AllByRecursion (WayFits (meaning program.now) (trees_of quasts.now) (joint_of term.now) (family_of family.now)) (map way_of ways.now) }
    requires room { index + length ways.now < 2 ^ 64 }
    ensures { Decides (numbered (way_claims (meaning program.now) (trees_of quasts.now) (joint_of term.now) (family_of family.now) list.now) index (map way_of ways.now)) result }
{
    let Some((way, ways)) = ways.split_first() else {
        return Ok(());
    };
    way_shown(alloc, program, quasts, none, term, family, list, index, way)?;
    let next = index + 1;
    ways_shown(alloc, program, quasts, none, term, family, list, next, ways)
}
