//! The pieces of joint terms.

ghost use Rattle.std.specs.Prelude.{◌≡◌, ◌<◌, ◌+◌, ◌++◌, [], length, map, flat_map, option_map, OnOk, IfOk};
ghost use Rattle.std.specs.List.{AllByRecursion};
ghost use Rattle.affine_program.specs.Domain.{depth_of};
ghost use Rattle.affine_program.specs.Parts.{meaning};
ghost use Rattle.dep_quast.specs.Quasts.{trees_of};
ghost use Rattle.footprint_pieces.specs.Pieces.{pieces_of, PieceFits};
ghost use Rattle.reuse_paths.specs.Families.{boxed_forms, node_region};
ghost use Rattle.reuse_paths.specs.FamilyClaims.{family_setting};
ghost use Rattle.reuse_paths.specs.FamilyFits.{NodeFits, NodesFit};
ghost use Rattle.reuse_paths.specs.FamilyPieces.{region_pieces, regions_pieces};
ghost use Rattle.reuse_paths.specs.WalkFits.{AreInstanceLabels, IsLabelIf};
ghost use Rattle.reuse_paths.specs.Walks.{boxed_region};
ghost use Rattle.joint_partition.specs.Claims.{family_pieces as pieces_of_family, start_pieces, way_pieces};
ghost use Rattle.joint_partition.specs.FamiliesFit.{FitsJoint, FitsFamily, StartFits, StartsFit, WayFits};
ghost use Rattle.joint_partition.specs.JointPieces.{joint_pieces, HasFamilyPieces, HasJointPieces, HasNodePieces, HasStartPieces, HasWayPieces, HaveNodePieces};
ghost use Rattle.joint_partition.specs.JointWords.{dimensions_of};
ghost use Rattle.joint_partition.specs.Term.{credited_nests, part_walks, walks_from, way_node, way_nodes, way_walks};
ghost use Rattle.joint_partition.specs.View.{FitsPart, family_of, joint_of, part_of, start_of, way_of};

use crate::start_label::start_label;
use crate::term::{Joint, JointFamily, Part, Start, Way};
use crate::walk_pushed::push_region;
use crate::way_walks::{labeling_at, walking_in, way_at};
use affine_form::{Form, Memory};
use affine_program::Program;
use domain_count::Nest;
use reuse_paths::{Piece, Quasts, Region, start_rows};
use std::alloc::Global;

/// Those of the walks of a family from a part, appended.
fn push_start(
    alloc: Global,
    pieces: &mut Vec<Piece>,
    program: &Program,
    quasts: &Quasts,
    none: &Nest,
    term: &Joint,
    family: &JointFamily,
    part: &Part,
    start: &Start,
) -> Result<(), Memory>
    requires none { none.now ≡ [] }
    requires term { FitsJoint program.now (trees_of quasts.now) term.now }
    requires family { FitsFamily (meaning program.now) (trees_of quasts.now) (joint_of term.now) (family_of family.now) }
    requires part { FitsPart program.now (dimensions_of (joint_of term.now)) part.now }
    requires start { StartFits (meaning program.now) (trees_of quasts.now) (joint_of term.now) (family_of family.now) (part_of part.now) (start_of start.now) }
    requires few { HasStartPieces (meaning program.now) (trees_of quasts.now) (walks_from (family_of family.now) (part_of part.now) (start_of start.now)) }
    ensures pieces { OnOk result (pieces_of pieces.new ≡ pieces_of pieces.old ++ start_pieces (meaning program.now) (trees_of quasts.now) (walks_from (family_of family.now) (part_of part.now) (start_of start.now))) }
    ensures fit { OnOk result (AllByRecursion (PieceFits (meaning program.now)) (start_pieces (meaning program.now) (trees_of quasts.now) (walks_from (family_of family.now) (part_of part.now) (start_of start.now)))) }
{
    let label = start_label(alloc, part, family)?;
    let way = way_at(family, start.way);
    let reader = label.as_slice();
    let walking = walking_in(program, quasts, none, &[], family, way, reader);
    let own = start_rows(alloc, &walking, part.statement, &part.nest)?;
    let rows = own.as_slice();
    push_region(alloc, pieces, &walking, part.statement, rows, &start.tree)
}

/// Those of the walks of a family from parts, appended.
fn push_starts(
    alloc: Global,
    pieces: &mut Vec<Piece>,
    program: &Program,
    quasts: &Quasts,
    none: &Nest,
    term: &Joint,
    family: &JointFamily,
    parts: &[Part],
    starts: &[Start],
) -> Result<(), Memory>
    requires none { none.now ≡ [] }
    requires term { FitsJoint program.now (trees_of quasts.now) term.now }
    requires family { FitsFamily (meaning program.now) (trees_of quasts.now) (joint_of term.now) (family_of family.now) }
    requires parts { AllByRecursion (FitsPart program.now (dimensions_of (joint_of term.now))) parts.now }
    requires starts { StartsFit (meaning program.now) (trees_of quasts.now) (joint_of term.now) (family_of family.now) (map part_of parts.now) (map start_of starts.now) }
    requires few { AllByRecursion (HasStartPieces (meaning program.now) (trees_of quasts.now)) (part_walks (family_of family.now) (map part_of parts.now) (map start_of starts.now)) }
    ensures pieces { OnOk result (pieces_of pieces.new ≡ pieces_of pieces.old ++ flat_map (start_pieces (meaning program.now) (trees_of quasts.now)) (part_walks (family_of family.now) (map part_of parts.now) (map start_of starts.now))) }
    ensures fit { OnOk result (AllByRecursion (PieceFits (meaning program.now)) (flat_map (start_pieces (meaning program.now) (trees_of quasts.now)) (part_walks (family_of family.now) (map part_of parts.now) (map start_of starts.now)))) }
{
    let Some((part, parts)) = parts.split_first() else {
        return Ok(());
    };
    let Some((start, starts)) = starts.split_first() else {
        return Ok(());
    };
    push_start(
        alloc, pieces, program, quasts, none, term, family, part, start,
    )?;
    push_starts(
        alloc, pieces, program, quasts, none, term, family, parts, starts,
    )
}

/// Those of the region of a statement in a way, where it has one and a label, appended.
fn push_node(
    alloc: Global,
    pieces: &mut Vec<Piece>,
    program: &Program,
    quasts: &Quasts,
    none: &Nest,
    term: &Joint,
    family: &JointFamily,
    way: &Way,
    statement: u16,
    label: &Option<Box<Vec<Form>>>,
    region: &Option<Box<Region>>,
) -> Result<(), Memory>
    requires none { none.now ≡ [] }
    requires term { FitsJoint program.now (trees_of quasts.now) term.now }
    requires family { FitsFamily (meaning program.now) (trees_of quasts.now) (joint_of term.now) (family_of family.now) }
    requires way { WayFits (meaning program.now) (trees_of quasts.now) (joint_of term.now) (family_of family.now) (way_of way.now) }
    requires there { statement < length (meaning program.now).statements }
    requires label { IsLabelIf (length (family_of family.now).set) (length (meaning program.now).parameters + depth_of (meaning program.now) statement) (option_map boxed_forms label.now) }
    requires region { NodeFits (meaning program.now) (trees_of quasts.now) (credited_nests (joint_of term.now)) (way_walks (family_of family.now) (way_of way.now)) statement
        (option_map (way_node (option_map boxed_region region.now)) (option_map boxed_forms label.now)) }
    requires few { HasNodePieces (meaning program.now) (trees_of quasts.now) (way_walks (family_of family.now) (way_of way.now)) statement
        (option_map (way_node (option_map boxed_region region.now)) (option_map boxed_forms label.now)) }
    ensures pieces { OnOk result (pieces_of pieces.new ≡ pieces_of pieces.old ++ region_pieces (family_setting (meaning program.now) (trees_of quasts.now) [] (way_walks (family_of family.now) (way_of way.now)) []) statement
        (node_region (option_map (way_node (option_map boxed_region region.now)) (option_map boxed_forms label.now)))) }
    ensures fit { OnOk result (AllByRecursion (PieceFits (meaning program.now)) (region_pieces (family_setting (meaning program.now) (trees_of quasts.now) [] (way_walks (family_of family.now) (way_of way.now)) []) statement
        (node_region (option_map (way_node (option_map boxed_region region.now)) (option_map boxed_forms label.now))))) }
{
    let Some(label) = label else {
        return Ok(());
    };
    let Some(region) = region else {
        return Ok(());
    };
    let reader = label.as_slice();
    let walking = walking_in(program, quasts, none, &[], family, way, reader);
    let rows = region.rows.as_slice();
    push_region(alloc, pieces, &walking, statement, rows, &region.tree)
}

/// Those of the regions of statements from a number on in a way, appended.
fn push_nodes(
    alloc: Global,
    pieces: &mut Vec<Piece>,
    program: &Program,
    quasts: &Quasts,
    none: &Nest,
    term: &Joint,
    family: &JointFamily,
    way: &Way,
    statement: u16,
    labels: &[Option<Box<Vec<Form>>>],
    regions: &[Option<Box<Region>>],
) -> Result<(), Memory>
    requires none { none.now ≡ [] }
    requires term { FitsJoint program.now (trees_of quasts.now) term.now }
    requires family { FitsFamily (meaning program.now) (trees_of quasts.now) (joint_of term.now) (family_of family.now) }
    requires way { WayFits (meaning program.now) (trees_of quasts.now) (joint_of term.now) (family_of family.now) (way_of way.now) }
    requires there { statement + length labels.now ≡ length (meaning program.now).statements }
    requires labels { AreInstanceLabels (meaning program.now) (length (family_of family.now).set) statement (map (option_map boxed_forms) labels.now) }
    requires one_each { length labels.now ≡ length regions.now }
    requires regions { NodesFit (meaning program.now) (trees_of quasts.now) (credited_nests (joint_of term.now)) (way_walks (family_of family.now) (way_of way.now)) statement
        (way_nodes (map (option_map boxed_forms) labels.now) (map (option_map boxed_region) regions.now)) }
    requires few { HaveNodePieces (meaning program.now) (trees_of quasts.now) (way_walks (family_of family.now) (way_of way.now)) statement
        (way_nodes (map (option_map boxed_forms) labels.now) (map (option_map boxed_region) regions.now)) }
    ensures pieces { OnOk result (pieces_of pieces.new ≡ pieces_of pieces.old ++ regions_pieces (family_setting (meaning program.now) (trees_of quasts.now) [] (way_walks (family_of family.now) (way_of way.now)) []) statement
        (map node_region (way_nodes (map (option_map boxed_forms) labels.now) (map (option_map boxed_region) regions.now)))) }
    ensures fit { OnOk result (AllByRecursion (PieceFits (meaning program.now)) (regions_pieces (family_setting (meaning program.now) (trees_of quasts.now) [] (way_walks (family_of family.now) (way_of way.now)) []) statement
        (map node_region (way_nodes (map (option_map boxed_forms) labels.now) (map (option_map boxed_region) regions.now))))) }
{
    let _params = program.params();
    let Some((label, labels)) = labels.split_first() else {
        return Ok(());
    };
    let Some((region, regions)) = regions.split_first() else {
        return Ok(());
    };
    push_node(
        alloc, pieces, program, quasts, none, term, family, way, statement, label, region,
    )?;
    let next = statement + 1;
    push_nodes(
        alloc, pieces, program, quasts, none, term, family, way, next, labels, regions,
    )
}

/// Those of the regions of ways, appended.
fn push_ways(
    alloc: Global,
    pieces: &mut Vec<Piece>,
    program: &Program,
    quasts: &Quasts,
    none: &Nest,
    term: &Joint,
    family: &JointFamily,
    ways: &[Way],
) -> Result<(), Memory>
    requires none { none.now ≡ [] }
    requires term { FitsJoint program.now (trees_of quasts.now) term.now }
    requires family { FitsFamily (meaning program.now) (trees_of quasts.now) (joint_of term.now) (family_of family.now) }
    requires ways { AllByRecursion (WayFits (meaning program.now) (trees_of quasts.now) (joint_of term.now) (family_of family.now)) (map way_of ways.now) }
    requires few { AllByRecursion (HasWayPieces (meaning program.now) (trees_of quasts.now) (family_of family.now)) (map way_of ways.now) }
    ensures pieces { OnOk result (pieces_of pieces.new ≡ pieces_of pieces.old ++ flat_map (way_pieces (meaning program.now) (trees_of quasts.now) (family_of family.now)) (map way_of ways.now)) }
    ensures fit { OnOk result (AllByRecursion (PieceFits (meaning program.now)) (flat_map (way_pieces (meaning program.now) (trees_of quasts.now) (family_of family.now)) (map way_of ways.now))) }
{
    let Some((way, ways)) = ways.split_first() else {
        return Ok(());
    };
    let own = labeling_at(family, way.labels);
    let labels = own.nodes.as_slice();
    let regions = way.regions.as_slice();
    push_nodes(
        alloc, pieces, program, quasts, none, term, family, way, 0, labels, regions,
    )?;
    push_ways(alloc, pieces, program, quasts, none, term, family, ways)
}

/// The pieces of a family: those of its starts by part, then those of its ways.
fn family_pieces(
    alloc: Global,
    program: &Program,
    quasts: &Quasts,
    term: &Joint,
    family: &JointFamily,
) -> Result<Vec<Piece>, Memory>
    requires term { FitsJoint program.now (trees_of quasts.now) term.now }
    requires family { FitsFamily (meaning program.now) (trees_of quasts.now) (joint_of term.now) (family_of family.now) }
    requires few { HasFamilyPieces (meaning program.now) (trees_of quasts.now) (joint_of term.now) (family_of family.now) }
    ensures pieces { IfOk result (λ pieces. pieces_of pieces ≡ pieces_of_family (meaning program.now) (trees_of quasts.now) (joint_of term.now) (family_of family.now)) }
    ensures fit { IfOk result (λ pieces. AllByRecursion (PieceFits (meaning program.now)) (pieces_of pieces)) }
{
    let none = Nest::new(Vec::new(alloc));
    let mut pieces = Vec::new(alloc);
    let parts = term.parts.as_slice();
    let starts = family.starts.as_slice();
    push_starts(
        alloc,
        &mut pieces,
        program,
        quasts,
        &none,
        term,
        family,
        parts,
        starts,
    )?;
    let ways = family.ways.as_slice();
    push_ways(
        alloc,
        &mut pieces,
        program,
        quasts,
        &none,
        term,
        family,
        ways,
    )?;
    Ok(pieces)
}

/// The pieces of families, family by family, appended.
fn push_families(
    alloc: Global,
    lists: &mut Vec<Vec<Piece>>,
    program: &Program,
    quasts: &Quasts,
    term: &Joint,
    families: &[JointFamily],
) -> Result<(), Memory>
    requires term { FitsJoint program.now (trees_of quasts.now) term.now }
    requires families { AllByRecursion (FitsFamily (meaning program.now) (trees_of quasts.now) (joint_of term.now)) (map family_of families.now) }
    requires few { AllByRecursion (HasFamilyPieces (meaning program.now) (trees_of quasts.now) (joint_of term.now)) (map family_of families.now) }
    ensures pieces { OnOk result (map pieces_of lists.new.items ≡ map pieces_of lists.old.items ++ map (pieces_of_family (meaning program.now) (trees_of quasts.now) (joint_of term.now)) (map family_of families.now)) }
    ensures fit { OnOk result (AllByRecursion (AllByRecursion (PieceFits (meaning program.now))) (map (pieces_of_family (meaning program.now) (trees_of quasts.now) (joint_of term.now)) (map family_of families.now))) }
{
    let Some((family, families)) = families.split_first() else {
        return Ok(());
    };
    let pieces = family_pieces(alloc, program, quasts, term, family)?;
    lists.push(pieces)?;
    push_families(alloc, lists, program, quasts, term, families)
}

/// The pieces of a joint term's families, family by family.
pub(crate) fn pieces_of_families(
    alloc: Global,
    program: &Program,
    quasts: &Quasts,
    term: &Joint,
) -> Result<Vec<Vec<Piece>>, Memory>
    requires fits { FitsJoint program.now (trees_of quasts.now) term.now }
    requires few { HasJointPieces (meaning program.now) (trees_of quasts.now) (joint_of term.now) }
    ensures pieces { IfOk result (λ lists. map pieces_of lists.items ≡ map (pieces_of_family (meaning program.now) (trees_of quasts.now) (joint_of term.now)) (joint_of term.now).families) }
    ensures fit { IfOk result (λ lists. AllByRecursion (AllByRecursion (PieceFits (meaning program.now))) (map pieces_of lists.items)) }
{
    let mut lists = Vec::new(alloc);
    let families = term.families.as_slice();
    push_families(alloc, &mut lists, program, quasts, term, families)?;
    Ok(lists)
}

/// The pieces of families, family by family, appended to others.
fn append_families(
    alloc: Global,
    all: &mut Vec<Piece>,
    program: &Program,
    quasts: &Quasts,
    term: &Joint,
    families: &[JointFamily],
) -> Result<(), Memory>
    requires term { FitsJoint program.now (trees_of quasts.now) term.now }
    requires families { AllByRecursion (FitsFamily (meaning program.now) (trees_of quasts.now) (joint_of term.now)) (map family_of families.now) }
    requires few { AllByRecursion (HasFamilyPieces (meaning program.now) (trees_of quasts.now) (joint_of term.now)) (map family_of families.now) }
    ensures pieces { OnOk result (pieces_of all.new ≡ pieces_of all.old ++ flat_map (pieces_of_family (meaning program.now) (trees_of quasts.now) (joint_of term.now)) (map family_of families.now)) }
    ensures fit { OnOk result (AllByRecursion (PieceFits (meaning program.now)) (flat_map (pieces_of_family (meaning program.now) (trees_of quasts.now) (joint_of term.now)) (map family_of families.now))) }
{
    let Some((family, families)) = families.split_first() else {
        return Ok(());
    };
    let mut pieces = family_pieces(alloc, program, quasts, term, family)?;
    all.append(&mut pieces)?;
    append_families(alloc, all, program, quasts, term, families)
}

/// The pieces of the footprint of a joint term: those of each of its families, family by family; of a family those of its starts by
/// part, then those of the regions of its ways. There is one for each open leaf of the source tree of a read that its walks take,
/// unless its entry says that no point comes there or the leaf doesn't say where the word comes from.
///
/// # Errors
///
/// Want of memory alone: the rows of the families' contexts are few where the term was accepted.
pub fn joint_pieces(
    alloc: Global,
    program: &Program,
    quasts: &Quasts,
    term: &Joint,
) -> Result<Vec<Piece>, Memory>
    requires fits { FitsJoint program.now (trees_of quasts.now) term.now }
    requires few { HasJointPieces (meaning program.now) (trees_of quasts.now) (joint_of term.now) }
    ensures pieces { IfOk result (λ pieces. pieces_of pieces ≡ joint_pieces (meaning program.now) (trees_of quasts.now) (joint_of term.now)) }
    ensures fit { IfOk result (λ pieces. AllByRecursion (PieceFits (meaning program.now)) (pieces_of pieces)) }
{
    let mut all = Vec::new(alloc);
    let families = term.families.as_slice();
    append_families(alloc, &mut all, program, quasts, term, families)?;
    Ok(all)
}
