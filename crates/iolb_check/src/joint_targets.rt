//! The targets of the pieces of joint terms, told without their claims.

ghost use Rattle.std.specs.Prelude.{◌≡◌, ◌+◌, ◌<◌, ◌↔◌, ◌++◌, flat_map, length, map, option_map, IfOk, IsTrue, MatchOption, OnOk};
ghost use Rattle.affine_program.specs.Parts.{meaning};
ghost use Rattle.dep_quast.specs.Quasts.{trees_of};
ghost use Rattle.footprint_pieces.specs.TargetPairs.{items_of, same_in_lists};
ghost use Rattle.iolb_check.specs.FamilyTargets.{group_family_targets, joint_targets, regions_targets, starts_targets, way_targets};
ghost use Rattle.iolb_check.specs.JointFit.{group_targets};
ghost use Rattle.joint_partition.specs.Claims.{of_other_groups};
ghost use Rattle.joint_partition.specs.View.{family_of, joint_of, part_of, start_of, way_of};
ghost use Rattle.reuse_paths.specs.Walks.{boxed_region};

use crate::family_targets::{push_region_targets, push_walk_targets};
use affine_form::Memory;
use affine_program::Program;
use footprint_pieces::pairs_left;
use joint_partition::{Joint, JointFamily, Part, Start, Way};
use reuse_paths::{Quasts, Region, Target};
use std::alloc::Global;

/// The targets of the pieces of a joint term, family by family.
pub(crate) fn targets_of_joint(
    alloc: Global,
    program: &Program,
    quasts: &Quasts,
    term: &Joint,
) -> Result<Vec<Target>, Memory>
    ensures { IfOk result (λ targets. targets.items ≡ joint_targets (meaning program.now) (trees_of quasts.now) (joint_of term.now)) }
{
    let parts = term.parts.as_slice();
    let families = term.families.as_slice();
    let mut targets = Vec::new(alloc);
    for family in families {
        push_family_targets(alloc, &mut targets, program, quasts, parts, family)?;
    }
    Ok(targets)
}

/// The targets of the pieces of a family, appended.
fn push_family_targets(
    alloc: Global,
    targets: &mut Vec<Target>,
    program: &Program,
    quasts: &Quasts,
    parts: &[Part],
    family: &JointFamily,
) -> Result<(), Memory>
    ensures { OnOk result (targets.new.items ≡ targets.old.items ++ group_family_targets (meaning program.now) (trees_of quasts.now) (map part_of parts.now) (family_of family.now)) }
{
    push_starts_targets(
        alloc,
        targets,
        program,
        quasts,
        parts,
        family.starts.as_slice(),
    )?;
    push_ways_targets(alloc, targets, program, quasts, family.ways.as_slice())
}

/// The targets of the pieces of walks from parts, appended.
fn push_starts_targets(
    alloc: Global,
    targets: &mut Vec<Target>,
    program: &Program,
    quasts: &Quasts,
    parts: &[Part],
    starts: &[Start],
) -> Result<(), Memory>
    ensures { OnOk result (targets.new.items ≡ targets.old.items ++ starts_targets (meaning program.now) (trees_of quasts.now) (map part_of parts.now) (map start_of starts.now)) }
{
    let Some((part, parts)) = parts.split_first() else {
        return Ok(());
    };
    let Some((start, starts)) = starts.split_first() else {
        return Ok(());
    };
    push_walk_targets(alloc, targets, program, quasts, part.statement, &start.tree)?;
    push_starts_targets(alloc, targets, program, quasts, parts, starts)
}

/// The targets of the pieces of the regions of ways, appended.
fn push_ways_targets(
    alloc: Global,
    targets: &mut Vec<Target>,
    program: &Program,
    quasts: &Quasts,
    ways: &[Way],
) -> Result<(), Memory>
    ensures { OnOk result (targets.new.items ≡ targets.old.items ++ flat_map (way_targets (meaning program.now) (trees_of quasts.now)) (map way_of ways.now)) }
{
    for way in ways {
        push_way_targets(alloc, targets, program, quasts, way.regions.as_slice())?;
    }
    Ok(())
}

/// The targets of the pieces of the regions of statements, appended.
fn push_way_targets(
    alloc: Global,
    targets: &mut Vec<Target>,
    program: &Program,
    quasts: &Quasts,
    regions: &[Option<Box<Region>>],
) -> Result<(), Memory>
    ensures { OnOk result (targets.new.items ≡ targets.old.items ++ regions_targets (meaning program.now) (trees_of quasts.now) 0 (map (option_map boxed_region) regions.now)) }
{
    for (number, region) in regions.iter().enumerate() {
        push_region_targets(alloc, targets, program, quasts, number, region)?;
    }
    Ok(())
}

/// The targets of the pieces of a family.
fn targets_of_family(
    alloc: Global,
    program: &Program,
    quasts: &Quasts,
    parts: &[Part],
    family: &JointFamily,
) -> Result<Vec<Target>, Memory>
    ensures { IfOk result (λ targets. targets.items ≡ group_family_targets (meaning program.now) (trees_of quasts.now) (map part_of parts.now) (family_of family.now)) }
{
    let mut targets = Vec::new(alloc);
    push_family_targets(alloc, &mut targets, program, quasts, parts, family)?;
    Ok(targets)
}

/// The targets of the pieces of those families that are of other groups than one, each family's in a list.
fn targets_of_others(
    alloc: Global,
    program: &Program,
    quasts: &Quasts,
    parts: &[Part],
    family: &JointFamily,
    others: &[JointFamily],
) -> Result<Vec<Vec<Target>>, Memory>
    ensures { IfOk result (λ lists. map items_of lists.items
        ≡ map (group_family_targets (meaning program.now) (trees_of quasts.now) (map part_of parts.now)) (of_other_groups (family_of family.now) (map family_of others.now))) }
{
    let mut lists = Vec::new(alloc);
    for other in others {
        if other.group != family.group {
            lists.push(targets_of_family(alloc, program, quasts, parts, other)?)?;
        }
    }
    Ok(lists)
}

/// How many of so many are left where each pair of one of a family's targets and the same of a family of another group takes one, if
/// there are enough.
fn left_of_family(
    alloc: Global,
    program: &Program,
    quasts: &Quasts,
    parts: &[Part],
    family: &JointFamily,
    others: &[JointFamily],
    many: usize,
) -> Result<Option<usize>, Memory>
    ensures { IfOk result (λ left.
        let pairs = same_in_lists (group_family_targets (meaning program.now) (trees_of quasts.now) (map part_of parts.now) (family_of family.now))
        (map (group_family_targets (meaning program.now) (trees_of quasts.now) (map part_of parts.now)) (of_other_groups (family_of family.now) (map family_of others.now))) in
        MatchOption left (many < length pairs) (λ left. left + length pairs ≡ many)) }
{
    let targets = targets_of_family(alloc, program, quasts, parts, family)?;
    let lists = targets_of_others(alloc, program, quasts, parts, family, others)?;
    Ok(pairs_left(targets.as_slice(), lists.as_slice(), many))
}

/// How many of so many are left where each pair of one target of two families of different groups takes one, if there are enough.
fn left_of_groups(
    alloc: Global,
    program: &Program,
    quasts: &Quasts,
    parts: &[Part],
    families: &[JointFamily],
    many: usize,
) -> Result<Option<usize>, Memory>
    ensures { IfOk result (λ left. MatchOption left (many < length (group_targets (meaning program.now) (trees_of quasts.now) (map part_of parts.now) (map family_of families.now)))
        (λ left. left + length (group_targets (meaning program.now) (trees_of quasts.now) (map part_of parts.now) (map family_of families.now)) ≡ many)) }
{
    let Some((family, others)) = families.split_first() else {
        return Ok(Some(many));
    };
    let found = left_of_family(alloc, program, quasts, parts, family, others, many)?;
    let Some(left) = found else {
        return Ok(None);
    };
    left_of_groups(alloc, program, quasts, parts, others, left)
}

/// Whether there are as many multipliers as pairs of one target of two families of different groups.
pub(crate) fn has_group_pairs(
    alloc: Global,
    program: &Program,
    quasts: &Quasts,
    term: &Joint,
) -> Result<bool, Memory>
    ensures { IfOk result (λ has. IsTrue has ↔ (length (joint_of term.now).apart ≡ length (group_targets (meaning program.now) (trees_of quasts.now) (joint_of term.now).parts (joint_of term.now).families))) }
{
    let parts = term.parts.as_slice();
    let families = term.families.as_slice();
    let many = term.apart.as_slice().len();
    let left = left_of_groups(alloc, program, quasts, parts, families, many)?;
    Ok(left == Some(0))
}
