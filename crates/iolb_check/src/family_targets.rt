//! The targets of the pieces of families, told without their claims.

ghost use Rattle.std.specs.Prelude.{◌≡◌, ◌++◌, map, option_map, OnOk, IfOk};
ghost use Rattle.affine_program.specs.Parts.{meaning};
ghost use Rattle.dep_quast.specs.Tree.{tree_of};
ghost use Rattle.dep_quast.specs.Views.{read_of};
ghost use Rattle.iolb_check.specs.FamilyTargets.{family_targets, leaf_targets, partition_targets, region_targets, regions_targets, taken_target, taken_targets, walk_targets};
ghost use Rattle.k_partition.specs.View.{partition_of};
ghost use Rattle.reuse_paths.specs.Families.{boxed_node, family_of, node_region};
ghost use Rattle.reuse_paths.specs.LeafClaims.{claim_of};
ghost use Rattle.dep_quast.specs.Quasts.{trees_of};
ghost use Rattle.footprint_pieces.specs.TargetPairs.{items_of};
ghost use Rattle.reuse_paths.specs.Walks.{boxed_region, take, tree_of_walk};

use crate::fit_pairs::push_leaf_targets;
use affine_form::Memory;
use affine_program::Program;
use certificate_fit::counts::read_count;
use dep_quast::Quast;
use dep_quast::reader::{Reader, reference};
use k_partition::Partition;
use reuse_paths::{Family, FamilyNode, Leaf, Quasts, Region, Target, Walk};
use std::alloc::Global;

/// The targets of the pieces of a partition term, family by family.
pub(crate) fn targets_of_partition(
    alloc: Global,
    program: &Program,
    quasts: &Quasts,
    term: &Partition,
) -> Result<Vec<Target>, Memory>
    ensures { IfOk result (λ targets. targets.items ≡ partition_targets (meaning program.now) (trees_of quasts.now) (partition_of term.now)) }
{
    let families = term.families.as_slice();
    let mut targets = Vec::new(alloc);
    for family in families {
        push_family_targets(alloc, &mut targets, program, quasts, term.statement, family)?;
    }
    Ok(targets)
}

/// The targets of the pieces of families of a statement's instances, each family's in a list.
pub(crate) fn targets_of_families(
    alloc: Global,
    program: &Program,
    quasts: &Quasts,
    statement: u16,
    families: &[Family],
) -> Result<Vec<Vec<Target>>, Memory>
    ensures { IfOk result (λ lists. map items_of lists.items ≡ map (family_targets (meaning program.now) (trees_of quasts.now) statement) (map family_of families.now)) }
{
    let mut lists = Vec::new(alloc);
    for family in families {
        lists.push(targets_of_family(alloc, program, quasts, statement, family)?)?;
    }
    Ok(lists)
}

/// The targets of the pieces of a family of a statement's instances.
fn targets_of_family(
    alloc: Global,
    program: &Program,
    quasts: &Quasts,
    statement: u16,
    family: &Family,
) -> Result<Vec<Target>, Memory>
    ensures { IfOk result (λ targets. targets.items ≡ family_targets (meaning program.now) (trees_of quasts.now) statement (family_of family.now)) }
{
    let mut targets = Vec::new(alloc);
    push_family_targets(alloc, &mut targets, program, quasts, statement, family)?;
    Ok(targets)
}

/// The same, appended.
fn push_family_targets(
    alloc: Global,
    targets: &mut Vec<Target>,
    program: &Program,
    quasts: &Quasts,
    statement: u16,
    family: &Family,
) -> Result<(), Memory>
    ensures { OnOk result (targets.new.items ≡ targets.old.items ++ family_targets (meaning program.now) (trees_of quasts.now) statement (family_of family.now)) }
{
    push_walk_targets(alloc, targets, program, quasts, statement, &family.start)?;
    push_regions_targets(alloc, targets, program, quasts, family.nodes.as_slice())
}

/// The targets of the pieces of the regions of statements, appended.
fn push_regions_targets(
    alloc: Global,
    targets: &mut Vec<Target>,
    program: &Program,
    quasts: &Quasts,
    nodes: &[Option<Box<FamilyNode>>],
) -> Result<(), Memory>
    ensures { OnOk result (targets.new.items ≡ targets.old.items ++ regions_targets (meaning program.now) (trees_of quasts.now) 0 (map node_region (map (option_map boxed_node) nodes.now))) }
{
    for (number, node) in nodes.iter().enumerate() {
        push_node_targets(alloc, targets, program, quasts, number, node)?;
    }
    Ok(())
}

/// The targets of the pieces of the region that a family has for the statement with this number, if it has one, appended.
fn push_node_targets(
    alloc: Global,
    targets: &mut Vec<Target>,
    program: &Program,
    quasts: &Quasts,
    number: usize,
    node: &Option<Box<FamilyNode>>,
) -> Result<(), Memory>
    ensures { OnOk result (targets.new.items ≡ targets.old.items ++ region_targets (meaning program.now) (trees_of quasts.now) number (node_region (option_map boxed_node node.now))) }
{
    match node {
        Some(node) => push_region_targets(alloc, targets, program, quasts, number, &node.region),
        None => Ok(()),
    }
}

/// The targets of the pieces of the region of the statement with this number, if it has one, appended. A statement that isn't
/// there has no reads.
pub(crate) fn push_region_targets(
    alloc: Global,
    targets: &mut Vec<Target>,
    program: &Program,
    quasts: &Quasts,
    number: usize,
    region: &Option<Box<Region>>,
) -> Result<(), Memory>
    ensures { OnOk result (targets.new.items ≡ targets.old.items ++ region_targets (meaning program.now) (trees_of quasts.now) number (option_map boxed_region region.now)) }
{
    if number >= program.statements().len() {
        return Ok(());
    }
    match region {
        Some(region) => {
            push_walk_targets(alloc, targets, program, quasts, number as u16, &region.tree)
        }
        None => Ok(()),
    }
}

/// The targets of the pieces of a walk from the instances of a statement, appended.
pub(crate) fn push_walk_targets(
    alloc: Global,
    targets: &mut Vec<Target>,
    program: &Program,
    quasts: &Quasts,
    statement: u16,
    walk: &Walk,
) -> Result<(), Memory>
    ensures { OnOk result (targets.new.items ≡ targets.old.items ++ walk_targets (meaning program.now) (trees_of quasts.now) statement (tree_of_walk walk.now)) }
{
    match walk {
        Walk::Test { yes, no, .. } => {
            push_walk_targets(alloc, targets, program, quasts, statement, yes)?;
            push_walk_targets(alloc, targets, program, quasts, statement, no)
        }
        Walk::Take { read, leaves } => {
            let reader = Reader {
                statement,
                read: *read,
            };
            push_read_targets(alloc, targets, program, quasts, reader, leaves.as_slice())
        }
    }
}

/// The targets of the pieces at the leaves of a read, by its entries, appended. A read that isn't there has no leaves.
fn push_read_targets(
    alloc: Global,
    targets: &mut Vec<Target>,
    program: &Program,
    quasts: &Quasts,
    reader: Reader,
    entries: &[Leaf],
) -> Result<(), Memory>
    ensures { OnOk result (targets.new.items ≡ targets.old.items ++ walk_targets (meaning program.now) (trees_of quasts.now) reader.statement (take reader.read (map claim_of entries.now))) }
{
    if usize::from(reader.read) >= read_count(program, reader.statement) {
        return Ok(());
    }
    let array = reference(program, reader).array;
    match quasts.tree(reader.statement, reader.read) {
        Some(quast) => push_tree_targets(alloc, targets, array, quast, entries),
        None => Ok(()),
    }
}

/// The targets of the pieces at the leaves of a source tree of a read of an array, by their entries, appended.
fn push_tree_targets(
    alloc: Global,
    targets: &mut Vec<Target>,
    array: u16,
    quast: &Quast,
    entries: &[Leaf],
) -> Result<(), Memory>
    ensures { OnOk result (targets.new.items ≡ targets.old.items ++ taken_targets (leaf_targets array (tree_of quast.now)) (map claim_of entries.now)) }
{
    let mut leaves = Vec::new(alloc);
    push_leaf_targets(&mut leaves, array, quast)?;
    push_taken_targets(targets, leaves.as_slice(), entries)
}

/// The targets of the leaves to which points come by their entries, appended.
fn push_taken_targets(
    targets: &mut Vec<Target>,
    leaves: &[Option<Target>],
    entries: &[Leaf],
) -> Result<(), Memory>
    ensures { OnOk result (targets.new.items ≡ targets.old.items ++ taken_targets leaves.now (map claim_of entries.now)) }
{
    for i in 0..leaves.len().min(entries.len()) {
        let leaf = leaves[i];
        if let Some(target) = taken(leaf, &entries[i]) {
            targets.push(target)?;
        }
    }
    Ok(())
}

/// The target of a leaf, unless its entry says that no point comes there.
fn taken(target: Option<Target>, entry: &Leaf) -> Option<Target>
    ensures { result ≡ taken_target target (claim_of entry.now) }
{
    match entry {
        Leaf::Empty(_) => None,
        Leaf::Stop { .. } | Leaf::Credit { .. } | Leaf::Go { .. } | Leaf::Arrive { .. } => target,
    }
}
