//! Families of walks.

ghost use Rattle.std.specs.Prelude.{◌≡◌, MatchOption, Some, None, map, option_map, slice_index_or};
ghost use Rattle.reuse_paths.specs.Families.{boxed_forms, boxed_node, label_at, labels_of, node_of, regions_of};
ghost use Rattle.reuse_paths.specs.WalkSettings.{region_at};
ghost use Rattle.reuse_paths.specs.Walks.{boxed_region, region_of};

use crate::walk::{Region, Walk};
use affine_form::Form;
use cover_lp::CoordSet;
use domain_count::{Nest, Sums};

/// A nest of instances of a statement, by their loop values, in which walks may stop, and what is claimed of how many they
/// are.
#[derive(Debug, Drop)]
pub struct Credit {
    pub statement: u16,
    pub nest: Nest,
    pub sums: Sums,
}

/// What a family says of a statement: the label of an instance, as forms over the parameters and the loop values; and, where
/// walks go on from some of the instances, from which and how.
#[derive(Debug, Drop)]
pub struct FamilyNode {
    pub label: Vec<Form>,
    pub region: Option<Box<Region>>,
}

/// A family of walks back along the sources of reads, whose words all have the label of their start: the label of an
/// instance that is counted, as forms over the parameters and the loop values, and how its walk begins; one or no node for
/// each statement; and for each array no label, or that of a cell, as forms over the parameters and the subscripts. The
/// numbers of the start label's loop values are the scale times the rows of a matrix in the set, which has a weight.
#[derive(Debug, Drop)]
pub struct Family {
    pub scale: u32,
    pub set: CoordSet,
    pub weight: u8,
    pub start_label: Vec<Form>,
    pub start: Walk,
    pub nodes: Vec<Option<Box<FamilyNode>>>,
    pub inputs: Vec<Option<Box<Vec<Form>>>>,
}

/// What walks that keep labels know of the statements: their labels with their regions, or both apart, one or none for each
/// statement.
#[derive(Clone, Copy)]
pub enum Nodes<'a> {
    Together(&'a [Option<Box<FamilyNode>>]),
    Apart {
        labels: &'a [Option<Box<Vec<Form>>>],
        regions: &'a [Option<Box<Region>>],
    },
}

/// The node of a statement in a list, where it has one.
fn node_in(nodes: &[Option<Box<FamilyNode>>], statement: u16) -> Option<&FamilyNode>
    ensures { MatchOption result (slice_index_or (map (option_map boxed_node) nodes.now) statement None ≡ None)
        (λ node. slice_index_or (map (option_map boxed_node) nodes.now) statement None ≡ Some (node_of node.now)) }
{
    match nodes.get(usize::from(statement)) {
        Some(Some(node)) => Some(node),
        _ => None,
    }
}

/// The region of a statement in a list, where it has one.
pub(crate) fn region_in(nodes: &[Option<Box<Region>>], statement: u16) -> Option<&Region>
    ensures { MatchOption result (region_at (map (option_map boxed_region) nodes.now) statement ≡ None)
        (λ region. region_at (map (option_map boxed_region) nodes.now) statement ≡ Some (region_of region.now)) }
{
    match nodes.get(usize::from(statement)) {
        Some(Some(region)) => Some(region),
        _ => None,
    }
}

/// The label with a number in a list, where there is one.
pub fn label_in(labels: &[Option<Box<Vec<Form>>>], number: u16) -> Option<&[Form]>
    ensures { MatchOption result (label_at (map (option_map boxed_forms) labels.now) number ≡ None)
        (λ label. label_at (map (option_map boxed_forms) labels.now) number ≡ Some label.now) }
{
    match labels.get(usize::from(number)) {
        Some(Some(label)) => Some(label.as_slice()),
        _ => None,
    }
}

/// The label of a statement's instances, where there is one.
pub fn instance_label<'a>(nodes: Nodes<'a>, statement: u16) -> Option<&'a [Form]>
    ensures { MatchOption result (label_at (labels_of nodes.entry) statement ≡ None) (λ label. label_at (labels_of nodes.entry) statement ≡ Some label.now) }
{
    match nodes {
        Nodes::Together(nodes) => {
            let node = node_in(nodes, statement)?;
            Some(node.label.as_slice())
        }
        Nodes::Apart { labels, .. } => label_in(labels, statement),
    }
}

/// The region of a statement, where there is one.
pub(crate) fn node_region<'a>(nodes: Nodes<'a>, statement: u16) -> Option<&'a Region>
    ensures { MatchOption result (region_at (regions_of nodes.entry) statement ≡ None) (λ region. region_at (regions_of nodes.entry) statement ≡ Some (region_of region.now)) }
{
    match nodes {
        Nodes::Together(nodes) => match &node_in(nodes, statement)?.region {
            Some(region) => Some(region),
            None => None,
        },
        Nodes::Apart { regions, .. } => region_in(regions, statement),
    }
}
