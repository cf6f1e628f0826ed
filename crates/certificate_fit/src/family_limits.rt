//! Whether families are within their limits.

ghost use Rattle.std.specs.Prelude.{◌≡◌, ◌≤◌, ◌↔◌, IsTrue, map, option_map};
ghost use Rattle.std.specs.List.{AllByRecursion};
ghost use Rattle.certificate_fit.specs.Limits.{AreSmall, IsSmallCredit, IsSmallFamily, IsSmallFamilyNode, IsSmallLabel, IsSmallWalk};
ghost use Rattle.iolb_model.specs.declared.limits.TheConstants.{SCALE, WEIGHT};
ghost use Rattle.reuse_paths.specs.Families.{boxed_node, family_of, boxed_forms};

use crate::part_limits::{are_small, nest_is_small};
use crate::walk_limits::{is_small_node, is_small_walk};
use affine_form::Form;
use iolb_model::limits;
use reuse_paths::{Credit, Family, FamilyNode};

/// Whether what a family says of a statement, if it says something, is within its limits.
fn is_small_family_node(node: &Option<Box<FamilyNode>>) -> bool
    ensures { IsTrue result ↔ IsSmallFamilyNode (option_map boxed_node node.now) }
{
    match node {
        Some(node) => are_small(node.label.as_slice()) && is_small_node(&node.region),
        None => true,
    }
}

/// Whether what a family says of the statements is within its limits.
fn are_small_family_nodes(nodes: &[Option<Box<FamilyNode>>]) -> bool
    ensures { IsTrue result ↔ AllByRecursion IsSmallFamilyNode (map (option_map boxed_node) nodes.now) }
{
    for node in nodes {
        if !is_small_family_node(node) {
            return false;
        }
    }
    true
}

/// Whether the numbers of the label of an array's cells, if they have one, are of size below 2^20.
fn is_small_label(label: &Option<Box<Vec<Form>>>) -> bool
    ensures { IsTrue result ↔ IsSmallLabel (option_map boxed_forms label.now) }
{
    match label {
        Some(label) => are_small(label.as_slice()),
        None => true,
    }
}

/// Whether the numbers of the labels of the arrays' cells are of size below 2^20.
pub fn are_small_labels(labels: &[Option<Box<Vec<Form>>>]) -> bool
    ensures { IsTrue result ↔ AllByRecursion IsSmallLabel (map (option_map boxed_forms) labels.now) }
{
    for label in labels {
        if !is_small_label(label) {
            return false;
        }
    }
    true
}

/// Whether the scale of a family is from 1 to 2^20, and its weight from 1 to 12.
fn has_small_numbers(family: &Family) -> bool
    ensures { IsTrue result ↔ ((1 ≤ (family_of family.now).scale) × ((family_of family.now).scale ≤ SCALE)
        × (1 ≤ (family_of family.now).weight) × ((family_of family.now).weight ≤ WEIGHT)) }
{
    family.scale >= 1
        && family.scale <= limits::SCALE
        && family.weight >= 1
        && family.weight <= limits::WEIGHT
}

/// Whether the labels and walks of a family are within their limits.
fn has_small_parts(family: &Family) -> bool
    ensures { IsTrue result ↔ (AreSmall (family_of family.now).start_label × IsSmallWalk (family_of family.now).start
        × AllByRecursion IsSmallFamilyNode (family_of family.now).nodes × AllByRecursion IsSmallLabel (family_of family.now).inputs) }
{
    are_small(family.start_label.as_slice())
        && is_small_walk(&family.start)
        && are_small_family_nodes(family.nodes.as_slice())
        && are_small_labels(family.inputs.as_slice())
}

/// Whether a family is within its limits.
fn is_small_family(family: &Family) -> bool
    ensures { IsTrue result ↔ IsSmallFamily (family_of family.now) }
{
    has_small_numbers(family) && has_small_parts(family)
}

/// Whether families are within their limits.
pub fn are_small_families(families: &[Family]) -> bool
    ensures { IsTrue result ↔ AllByRecursion IsSmallFamily (map family_of families.now) }
{
    for family in families {
        if !is_small_family(family) {
            return false;
        }
    }
    true
}

/// Whether credited nests are within their limits.
pub fn are_small_credits(credits: &[Credit]) -> bool
    ensures { IsTrue result ↔ AllByRecursion IsSmallCredit credits.now }
{
    for credit in credits {
        if !nest_is_small(&credit.nest, &credit.sums) {
            return false;
        }
    }
    true
}
