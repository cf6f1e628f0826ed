//! Whether joint terms are within their limits.

ghost use Rattle.std.specs.Prelude.{◌≡◌, ◌+◌, ◌<◌, ◌≤◌, ◌↔◌, IsTrue, length, map, min, sum_by};
ghost use Rattle.std.specs.List.{AllByRecursion};
ghost use Rattle.certificate_fit.specs.Limits.{AreSmall, IsSmallCredit};
ghost use Rattle.iolb_model.specs.declared.limits.TheConstants.{FAMILIES, NEST_VARIABLES, SCALE, STRETCH, STRETCH_MORE, TREE_LEAVES, WEIGHT};
ghost use Rattle.joint_partition.specs.declared.limits.TheConstants.{GROUPS, JOINT_CREDITS, JOINT_WEIGHTS, LABELINGS, PARTS, WAYS};
ghost use Rattle.joint_partition.specs.declared.term.JointFamily.{JointFamily as family};
ghost use Rattle.joint_partition.specs.JointLoads.{weight_of};
ghost use Rattle.joint_partition.specs.Limits.{end_count, IsNestedSplit, IsSmallJoint, IsSmallJointFamily, IsSmallLabeling, IsSmallPart, IsSmallSplit, IsSmallStart, IsSmallWay};
ghost use Rattle.joint_partition.specs.View.{family_of, joint_of, labeling_of, split_of, start_of, way_of};

use crate::limits::{GROUPS, JOINT_CREDITS, JOINT_WEIGHTS, LABELINGS, PARTS, WAYS};
use crate::term::{Joint, JointFamily, Labeling, Part, Split, Start, Way};
use affine_program::is_small_form;
use certificate_fit::family_limits::{are_small_credits, are_small_labels};
use certificate_fit::part_limits::{are_small, name_rows, names_rows, nest_is_small};
use certificate_fit::walk_limits::{are_small_nodes, is_small_walk};
use iolb_model::limits;

/// How many ends a split has, but no more than one past the limit.
pub fn end_count(split: &Split) -> usize
    ensures { result ≡ min (end_count (split_of split.now)) (TREE_LEAVES + 1) }
{
    match split {
        Split::Test { yes, no, .. } => {
            (end_count(yes) + end_count(no)).min(usize::from(limits::TREE_LEAVES) + 1)
        }
        Split::Empty { .. } => 1,
    }
}

/// Whether at most so many tests of a split are nested, and its forms and multipliers are within their limits.
fn is_nested(split: &Split, left: u8) -> bool
    ensures { IsTrue result ↔ IsNestedSplit left (split_of split.now) }
{
    match split {
        Split::Test { form, yes, no } => {
            left > 0 && is_small_form(form) && is_nested(yes, left - 1) && is_nested(no, left - 1)
        }
        Split::Empty { shown } => names_rows(shown),
    }
}

/// Whether a split is within its limits.
fn is_small_split(split: &Split) -> bool
    ensures { IsTrue result ↔ IsSmallSplit (split_of split.now) }
{
    is_nested(split, limits::TREE_TESTS) && end_count(split) <= usize::from(limits::TREE_LEAVES)
}

/// Whether splits are within their limits.
fn are_small_splits(splits: &[Split]) -> bool
    ensures { IsTrue result ↔ AllByRecursion IsSmallSplit (map split_of splits.now) }
{
    for split in splits {
        if !is_small_split(split) {
            return false;
        }
    }
    true
}

/// Whether the map of a part is within its limits.
fn image_is_small(part: &Part) -> bool
    ensures { IsTrue result ↔ ((1 ≤ length part.now.image.items) × (length part.now.image.items ≤ NEST_VARIABLES) × AreSmall part.now.image.items) }
{
    let image = part.image.as_slice();
    !image.is_empty() && image.len() <= limits::NEST_VARIABLES && are_small(image)
}

/// Whether a part is within its limits.
fn is_small_part(part: &Part) -> bool
    ensures { IsTrue result ↔ IsSmallPart part.now }
{
    nest_is_small(&part.nest, &part.sums)
        && name_rows(part.inside.as_slice())
        && image_is_small(part)
        && part.inverse.scale >= 1
        && part.inverse.scale <= limits::SCALE
}

/// Whether parts are within their limits.
fn are_small_parts(parts: &[Part]) -> bool
    ensures { IsTrue result ↔ AllByRecursion IsSmallPart parts.now }
{
    for part in parts {
        if !is_small_part(part) {
            return false;
        }
    }
    true
}

/// Whether a labeling is within its limits.
fn is_small_labeling(labels: &Labeling) -> bool
    ensures { IsTrue result ↔ IsSmallLabeling (labeling_of labels.now) }
{
    are_small_labels(labels.nodes.as_slice()) && are_small_labels(labels.inputs.as_slice())
}

/// Whether labelings are within their limits.
fn are_small_labelings(all: &[Labeling]) -> bool
    ensures { IsTrue result ↔ AllByRecursion IsSmallLabeling (map labeling_of all.now) }
{
    for labels in all {
        if !is_small_labeling(labels) {
            return false;
        }
    }
    true
}

/// Whether the regions of ways are within their limits.
fn are_small_ways(ways: &[Way]) -> bool
    ensures { IsTrue result ↔ AllByRecursion IsSmallWay (map way_of ways.now) }
{
    for way in ways {
        if !are_small_nodes(way.regions.as_slice()) {
            return false;
        }
    }
    true
}

/// Whether the trees of starts are within their limits.
fn are_small_starts(starts: &[Start]) -> bool
    ensures { IsTrue result ↔ AllByRecursion IsSmallStart (map start_of starts.now) }
{
    for start in starts {
        if !is_small_walk(&start.tree) {
            return false;
        }
    }
    true
}

/// Whether the numbers of a family are within their limits.
fn has_small_numbers(family: &JointFamily) -> bool
    ensures { IsTrue result ↔ ((family.now.group < GROUPS) × (1 ≤ family.now.scale) × (family.now.scale ≤ SCALE) × (1 ≤ family.now.weight) × (family.now.weight ≤ WEIGHT)) }
{
    family.group < GROUPS
        && family.scale >= 1
        && family.scale <= limits::SCALE
        && family.weight >= 1
        && family.weight <= limits::WEIGHT
}

/// Whether the labelings of a family are some, but few, and within their limits.
fn has_small_labels(family: &JointFamily) -> bool
    ensures { IsTrue result ↔ ((1 ≤ length family.now.labels.items) × (length family.now.labels.items ≤ LABELINGS) × AllByRecursion IsSmallLabeling (map labeling_of family.now.labels.items)) }
{
    let labels = family.labels.as_slice();
    !labels.is_empty() && labels.len() <= LABELINGS && are_small_labelings(labels)
}

/// Whether the ways of a family are some, but few, and within their limits.
fn has_small_ways(family: &JointFamily) -> bool
    ensures { IsTrue result ↔ ((1 ≤ length family.now.ways.items) × (length family.now.ways.items ≤ WAYS) × AllByRecursion IsSmallWay (map way_of family.now.ways.items)) }
{
    let ways = family.ways.as_slice();
    !ways.is_empty() && ways.len() <= WAYS && are_small_ways(ways)
}

/// Whether a family is within its limits.
fn is_small_family(family: &JointFamily) -> bool
    ensures { IsTrue result ↔ IsSmallJointFamily (family_of family.now) }
{
    has_small_numbers(family)
        && has_small_labels(family)
        && has_small_ways(family)
        && are_small_starts(family.starts.as_slice())
}

/// Whether families are within their limits.
fn are_small_families(families: &[JointFamily]) -> bool
    ensures { IsTrue result ↔ AllByRecursion IsSmallJointFamily (map family_of families.now) }
{
    for family in families {
        if !is_small_family(family) {
            return false;
        }
    }
    true
}

/// Whether the weights of families are 16 together at most.
fn are_light(families: &[JointFamily]) -> bool
    ensures { IsTrue result ↔ (sum_by (λ (f : family). f.weight) families.now ≤ JOINT_WEIGHTS) }
{
    let mut left = JOINT_WEIGHTS;
    for family in families {
        if family.weight > left {
            return false;
        }
        left -= family.weight;
    }
    true
}

/// Whether the weights of a term's families are 16 together at most.
fn is_light(term: &Joint) -> bool
    ensures { IsTrue result ↔ (weight_of (joint_of term.now) ≤ JOINT_WEIGHTS) }
{
    are_light(term.families.as_slice())
}

/// Whether the numbers of a term are within their limits.
fn numbers_are_small(term: &Joint) -> bool
    ensures { IsTrue result ↔ ((1 ≤ term.now.q) × (term.now.q ≤ WEIGHT) × (term.now.a ≤ STRETCH) × (term.now.b ≤ STRETCH_MORE) × (1 ≤ term.now.a + term.now.b)) }
{
    term.q >= 1
        && term.q <= limits::WEIGHT
        && term.a <= limits::STRETCH
        && term.b <= limits::STRETCH_MORE
        && (term.a >= 1 || term.b >= 1)
}

/// Whether the parts of a term are some, but few, and within their limits, and its splits.
fn has_small_parts(term: &Joint) -> bool
    ensures { IsTrue result ↔ ((1 ≤ length term.now.parts.items) × (length term.now.parts.items ≤ PARTS) × AllByRecursion IsSmallPart term.now.parts.items
        × AllByRecursion IsSmallSplit (map split_of term.now.distinct.items)) }
{
    let parts = term.parts.as_slice();
    !parts.is_empty()
        && parts.len() <= PARTS
        && are_small_parts(parts)
        && are_small_splits(term.distinct.as_slice())
}

/// Whether the credits of a term are few, and within their limits.
fn has_small_credits(term: &Joint) -> bool
    ensures { IsTrue result ↔ ((length term.now.credits.items ≤ JOINT_CREDITS) × AllByRecursion IsSmallCredit term.now.credits.items) }
{
    let credits = term.credits.as_slice();
    credits.len() <= JOINT_CREDITS && are_small_credits(credits)
}

/// Whether the families of a term are some, but few, and within their limits.
fn has_small_families(term: &Joint) -> bool
    ensures { IsTrue result ↔ ((1 ≤ length term.now.families.items) × (length term.now.families.items ≤ FAMILIES)
        × AllByRecursion IsSmallJointFamily (map family_of term.now.families.items)) }
{
    let families = term.families.as_slice();
    !families.is_empty() && families.len() <= limits::FAMILIES && are_small_families(families)
}

/// Whether a joint term is within its limits: 1 to 4 parts, whose nests have at most 6 variables, with maps of 1 to 6 forms; splits of
/// at most 16 nested tests and 64 ends; a cover of 1 to 12 times; `a` from 0 to 64 and `b` from 0 to 2^20, not both 0; at most 8
/// credits; and 1 to 6 families of at most 4 labelings and 8 ways, whose weights are 16 together at most.
pub fn is_small_joint(term: &Joint) -> bool
    ensures { IsTrue result ↔ IsSmallJoint term.now }
{
    has_small_parts(term)
        && numbers_are_small(term)
        && has_small_credits(term)
        && has_small_families(term)
        && is_light(term)
        && name_rows(term.apart.as_slice())
}
