//! Whether claims at leaves, walks, and what shows that they arrive, are within their limits.

ghost use Rattle.std.specs.Prelude.{◌↔◌, IsTrue, map, option_map};
ghost use Rattle.std.specs.List.{AllByRecursion};
ghost use Rattle.certificate_fit.specs.Limits.{IsNestedWalk, IsSmallEntry, IsSmallNode, IsSmallReach, IsSmallRegion, IsSmallSpot, IsSmallWalk, IsSmallWay};
ghost use Rattle.reuse_paths.specs.LeafClaims.{claim_of};
ghost use Rattle.reuse_paths.specs.Walks.{reach_of, boxed_region, region_of, spot_of, tree_of_walk};

use crate::part_limits::{are_small, name_rows, names_rows};
use affine_program::is_small_form;
use iolb_model::limits;
use reuse_paths::{Leaf, Reach, Region, Spot, Walk, entry_count};

/// Whether the multipliers of a claim at a leaf are those of rows below 128.
fn is_small_leaf(leaf: &Leaf) -> bool
    ensures { IsTrue result ↔ IsSmallEntry (claim_of leaf.now) }
{
    match leaf {
        Leaf::Empty(shown) => names_rows(shown),
        Leaf::Stop { label } => name_rows(label.as_slice()),
        Leaf::Credit { rows, label, .. } | Leaf::Go { rows, label } => {
            name_rows(rows.as_slice()) && name_rows(label.as_slice())
        }
        Leaf::Arrive { equal } => name_rows(equal.as_slice()),
    }
}

/// Whether the multipliers of claims at leaves are those of rows below 128.
pub fn are_small_leaves(leaves: &[Leaf]) -> bool
    ensures { IsTrue result ↔ AllByRecursion IsSmallEntry (map claim_of leaves.now) }
{
    for leaf in leaves {
        if !is_small_leaf(leaf) {
            return false;
        }
    }
    true
}

/// Whether at most so many tests of a walk are nested, and its forms and claims are within their limits.
fn is_nested(walk: &Walk, left: u8) -> bool
    ensures { IsTrue result ↔ IsNestedWalk left (tree_of_walk walk.now) }
{
    match walk {
        Walk::Test { form, yes, no } => {
            left > 0 && is_small_form(form) && is_nested(yes, left - 1) && is_nested(no, left - 1)
        }
        Walk::Take { leaves, .. } => are_small_leaves(leaves.as_slice()),
    }
}

/// Whether a walk is within its limits.
pub fn is_small_walk(walk: &Walk) -> bool
    ensures { IsTrue result ↔ IsSmallWalk (tree_of_walk walk.now) }
{
    is_nested(walk, limits::TREE_TESTS) && entry_count(walk) <= usize::from(limits::TREE_LEAVES)
}

/// Whether a region is within its limits.
fn is_small_region(region: &Region) -> bool
    ensures { IsTrue result ↔ IsSmallRegion (region_of region.now) }
{
    region.rows.as_slice().len() <= limits::REGION_ROWS
        && are_small(region.rows.as_slice())
        && is_small_walk(&region.tree)
}

/// Whether the region of a statement, if it has one, is within its limits.
pub(crate) fn is_small_node(node: &Option<Box<Region>>) -> bool
    ensures { IsTrue result ↔ IsSmallNode (option_map boxed_region node.now) }
{
    match node {
        Some(region) => is_small_region(region),
        None => true,
    }
}

/// Whether the regions of statements are within their limits.
pub fn are_small_nodes(nodes: &[Option<Box<Region>>]) -> bool
    ensures { IsTrue result ↔ AllByRecursion IsSmallNode (map (option_map boxed_region) nodes.now) }
{
    for node in nodes {
        if !is_small_node(node) {
            return false;
        }
    }
    true
}

/// Whether what shows that a walk arrives is within its limits.
pub fn is_small_reach(reach: &Reach) -> bool
    ensures { IsTrue result ↔ IsSmallReach (reach_of reach.now) }
{
    match reach {
        Reach::Same(equal) => name_rows(equal.as_slice()),
        Reach::Walked { start, nodes } => {
            name_rows(start.as_slice()) && are_small_nodes(nodes.as_slice())
        }
    }
}

/// The same of one that may be left out.
pub fn is_small_way(reach: &Option<Reach>) -> bool
    ensures { IsTrue result ↔ IsSmallWay (option_map reach_of reach.now) }
{
    match reach {
        Some(reach) => is_small_reach(reach),
        None => true,
    }
}

/// Whether a spot that may be left out is within its limits.
pub fn is_small_spot(spot: &Option<Spot>) -> bool
    ensures { IsTrue result ↔ IsSmallSpot (option_map spot_of spot.now) }
{
    match spot {
        Some(spot) => are_small(spot.point.as_slice()),
        None => true,
    }
}
