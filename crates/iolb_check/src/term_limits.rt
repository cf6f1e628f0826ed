//! Whether terms and branches are within their limits.

ghost use Rattle.std.specs.Prelude.{◌≡◌, ◌≤◌, ◌↔◌, IsTrue, map, option_map};
ghost use Rattle.std.specs.List.{AllByRecursion};
ghost use Rattle.reuse_paths.specs.LeafClaims.{claim_of};
ghost use Rattle.reuse_paths.specs.Walks.{reach_of, spot_of};
ghost use Rattle.certificate_fit.specs.Limits.{AreSmall, IsSmallEntry, IsSmallReach, IsSmallSpot, IsSmallWay, NameRows};
ghost use Rattle.iolb_check.specs.Limits.{IsSmallBranch, IsSmallCold, IsSmallFront, IsSmallTerm};
ghost use Rattle.iolb_model.specs.declared.limits.TheConstants.{SCALE};

use crate::partition_limits::is_small_partition;
use crate::term::{Branch, Term};
use certificate_fit::part_limits::{are_small, are_small_polynomials, name_rows, nest_is_small};
use certificate_fit::walk_limits::{are_small_leaves, is_small_reach, is_small_spot, is_small_way};
use iolb_model::limits;
use joint_partition::small::is_small_joint;
use wavefront::{Cold, Wavefront};

/// Whether a scale is within its limits.
fn is_small_scale(scale: u32) -> bool
    ensures { IsTrue result ↔ ((1 ≤ scale) × (scale ≤ SCALE)) }
{
    scale >= 1 && scale <= limits::SCALE
}

/// Whether the instances and the claims of a cold term are within their limits.
fn instance_is_small(term: &Cold) -> bool
    ensures { IsTrue result ↔ (AreSmall term.now.point.items × NameRows term.now.inside.items × (1 ≤ term.now.inverse.scale) × (term.now.inverse.scale ≤ SCALE)
        × AllByRecursion IsSmallEntry (map claim_of term.now.leaves.items)) }
{
    are_small(term.point.as_slice())
        && name_rows(term.inside.as_slice())
        && is_small_scale(term.inverse.scale)
        && are_small_leaves(term.leaves.as_slice())
}

/// Whether a cold term is within its limits.
fn is_small_cold(term: &Cold) -> bool
    ensures { IsTrue result ↔ IsSmallCold term.now }
{
    nest_is_small(&term.nest, &term.sums) && instance_is_small(term)
}

/// Whether the vertex, the user and the word's instance of a wavefront term are within their limits, and what is claimed of
/// them.
fn instances_are_small(term: &Wavefront) -> bool
    ensures { IsTrue result ↔ (AreSmall term.now.vertex.point.items × AreSmall term.now.user.point.items × IsSmallSpot (option_map spot_of term.now.source)
        × NameRows term.now.inside.items × (1 ≤ term.now.inverse.scale) × (term.now.inverse.scale ≤ SCALE)) }
{
    are_small(term.vertex.point.as_slice())
        && are_small(term.user.point.as_slice())
        && is_small_spot(&term.source)
        && name_rows(term.inside.as_slice())
        && is_small_scale(term.inverse.scale)
}

/// Whether the ways of a wavefront term are within their limits, and its entries at leaves.
fn ways_are_small(term: &Wavefront) -> bool
    ensures { IsTrue result ↔ (AllByRecursion IsSmallEntry (map claim_of term.now.edge.items) × IsSmallWay (option_map reach_of term.now.reach) × IsSmallReach (reach_of term.now.back)) }
{
    are_small_leaves(term.edge.as_slice())
        && is_small_way(&term.reach)
        && is_small_reach(&term.back)
}

/// Whether a wavefront term is within its limits.
fn is_small_front(term: &Wavefront) -> bool
    ensures { IsTrue result ↔ IsSmallFront term.now }
{
    nest_is_small(&term.nest, &term.sums)
        && are_small_polynomials(term.outer_sums.as_slice())
        && instances_are_small(term)
        && ways_are_small(term)
}

/// Whether a term is within its limits.
fn is_small_term(term: &Term) -> bool
    ensures { IsTrue result ↔ IsSmallTerm term.now }
{
    match term {
        Term::Cold(cold) => is_small_cold(cold),
        Term::Partition(partition) => is_small_partition(partition),
        Term::Wavefront(front) => is_small_front(front),
        Term::Joint(joint) => is_small_joint(joint),
    }
}

/// Whether terms are within their limits.
fn are_small_terms(terms: &[Term]) -> bool
    ensures { IsTrue result ↔ AllByRecursion IsSmallTerm terms.now }
{
    for term in terms {
        if !is_small_term(term) {
            return false;
        }
    }
    true
}

/// Whether a branch is within its limits.
fn is_small_branch(branch: &Branch) -> bool
    ensures { IsTrue result ↔ IsSmallBranch branch.now }
{
    branch.terms.as_slice().len() <= limits::TERMS
        && are_small_terms(branch.terms.as_slice())
        && name_rows(branch.disjoint.as_slice())
}

/// Whether branches are within their limits.
pub(crate) fn are_small_branches(branches: &[Branch]) -> bool
    ensures { IsTrue result ↔ AllByRecursion IsSmallBranch branches.now }
{
    for branch in branches {
        if !is_small_branch(branch) {
            return false;
        }
    }
    true
}
