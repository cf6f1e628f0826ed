//! Whether partition terms are within their limits.

ghost use Rattle.std.specs.Prelude.{◌≡◌, ◌+◌, ◌≤◌, ◌↔◌, IsTrue, length, map, sum_by};
ghost use Rattle.std.specs.List.{AllByRecursion};
ghost use Rattle.iolb_check.specs.Limits.{IsSmallPartition};
ghost use Rattle.iolb_model.specs.declared.limits.TheConstants.{CREDITS, FAMILIES, STRETCH, STRETCH_MORE, WEIGHT, WEIGHTS};
ghost use Rattle.k_partition.specs.TermLoads.{weight_of};
ghost use Rattle.k_partition.specs.View.{partition_of};
ghost use Rattle.certificate_fit.specs.Limits.{IsSmallCredit, IsSmallFamily, NameRows};
ghost use Rattle.reuse_paths.specs.declared.family.Family.{Family as family};
ghost use Rattle.reuse_paths.specs.Families.{family_of};

use certificate_fit::family_limits::{are_small_credits, are_small_families};
use certificate_fit::part_limits::{name_rows, nest_is_small};
use iolb_model::limits;
use k_partition::Partition;
use reuse_paths::Family;

/// Whether the weights of a partition term's families are 24 together at most.
fn is_light(term: &Partition) -> bool
    ensures { IsTrue result ↔ (weight_of (partition_of term.now) ≤ WEIGHTS) }
{
    are_light(term.families.as_slice())
}

/// Whether the weights of families are 24 together at most.
fn are_light(families: &[Family]) -> bool
    ensures { IsTrue result ↔ (sum_by (λ (f : family). f.weight) families.now ≤ WEIGHTS) }
{
    let mut left = limits::WEIGHTS;
    for family in families {
        if family.weight > left {
            return false;
        }
        left -= family.weight;
    }
    true
}

/// Whether the numbers of a partition term are within their limits.
fn numbers_are_small(term: &Partition) -> bool
    ensures { IsTrue result ↔ ((1 ≤ term.now.q) × (term.now.q ≤ WEIGHT) × (term.now.a ≤ STRETCH) × (term.now.b ≤ STRETCH_MORE) × (1 ≤ term.now.a + term.now.b)) }
{
    term.q >= 1
        && term.q <= limits::WEIGHT
        && term.a <= limits::STRETCH
        && term.b <= limits::STRETCH_MORE
        && (term.a >= 1 || term.b >= 1)
}

/// Whether the credits of a partition term are few, and within their limits.
fn has_small_credits(term: &Partition) -> bool
    ensures { IsTrue result ↔ ((length term.now.credits.items ≤ CREDITS) × AllByRecursion IsSmallCredit term.now.credits.items) }
{
    let credits = term.credits.as_slice();
    credits.len() <= limits::CREDITS && are_small_credits(credits)
}

/// Whether the families of a partition term are some, but few, and within their limits.
fn has_small_families(term: &Partition) -> bool
    ensures { IsTrue result ↔ ((1 ≤ length term.now.families.items) × (length term.now.families.items ≤ FAMILIES)
        × AllByRecursion IsSmallFamily (map family_of term.now.families.items)) }
{
    let families = term.families.as_slice();
    !families.is_empty() && families.len() <= limits::FAMILIES && are_small_families(families)
}

/// Whether a partition term is within its limits.
pub(crate) fn is_small_partition(term: &Partition) -> bool
    ensures { IsTrue result ↔ IsSmallPartition term.now }
{
    nest_is_small(&term.nest, &term.sums)
        && name_rows(term.inside.as_slice())
        && numbers_are_small(term)
        && has_small_credits(term)
        && has_small_families(term)
        && is_light(term)
        && name_rows(term.apart.as_slice())
}
