//! That bounds hold for several processors.

ghost use Rattle.parallel_bound.specs.Holds.{AcceptedBoundsHoldInParallel, SplitBranchesHoldInParallel};

use crate::merging::parallel_pebblings_merge;
use crate::shares::processors_share;
use joint_partition::values::joint_terms_share_among_runs;
use k_partition::term_runs::terms_are_loaded_in_runs;
use poly_tree::printed_law::terms_have_the_value;

/// A law: a bound holds for several processors where the terms of each branch cost their values in loads of footprints of which
/// no two have a vertex in common, and the costs of its partition and joint terms are shared among runs. The processor that computes
/// most of such a term's points makes at least the term's own part of loads, and one of them its share of what all load together.
pub fn split_branches_hold_in_parallel()
    ensures { SplitBranchesHoldInParallel }
{
    parallel_pebblings_merge();
    processors_share();
}

/// A law: so the bound of every certificate that is accepted holds for several processors.
pub fn accepted_bounds_hold_in_parallel()
    ensures { AcceptedBoundsHoldInParallel }
{
    split_branches_hold_in_parallel();
    terms_are_loaded_in_runs();
    joint_terms_share_among_runs();
    terms_have_the_value();
}
