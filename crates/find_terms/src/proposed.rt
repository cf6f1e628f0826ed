//! Branches that are proposed.

ghost use Rattle.std.specs.Prelude.{◌≡◌, ◌≤◌, IfOk, IfSome, IsTrue, sum_by};
ghost use Rattle.std.specs.List.{AllByRecursion};
ghost use Rattle.affine_program.specs.Parts.{meaning};
ghost use Rattle.iolb_check.specs.Limits.{IsSmallBranch, IsSmallPartition, IsSmallTerm};
ghost use Rattle.joint_partition.specs.JointLoads.{weight_of as weight_of_joint};
ghost use Rattle.joint_partition.specs.Limits.{IsSmallJoint};
ghost use Rattle.joint_partition.specs.View.{joint_of};
ghost use Rattle.joint_partition.specs.declared.limits.TheConstants.{JOINT_WEIGHTS};
ghost use Rattle.joint_partition.specs.declared.term.JointFamily.{JointFamily as family};
ghost use Rattle.k_partition.specs.TermLoads.{weight_of as weight_of_partition};
ghost use Rattle.k_partition.specs.View.{partition_of};
ghost use Rattle.find_terms.specs.Openings.{FindsOpening};
ghost use Rattle.find_terms.specs.Proposed.{AreRuledStretches, IsAsProposed, IsProposal, IsSmallOpening};

use crate::gathering::proposals;
use crate::openings::opening;
use affine_form::Memory;
use affine_program::Program;
use iolb_check::{Branch, Certificate, Term};
use joint_partition::{Joint, JointFamily};
use k_partition::{Partition, weight_of};
use projective_bounds::stretch_for;
use reuse_paths::Quasts;
use std::alloc::Global;
use wavefront::Cold;

/// Branches for a program's certificate.
#[derive(Drop)]
pub struct ProposedBranches {
    /// The opening branch, where some read is plain.
    pub opening: Option<Branch>,
    /// Other branches, those that are likely to be strong first.
    pub proposals: Vec<Branch>,
}

/// Branches that may stand in a certificate over these source trees: the opening branch first, as `opening` answers it, and
/// then proposals. Each is within the limits of branches; a partition or joint term that is proposed has no events beside those
/// for its red words, and as many for each of these as make its bound strongest for its exponent. Nothing else is promised of
/// proposals.
///
/// # Errors
///
/// Want of memory alone.
pub fn candidates(
    alloc: Global,
    program: &Program,
    quasts: &Quasts,
) -> Result<ProposedBranches, Memory>
    ensures opening { IfOk result (λ candidates. FindsOpening (meaning program.now) candidates.opening) }
    ensures small { IfOk result (λ candidates. IsSmallOpening candidates.opening) }
    ensures proposals { IfOk result (λ candidates. AllByRecursion IsProposal candidates.proposals.items) }
{
    let opening = opening(alloc, program)?;
    let proposals = proposed_branches(alloc, program, quasts, &opening)?;
    Ok(ProposedBranches { opening, proposals })
}

/// The proposals, without those of cold terms alone that are no more than the opening branch has.
fn proposed_branches(
    alloc: Global,
    program: &Program,
    quasts: &Quasts,
    opening: &Option<Branch>,
) -> Result<Vec<Branch>, Memory>
    ensures { IfOk result (λ branches. AllByRecursion IsProposal branches.items) }
{
    let mut branches = Vec::new(alloc);
    for proposal in proposals(alloc, program, quasts)? {
        if let Some(branch) = proposed_branch(alloc, proposal, opening)? {
            branches.push(branch)?;
        }
    }
    Ok(branches)
}

/// A proposal, where it is one that is answered.
fn proposed_branch(
    alloc: Global,
    branch: Branch,
    opening: &Option<Branch>,
) -> Result<Option<Branch>, Memory>
    ensures { IfOk result (λ found. IfSome found IsProposal) }
{
    if branch.terms.is_empty() || is_no_more(&branch, opening) {
        return Ok(None);
    }
    let Some(small) = within_limits(alloc, branch)? else {
        return Ok(None);
    };
    if are_as_proposed(small.terms.as_slice()) {
        Ok(Some(small))
    } else {
        Ok(None)
    }
}

/// A branch that is within the limits of branches, or nothing.
fn within_limits(alloc: Global, branch: Branch) -> Result<Option<Branch>, Memory>
    ensures { IfOk result (λ found. IfSome found (λ small. (small ≡ branch) × IsSmallBranch small)) }
{
    let mut branches = Vec::new(alloc);
    branches.push(branch)?;
    let none = Quasts::new(Vec::new(alloc));
    let Some(certificate) = Certificate::new(none, branches) else {
        return Ok(None);
    };
    let _branches = certificate.branches();
    let (_none, mut branches) = certificate.parts();
    Ok(branches.pop())
}

/// Whether a term whose families weigh so much has no events beside those for its red words, and as many for each of these as
/// make its bound strongest for its exponent.
fn are_best_stretches(q: u8, weight: u8, a: u8, b: u32) -> bool
    ensures { IsTrue result → AreRuledStretches q weight a b }
{
    q <= weight && a == stretch_for(q, weight) && b == 0
}

/// Whether a partition term has such stretches.
fn is_best_partition(term: &Partition) -> bool
    requires { IsSmallPartition term.now }
    ensures { IsTrue result → AreRuledStretches term.now.q (weight_of_partition (partition_of term.now)) term.now.a term.now.b }
{
    are_best_stretches(term.q, weight_of(term.families.as_slice()), term.a, term.b)
}

/// The sum of the weights of a joint term's families.
fn joint_weight(families: &[JointFamily]) -> u8
    requires { sum_by (λ (f : family). f.weight) families.now ≤ JOINT_WEIGHTS }
    ensures { result ≡ sum_by (λ (f : family). f.weight) families.now }
{
    let mut sum = 0;
    for family in families {
        sum += family.weight;
    }
    sum
}

/// Whether a joint term has such stretches.
fn is_best_joint(term: &Joint) -> bool
    requires { IsSmallJoint term.now }
    ensures { IsTrue result → AreRuledStretches term.now.q (weight_of_joint (joint_of term.now)) term.now.a term.now.b }
{
    are_best_stretches(
        term.q,
        joint_weight(term.families.as_slice()),
        term.a,
        term.b,
    )
}

/// Whether the partition and joint terms among these have such stretches.
fn are_as_proposed(terms: &[Term]) -> bool
    requires { AllByRecursion IsSmallTerm terms.now }
    ensures { IsTrue result → AllByRecursion IsAsProposed terms.now }
{
    for term in terms {
        let is_best = match term {
            Term::Partition(partition) => is_best_partition(partition),
            Term::Joint(joint) => is_best_joint(joint),
            Term::Cold(_) | Term::Wavefront(_) => true,
        };
        if !is_best {
            return false;
        }
    }
    true
}

/// Whether a branch has a cold term of this read.
fn has_cold(branch: &Branch, cold: &Cold) -> bool {
    for term in branch.terms.as_slice() {
        if let Term::Cold(other) = term {
            if other.statement == cold.statement && other.read == cold.read {
                return true;
            }
        }
    }
    false
}

/// Whether a branch has cold terms alone, no more of them than the opening branch, and of its reads.
fn is_no_more(branch: &Branch, opening: &Option<Branch>) -> bool {
    let Some(opening) = opening else {
        return false;
    };
    for term in branch.terms.as_slice() {
        match term {
            Term::Cold(cold) if has_cold(opening, cold) => {}
            Term::Cold(_) | Term::Partition(_) | Term::Wavefront(_) | Term::Joint(_) =>
                return false,
        }
    }
    branch.terms.len() <= opening.terms.len()
}
