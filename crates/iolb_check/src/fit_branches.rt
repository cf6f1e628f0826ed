//! Whether branches fit.
#![tactic(auto, using(claims::proofs::Found::in_a_row))]

ghost use Rattle.std.specs.Prelude.{◌≡◌, ◌∷◌, [], IfOk, map, codes};
ghost use Rattle.affine_program.specs.Parts.{meaning};
ghost use Rattle.claims.specs.declared.place.Step.TheVariants.{Index, Key};
ghost use Rattle.claims.specs.Claims.{numbered, Decides};
ghost use Rattle.iolb_check.specs.TermFit.{branch_at, branch_fit, term_fit, terms_fit};
ghost use Rattle.dep_quast.specs.Quasts.{trees_of};
ghost use Rattle.iolb_check.specs.Claims.{claim_of_term, claim_of_branch};

use crate::fit_colds::cold_fits;
use crate::fit_fronts::front_fits;
use crate::fit_joints::joint_fits;
use crate::fit_pairs::branch_targets;
use crate::fit_partitions::partition_fits;
use crate::{Branch, Term};
use affine_form::Memory;
use affine_program::Program;
use certificate_fit::lists::misfit;
use claims::{ObjectKey, Place, Refused, Step};
use reuse_paths::{Quasts, has_pairs};
use std::alloc::Global;

/// Whether what is said fits of a term at this place.
fn term_fits(
    alloc: Global,
    program: &Program,
    quasts: &Quasts,
    place: &Place,
    term: &Term,
) -> Result<(), Refused>
    ensures { Decides (term_fit (meaning program.now) (trees_of quasts.now) place.now (claim_of_term term.now)) result }
{
    match term {
        Term::Cold(cold) => {
            let at = place.within(alloc, Step::Key(ObjectKey("cold")))?;
            cold_fits(alloc, program, quasts, &at, cold)
        }
        Term::Partition(partition) => {
            let at = place.within(alloc, Step::Key(ObjectKey("partition")))?;
            partition_fits(alloc, program, quasts, &at, partition)
        }
        Term::Wavefront(front) => {
            let at = place.within(alloc, Step::Key(ObjectKey("wavefront")))?;
            front_fits(alloc, program, quasts, &at, front)
        }
        Term::Joint(joint) => {
            let at = place.within(alloc, Step::Key(ObjectKey("joint")))?;
            joint_fits(alloc, program, quasts, &at, joint)
        }
    }
}

/// Whether what is said fits of terms, in a list at this place.
fn all_terms_fit(
    alloc: Global,
    program: &Program,
    quasts: &Quasts,
    list: &Place,
    terms: &[Term],
) -> Result<(), Refused>
    ensures { Decides (terms_fit (meaning program.now) (trees_of quasts.now) list.now (map claim_of_term terms.now)) result }
{
    for (index, term) in terms.iter().enumerate() {
        let at = list.within(alloc, Step::Index(index as u64))?;
        term_fits(alloc, program, quasts, &at, term)?;
    }
    Ok(())
}

/// Whether what is said fits of a branch at this place.
fn branch_fits(
    alloc: Global,
    program: &Program,
    quasts: &Quasts,
    place: &Place,
    branch: &Branch,
) -> Result<(), Refused>
    ensures { Decides (branch_fit (meaning program.now) (trees_of quasts.now) place.now (claim_of_branch branch.now)) result }
{
    let terms = branch.terms.as_slice();
    let targets = branch_targets(alloc, program, quasts, terms)?;
    if !has_pairs(targets.as_slice(), branch.disjoint.as_slice().len()) {
        return Err(misfit(alloc, place, Step::Key(ObjectKey("disjoint"))));
    }
    let list = place.within(alloc, Step::Key(ObjectKey("terms")))?;
    all_terms_fit(alloc, program, quasts, &list, terms)?;
    Ok(())
}

/// The place of a branch.
fn branch_place(alloc: Global, index: usize) -> Result<Place, Memory>
    ensures { IfOk result (λ place. place ≡ Key (codes "branches") ∷ Index index ∷ []) }
{
    let steps = vec![in alloc; Step::Key(ObjectKey("branches")), Step::Index(index as u64)]?;
    Ok(Place::new(steps))
}

/// Whether what is said fits of the branches.
pub(crate) fn all_branches_fit(
    alloc: Global,
    program: &Program,
    quasts: &Quasts,
    branches: &[Branch],
) -> Result<(), Refused>
    ensures { Decides (numbered (branch_at (meaning program.now) (trees_of quasts.now)) 0 (map claim_of_branch branches.now)) result }
{
    for (index, branch) in branches.iter().enumerate() {
        let place = branch_place(alloc, index)?;
        branch_fits(alloc, program, quasts, &place, branch)?;
    }
    Ok(())
}
