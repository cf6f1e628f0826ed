//! The conditions of branches.

ghost use Rattle.std.specs.Prelude.{◌≡◌, [], ◌∷◌, ◌++◌, map, IfOk, IfErr, OnOk};
ghost use Rattle.std.specs.List.{AllByRecursion};
ghost use Rattle.affine_program.specs.Parts.{meaning};
ghost use Rattle.claims.specs.Claims.{AllHold, IsRefusal, numbered};
ghost use Rattle.dep_quast.specs.Quasts.{trees_of};
ghost use Rattle.dep_quast.specs.Trees.{RowsAreTrue, RowsFit};
ghost use Rattle.iolb_check.specs.Claims.{claim_of_branch, claim_of_term};
ghost use Rattle.iolb_check.specs.Fit.{BranchFits, BranchesFit, HasPieces, TermFits};
ghost use Rattle.iolb_check.specs.Bounds.{lists};
ghost use Rattle.iolb_check.specs.Sound.{IsSound, IsSoundBranch};
ghost use Rattle.iolb_check.specs.Conditions.{AreBranchValues, AreValuesOf, branch_claims, terms_claims, terms_place as place_of_terms};
ghost use Rattle.iolb_check.specs.Holds.{BranchHolds, BranchesHold, TermsHold};

use crate::bound::Value;
use crate::pairs::check_pairs;
use crate::term::{Branch, Term};
use crate::term_checks::check_term;
use affine_form::Memory;
use affine_program::Program;
use claims::{ObjectKey, Place, Refused, Step};
use reuse_paths::Quasts;
use std::alloc::Global;

/// The values of the terms of branches that fit the program and its source trees, which are true, by branch.
///
/// # Errors
///
/// The first condition of the first branch for which one fails.
pub(crate) fn check_branches(
    alloc: Global,
    program: &Program,
    quasts: &Quasts,
    branches: &[Branch],
) -> Result<Vec<Vec<Value>>, Refused>
    requires fits { BranchesFit program.now (trees_of quasts.now) branches.now }
    requires trees_fit { RowsFit (meaning program.now) 0 (trees_of quasts.now) }
    requires are_true { RowsAreTrue (meaning program.now) 0 (trees_of quasts.now) }
    ensures accepted { IfOk result (λ values. AllHold (numbered (branch_claims (meaning program.now) (trees_of quasts.now)) 0 (map claim_of_branch branches.now))) }
    ensures values { IfOk result (λ values. AreBranchValues (meaning program.now) (map claim_of_branch branches.now) (lists values.items)) }
    ensures hold { IfOk result (λ values. BranchesHold program.now branches.now (lists values.items)) }
    ensures sound { OnOk result (AllByRecursion (IsSoundBranch program.now) branches.now) }
    ensures refused { IfErr result (IsRefusal (numbered (branch_claims (meaning program.now) (trees_of quasts.now)) 0 (map claim_of_branch branches.now))) }
{
    let mut values = Vec::new(alloc);
    for (number, branch) in branches.iter().enumerate() {
        let terms = check_branch(alloc, program, quasts, number, branch)?;
        let Ok(()) = values.push(terms) else {
            return Err(Refused::Memory);
        };
    }
    Ok(values)
}

/// The values of the terms of the branch of this number: its terms, and then that no two of them have a vertex in common.
fn check_branch(
    alloc: Global,
    program: &Program,
    quasts: &Quasts,
    number: usize,
    branch: &Branch,
) -> Result<Vec<Value>, Refused>
    requires fits { BranchFits program.now (trees_of quasts.now) branch.now }
    requires trees_fit { RowsFit (meaning program.now) 0 (trees_of quasts.now) }
    requires are_true { RowsAreTrue (meaning program.now) 0 (trees_of quasts.now) }
    ensures accepted { IfOk result (λ values. AllHold (branch_claims (meaning program.now) (trees_of quasts.now) number (claim_of_branch branch.now))) }
    ensures values { IfOk result (λ values. AreValuesOf (meaning program.now) (map claim_of_term branch.now.terms.items) values.items) }
    ensures holds { IfOk result (λ values. BranchHolds program.now branch.now values.items) }
    ensures sound { OnOk result (IsSoundBranch program.now branch.now) }
    ensures refused { IfErr result (IsRefusal (branch_claims (meaning program.now) (trees_of quasts.now) number (claim_of_branch branch.now))) }
{
    let Ok(place) = terms_place(alloc, number) else {
        return Err(Refused::Memory);
    };
    let values = check_terms(alloc, program, quasts, &place, branch.terms.as_slice())?;
    check_pairs(alloc, program, quasts, number, branch)?;
    Ok(values)
}

/// The place of a branch's terms.
fn terms_place(alloc: Global, number: usize) -> Result<Place, Memory>
    ensures { IfOk result (λ place. place ≡ place_of_terms number) }
{
    let steps = vec![in alloc;
        Step::Key(ObjectKey("branches")),
        Step::Index(number as u64),
        Step::Key(ObjectKey("terms")),
    ]?;
    Ok(Place::new(steps))
}

/// The values of terms in a list at a place.
fn check_terms(
    alloc: Global,
    program: &Program,
    quasts: &Quasts,
    place: &Place,
    terms: &[Term],
) -> Result<Vec<Value>, Refused>
    requires fits { AllByRecursion (TermFits program.now (trees_of quasts.now)) terms.now }
    requires trees_fit { RowsFit (meaning program.now) 0 (trees_of quasts.now) }
    requires are_true { RowsAreTrue (meaning program.now) 0 (trees_of quasts.now) }
    ensures accepted { IfOk result (λ values. AllHold (terms_claims (meaning program.now) (trees_of quasts.now) place.now (map claim_of_term terms.now))) }
    ensures values { IfOk result (λ values. AreValuesOf (meaning program.now) (map claim_of_term terms.now) values.items) }
    ensures hold { IfOk result (λ values. TermsHold program.now (trees_of quasts.now) terms.now values.items) }
    ensures pieces { OnOk result (AllByRecursion (HasPieces program.now (trees_of quasts.now)) terms.now) }
    ensures sound { OnOk result (AllByRecursion (IsSound program.now) terms.now) }
    ensures refused { IfErr result (IsRefusal (terms_claims (meaning program.now) (trees_of quasts.now) place.now (map claim_of_term terms.now))) }
{
    let mut values = Vec::new(alloc);
    for (index, term) in terms.iter().enumerate() {
        let value = check_term(alloc, program, quasts, place, index, term)?;
        let Ok(()) = values.push(value) else {
            return Err(Refused::Memory);
        };
    }
    Ok(values)
}
