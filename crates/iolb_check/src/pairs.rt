//! The conditions of pairs of a branch's terms.
#![tactic(auto, using(claims::proofs::Found::in_a_row))]

ghost use Rattle.std.specs.Prelude.{◌≡◌, ◌∷◌, [], map, IfOk, IfErr, OnOk};
ghost use Rattle.std.specs.List.{AllByRecursion};
ghost use Rattle.affine_program.specs.Parts.{meaning};
ghost use Rattle.claims.specs.Claims.{AllHold, IsRefusal};
ghost use Rattle.iolb_check.specs.Claims.{claim_of_branch, claim_of_term};
ghost use Rattle.iolb_check.specs.Conditions.{branch_pieces, disjoint_claims, disjoint_place as place_of_pairs, term_pieces, terms_claims, terms_place};
ghost use Rattle.iolb_check.specs.Fit.{BranchFits, HasPieces};
ghost use Rattle.footprint_pieces.specs.Pieces.{ArePairwiseApart, PieceFits, pieces_of};
ghost use Rattle.dep_quast.specs.Quasts.{trees_of};

use crate::term::{Branch, Term};
use affine_form::Memory;
use affine_program::Program;
use claims::{ObjectKey, Place, Refused, Step};
use joint_partition::joint_pieces;
use k_partition::partition_pieces;
use reuse_paths::{Piece, Quasts, disjoint_pieces_are_apart, lists_shown};
use std::alloc::Global;
use wavefront::{cold_pieces, front_pieces};

/// Checks that no two terms of the branch of this number, whose claims hold, have a vertex in common.
///
/// # Errors
///
/// At `/branches/number/disjoint/i`, for the first pair of pieces with one target: 2 where their system has too many rows,
/// and 23 where they aren't shown to have no vertex in common.
pub(crate) fn check_pairs(
    alloc: Global,
    program: &Program,
    quasts: &Quasts,
    number: usize,
    branch: &Branch,
) -> Result<(), Refused>
    requires fits { BranchFits program.now (trees_of quasts.now) branch.now }
    requires pieces { AllByRecursion (HasPieces program.now (trees_of quasts.now)) branch.now.terms.items }
    requires shown { AllHold (terms_claims (meaning program.now) (trees_of quasts.now) (terms_place number) (map claim_of_term branch.now.terms.items)) }
    ensures hold { OnOk result (AllHold (disjoint_claims (meaning program.now) (trees_of quasts.now) number (claim_of_branch branch.now))) }
    ensures apart { OnOk result (ArePairwiseApart (meaning program.now) (branch_pieces (meaning program.now) (trees_of quasts.now) (map claim_of_term branch.now.terms.items))) }
    ensures refused { IfErr result (IsRefusal (disjoint_claims (meaning program.now) (trees_of quasts.now) number (claim_of_branch branch.now))) }
{
    disjoint_pieces_are_apart();
    let place = disjoint_place(alloc, number)?;
    let pieces = pieces_of_terms(alloc, program, quasts, branch.terms.as_slice())?;
    let shown = branch.disjoint.as_slice();
    lists_shown(alloc, program, pieces.as_slice(), shown, 23, &place)?;
    Ok(())
}

/// The place of the multipliers for the pairs of a branch's terms.
fn disjoint_place(alloc: Global, number: usize) -> Result<Place, Memory>
    ensures { IfOk result (λ place. place ≡ place_of_pairs number) }
{
    let steps = vec![in alloc;
        Step::Key(ObjectKey("branches")),
        Step::Index(number as u64),
        Step::Key(ObjectKey("disjoint")),
    ]?;
    Ok(Place::new(steps))
}

/// The pieces of terms, term by term.
fn pieces_of_terms(
    alloc: Global,
    program: &Program,
    quasts: &Quasts,
    terms: &[Term],
) -> Result<Vec<Vec<Piece>>, Memory>
    requires { AllByRecursion (HasPieces program.now (trees_of quasts.now)) terms.now }
    ensures pieces { IfOk result (λ lists. map pieces_of lists.items ≡ branch_pieces (meaning program.now) (trees_of quasts.now) (map claim_of_term terms.now)) }
    ensures fit { IfOk result (λ lists. AllByRecursion (AllByRecursion (PieceFits (meaning program.now))) (map pieces_of lists.items)) }
{
    let mut lists = Vec::new(alloc);
    for term in terms {
        lists.push(pieces_of_term(alloc, program, quasts, term)?)?;
    }
    Ok(lists)
}

/// The pieces of a term.
fn pieces_of_term(
    alloc: Global,
    program: &Program,
    quasts: &Quasts,
    term: &Term,
) -> Result<Vec<Piece>, Memory>
    requires { HasPieces program.now (trees_of quasts.now) term.now }
    ensures pieces { IfOk result (λ pieces. pieces_of pieces ≡ term_pieces (meaning program.now) (trees_of quasts.now) (claim_of_term term.now)) }
    ensures fit { IfOk result (λ pieces. AllByRecursion (PieceFits (meaning program.now)) (pieces_of pieces)) }
{
    match term {
        Term::Cold(cold) => cold_pieces(alloc, program, quasts, cold),
        Term::Partition(partition) => partition_pieces(alloc, program, quasts, partition),
        Term::Wavefront(front) => front_pieces(alloc, program, front),
        Term::Joint(joint) => joint_pieces(alloc, program, quasts, joint),
    }
}
