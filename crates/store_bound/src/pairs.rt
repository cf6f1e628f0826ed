//! Whether nothing is counted twice.
#![tactic(auto, using(claims::proofs::Found::in_a_row))]

ghost use Rattle.std.specs.Prelude.{◌≡◌, ◌≤◌, ◌+◌, ◌^◌, ◌∷◌, [], codes, length, map, IfOk, OnOk};
ghost use Rattle.std.specs.List.{AllByRecursion};
ghost use Rattle.affine_program.specs.Parts.{meaning};
ghost use Rattle.claims.specs.Claims.{Decides};
ghost use Rattle.claims.specs.Shown.{pointless_claims};
ghost use Rattle.claims.specs.declared.place.Step.TheVariants.{Key};
ghost use Rattle.footprint_pieces.specs.DisjointClaims.{pairwise_systems, shared_systems};
ghost use Rattle.footprint_pieces.specs.Pieces.{AreApartPieces, ArePairwiseApart};
ghost use Rattle.iolb_check.specs.Claims.{claim_of_term};
ghost use Rattle.last_writers.specs.Fitting.{FitsOutput};
ghost use Rattle.store_bound.specs.Counted.{computed_fronts};
ghost use Rattle.store_bound.specs.Moved.{IsAtMember, IsMoved};
ghost use Rattle.store_bound.specs.StoresFit.{output_pieces, single_pieces, systems_of};
ghost use Rattle.store_bound.specs.WordPieces.{HasWordPiece};
ghost use Rattle.store_terms.specs.Claims.{claim_of_output};
ghost use Rattle.store_terms.specs.declared.limits.TheConstants.{OUTPUTS};
ghost use Rattle.wavefront.specs.FrontPieces.{front_piece};

use crate::pair_counts::output_pairs;
use crate::pieces::{both_pieces, single_pieces};
use affine_form::{Memory, Multipliers};
use affine_program::Program;
use claims::{ObjectKey, Place, Refused, Step, refusal};
use footprint_pieces::lists_shown;
use iolb_check::Term;
use std::alloc::Global;
use store_terms::Output;

/// A refusal at a member of the list at this place, so far further on in the list.
fn moved(alloc: Global, list: &Place, first: usize, refused: Refused) -> Refused
    requires { IsAtMember list.now first refused }
    ensures { IsMoved list.now first refused result }
{
    let Refused::Failed(failed) = refused else {
        return Refused::Memory;
    };
    let Some(Step::Index(index)) = failed.place.steps().last() else {
        unreachable!();
    };
    match list.within(alloc, Step::Index(first as u64 + *index)) {
        Ok(place) => refusal(alloc, failed.condition, &place),
        Err(Memory) => Refused::Memory,
    }
}

/// Whether no two outputs of one statement are shown to have an instance in common.
fn outputs_apart(
    alloc: Global,
    program: &Program,
    outputs: &[Output],
    shown: &[Multipliers],
    list: &Place,
) -> Result<(), Refused>
    requires outputs { AllByRecursion (FitsOutput program.now) outputs.now }
    requires enough { length (pairwise_systems (meaning program.now) (single_pieces (meaning program.now) (map claim_of_output outputs.now))) ≤ length shown.now }
    ensures hold { Decides (pointless_claims 23 list.now 0 (pairwise_systems (meaning program.now) (single_pieces (meaning program.now) (map claim_of_output outputs.now))) shown.now) result }
    ensures apart { OnOk result (ArePairwiseApart (meaning program.now) (single_pieces (meaning program.now) (map claim_of_output outputs.now))) }
{
    let singles = single_pieces(alloc, program, outputs)?;
    lists_shown(alloc, program, singles.as_slice(), shown, 23, list)
}

/// Whether no output and no words of one statement are shown to have an instance in common, by multipliers that stand in the
/// list at this place from the first on.
fn words_apart(
    alloc: Global,
    program: &Program,
    outputs: &[Output],
    terms: &[Term],
    shown: &[Multipliers],
    first: usize,
    list: &Place,
) -> Result<(), Refused>
    requires outputs { AllByRecursion (FitsOutput program.now) outputs.now }
    requires terms { AllByRecursion (HasWordPiece program.now) terms.now }
    requires enough { length (shared_systems (meaning program.now) (output_pieces (meaning program.now) (map claim_of_output outputs.now)) (map (front_piece (meaning program.now)) (computed_fronts (map claim_of_term terms.now)))) ≤ length shown.now }
    requires room { first + length shown.now ≤ 2 ^ 64 }
    ensures hold { Decides (pointless_claims 23 list.now first (shared_systems (meaning program.now) (output_pieces (meaning program.now) (map claim_of_output outputs.now)) (map (front_piece (meaning program.now)) (computed_fronts (map claim_of_term terms.now)))) shown.now) result }
    ensures apart { OnOk result (AreApartPieces (meaning program.now) (output_pieces (meaning program.now) (map claim_of_output outputs.now)) (map (front_piece (meaning program.now)) (computed_fronts (map claim_of_term terms.now)))) }
{
    let lists = both_pieces(alloc, program, outputs, terms)?;
    match lists_shown(alloc, program, lists.as_slice(), shown, 23, list) {
        Ok(()) => Ok(()),
        Err(refused) => Err(moved(alloc, list, first, refused)),
    }
}

/// The place of the multipliers which show that nothing is counted twice.
fn apart_place(alloc: Global) -> Result<Place, Memory>
    ensures { IfOk result (λ place. place ≡ Key (codes "apart") ∷ []) }
{
    let steps = vec![in alloc; Step::Key(ObjectKey("apart"))]?;
    Ok(Place::new(steps))
}

/// Whether nothing is counted twice: no instance of two outputs, and none of an output and of terms' words.
pub(crate) fn check_apart(
    alloc: Global,
    program: &Program,
    outputs: &[Output],
    terms: &[Term],
    shown: &[Multipliers],
) -> Result<(), Refused>
    requires outputs { AllByRecursion (FitsOutput program.now) outputs.now }
    requires few { length outputs.now ≤ OUTPUTS }
    requires terms { AllByRecursion (HasWordPiece program.now) terms.now }
    requires enough { length (systems_of (meaning program.now) (map claim_of_output outputs.now) (computed_fronts (map claim_of_term terms.now))) ≤ length shown.now }
    ensures hold { Decides (pointless_claims 23 (Key (codes "apart") ∷ []) 0 (systems_of (meaning program.now) (map claim_of_output outputs.now) (computed_fronts (map claim_of_term terms.now))) shown.now) result }
    ensures outputs { OnOk result (ArePairwiseApart (meaning program.now) (single_pieces (meaning program.now) (map claim_of_output outputs.now))) }
    ensures words { OnOk result (AreApartPieces (meaning program.now) (output_pieces (meaning program.now) (map claim_of_output outputs.now)) (map (front_piece (meaning program.now)) (computed_fronts (map claim_of_term terms.now)))) }
{
    let list = apart_place(alloc)?;
    outputs_apart(alloc, program, outputs, shown, &list)?;
    let first = output_pairs(outputs);
    let (_outputs, words) = shown.split_at(first);
    words_apart(alloc, program, outputs, terms, words, first, &list)?;
    Ok(())
}
