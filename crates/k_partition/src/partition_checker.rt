//! The check of partition terms, and their pieces.
#![tactic(auto, using(claims::proofs::Found::in_a_row))]

ghost use Rattle.std.specs.Prelude.{◌≡◌, [], length, map, IfErr, IfOk, OnOk};
ghost use Rattle.std.specs.List.{AllByRecursion};
ghost use Rattle.affine_program.specs.Parts.{meaning};
ghost use Rattle.claims.specs.Claims.{AllHold, Decides, IsRefusal};
ghost use Rattle.domain_count.specs.Count.{CountsPoints, IsCount};
ghost use Rattle.iolb_model.specs.Bound.{count_value, partition};
ghost use Rattle.iolb_model.specs.Footprint.{CostsItsValue};
ghost use Rattle.k_partition.specs.Numbers.{numbers_of, HasNumbers};
ghost use Rattle.k_partition.specs.PartitionClaims.{apart_claims, no_points, partition_claims, pieces_of_families as pieces_by_family, IsCreditsTotal};
ghost use Rattle.k_partition.specs.PartitionPieces.{partition_pieces, CountsCredits, HasPartitionPieces};
ghost use Rattle.k_partition.specs.ReusedWords.{counted_points, IsSoundTerm};
ghost use Rattle.k_partition.specs.TermLoads.{term_footprint, AreApartWhere};
ghost use Rattle.k_partition.specs.TermRuns.{SplitsAmongRuns};
ghost use Rattle.k_partition.specs.View.{partition_of, FitsPartition};
ghost use Rattle.poly_tree.specs.Expansion.{IsCanonical};
ghost use Rattle.poly_tree.specs.Printed.{polynomial_of};
ghost use Rattle.reuse_paths.specs.Families.{family_of};
ghost use Rattle.reuse_paths.specs.FamilyPieces.{family_pieces as pieces_of_family};
ghost use Rattle.reuse_paths.specs.FewContexts.{few_contexts, FitsSome};
ghost use Rattle.footprint_pieces.specs.Pieces.{pieces_of, AreCovered, PieceFits};
ghost use Rattle.dep_quast.specs.Quasts.{trees_of};
ghost use Rattle.dep_quast.specs.Trees.{RowsFit};

use crate::partitions::partitions_are_sound;
use crate::sound_checker::check_sound;
use crate::term::{Partition, PartitionBound, Shape};
use crate::term_runs::terms_are_loaded_in_runs;
use crate::terms_loaded::sound_terms_are_loaded;
use affine_form::Memory;
use affine_program::Program;
use claims::{FailedCondition, ObjectKey, Place, Refused, Step};
use domain_count::Nest;
use domain_count::law::right_claims_count;
use poly_tree::printed_law::terms_have_the_value;
use reuse_paths::law::{contexts_are_few, family_pieces_cover};
use reuse_paths::{Family, Piece, Quasts, family_pieces, lists_shown};
use std::alloc::Global;

/// The pieces of a family, the rows of whose contexts are few.
fn pieces_of_one(
    alloc: Global,
    program: &Program,
    quasts: &Quasts,
    statement: u16,
    nest: &Nest,
    family: &Family,
) -> Result<Vec<Piece>, Memory>
    requires trees_fit { RowsFit (meaning program.now) 0 (trees_of quasts.now) }
    requires fits { FitsSome (meaning program.now) (trees_of quasts.now) statement nest.now (family_of family.now) }
    requires few { AllHold (few_contexts (meaning program.now) (trees_of quasts.now) statement nest.now (family_of family.now) []) }
    ensures pieces { IfOk result (λ pieces. pieces_of pieces ≡ pieces_of_family (meaning program.now) (trees_of quasts.now) statement nest.now (family_of family.now)) }
    ensures fit { IfOk result (λ pieces. AllByRecursion (PieceFits (meaning program.now)) (pieces_of pieces)) }
{
    match family_pieces(alloc, program, quasts, statement, nest, family) {
        Ok(pieces) => Ok(pieces),
        Err(Refused::Memory) => Err(Memory),
        Err(Refused::Failed(_)) => unreachable!(),
    }
}

/// The pieces of a partition term's families, family by family.
fn pieces_of_families(
    alloc: Global,
    program: &Program,
    quasts: &Quasts,
    term: &Partition,
) -> Result<Vec<Vec<Piece>>, Memory>
    requires fits { FitsPartition program.now (trees_of quasts.now) term.now }
    requires few { HasPartitionPieces (meaning program.now) (trees_of quasts.now) (partition_of term.now) }
    ensures pieces { IfOk result (λ lists. map pieces_of lists.items ≡ pieces_by_family (meaning program.now) (trees_of quasts.now) (partition_of term.now)) }
    ensures fit { IfOk result (λ lists. AllByRecursion (AllByRecursion (PieceFits (meaning program.now))) (map pieces_of lists.items)) }
{
    let families = term.families.as_slice();
    let mut lists = Vec::new(alloc);
    for i in 0..families.len() {
        let pieces = pieces_of_one(
            alloc,
            program,
            quasts,
            term.statement,
            &term.nest,
            &families[i],
        )?;
        lists.push(pieces)?;
    }
    Ok(lists)
}

/// The pieces of the footprint of a partition term: those of each of its families (`family_pieces`), family by family.
///
/// # Errors
///
/// Want of memory alone: the rows of the families' contexts are few where the term was accepted.
pub fn partition_pieces(
    alloc: Global,
    program: &Program,
    quasts: &Quasts,
    term: &Partition,
) -> Result<Vec<Piece>, Memory>
    requires fits { FitsPartition program.now (trees_of quasts.now) term.now }
    requires few { HasPartitionPieces (meaning program.now) (trees_of quasts.now) (partition_of term.now) }
    ensures pieces { IfOk result (λ pieces. pieces_of pieces ≡ partition_pieces (meaning program.now) (trees_of quasts.now) (partition_of term.now)) }
    ensures fit { IfOk result (λ pieces. AllByRecursion (PieceFits (meaning program.now)) (pieces_of pieces)) }
{
    let families = term.families.as_slice();
    let mut all = Vec::new(alloc);
    for i in 0..families.len() {
        let mut pieces = pieces_of_one(
            alloc,
            program,
            quasts,
            term.statement,
            &term.nest,
            &families[i],
        )?;
        all.append(&mut pieces)?;
    }
    Ok(all)
}

/// Whether no two families of a partition term are shown to have a word in common, where its shape asks for it.
fn families_apart(
    alloc: Global,
    program: &Program,
    quasts: &Quasts,
    term: &Partition,
    place: &Place,
) -> Result<(), Refused>
    requires fits { FitsPartition program.now (trees_of quasts.now) term.now }
    requires few { HasPartitionPieces (meaning program.now) (trees_of quasts.now) (partition_of term.now) }
    ensures found { Decides (apart_claims (partition_of term.now).shape (meaning program.now) (trees_of quasts.now) place.now (partition_of term.now)) result }
    ensures fit { OnOk result (AllByRecursion (AllByRecursion (PieceFits (meaning program.now))) (pieces_by_family (meaning program.now) (trees_of quasts.now) (partition_of term.now))) }
{
    let lists = pieces_of_families(alloc, program, quasts, term)?;
    if let Shape::Each = term.shape {
        return Ok(());
    }
    let list = place.within(alloc, Step::Key(ObjectKey("apart")))?;
    lists_shown(
        alloc,
        program,
        lists.as_slice(),
        term.apart.as_slice(),
        18,
        &list,
    )
}

/// Checks a partition term, which stands at this place of a certificate. The term and the source trees fit the program, and
/// the trees are true. The answer has the count of its nest's points, the sum of those of its credited nests, and the numbers
/// of its bound.
///
/// After `Ok` the term is sound, no two of its families have a word in common where its shape asks for it, and its value is
/// loaded: at all parameter values that meet the program's assumptions, of any size, and for
/// every number of red pebbles, every complete pebbling (Hong and Kung 1981, without recomputation) makes at least as many
/// loads of the term's footprint as the value says; and a red run that computes a part of the points, and no vertex again,
/// makes as many as the value would say of so many points.
///
/// # Errors
///
/// The first condition that fails, with its place: those of `check_sound`; then, for the shape `Sum`, 18 and 2 at `apart/i`
/// for the first two pieces of two families with one target that aren't shown to have no vertex in common.
pub fn check_partition(
    alloc: Global,
    program: &Program,
    quasts: &Quasts,
    term: &Partition,
    place: &Place,
) -> Result<PartitionBound, Refused>
    requires { FitsPartition program.now (trees_of quasts.now) term.now }
    ensures right { IfOk result (λ bound. IsCount (meaning program.now) term.now.nest term.now.sums bound.count) }
    ensures counts { IfOk result (λ bound. CountsPoints (meaning program.now) term.now.nest bound.count) }
    ensures total { IfOk result (λ bound. IsCreditsTotal (length program.now.params) no_points (partition_of term.now).credits bound.credits) }
    ensures credited { IfOk result (λ bound. CountsCredits (meaning program.now) (partition_of term.now) bound.credits) }
    ensures parameters { IfOk result (λ bound. IsCanonical (length program.now.params) bound.count.tree × IsCanonical (length program.now.params) bound.credits.tree) }
    ensures numbers { IfOk result (λ bound. HasNumbers (partition_of term.now) bound) }
    ensures holds { OnOk result (AllHold (partition_claims (meaning program.now) (trees_of quasts.now) place.now (partition_of term.now))) }
    ensures sound { OnOk result (IsSoundTerm (meaning program.now) (partition_of term.now)) }
    ensures apart { OnOk result (AreApartWhere (meaning program.now) (partition_of term.now)) }
    ensures few { OnOk result (HasPartitionPieces (meaning program.now) (trees_of quasts.now) (partition_of term.now)) }
    ensures covered { OnOk result (AreCovered (meaning program.now) (term_footprint (meaning program.now) (partition_of term.now)) (partition_pieces (meaning program.now) (trees_of quasts.now) (partition_of term.now))) }
    ensures footprint { IfOk result (λ bound. CostsItsValue (meaning program.now) (partition (polynomial_of bound.count) (polynomial_of bound.credits) (numbers_of bound)) (term_footprint (meaning program.now) (partition_of term.now))) }
    ensures splits { IfOk result (λ bound. SplitsAmongRuns (meaning program.now) (count_value (polynomial_of bound.count)) (count_value (polynomial_of bound.credits)) (numbers_of bound) (counted_points (meaning program.now) (partition_of term.now)) (term_footprint (meaning program.now) (partition_of term.now))) }
    ensures refused { IfErr result (λ refused. IsRefusal (partition_claims (meaning program.now) (trees_of quasts.now) place.now (partition_of term.now)) refused) }
{
    let _params = program.params();
    right_claims_count();
    partitions_are_sound();
    sound_terms_are_loaded();
    terms_are_loaded_in_runs();
    terms_have_the_value();
    contexts_are_few();
    family_pieces_cover();
    let bound = check_sound(alloc, program, quasts, term, place)?;
    families_apart(alloc, program, quasts, term, place)?;
    // Their readers say that the polynomials are in lowest terms.
    let (_count, _credits) = (bound.count.den(), bound.credits.den());
    Ok(bound)
}
