//! The check that pieces of footprints have no vertex in common.
#![tactic(auto, using(claims::proofs::Found::in_a_row))]

ghost use Rattle.std.specs.Prelude.{◌≡◌, ◌≤◌, ◌+◌, [], ◌∷◌, ◌++◌, length, map, drop, IfOk, OnOk, IfErr};
ghost use Rattle.std.specs.List.{AllByRecursion};
ghost use Rattle.affine_program.specs.Parts.{meaning};
ghost use Rattle.claims.specs.Claims.{AllHold, Decides, IsRefusal};
ghost use Rattle.claims.specs.declared.place.Step.TheVariants.{Key};
ghost use Rattle.claims.specs.Shown.{pointless_claims};
ghost use Rattle.footprint_pieces.specs.DisjointClaims.{DisjointPiecesAreApart, PairwisePiecesAreApart, disjoint_claims, pair_claims, pair_key, pairwise_systems, shared_systems, systems_with, systems_with_lists};
ghost use Rattle.footprint_pieces.specs.Pieces.{AreApartPieces, PieceFits, piece_of, pieces_of};

use crate::piece::Piece;
use crate::shared::{is_same, rows_of, variables_of};
use affine_form::{Memory, Multipliers};
use affine_program::Program;
use claims::shown::system_shown;
use claims::{ObjectKey, Place, Refused, Step};
use std::alloc::Global;

/// A law: pieces of which it is shown that no two with one target have a vertex in common have none, at all admitted
/// parameter values, of any size: those of two lists, and those of several lists.
pub fn disjoint_pieces_are_apart()
    ensures two { DisjointPiecesAreApart }
    ensures several { PairwisePiecesAreApart }
{}

/// Checks that no piece of the first list has a vertex in common with one of the second: for each two pieces with one
/// target, in order, the multipliers show that the system of both has no point. The condition is 18 for families of a term,
/// 23 for terms of a branch.
///
/// # Errors
///
/// The first claim that fails, at `apart/i` for condition 18 and at `disjoint/i` for 23, where i counts the pairs of pieces
/// with one target: 2 where their system has more than 128 rows, and else the condition.
pub fn check_disjoint(
    alloc: Global,
    program: &Program,
    first: &[Piece],
    second: &[Piece],
    shown: &[Multipliers],
    condition: u8,
    place: &Place,
) -> Result<(), Refused>
    requires first { AllByRecursion (PieceFits (meaning program.now)) (map piece_of first.now) }
    requires second { AllByRecursion (PieceFits (meaning program.now)) (map piece_of second.now) }
    requires one_each { length shown.now ≡ length (shared_systems (meaning program.now) (map piece_of first.now) (map piece_of second.now)) }
    ensures hold { OnOk result (AllHold (disjoint_claims (meaning program.now) condition place.now (map piece_of first.now) (map piece_of second.now) shown.now)) }
    ensures apart { OnOk result (AreApartPieces (meaning program.now) (map piece_of first.now) (map piece_of second.now)) }
    ensures refused { IfErr result (λ refused. IsRefusal (disjoint_claims (meaning program.now) condition place.now (map piece_of first.now) (map piece_of second.now) shown.now) refused) }
{
    disjoint_pieces_are_apart();
    let list = list_of(alloc, condition, place)?;
    let mut at = 0;
    pieces_shown(
        alloc, program, first, second, shown, &mut at, condition, &list,
    )?;
    Ok(())
}

/// The place of the multipliers.
fn list_of(alloc: Global, condition: u8, place: &Place) -> Result<Place, Memory>
    ensures { IfOk result (λ list. list ≡ place.now ++ Key (pair_key condition) ∷ []) }
{
    if condition == 18 {
        return place.within(alloc, Step::Key(ObjectKey("apart")));
    }
    place.within(alloc, Step::Key(ObjectKey("disjoint")))
}

/// Whether the pieces of several lists, those of each list and those of each later one, are shown to have no vertex in
/// common, by the multipliers of the list at this place.
pub fn lists_shown(
    alloc: Global,
    program: &Program,
    lists: &[Vec<Piece>],
    shown: &[Multipliers],
    condition: u8,
    list: &Place,
) -> Result<(), Refused>
    requires fit { AllByRecursion (AllByRecursion (PieceFits (meaning program.now))) (map pieces_of lists.now) }
    requires enough { length (pairwise_systems (meaning program.now) (map pieces_of lists.now)) ≤ length shown.now }
    ensures { Decides (pointless_claims condition list.now 0 (pairwise_systems (meaning program.now) (map pieces_of lists.now)) shown.now) result }
{
    let mut at = 0;
    for (i, pieces) in lists.iter().enumerate() {
        let (_before, later) = lists.split_at(i + 1);
        let pieces = pieces.as_slice();
        later_shown(
            alloc, program, pieces, later, shown, &mut at, condition, list,
        )?;
    }
    Ok(())
}

/// Whether pieces and those of later lists are shown to have no vertex in common, by the multipliers of the list at this
/// place from one on, which is moved behind those that are read.
pub fn later_shown(
    alloc: Global,
    program: &Program,
    pieces: &[Piece],
    later: &[Vec<Piece>],
    shown: &[Multipliers],
    at: &mut usize,
    condition: u8,
    list: &Place,
) -> Result<(), Refused>
    requires pieces { AllByRecursion (PieceFits (meaning program.now)) (map piece_of pieces.now) }
    requires later { AllByRecursion (AllByRecursion (PieceFits (meaning program.now))) (map pieces_of later.now) }
    requires enough { at.old + length (systems_with_lists (meaning program.now) (map piece_of pieces.now) (map pieces_of later.now)) ≤ length shown.now }
    ensures found { Decides (pointless_claims condition list.now at.old (systems_with_lists (meaning program.now) (map piece_of pieces.now) (map pieces_of later.now)) (drop at.old shown.now)) result }
    ensures next { OnOk result (at.new ≡ at.old + length (systems_with_lists (meaning program.now) (map piece_of pieces.now) (map pieces_of later.now))) }
{
    for others in later {
        let others = others.as_slice();
        pieces_shown(alloc, program, pieces, others, shown, at, condition, list)?;
    }
    Ok(())
}

/// Whether pieces of two lists are shown to have no vertex in common, by the multipliers of the list at this place from one
/// on, which is moved behind those that are read.
fn pieces_shown(
    alloc: Global,
    program: &Program,
    pieces: &[Piece],
    others: &[Piece],
    shown: &[Multipliers],
    at: &mut usize,
    condition: u8,
    list: &Place,
) -> Result<(), Refused>
    requires pieces { AllByRecursion (PieceFits (meaning program.now)) (map piece_of pieces.now) }
    requires others { AllByRecursion (PieceFits (meaning program.now)) (map piece_of others.now) }
    requires enough { at.old + length (shared_systems (meaning program.now) (map piece_of pieces.now) (map piece_of others.now)) ≤ length shown.now }
    ensures found { Decides (pointless_claims condition list.now at.old (shared_systems (meaning program.now) (map piece_of pieces.now) (map piece_of others.now)) (drop at.old shown.now)) result }
    ensures next { OnOk result (at.new ≡ at.old + length (shared_systems (meaning program.now) (map piece_of pieces.now) (map piece_of others.now))) }
{
    for piece in pieces {
        piece_shown(alloc, program, piece, others, shown, at, condition, list)?;
    }
    Ok(())
}

/// Whether a piece and those with its target are shown to have no vertex in common, by the multipliers of the list at this
/// place from one on, which is moved behind those that are read.
fn piece_shown(
    alloc: Global,
    program: &Program,
    piece: &Piece,
    others: &[Piece],
    shown: &[Multipliers],
    at: &mut usize,
    condition: u8,
    list: &Place,
) -> Result<(), Refused>
    requires fits { PieceFits (meaning program.now) (piece_of piece.now) }
    requires others { AllByRecursion (PieceFits (meaning program.now)) (map piece_of others.now) }
    requires enough { at.old + length (systems_with (meaning program.now) (map piece_of others.now) (piece_of piece.now)) ≤ length shown.now }
    ensures found { Decides (pointless_claims condition list.now at.old (systems_with (meaning program.now) (map piece_of others.now) (piece_of piece.now)) (drop at.old shown.now)) result }
    ensures next { OnOk result (at.new ≡ at.old + length (systems_with (meaning program.now) (map piece_of others.now) (piece_of piece.now))) }
{
    for other in others {
        if is_same(&piece.target, &other.target) {
            let member = list.within(alloc, Step::Index(*at as u64))?;
            pair_shown(
                alloc,
                program,
                piece,
                other,
                &shown[*at],
                condition,
                &member,
            )?;
            *at += 1;
        }
    }
    Ok(())
}

/// Whether two pieces with one target are shown to have no vertex in common, by the multipliers at this place.
fn pair_shown(
    alloc: Global,
    program: &Program,
    piece: &Piece,
    other: &Piece,
    shown: &Multipliers,
    condition: u8,
    place: &Place,
) -> Result<(), Refused>
    requires piece { PieceFits (meaning program.now) (piece_of piece.now) }
    requires other { PieceFits (meaning program.now) (piece_of other.now) }
    ensures { Decides (pair_claims (meaning program.now) condition place.now (piece_of piece.now) (piece_of other.now) shown.now) result }
{
    let rows = rows_of(alloc, program, piece, other)?;
    let vars = variables_of(program, piece, other);
    system_shown(alloc, condition, place, vars, rows.as_slice(), shown)
}
