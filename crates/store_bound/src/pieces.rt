//! The pieces of outputs and of words.

ghost use Rattle.std.specs.Prelude.{◌≡◌, ◌∷◌, [], map, IfOk};
ghost use Rattle.std.specs.List.{AllByRecursion};
ghost use Rattle.affine_program.specs.Parts.{meaning};
ghost use Rattle.footprint_pieces.specs.Pieces.{PieceFits, pieces_of};
ghost use Rattle.iolb_check.specs.Claims.{claim_of_term};
ghost use Rattle.last_writers.specs.Fitting.{FitsOutput};
ghost use Rattle.last_writers.specs.Outputs.{output_piece};
ghost use Rattle.store_bound.specs.Counted.{computed_front, computed_fronts};
ghost use Rattle.store_bound.specs.StoresFit.{output_pieces, single_pieces};
ghost use Rattle.store_bound.specs.WordPieces.{HasWordPiece};
ghost use Rattle.store_terms.specs.Claims.{claim_of_output};
ghost use Rattle.wavefront.specs.FrontPieces.{front_piece};

use affine_form::Memory;
use affine_program::Program;
use footprint_pieces::Piece;
use iolb_check::Term;
use last_writers::output_piece;
use std::alloc::Global;
use store_terms::Output;
use wavefront::front_pieces;

/// The piece of an output, as a list of its own.
fn single_piece(alloc: Global, program: &Program, output: &Output) -> Result<Vec<Piece>, Memory>
    requires { FitsOutput program.now output.now }
    ensures pieces { IfOk result (λ pieces. pieces_of pieces ≡ output_piece (meaning program.now) (claim_of_output output.now) ∷ []) }
    ensures fit { IfOk result (λ pieces. AllByRecursion (PieceFits (meaning program.now)) (pieces_of pieces)) }
{
    let mut pieces = Vec::new(alloc);
    pieces.push(output_piece(alloc, program, output)?)?;
    Ok(pieces)
}

/// The pieces of outputs, each as a list of its own.
pub(crate) fn single_pieces(
    alloc: Global,
    program: &Program,
    outputs: &[Output],
) -> Result<Vec<Vec<Piece>>, Memory>
    requires { AllByRecursion (FitsOutput program.now) outputs.now }
    ensures pieces { IfOk result (λ lists. map pieces_of lists.items ≡ single_pieces (meaning program.now) (map claim_of_output outputs.now)) }
    ensures fit { IfOk result (λ lists. AllByRecursion (AllByRecursion (PieceFits (meaning program.now))) (map pieces_of lists.items)) }
{
    let mut lists = Vec::new(alloc);
    for output in outputs {
        lists.push(single_piece(alloc, program, output)?)?;
    }
    Ok(lists)
}

/// The pieces of outputs.
pub(crate) fn output_pieces(
    alloc: Global,
    program: &Program,
    outputs: &[Output],
) -> Result<Vec<Piece>, Memory>
    requires { AllByRecursion (FitsOutput program.now) outputs.now }
    ensures pieces { IfOk result (λ pieces. pieces_of pieces ≡ output_pieces (meaning program.now) (map claim_of_output outputs.now)) }
    ensures fit { IfOk result (λ pieces. AllByRecursion (PieceFits (meaning program.now)) (pieces_of pieces)) }
{
    let mut pieces = Vec::new(alloc);
    for output in outputs {
        pieces.push(output_piece(alloc, program, output)?)?;
    }
    Ok(pieces)
}

/// The piece of a term's words, if it is a wavefront term whose words were computed, and else none.
fn word_piece(alloc: Global, program: &Program, term: &Term) -> Result<Vec<Piece>, Memory>
    requires { HasWordPiece program.now term.now }
    ensures pieces { IfOk result (λ pieces. pieces_of pieces ≡ map (front_piece (meaning program.now)) (computed_front (claim_of_term term.now))) }
    ensures fit { IfOk result (λ pieces. AllByRecursion (PieceFits (meaning program.now)) (pieces_of pieces)) }
{
    let Term::Wavefront(front) = term else {
        return Ok(Vec::new(alloc));
    };
    if front.source.is_none() {
        return Ok(Vec::new(alloc));
    }
    front_pieces(alloc, program, front)
}

/// The pieces of the words of terms, of those whose words were computed.
pub(crate) fn word_pieces(
    alloc: Global,
    program: &Program,
    terms: &[Term],
) -> Result<Vec<Piece>, Memory>
    requires { AllByRecursion (HasWordPiece program.now) terms.now }
    ensures pieces { IfOk result (λ pieces. pieces_of pieces ≡ map (front_piece (meaning program.now)) (computed_fronts (map claim_of_term terms.now))) }
    ensures fit { IfOk result (λ pieces. AllByRecursion (PieceFits (meaning program.now)) (pieces_of pieces)) }
{
    let mut pieces = Vec::new(alloc);
    for term in terms {
        let mut more = word_piece(alloc, program, term)?;
        pieces.append(&mut more)?;
    }
    Ok(pieces)
}

/// Two lists: the pieces of outputs, and those of the words of terms.
pub(crate) fn both_pieces(
    alloc: Global,
    program: &Program,
    outputs: &[Output],
    terms: &[Term],
) -> Result<Vec<Vec<Piece>>, Memory>
    requires outputs { AllByRecursion (FitsOutput program.now) outputs.now }
    requires terms { AllByRecursion (HasWordPiece program.now) terms.now }
    ensures pieces { IfOk result (λ lists. map pieces_of lists.items ≡ output_pieces (meaning program.now) (map claim_of_output outputs.now)
        ∷ map (front_piece (meaning program.now)) (computed_fronts (map claim_of_term terms.now)) ∷ []) }
    ensures fit { IfOk result (λ lists. AllByRecursion (AllByRecursion (PieceFits (meaning program.now))) (map pieces_of lists.items)) }
{
    let first = output_pieces(alloc, program, outputs)?;
    let second = word_pieces(alloc, program, terms)?;
    let mut lists = Vec::new(alloc);
    lists.push(first)?;
    lists.push(second)?;
    Ok(lists)
}
