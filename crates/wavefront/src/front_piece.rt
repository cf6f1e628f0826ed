//! The piece of a wavefront term's footprint.

ghost use Rattle.std.specs.Prelude.{◌≡◌, map, option_map, IfOk};
ghost use Rattle.std.specs.List.{AllByRecursion};
ghost use Rattle.affine_form.specs.Form.{IsSmallForm};
ghost use Rattle.affine_form.specs.Rows.{widened};
ghost use Rattle.affine_form.specs.System.{AllOver};
ghost use Rattle.affine_program.specs.Parts.{meaning};
ghost use Rattle.dep_quast.specs.Context.{reference_of};
ghost use Rattle.footprint_pieces.specs.Pieces.{PieceFits, piece_of};
ghost use Rattle.reuse_paths.specs.Walks.{spot_of};
ghost use Rattle.wavefront.specs.FrontClaims.{front_variables, word_forms};
ghost use Rattle.wavefront.specs.FrontFits.{PartsFit};
ghost use Rattle.wavefront.specs.FrontPieces.{FrontPiecesCover, front_piece, front_pieces, front_target};
ghost use Rattle.wavefront.specs.FrontTerm.{user_read};
ghost use Rattle.wavefront.specs.View.{front_of};
ghost use Rattle.iolb_model.specs.declared.limits.TheConstants.{PUT_SIZE};

use crate::front::Wavefront;
use crate::front_shown::{cell_at, variables};
use crate::pieces::point_over;
use affine_form::{Form, Memory};
use affine_program::Program;
use dep_quast::reader::{Reader, reference};
use domain_count::rows_before;
use reuse_paths::{Piece, Target};
use std::alloc::Global;

/// A law: the piece of a sound wavefront term covers its footprint.
pub fn front_pieces_cover()
    ensures { FrontPiecesCover }
{}

/// The pieces of a wavefront term: one, the words of the nest's points.
pub fn front_pieces(
    alloc: Global,
    program: &Program,
    term: &Wavefront,
) -> Result<Vec<Piece>, Memory>
    requires { PartsFit (meaning program.now) (front_of term.now) }
    ensures pieces { IfOk result (λ pieces. map piece_of pieces.items ≡ front_pieces (meaning program.now) (front_of term.now)) }
    ensures fit { IfOk result (λ pieces. AllByRecursion (PieceFits (meaning program.now)) (map piece_of pieces.items)) }
{
    let mut pieces = Vec::new(alloc);
    pieces.push(front_piece(alloc, program, term)?)?;
    Ok(pieces)
}

/// The words of the nest's points.
fn front_piece(alloc: Global, program: &Program, term: &Wavefront) -> Result<Piece, Memory>
    requires { PartsFit (meaning program.now) (front_of term.now) }
    ensures piece { IfOk result (λ piece. piece_of piece ≡ front_piece (meaning program.now) (front_of term.now)) }
    ensures fits { IfOk result (λ piece. PieceFits (meaning program.now) (piece_of piece)) }
{
    let nest = rows_before(alloc, program, term.nest.bounds())?;
    // Their reader says that they are over the system's variables.
    let _rows = nest.rows();
    Ok(Piece {
        target: word_target(program, term),
        vars: term.nest.bounds().len() as u8,
        rows: nest,
        point: word_point(alloc, program, term)?,
    })
}

/// Whose vertices the words are: the array's that the user reads, where they are inputs, and else the statement's that wrote
/// them.
fn word_target(program: &Program, term: &Wavefront) -> Target
    requires { PartsFit (meaning program.now) (front_of term.now) }
    ensures { result ≡ front_target (meaning program.now) (front_of term.now) (option_map spot_of term.now.source) }
{
    match &term.source {
        None => Target::Cell(array_at(program, term)),
        Some(spot) => Target::Instance(spot.statement),
    }
}

/// The array that the user reads.
fn array_at(program: &Program, term: &Wavefront) -> u16
    requires { PartsFit (meaning program.now) (front_of term.now) }
    ensures { result ≡ (reference_of (meaning program.now) (user_read (front_of term.now))).array }
{
    let reader = Reader {
        statement: term.user.statement,
        read: term.read,
    };
    reference(program, reader).array
}

/// The subscripts or the loop values of the word, over the parameters and the nest's variables.
fn word_point(alloc: Global, program: &Program, term: &Wavefront) -> Result<Vec<Form>, Memory>
    requires { PartsFit (meaning program.now) (front_of term.now) }
    ensures point { IfOk result (λ point. point.items ≡ map (widened (front_variables (meaning program.now) (front_of term.now))) (word_forms (meaning program.now) (front_of term.now))) }
    ensures over { IfOk result (λ point. AllOver (front_variables (meaning program.now) (front_of term.now)) point.items) }
    ensures small { IfOk result (λ point. AllByRecursion (IsSmallForm PUT_SIZE) point.items) }
{
    let vars = variables(program, term);
    if let Some(source) = &term.source {
        return point_over(alloc, vars, source.point.as_slice());
    }
    let cell = cell_at(alloc, program, term)?;
    point_over(alloc, vars, cell.as_slice())
}
