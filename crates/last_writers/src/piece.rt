//! The piece of an output's instances.

ghost use Rattle.std.specs.Prelude.{◌≡◌, map, IfOk};
ghost use Rattle.std.specs.List.{AllByRecursion};
ghost use Rattle.affine_form.specs.Form.{IsSmallForm};
ghost use Rattle.affine_form.specs.Rows.{widened};
ghost use Rattle.affine_form.specs.System.{AllOver};
ghost use Rattle.affine_program.specs.Parts.{meaning};
ghost use Rattle.footprint_pieces.specs.Pieces.{PieceFits, piece_of};
ghost use Rattle.iolb_model.specs.declared.limits.TheConstants.{PUT_SIZE};
ghost use Rattle.last_writers.specs.OutputClaims.{output_variables};
ghost use Rattle.last_writers.specs.Fitting.{OutputFits};
ghost use Rattle.last_writers.specs.Outputs.{OutputPiecesCover, output_piece};
ghost use Rattle.store_terms.specs.Claims.{claim_of_output};

use crate::output_shown::variables;
use affine_form::{Form, Memory};
use affine_program::Program;
use claims::lists::all_widened;
use domain_count::rows_before;
use footprint_pieces::{Piece, Target};
use std::alloc::Global;
use store_terms::Output;

/// A law: the piece of a sound output covers its instances.
pub fn output_pieces_cover()
    ensures { OutputPiecesCover }
{}

/// The piece of an output: the instances of its nest's points.
pub fn output_piece(alloc: Global, program: &Program, output: &Output) -> Result<Piece, Memory>
    requires { OutputFits (meaning program.now) (claim_of_output output.now) }
    ensures piece { IfOk result (λ piece. piece_of piece ≡ output_piece (meaning program.now) (claim_of_output output.now)) }
    ensures fits { IfOk result (λ piece. PieceFits (meaning program.now) (piece_of piece)) }
{
    let nest = rows_before(alloc, program, output.nest.bounds())?;
    // Their reader says that they are over the system's variables.
    let _rows = nest.rows();
    Ok(Piece {
        target: Target::Instance(output.statement),
        vars: output.nest.bounds().len() as u8,
        rows: nest,
        point: wide_point(alloc, program, output)?,
    })
}

/// The loop values of the instances, over the parameters and the nest's variables.
fn wide_point(alloc: Global, program: &Program, output: &Output) -> Result<Vec<Form>, Memory>
    requires { OutputFits (meaning program.now) (claim_of_output output.now) }
    ensures point { IfOk result (λ point. point.items ≡ map (widened (output_variables (meaning program.now) (claim_of_output output.now))) output.now.point.items) }
    ensures over { IfOk result (λ point. AllOver (output_variables (meaning program.now) (claim_of_output output.now)) point.items) }
    ensures small { IfOk result (λ point. AllByRecursion (IsSmallForm PUT_SIZE) point.items) }
{
    let vars = variables(program, output);
    all_widened(alloc, vars, output.point.as_slice())
}
