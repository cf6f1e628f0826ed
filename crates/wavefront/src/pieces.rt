//! The pieces of a cold term's footprint.

ghost use Rattle.std.specs.Prelude.{◌≡◌, ◌≤◌, ◌++◌, length, map, Some, IfOk};
ghost use Rattle.std.specs.List.{AllByRecursion};
ghost use Rattle.affine_form.specs.Form.{variables as form_variables, IsSmallForm};
ghost use Rattle.affine_form.specs.Rows.{widened};
ghost use Rattle.affine_form.specs.System.{AllOver};
ghost use Rattle.affine_program.specs.Parts.{meaning};
ghost use Rattle.claims.specs.Shown.{IsFew};
ghost use Rattle.dep_quast.specs.Context.{reference_of};
ghost use Rattle.dep_quast.specs.Tree.{tree_of};
ghost use Rattle.reuse_paths.specs.LeafClaims.{claim_of};
ghost use Rattle.dep_quast.specs.OpenLeaves.{OpenLeaf as open_leaf};
ghost use Rattle.footprint_pieces.specs.Pieces.{PieceFits, piece_of};
ghost use Rattle.dep_quast.specs.Quasts.{tree_at, tree_for, trees_of};
ghost use Rattle.wavefront.specs.ColdPieces.{ColdPiecesCover, LeavesAreFew, cold_pieces, leaf_piece, rows_at_leaf, stop_pieces};
ghost use Rattle.wavefront.specs.Loads.{ColdFits, TermFits};
ghost use Rattle.wavefront.specs.Term.{cell_forms, nest_variables};
ghost use Rattle.wavefront.specs.View.{term_of};
ghost use Rattle.iolb_model.specs.declared.limits.TheConstants.{PUT_SIZE, ROWS, VARIABLES};

use crate::cold::Cold;
use crate::cold_shown::leaves_of;
use crate::instance::{cell_of, variables};
use affine_form::{Form, Memory, system_of};
use affine_program::Program;
use claims::lists::{all_widened, followed_by};
use dep_quast::Quast;
use dep_quast::open_leaves::OpenLeaf;
use dep_quast::reader::{Reader, reference};
use domain_count::rows_before;
use reuse_paths::{Leaf, Piece, Quasts, Target};
use std::alloc::Global;

/// A law: the pieces of a cold term whose claims hold cover its footprint.
pub fn cold_pieces_cover()
    ensures { ColdPiecesCover }
{}

/// The pieces of a cold term over the source tree of its read: one for each leaf at which an entry says that a walk stops.
/// Each is the cells that the points read which come to the leaf.
pub fn cold_pieces(
    alloc: Global,
    program: &Program,
    quasts: &Quasts,
    term: &Cold,
) -> Result<Vec<Piece>, Memory>
    requires there { tree_at (trees_of quasts.now) term.now.statement term.now.read ≡ Some (tree_for (trees_of quasts.now) (term_of term.now).reader) }
    requires fits { ColdFits (meaning program.now) (tree_for (trees_of quasts.now) (term_of term.now).reader) (term_of term.now) }
    requires few { LeavesAreFew (meaning program.now) (tree_for (trees_of quasts.now) (term_of term.now).reader) (term_of term.now) }
    ensures pieces { IfOk result (λ pieces. map piece_of pieces.items ≡ cold_pieces (meaning program.now) (tree_for (trees_of quasts.now) (term_of term.now).reader) (term_of term.now)) }
    ensures fit { IfOk result (λ pieces. AllByRecursion (PieceFits (meaning program.now)) (map piece_of pieces.items)) }
{
    let Some(quast) = quasts.tree(term.statement, term.read) else {
        unreachable!();
    };
    pieces_over(alloc, program, quast, term)
}

/// The pieces of a cold term over this source tree.
fn pieces_over(
    alloc: Global,
    program: &Program,
    quast: &Quast,
    term: &Cold,
) -> Result<Vec<Piece>, Memory>
    requires fits { ColdFits (meaning program.now) (tree_of quast.now) (term_of term.now) }
    requires few { LeavesAreFew (meaning program.now) (tree_of quast.now) (term_of term.now) }
    ensures pieces { IfOk result (λ pieces. map piece_of pieces.items ≡ cold_pieces (meaning program.now) (tree_of quast.now) (term_of term.now)) }
    ensures fit { IfOk result (λ pieces. AllByRecursion (PieceFits (meaning program.now)) (map piece_of pieces.items)) }
{
    let leaves = leaves_of(alloc, program, quast, term)?;
    pieces_at(
        alloc,
        program,
        term,
        leaves.as_slice(),
        term.leaves.as_slice(),
    )
}

/// The pieces of leaves at which the entries say that a walk stops.
fn pieces_at(
    alloc: Global,
    program: &Program,
    term: &Cold,
    leaves: &[OpenLeaf],
    entries: &[Leaf],
) -> Result<Vec<Piece>, Memory>
    requires fits { TermFits (meaning program.now) (term_of term.now) }
    requires one_each { length entries.now ≡ length leaves.now }
    requires over { AllByRecursion (λ (l : open_leaf). AllOver (nest_variables (meaning program.now) (term_of term.now)) l.tests) leaves.now }
    requires few { AllByRecursion (λ (l : open_leaf). IsFew (length (rows_at_leaf (meaning program.now) (term_of term.now) l.tests))) leaves.now }
    ensures pieces { IfOk result (λ pieces. map piece_of pieces.items ≡ stop_pieces (meaning program.now) (term_of term.now) leaves.now (map claim_of entries.now)) }
    ensures fit { IfOk result (λ pieces. AllByRecursion (PieceFits (meaning program.now)) (map piece_of pieces.items)) }
{
    let mut pieces = Vec::new(alloc);
    for i in 0..leaves.len() {
        if entries[i].is_stop() {
            pieces.push(leaf_piece(alloc, program, term, &leaves[i])?)?;
        }
    }
    Ok(pieces)
}

/// The piece of the points that come to a leaf.
fn leaf_piece(
    alloc: Global,
    program: &Program,
    term: &Cold,
    leaf: &OpenLeaf,
) -> Result<Piece, Memory>
    requires fits { TermFits (meaning program.now) (term_of term.now) }
    requires over { AllOver (nest_variables (meaning program.now) (term_of term.now)) leaf.now.tests }
    requires few { length (rows_at_leaf (meaning program.now) (term_of term.now) leaf.now.tests) ≤ ROWS }
    ensures piece { IfOk result (λ piece. piece_of piece ≡ leaf_piece (meaning program.now) (term_of term.now) leaf.now.tests) }
    ensures fits { IfOk result (λ piece. PieceFits (meaning program.now) (piece_of piece)) }
{
    let vars = variables(program, term);
    let nest = rows_before(alloc, program, term.nest.bounds())?;
    let front = followed_by(alloc, Vec::new(alloc), nest.rows())?;
    let rows = followed_by(alloc, front, leaf.tests.as_slice())?;
    Ok(Piece {
        target: Target::Cell(array_of(program, term)),
        vars: term.nest.bounds().len() as u8,
        rows: system_of(alloc, vars, rows.as_slice())?,
        point: cell_point(alloc, program, term)?,
    })
}

/// The array that a cold term reads.
fn array_of(program: &Program, term: &Cold) -> u16
    requires { TermFits (meaning program.now) (term_of term.now) }
    ensures { result ≡ (reference_of (meaning program.now) (term_of term.now).reader).array }
{
    let reader = Reader {
        statement: term.statement,
        read: term.read,
    };
    reference(program, reader).array
}

/// The subscripts that it reads, over the parameters and the nest's variables.
fn cell_point(alloc: Global, program: &Program, term: &Cold) -> Result<Vec<Form>, Memory>
    requires { TermFits (meaning program.now) (term_of term.now) }
    ensures point { IfOk result (λ point. point.items ≡ map (widened (nest_variables (meaning program.now) (term_of term.now))) (cell_forms (meaning program.now) (term_of term.now))) }
    ensures over { IfOk result (λ point. AllOver (nest_variables (meaning program.now) (term_of term.now)) point.items) }
    ensures small { IfOk result (λ point. AllByRecursion (IsSmallForm PUT_SIZE) point.items) }
{
    let vars = variables(program, term);
    let cell = cell_of(alloc, program, term)?;
    point_over(alloc, vars, cell.as_slice())
}

/// Forms read over so many variables, as a piece's point.
pub(crate) fn point_over(alloc: Global, vars: usize, forms: &[Form]) -> Result<Vec<Form>, Memory>
    requires few { vars ≤ VARIABLES }
    requires within { AllByRecursion (λ form. form_variables form ≤ vars) forms.now }
    requires small { AllByRecursion (IsSmallForm PUT_SIZE) forms.now }
    ensures point { IfOk result (λ point. point.items ≡ map (widened vars) forms.now) }
    ensures over { IfOk result (λ point. AllOver vars point.items) }
    ensures small { IfOk result (λ point. AllByRecursion (IsSmallForm PUT_SIZE) point.items) }
{
    all_widened(alloc, vars, forms)
}
