//! The rows which say that two pieces have one vertex.

ghost use Rattle.std.specs.Prelude.{◌≡◌, ◌≤◌, ◌+◌, length, map, drop, IfOk};
ghost use Rattle.std.specs.List.{AllByRecursion};
ghost use Rattle.affine_form.specs.Form.{variables, IsSmallForm};
ghost use Rattle.affine_form.specs.System.{AllOver};
ghost use Rattle.affine_program.specs.Parts.{meaning};
ghost use Rattle.footprint_pieces.specs.DisjointClaims.{moved, same_target, shared_rows, shared_variables};
ghost use Rattle.footprint_pieces.specs.Pieces.{PieceFits, piece_of};
ghost use Rattle.iolb_model.specs.declared.limits.TheConstants.{NEST_VARIABLES, PUT_SIZE, VARIABLES};

use crate::piece::{Piece, Target};
use affine_form::{Form, Memory};
use affine_program::Program;
use claims::lists::{all_widened, equal_rows, followed_by};
use std::alloc::Global;

/// Whether two targets are one.
pub(crate) fn is_same(one: &Target, other: &Target) -> bool
    ensures { result ≡ same_target one.now other.now }
{
    match (one, other) {
        (Target::Cell(array), Target::Cell(same)) => array == same,
        (Target::Instance(statement), Target::Instance(same)) => statement == same,
        _ => false,
    }
}

/// How many variables two pieces have: the parameters, those of the first, and those of the second.
pub(crate) fn variables_of(program: &Program, first: &Piece, second: &Piece) -> usize
    requires first { first.now.vars ≤ NEST_VARIABLES }
    requires second { second.now.vars ≤ NEST_VARIABLES }
    ensures variables { result ≡ shared_variables (meaning program.now) (piece_of first.now) (piece_of second.now) }
    ensures few { result ≤ VARIABLES }
{
    program.params().len() + usize::from(first.vars) + usize::from(second.vars)
}

/// A form with so many variables more, of coefficient 0, in front of those from a place on.
fn moved(alloc: Global, place: usize, more: usize, form: &Form) -> Result<Form, Memory>
    requires there { place ≤ variables form.now }
    requires few { variables form.now + more ≤ VARIABLES }
    ensures { IfOk result (λ wide. wide ≡ moved place more form.now) }
{
    let coef = form.coef();
    let (front, behind) = coef.split_at(place);
    let mut wide = Vec::from_slice(alloc, front)?;
    let zeros = vec![in alloc; 0; more]?;
    wide.extend_from_slice(zeros.as_slice())?;
    wide.extend_from_slice(behind)?;
    Ok(Form::new(wide, form.constant()))
}

/// Forms with so many variables more in front of those from a place on.
fn all_moved(alloc: Global, place: usize, more: usize, forms: &[Form]) -> Result<Vec<Form>, Memory>
    requires there { AllByRecursion (λ form. place ≤ variables form) forms.now }
    requires few { AllByRecursion (λ form. variables form + more ≤ VARIABLES) forms.now }
    ensures { IfOk result (λ all. all.items ≡ map (moved place more) forms.now) }
{
    let mut all = Vec::new(alloc);
    for form in forms {
        all.push(moved(alloc, place, more, form)?)?;
    }
    Ok(all)
}

/// The rows of a piece without the assumptions, with so many variables more in front of its own.
fn rows_behind(
    alloc: Global,
    program: &Program,
    piece: &Piece,
    more: usize,
) -> Result<Vec<Form>, Memory>
    requires fits { PieceFits (meaning program.now) (piece_of piece.now) }
    requires few { more ≤ NEST_VARIABLES }
    ensures rows { IfOk result (λ rows. rows.items ≡ map (moved (length program.now.params) more) (drop (length program.now.assumed.rows) piece.now.rows.rows)) }
    ensures over { IfOk result (λ rows. AllOver (length program.now.params + more + piece.now.vars) rows.items) }
{
    let params = program.params().len();
    let assumed = program.assumed().rows().len();
    let (_assumed, rows) = piece.rows.rows().split_at(assumed);
    all_moved(alloc, params, more, rows)
}

/// The point of a piece, with so many variables more in front of its own.
fn point_behind(
    alloc: Global,
    program: &Program,
    piece: &Piece,
    more: usize,
) -> Result<Vec<Form>, Memory>
    requires fits { PieceFits (meaning program.now) (piece_of piece.now) }
    requires few { more ≤ NEST_VARIABLES }
    ensures point { IfOk result (λ point. point.items ≡ map (moved (length program.now.params) more) piece.now.point.items) }
    ensures over { IfOk result (λ point. AllOver (length program.now.params + more + piece.now.vars) point.items) }
    ensures small { IfOk result (λ point. AllByRecursion (IsSmallForm PUT_SIZE) point.items) }
{
    let params = program.params().len();
    all_moved(alloc, params, more, piece.point.as_slice())
}

/// The rows which say that two pieces have one vertex.
pub(crate) fn rows_of(
    alloc: Global,
    program: &Program,
    first: &Piece,
    second: &Piece,
) -> Result<Vec<Form>, Memory>
    requires first { PieceFits (meaning program.now) (piece_of first.now) }
    requires second { PieceFits (meaning program.now) (piece_of second.now) }
    ensures rows { IfOk result (λ rows. rows.items ≡ shared_rows (meaning program.now) (piece_of first.now) (piece_of second.now)) }
    ensures over { IfOk result (λ rows. AllOver (shared_variables (meaning program.now) (piece_of first.now) (piece_of second.now)) rows.items) }
{
    let vars = variables_of(program, first, second);
    let more = usize::from(first.vars);
    let front = all_widened(alloc, vars, first.rows.rows())?;
    let behind = rows_behind(alloc, program, second, more)?;
    let point = point_behind(alloc, program, second, more)?;
    let equal = equal_rows(alloc, vars, first.point.as_slice(), point.as_slice())?;
    let both = followed_by(alloc, front, behind.as_slice())?;
    followed_by(alloc, both, equal.as_slice())
}
