//! The rows of a leaf.

ghost use Rattle.std.specs.Prelude.{◌≡◌, ◌<◌, ◌++◌, ◌∷◌, [], length, IfOk};
ghost use Rattle.affine_form.specs.System.{AllOver};
ghost use Rattle.affine_form.specs.Rows.{IsSmallOver};
ghost use Rattle.affine_program.specs.Parts.{meaning};
ghost use Rattle.dep_quast.specs.Context.{variables_at, context, no_row};
ghost use Rattle.dep_quast.specs.Views.{read_of};

use crate::reader::{Reader, variables};
use affine_form::{Form, Memory, difference};
use affine_program::Program;
use claims::lists::{all_widened, followed_by, with_form};
use std::alloc::Global;

/// The rows of a leaf under these tests: the assumptions, the domain of the reading statement, and the tests.
pub fn context_rows(
    alloc: Global,
    program: &Program,
    reader: Reader,
    tests: &[Form],
) -> Result<Vec<Form>, Memory>
    requires there { reader.statement < length program.now.statements }
    requires tests_over { AllOver (variables_at (meaning program.now) (read_of reader)) tests.now }
    ensures rows { IfOk result (λ rows. rows.items ≡ context (meaning program.now) (read_of reader) tests.now) }
    ensures over { IfOk result (λ rows. AllOver (variables_at (meaning program.now) (read_of reader)) rows.items) }
{
    let vars = variables(program, reader);
    let assumed = all_widened(alloc, vars, program.assumed().rows())?;
    let domain = program.domain(alloc, reader.statement)?;
    let rows = followed_by(alloc, assumed, domain.rows())?;
    followed_by(alloc, rows, tests)
}

/// The tests on the way to the side where the form is at least 0.
pub fn tests_of_yes(alloc: Global, tests: &[Form], form: &Form) -> Result<Vec<Form>, Memory>
    ensures { IfOk result (λ all. all.items ≡ tests.now ++ form.now ∷ []) }
{
    with_form(alloc, tests, form.try_clone(alloc)?)
}

/// The tests on the way to the side where the form is at most -1.
pub fn tests_of_no(
    alloc: Global,
    program: &Program,
    reader: Reader,
    tests: &[Form],
    form: &Form,
) -> Result<Vec<Form>, Memory>
    requires there { reader.statement < length program.now.statements }
    requires tests_over { AllOver (variables_at (meaning program.now) (read_of reader)) tests.now }
    requires over { IsSmallOver (variables_at (meaning program.now) (read_of reader)) form.now }
    ensures tests { IfOk result (λ all. all.items ≡ tests.now ++ no_row (variables_at (meaning program.now) (read_of reader)) form.now ∷ []) }
    ensures all_over { IfOk result (λ all. AllOver (variables_at (meaning program.now) (read_of reader)) all.items) }
{
    let zero = Form::new(Vec::new(alloc), 0);
    let row = difference(alloc, variables(program, reader), &zero, form, -1)?;
    with_form(alloc, tests, row)
}
