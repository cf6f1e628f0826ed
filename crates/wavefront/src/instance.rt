//! The instance of a cold term at a point of its nest, and the cell that it reads.

ghost use Rattle.std.specs.Prelude.{◌≡◌, ◌≤◌, length, IfOk, ◌+◌};
ghost use Rattle.std.specs.List.{AllByRecursion};
ghost use Rattle.affine_form.specs.Form.{variables, IsSmallForm};
ghost use Rattle.affine_form.specs.Rows.{IsSmallOver};
ghost use Rattle.affine_program.specs.Parts.{meaning, IsProgram};
ghost use Rattle.dep_quast.specs.Context.{variables_at};
ghost use Rattle.wavefront.specs.Term.{instance_point, cell_forms, nest_variables};
ghost use Rattle.wavefront.specs.Loads.{TermFits};
ghost use Rattle.wavefront.specs.View.{term_of};
ghost use Rattle.iolb_model.specs.declared.limits.TheConstants.{PARAMETERS, NEST_VARIABLES, PUT_SIZE};

use crate::cold::Cold;
use affine_form::{Form, Memory, put_all, variables_from};
use affine_program::Program;
use claims::lists::followed_by;
use dep_quast::reader::{Reader, reference};
use std::alloc::Global;

/// How many variables there are: the parameters and the nest's.
pub(crate) fn variables(program: &Program, term: &Cold) -> usize
    requires { TermFits (meaning program.now) (term_of term.now) }
    ensures variables { result ≡ nest_variables (meaning program.now) (term_of term.now) }
    ensures few { result ≤ PARAMETERS + NEST_VARIABLES }
    ensures kept { IsProgram program.now }
{
    program.params().len() + term.nest.bounds().len()
}

/// The parameters and the loop values of the reading instance, over the parameters and the nest's variables.
pub(crate) fn instance_of(
    alloc: Global,
    program: &Program,
    term: &Cold,
) -> Result<Vec<Form>, Memory>
    requires { TermFits (meaning program.now) (term_of term.now) }
    ensures point { IfOk result (λ point. point.items ≡ instance_point (meaning program.now) (term_of term.now)) }
    ensures many { IfOk result (λ point. length point.items ≡ variables_at (meaning program.now) (term_of term.now).reader) }
    ensures over { IfOk result (λ point. AllByRecursion (IsSmallOver (nest_variables (meaning program.now) (term_of term.now))) point.items) }
{
    let vars = variables(program, term);
    let first = variables_from(alloc, vars, 0, program.params().len())?;
    followed_by(alloc, first, term.point.as_slice())
}

/// The cell that the instance reads, by its subscripts.
pub(crate) fn cell_of(alloc: Global, program: &Program, term: &Cold) -> Result<Vec<Form>, Memory>
    requires { TermFits (meaning program.now) (term_of term.now) }
    ensures cell { IfOk result (λ forms. forms.items ≡ cell_forms (meaning program.now) (term_of term.now)) }
    ensures within { IfOk result (λ forms. AllByRecursion (λ form. variables form ≤ nest_variables (meaning program.now) (term_of term.now)) forms.items) }
    ensures small { IfOk result (λ forms. AllByRecursion (IsSmallForm PUT_SIZE) forms.items) }
{
    let vars = variables(program, term);
    let point = instance_of(alloc, program, term)?;
    let reader = Reader {
        statement: term.statement,
        read: term.read,
    };
    let subscripts = reference(program, reader).subs.as_slice();
    put_all(alloc, vars, subscripts, point.as_slice())
}
