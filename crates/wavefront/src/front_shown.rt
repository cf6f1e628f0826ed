//! Whether what a wavefront term claims of its instances is shown.
#![tactic(auto, using(claims::proofs::Found::in_a_row))]

ghost use Rattle.std.specs.Prelude.{◌≡◌, ◌+◌, ◌≤◌, ◌↔◌, ◌++◌, ◌∷◌, [], length, Some, None, IfOk, IsTrue, codes};
ghost use Rattle.std.specs.List.{AllByRecursion};
ghost use Rattle.affine_form.specs.Form.{variables as form_variables, IsSmallForm};
ghost use Rattle.affine_form.specs.Rows.{IsSmallOver};
ghost use Rattle.affine_program.specs.Parts.{meaning, IsProgram};
ghost use Rattle.claims.specs.Claims.{Decides};
ghost use Rattle.claims.specs.declared.place.Step.TheVariants.{Index, Key};
ghost use Rattle.dep_quast.specs.Context.{variables_at};
ghost use Rattle.wavefront.specs.FrontClaims.{front_goals, front_inside, front_variables, outer_claims, telling_forms, user_point, word_claims, IsWithoutPast};
ghost use Rattle.wavefront.specs.FrontFits.{PartsFit};
ghost use Rattle.wavefront.specs.FrontTerm.{user_read};
ghost use Rattle.wavefront.specs.View.{front_of};
ghost use Rattle.iolb_model.specs.declared.limits.TheConstants.{PARAMETERS, NEST_VARIABLES, PUT_SIZE};

use crate::front::Wavefront;
use crate::inverse_shown::inverse_shown;
use affine_form::{Form, Memory, put_all, variables_from};
use affine_program::Program;
use claims::lists::followed_by;
use claims::shown::goals_shown;
use claims::{ObjectKey, Place, Refused, Step, refusal};
use dep_quast::point_rows::domain_rows;
use dep_quast::reader::{Reader, reference};
use domain_count::rows_before;
use std::alloc::Global;

/// How many variables there are: the parameters and the nest's.
pub(crate) fn variables(program: &Program, term: &Wavefront) -> usize
    requires { PartsFit (meaning program.now) (front_of term.now) }
    ensures variables { result ≡ front_variables (meaning program.now) (front_of term.now) }
    ensures few { result ≤ PARAMETERS + NEST_VARIABLES }
    ensures kept { IsProgram program.now }
{
    program.params().len() + term.nest.bounds().len()
}

/// The parameters and the loop values of the user, over the parameters and the nest's variables.
pub(crate) fn user_at(
    alloc: Global,
    program: &Program,
    term: &Wavefront,
) -> Result<Vec<Form>, Memory>
    requires { PartsFit (meaning program.now) (front_of term.now) }
    ensures point { IfOk result (λ point. point.items ≡ user_point (meaning program.now) (front_of term.now)) }
    ensures many { IfOk result (λ point. length point.items ≡ variables_at (meaning program.now) (user_read (front_of term.now))) }
    ensures over { IfOk result (λ point. AllByRecursion (IsSmallOver (front_variables (meaning program.now) (front_of term.now))) point.items) }
{
    let vars = variables(program, term);
    let first = variables_from(alloc, vars, 0, program.params().len())?;
    followed_by(alloc, first, term.user.point.as_slice())
}

/// The rows which say that the user, the vertex and the word's instance, if it has one, are in their domains.
fn goals_of(alloc: Global, program: &Program, term: &Wavefront) -> Result<Vec<Form>, Memory>
    requires { PartsFit (meaning program.now) (front_of term.now) }
    ensures { IfOk result (λ goals. goals.items ≡ front_goals (meaning program.now) (front_of term.now)) }
{
    let vars = variables(program, term);
    let (user, vertex) = (&term.user, &term.vertex);
    let first = domain_rows(alloc, program, vars, user.statement, user.point.as_slice())?;
    let second = domain_rows(
        alloc,
        program,
        vars,
        vertex.statement,
        vertex.point.as_slice(),
    )?;
    let both = followed_by(alloc, first, second.as_slice())?;
    let Some(source) = &term.source else {
        return Ok(both);
    };
    let third = domain_rows(
        alloc,
        program,
        vars,
        source.statement,
        source.point.as_slice(),
    )?;
    followed_by(alloc, both, third.as_slice())
}

/// Whether the instances are shown to be in their statements' domains.
pub(crate) fn front_inside_shown(
    alloc: Global,
    program: &Program,
    term: &Wavefront,
    place: &Place,
) -> Result<(), Refused>
    requires { PartsFit (meaning program.now) (front_of term.now) }
    ensures { Decides (front_inside (meaning program.now) place.now (front_of term.now)) result }
{
    let goals = goals_of(alloc, program, term)?;
    let system = rows_before(alloc, program, term.nest.bounds())?;
    let list = place.within(alloc, Step::Key(ObjectKey("inside")))?;
    goals_shown(
        alloc,
        10,
        &list,
        &system,
        goals.as_slice(),
        term.inside.as_slice(),
    )
}

/// Whether the vertex depends on the outer variables alone.
pub(crate) fn outer_shown(
    alloc: Global,
    program: &Program,
    term: &Wavefront,
    place: &Place,
) -> Result<(), Refused>
    requires { PartsFit (meaning program.now) (front_of term.now) }
    ensures { Decides (outer_claims (meaning program.now) place.now (front_of term.now)) result }
{
    let _vars = variables(program, term);
    let first = program.params().len() + usize::from(term.outer);
    for (i, form) in term.vertex.point.iter().enumerate() {
        if !is_without(form, first) {
            let form = outer_place(alloc, place, i)?;
            return Err(refusal(alloc, 22, &form));
        }
    }
    Ok(())
}

/// Whether the coefficients of the variables past so many are 0.
fn is_without(form: &Form, first: usize) -> bool
    requires { first ≤ form_variables form.now }
    ensures { IsTrue result ↔ IsWithoutPast first form.now }
{
    form.coef()[first..].iter().all(|c| *c == 0)
}

/// The place of a form of the vertex.
fn outer_place(alloc: Global, place: &Place, i: usize) -> Result<Place, Memory>
    ensures { IfOk result (λ form. form ≡ place.now ++ Key (codes "vertex") ∷ Key (codes "point") ∷ Index i ∷ []) }
{
    let vertex = place.within(alloc, Step::Key(ObjectKey("vertex")))?;
    let point = vertex.within(alloc, Step::Key(ObjectKey("point")))?;
    point.within(alloc, Step::Index(i as u64))
}

/// Whether the matrix turns what tells the words apart back into the scale times the nest's variables: the subscripts of the
/// cell where the word is an input, and else the loop values of its instance.
pub(crate) fn words_shown(
    alloc: Global,
    program: &Program,
    term: &Wavefront,
    place: &Place,
) -> Result<(), Refused>
    requires { PartsFit (meaning program.now) (front_of term.now) }
    ensures { Decides (word_claims (meaning program.now) place.now (front_of term.now)) result }
{
    let params = program.params().len();
    let size = term.nest.bounds().len();
    let inverse = &term.inverse;
    if let Some(source) = &term.source {
        let forms = source.point.as_slice();
        return inverse_shown(alloc, inverse, forms, params, size, place);
    }
    let cell = cell_at(alloc, program, term)?;
    inverse_shown(alloc, inverse, cell.as_slice(), params, size, place)
}

/// The cell that the user reads, by its subscripts.
pub(crate) fn cell_at(
    alloc: Global,
    program: &Program,
    term: &Wavefront,
) -> Result<Vec<Form>, Memory>
    requires { PartsFit (meaning program.now) (front_of term.now) }
    ensures cell { IfOk result (λ forms. forms.items ≡ telling_forms (meaning program.now) (front_of term.now) None) }
    ensures within { IfOk result (λ forms. AllByRecursion (λ form. form_variables form ≤ front_variables (meaning program.now) (front_of term.now)) forms.items) }
    ensures small { IfOk result (λ forms. AllByRecursion (IsSmallForm PUT_SIZE) forms.items) }
{
    let vars = variables(program, term);
    let point = user_at(alloc, program, term)?;
    let reader = Reader {
        statement: term.user.statement,
        read: term.read,
    };
    let subscripts = reference(program, reader).subs.as_slice();
    put_all(alloc, vars, subscripts, point.as_slice())
}
