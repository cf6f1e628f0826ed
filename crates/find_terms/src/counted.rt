//! Counts of nests, with multipliers that are as short as is wanted.

ghost use Rattle.std.specs.Prelude.{◌≡◌, ◌+◌, ◌≤◌, ◌<◌, [], ◌∷◌, length, IfOk, OnOk, MatchOption, IsTrue, ◌↔◌};
ghost use Rattle.affine_form.specs.Rows.{BoundsFit, IsSmallOver};
ghost use Rattle.affine_program.specs.Parts.{meaning};
ghost use Rattle.flow_deps.specs.Answers.{Answers, HasNoShort, following};
ghost use Rattle.claims.specs.Shown.{IsFew};
ghost use Rattle.domain_count.specs.Count.{rows_before, range_goal};
ghost use Rattle.projective_bounds.specs.HeldColds.{ArePolynomials};
ghost use Rattle.find_terms.specs.Counted.{FindsCount, FindsRanges};
ghost use Rattle.iolb_model.specs.declared.limits.TheConstants.{NEST_VARIABLES, PARAMETERS};

use affine_form::{Form, Memory, Multipliers, difference};
use affine_program::Program;
use certificate_fit::lists::all_polynomials_fit;
use certificate_fit::part_limits::are_small_polynomials;
use claims::{ObjectKey, Place, Refused};
use domain_count::{CountFault, Nest, Sums, make_count, rows_before};
use flow_deps::{Wanted, goals_answered, with_answers};
use poly_tree::Poly;
use std::alloc::Global;

/// What is claimed of a nest's number of points, found. None only where no claims with short lists are right, with the
/// polynomials of the summation and within the limits of certificates.
pub(crate) fn counted(
    alloc: Global,
    wanted: Wanted,
    program: &Program,
    nest: &Nest,
) -> Result<Option<Sums>, Memory>
    requires few { length nest.now ≤ NEST_VARIABLES }
    requires fit { BoundsFit (length program.now.params) nest.now }
    ensures { IfOk result (λ found. FindsCount wanted (meaning program.now) nest.now found) }
{
    let Some(shown) = ranges_answered(alloc, wanted, program, nest.bounds())? else {
        return Ok(None);
    };
    let made = match make_count(alloc, program, nest) {
        Ok(made) => made,
        Err(CountFault::NotProved(_)) => return Ok(None),
        Err(CountFault::Wide) => return Ok(None),
        Err(CountFault::Memory) => return Err(Memory),
    };
    let params = program.params().len();
    let fit = are_polynomials(alloc, params, nest, made.sums())?;
    if !fit {
        return Ok(None);
    }
    let sums = copies(alloc, made.sums())?;
    Ok(Some(Sums::new(shown, sums)))
}

/// Whether a nest's polynomials are within the limits of certificates, and each uses the parameters and the variables up
/// to its own.
fn are_polynomials(alloc: Global, params: usize, nest: &Nest, sums: &[Poly]) -> Result<bool, Memory>
    requires few { params ≤ PARAMETERS }
    ensures { IfOk result (λ yes. IsTrue yes ↔ ArePolynomials params nest.now sums.now) }
{
    let place = Place::new(Vec::new(alloc));
    let called = nest.bounds().len();
    match all_polynomials_fit(alloc, &place, ObjectKey("sums"), params, sums, called) {
        Ok(()) => Ok(are_small_polynomials(sums)),
        Err(Refused::Failed(_)) => Ok(false),
        Err(Refused::Memory) => Err(Memory),
    }
}

/// Copies of polynomials.
fn copies(alloc: Global, sums: &[Poly]) -> Result<Vec<Poly>, Memory>
    ensures { IfOk result (λ all. all.items ≡ sums.now) }
{
    let mut all = Vec::new(alloc);
    for sum in sums {
        all.push(sum.try_clone(alloc)?)?;
    }
    Ok(all)
}

/// Multipliers that show that the range of each variable is whole. None only where some range has no short list.
fn ranges_answered(
    alloc: Global,
    wanted: Wanted,
    program: &Program,
    bounds: &[(Form, Form)],
) -> Result<Option<Vec<Multipliers>>, Memory>
    requires few { length bounds.now ≤ NEST_VARIABLES }
    requires fit { BoundsFit (length program.now.params) bounds.now }
    ensures { IfOk result (λ found. FindsRanges wanted (meaning program.now) bounds.now found) }
{
    let mut all = Vec::new(alloc);
    for k in 0..bounds.len() {
        let Some(shown) = range_answered(alloc, wanted, program, &bounds[..k], &bounds[k])? else {
            return Ok(None);
        };
        all = with_answers(all, shown)?;
    }
    Ok(Some(all))
}

/// Multipliers that show that the range of a variable behind others is whole, alone in a list.
fn range_answered(
    alloc: Global,
    wanted: Wanted,
    program: &Program,
    before: &[(Form, Form)],
    bounds: &(Form, Form),
) -> Result<Option<Vec<Multipliers>>, Memory>
    requires few { length before.now < NEST_VARIABLES }
    requires fit { BoundsFit (length program.now.params) before.now }
    requires lower { IsSmallOver (length program.now.params + length before.now) bounds.now.0 }
    requires upper { IsSmallOver (length program.now.params + length before.now) bounds.now.1 }
    ensures few { OnOk result (IsFew (length (rows_before (meaning program.now) before.now).rows)) }
    ensures answers { IfOk result (λ found. let system = rows_before (meaning program.now) before.now in
        let questions = following system (range_goal (length program.now.params + length before.now) bounds.now ∷ []) in
        MatchOption found (HasNoShort questions) (λ shown. Answers wanted questions shown.items)) }
{
    let vars = program.params().len() + before.len();
    let system = rows_before(alloc, program, before)?;
    let _rows = system.rows();
    let mut goals = Vec::new(alloc);
    goals.push(difference(alloc, vars, &bounds.1, &bounds.0, 1)?)?;
    goals_answered(alloc, wanted, &system, goals.as_slice())
}
