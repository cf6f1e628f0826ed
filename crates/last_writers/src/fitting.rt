//! Whether outputs fit a program.
#![tactic(auto, using(claims::proofs::Found::in_a_row))]

ghost use Rattle.std.specs.Prelude.{◌≡◌, ◌<◌, ◌≤◌, ◌+◌, ◌==◌, ◌++◌, ◌∷◌, [], if◌then◌else◌, length, suc, codes, OnOk};
ghost use Rattle.affine_program.specs.Parts.{meaning};
ghost use Rattle.claims.specs.Claims.{Decides, IsRefusalAt};
ghost use Rattle.claims.specs.declared.place.Step.TheVariants.{Key};
ghost use Rattle.dep_quast.specs.Levels.{level_count};
ghost use Rattle.iolb_model.specs.Program.{statement_at};
ghost use Rattle.iolb_model.specs.declared.limits.TheConstants.{LOOPS};
ghost use Rattle.last_writers.specs.Fitting.{FitsOutput};
ghost use Rattle.last_writers.specs.OutputFit.{later_count, output_back_fit, output_fit, output_front_fit, point_fit};
ghost use Rattle.last_writers.specs.OutputClaims.{later_writes, output_variables};
ghost use Rattle.store_terms.specs.Claims.{claim_of_output};
ghost use Rattle.store_terms.specs.Limits.{IsSmallOutput};

use affine_form::Memory;
use affine_program::Program;
use certificate_fit::counts::{domain_size, loops_around};
use certificate_fit::lists::{all_bounds_fit, all_forms_fit, all_sums_fit, misfit};
use claims::{ObjectKey, Place, Refused, Step};
use dep_quast::levels::level_count;
use dep_quast::reader::written;
use std::alloc::Global;
use store_terms::Output;

/// At how many levels a statement may come after another, if it writes that one's array, and else 0.
fn levels_of(program: &Program, statement: u16, writer: u16) -> usize
    requires statement { statement < length program.now.statements }
    requires writer { writer < length program.now.statements }
    ensures count { result ≡ (if (statement_at (meaning program.now) writer).writes.array == (statement_at (meaning program.now) statement).writes.array
        then level_count (meaning program.now) statement writer else 0) }
    ensures few { result ≤ suc LOOPS }
{
    if written(program, writer).array == written(program, statement).array {
        level_count(program, statement, writer)
    } else {
        0
    }
}

/// How many later writes an output has to show not to be there, where its statement is.
fn later_levels(program: &Program, output: &Output) -> usize
    requires { output.now.statement < length program.now.statements }
    ensures { result ≡ length (later_writes (meaning program.now) (claim_of_output output.now)) }
{
    let mut total = 0;
    for writer in 0..program.statements().len() {
        total += levels_of(program, output.statement, writer as u16);
    }
    total
}

/// How many later writes an output has to show not to be there.
fn later_count(program: &Program, output: &Output) -> usize
    ensures { result ≡ later_count (meaning program.now) (claim_of_output output.now) }
{
    if usize::from(output.statement) < program.statements().len() {
        later_levels(program, output)
    } else {
        0
    }
}

/// The refusal of the inverse's matrix.
fn matrix_misfit(alloc: Global, place: &Place) -> Refused
    ensures { IsRefusalAt 1 (place.now ++ Key (codes "inverse") ∷ Key (codes "matrix") ∷ []) result }
{
    match place.within(alloc, Step::Key(ObjectKey("inverse"))) {
        Ok(inverse) => misfit(alloc, &inverse, Step::Key(ObjectKey("matrix"))),
        Err(Memory) => Refused::Memory,
    }
}

/// How many columns a matrix with so many rows has: so many where it has a row.
fn columns_called(rows: usize, called: usize) -> usize
    ensures { result ≡ (if rows == 0 then 0 else called) }
{
    if rows == 0 { 0 } else { called }
}

/// Whether what is said fits of an output at this place, up to its nest.
fn front_fits(
    alloc: Global,
    program: &Program,
    place: &Place,
    output: &Output,
) -> Result<(), Refused>
    ensures { Decides (output_front_fit (meaning program.now) place.now (claim_of_output output.now)) result }
{
    let loops = loops_around(program, output.statement);
    if output.inside.as_slice().len() != domain_size(program, output.statement) {
        return Err(misfit(alloc, place, Step::Key(ObjectKey("inside"))));
    }
    let matrix = &output.inverse.matrix;
    if matrix.rows() != output.nest.bounds().len() {
        return Err(matrix_misfit(alloc, place));
    }
    if matrix.cols() != columns_called(matrix.rows(), loops) {
        return Err(matrix_misfit(alloc, place));
    }
    if output.later.as_slice().len() != later_count(program, output) {
        return Err(misfit(alloc, place, Step::Key(ObjectKey("later"))));
    }
    Ok(())
}

/// How many variables the forms of an output's point have: the parameters, and the nest's variables.
fn point_variables(program: &Program, output: &Output) -> u128
    ensures { result ≡ output_variables (meaning program.now) (claim_of_output output.now) }
{
    program.params().len() as u128 + output.nest.bounds().len() as u128
}

/// Whether what is said fits of an output's point.
fn point_fits(
    alloc: Global,
    program: &Program,
    place: &Place,
    output: &Output,
) -> Result<(), Refused>
    ensures { Decides (point_fit (meaning program.now) place.now (claim_of_output output.now)) result }
{
    let point = output.point.as_slice();
    if point.len() != loops_around(program, output.statement) {
        return Err(misfit(alloc, place, Step::Key(ObjectKey("point"))));
    }
    let vars = point_variables(program, output);
    all_forms_fit(alloc, place, ObjectKey("point"), vars, point)?;
    Ok(())
}

/// Whether what is said behind an output's point fits, but for each sum.
fn back_fits(
    alloc: Global,
    program: &Program,
    place: &Place,
    output: &Output,
) -> Result<(), Refused>
    ensures { Decides (output_back_fit (meaning program.now) place.now (claim_of_output output.now)) result }
{
    let depth = output.nest.bounds().len();
    if output.sums.shown().len() != depth {
        return Err(misfit(alloc, place, Step::Key(ObjectKey("shown"))));
    }
    if usize::from(output.statement) >= program.statements().len() {
        return Err(misfit(alloc, place, Step::Key(ObjectKey("statement"))));
    }
    if output.sums.sums().len() != depth {
        return Err(misfit(alloc, place, Step::Key(ObjectKey("sums"))));
    }
    Ok(())
}

/// Whether what is said fits of an output at this place.
fn parts_fit(
    alloc: Global,
    program: &Program,
    place: &Place,
    output: &Output,
) -> Result<(), Refused>
    ensures { Decides (output_fit (meaning program.now) place.now (claim_of_output output.now)) result }
{
    let params = program.params().len();
    front_fits(alloc, program, place, output)?;
    let bounds = output.nest.bounds();
    all_bounds_fit(alloc, place, ObjectKey("nest"), params, bounds)?;
    point_fits(alloc, program, place, output)?;
    back_fits(alloc, program, place, output)?;
    let sums = output.sums.sums();
    all_sums_fit(alloc, place, ObjectKey("sums"), params + 1, sums)?;
    Ok(())
}

/// Whether an output within the limits, which stands at this place, fits a program (condition 1), in the order of a walk through
/// its text.
///
/// # Errors
///
/// The first claim of `output_fit` that doesn't hold, 1 at its place.
pub fn output_fits(
    alloc: Global,
    program: &Program,
    place: &Place,
    output: &Output,
) -> Result<(), Refused>
    requires { IsSmallOutput output.now }
    ensures fit { Decides (output_fit (meaning program.now) place.now (claim_of_output output.now)) result }
    ensures fits { OnOk result (FitsOutput program.now output.now) }
{
    parts_fit(alloc, program, place, output)?;
    Ok(())
}
