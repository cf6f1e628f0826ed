//! Whether cold terms fit.
#![tactic(auto, using(claims::proofs::Found::in_a_row))]

ghost use Rattle.claims.specs.Claims.{Decides, IsRefusalAt};
ghost use Rattle.std.specs.Prelude.{◌+◌, length, ◌≡◌, ◌==◌, if◌then◌else◌, ◌++◌, ◌∷◌, [], Some, IfOk, codes};
ghost use Rattle.affine_program.specs.Parts.{meaning};
ghost use Rattle.claims.specs.declared.place.Step.TheVariants.{Key};
ghost use Rattle.iolb_check.specs.TermFit.{cold_back_fit, cold_fit, cold_front_fit, point_fit};
ghost use Rattle.dep_quast.specs.Quasts.{trees_of};
ghost use Rattle.wavefront.specs.View.{term_of};

use affine_form::Memory;
use affine_program::Program;
use certificate_fit::counts::{
    domain_size, has_entry_each, loops_around, read_count, subscript_count,
};
use certificate_fit::entries::all_entries_fit;
use certificate_fit::lists::{all_bounds_fit, all_forms_fit, all_sums_fit, misfit};
use claims::{ObjectKey, Place, Refused, Step};
use dep_quast::reader::Reader;
use reuse_paths::Quasts;
use std::alloc::Global;
use wavefront::Cold;

/// The refusal of the inverse's matrix.
pub(crate) fn matrix_misfit(alloc: Global, place: &Place) -> Refused
    ensures { IsRefusalAt 1 (place.now ++ Key (codes "inverse") ∷ Key (codes "matrix") ∷ []) result }
{
    match place.within(alloc, Step::Key(ObjectKey("inverse"))) {
        Ok(inverse) => misfit(alloc, &inverse, Step::Key(ObjectKey("matrix"))),
        Err(Memory) => Refused::Memory,
    }
}

/// Whether what is said fits of a cold term at this place, up to its leaves.
fn front_fits(
    alloc: Global,
    program: &Program,
    quasts: &Quasts,
    place: &Place,
    cold: &Cold,
) -> Result<(), Refused>
    ensures { Decides (cold_front_fit (meaning program.now) (trees_of quasts.now) place.now (term_of cold.now)) result }
{
    let reader = Reader {
        statement: cold.statement,
        read: cold.read,
    };
    if cold.inside.as_slice().len() != domain_size(program, cold.statement) {
        return Err(misfit(alloc, place, Step::Key(ObjectKey("inside"))));
    }
    let matrix = &cold.inverse.matrix;
    if matrix.rows() != cold.nest.bounds().len() {
        return Err(matrix_misfit(alloc, place));
    }
    if matrix.cols() != columns_called(matrix.rows(), subscript_count(program, reader)) {
        return Err(matrix_misfit(alloc, place));
    }
    let entries = cold.leaves.as_slice();
    if !has_entry_each(program, quasts, reader, entries.len()) {
        return Err(misfit(alloc, place, Step::Key(ObjectKey("leaves"))));
    }
    all_entries_fit(alloc, place, ObjectKey("leaves"), 0, &[], entries)?;
    Ok(())
}

/// How many columns a matrix with so many rows has: so many where it has a row.
pub(crate) fn columns_called(rows: usize, called: usize) -> usize
    ensures { result ≡ (if rows == 0 then 0 else called) }
{
    if rows == 0 { 0 } else { called }
}

/// How many variables the forms of a cold term's point have: the parameters, and the nest's variables.
fn point_variables(program: &Program, cold: &Cold) -> u128
    ensures { result ≡ length (meaning program.now).parameters + length (term_of cold.now).nest }
{
    program.params().len() as u128 + cold.nest.bounds().len() as u128
}

/// Whether what is said fits of a cold term's point.
fn point_fits(alloc: Global, program: &Program, place: &Place, cold: &Cold) -> Result<(), Refused>
    ensures { Decides (point_fit (meaning program.now) place.now (term_of cold.now)) result }
{
    let point = cold.point.as_slice();
    if point.len() != loops_around(program, cold.statement) {
        return Err(misfit(alloc, place, Step::Key(ObjectKey("point"))));
    }
    let vars = point_variables(program, cold);
    all_forms_fit(alloc, place, ObjectKey("point"), vars, point)?;
    Ok(())
}

/// Whether what is said behind a cold term's point fits, but for each sum.
fn back_fits(alloc: Global, program: &Program, place: &Place, cold: &Cold) -> Result<(), Refused>
    ensures { Decides (cold_back_fit (meaning program.now) (term_of cold.now) place.now) result }
{
    let depth = cold.nest.bounds().len();
    if usize::from(cold.read) >= read_count(program, cold.statement) {
        return Err(misfit(alloc, place, Step::Key(ObjectKey("read"))));
    }
    if cold.sums.shown().len() != depth {
        return Err(misfit(alloc, place, Step::Key(ObjectKey("shown"))));
    }
    if usize::from(cold.statement) >= program.statements().len() {
        return Err(misfit(alloc, place, Step::Key(ObjectKey("statement"))));
    }
    if cold.sums.sums().len() != depth {
        return Err(misfit(alloc, place, Step::Key(ObjectKey("sums"))));
    }
    Ok(())
}

/// Whether what is said fits of a cold term at this place.
pub(crate) fn cold_fits(
    alloc: Global,
    program: &Program,
    quasts: &Quasts,
    place: &Place,
    cold: &Cold,
) -> Result<(), Refused>
    ensures { Decides (cold_fit (meaning program.now) (trees_of quasts.now) place.now (term_of cold.now)) result }
{
    let params = program.params().len();
    front_fits(alloc, program, quasts, place, cold)?;
    all_bounds_fit(alloc, place, ObjectKey("nest"), params, cold.nest.bounds())?;
    point_fits(alloc, program, place, cold)?;
    back_fits(alloc, program, place, cold)?;
    all_sums_fit(
        alloc,
        place,
        ObjectKey("sums"),
        params + 1,
        cold.sums.sums(),
    )?;
    Ok(())
}
