//! Whether wavefront terms fit.
#![tactic(auto, using(claims::proofs::Found::in_a_row))]

ghost use Rattle.std.specs.Prelude.{◌≡◌, ◌+◌, ◌*◌, ◌≤◌, ◌++◌, ◌∷◌, [], length, codes};
ghost use Rattle.affine_program.specs.Parts.{meaning};
ghost use Rattle.iolb_model.specs.declared.limits.TheConstants.{GUARDS, LOOPS};
ghost use Rattle.claims.specs.declared.place.Step.TheVariants.{Key};
ghost use Rattle.iolb_check.specs.FrontFit.{back_fit, count_fit, edge_fit, first_fit, front_fit, nest_fit, outer_fit, reach_fit, read_fit, source_fit, source_size as size_of_source, spots_fit, word_count as count_of_word, words_fit};
ghost use Rattle.claims.specs.Claims.{Decides};
ghost use Rattle.certificate_fit.specs.PartFit.{bounds_fit, polynomials_fit};
ghost use Rattle.certificate_fit.specs.WalkFit.{spot_fit};
ghost use Rattle.dep_quast.specs.Quasts.{trees_of};
ghost use Rattle.reuse_paths.specs.Walks.{spot_of};
ghost use Rattle.wavefront.specs.FrontClaims.{front_variables};
ghost use Rattle.wavefront.specs.FrontFits.{source_depth};
ghost use Rattle.wavefront.specs.View.{front_of};

use crate::fit_colds::{columns_called, matrix_misfit};
use affine_program::Program;
use certificate_fit::counts::{
    domain_size, has_entry_each, loops_around, read_count, subscript_count,
};
use certificate_fit::entries::all_entries_fit;
use certificate_fit::lists::{all_bounds_fit, all_polynomials_fit, list_fits, misfit};
use certificate_fit::walks::{reach_fits, spot_fits};
use claims::{ObjectKey, Place, Refused, Step};
use dep_quast::reader::Reader;
use reuse_paths::{Quasts, Spot};
use std::alloc::Global;
use wavefront::Wavefront;

/// How many variables there are: the parameters and the nest's.
fn variables(program: &Program, front: &Wavefront) -> u128
    ensures { result ≡ front_variables (meaning program.now) (front_of front.now) }
{
    program.params().len() as u128 + front.nest.bounds().len() as u128
}

/// How many loops are around the word's instance: none where the word is an input.
fn source_loops(program: &Program, front: &Wavefront) -> usize
    ensures depth { result ≡ source_depth (meaning program.now) (front_of front.now).source }
    ensures few { result ≤ LOOPS }
{
    match &front.source {
        Some(spot) => loops_around(program, spot.statement),
        None => 0,
    }
}

/// How many rows say that the word's instance is in its statement's domain: none where the word is an input.
fn source_size(program: &Program, front: &Wavefront) -> usize
    ensures size { result ≡ size_of_source (meaning program.now) (front_of front.now).source }
    ensures few { result ≤ 2 * LOOPS + GUARDS }
{
    match &front.source {
        Some(spot) => domain_size(program, spot.statement),
        None => 0,
    }
}

/// How many numbers tell the words apart.
fn word_count(program: &Program, front: &Wavefront) -> usize
    ensures { result ≡ count_of_word (meaning program.now) (front_of front.now) (front_of front.now).source }
{
    match &front.source {
        Some(spot) => loops_around(program, spot.statement),
        None => {
            let reader = Reader {
                statement: front.user.statement,
                read: front.read,
            };
            subscript_count(program, reader)
        }
    }
}

/// Whether what is said fits of what shows the way from the user to the vertex.
fn back_fits(
    alloc: Global,
    program: &Program,
    quasts: &Quasts,
    place: &Place,
    front: &Wavefront,
) -> Result<(), Refused>
    ensures { Decides (back_fit (meaning program.now) (trees_of quasts.now) place.now (front_of front.now)) result }
{
    let at = place.within(alloc, Step::Key(ObjectKey("back")))?;
    reach_fits(
        alloc,
        program,
        quasts,
        &front.nest,
        &front.user,
        &front.vertex,
        &at,
        &front.back,
    )
}

/// Whether what is said fits of the entries at the leaves of the user's read.
fn edge_fits(
    alloc: Global,
    program: &Program,
    quasts: &Quasts,
    place: &Place,
    front: &Wavefront,
) -> Result<(), Refused>
    ensures { Decides (edge_fit (meaning program.now) (trees_of quasts.now) place.now (front_of front.now)) result }
{
    let reader = Reader {
        statement: front.user.statement,
        read: front.read,
    };
    let entries = front.edge.as_slice();
    if !has_entry_each(program, quasts, reader, entries.len()) {
        return Err(misfit(alloc, place, Step::Key(ObjectKey("edge"))));
    }
    let loops = source_loops(program, front);
    all_entries_fit(alloc, place, ObjectKey("edge"), loops, &[], entries)?;
    Ok(())
}

/// Whether what is said fits of what shows that the instances are in their domains and that words differ.
fn all_words_fit(
    alloc: Global,
    program: &Program,
    place: &Place,
    front: &Wavefront,
) -> Result<(), Refused>
    ensures { Decides (words_fit (meaning program.now) place.now (front_of front.now)) result }
{
    let user = domain_size(program, front.user.statement);
    let vertex = domain_size(program, front.vertex.statement);
    if front.inside.as_slice().len() != user + vertex + source_size(program, front) {
        return Err(misfit(alloc, place, Step::Key(ObjectKey("inside"))));
    }
    let matrix = &front.inverse.matrix;
    if matrix.rows() != front.nest.bounds().len() {
        return Err(matrix_misfit(alloc, place));
    }
    if matrix.cols() != columns_called(matrix.rows(), word_count(program, front)) {
        return Err(matrix_misfit(alloc, place));
    }
    Ok(())
}

/// The place of what doesn't fit first up to what tells the words apart.
fn first_fits(
    alloc: Global,
    program: &Program,
    quasts: &Quasts,
    place: &Place,
    front: &Wavefront,
) -> Result<(), Refused>
    ensures { Decides (first_fit (meaning program.now) (trees_of quasts.now) place.now (front_of front.now)) result }
{
    back_fits(alloc, program, quasts, place, front)?;
    edge_fits(alloc, program, quasts, place, front)?;
    all_words_fit(alloc, program, place, front)?;
    Ok(())
}

/// Whether what is said fits of the outer variables.
fn outer_fits(
    alloc: Global,
    program: &Program,
    place: &Place,
    front: &Wavefront,
) -> Result<(), Refused>
    ensures { Decides (outer_fit (meaning program.now) place.now (front_of front.now)) result }
{
    let outer = usize::from(front.outer);
    if outer > front.nest.bounds().len() {
        return Err(misfit(alloc, place, Step::Key(ObjectKey("outer"))));
    }
    let sums = front.outer_sums.as_slice();
    let params = program.params().len();
    all_polynomials_fit(alloc, place, ObjectKey("outer_sums"), params, sums, outer)?;
    Ok(())
}

/// Whether what is said fits of what shows the way from the vertex to the word's instance.
fn way_fits(
    alloc: Global,
    program: &Program,
    quasts: &Quasts,
    place: &Place,
    front: &Wavefront,
) -> Result<(), Refused>
    ensures { Decides (reach_fit (meaning program.now) (trees_of quasts.now) place.now (front_of front.now)) result }
{
    match (&front.source, &front.reach) {
        (Some(spot), Some(reach)) => {
            let at = place.within(alloc, Step::Key(ObjectKey("reach")))?;
            let nest = &front.nest;
            reach_fits(
                alloc,
                program,
                quasts,
                nest,
                &front.vertex,
                spot,
                &at,
                reach,
            )
        }
        (None, None) => Ok(()),
        _ => Err(misfit(alloc, place, Step::Key(ObjectKey("reach")))),
    }
}

/// Whether what is said fits of the nest's bounds.
fn all_ranges_fit(
    alloc: Global,
    program: &Program,
    place: &Place,
    front: &Wavefront,
) -> Result<(), Refused>
    ensures { Decides (bounds_fit (length (meaning program.now).parameters) (place.now ++ Key (codes "nest") ∷ []) (front_of front.now).nest) result }
{
    let params = program.params().len();
    all_bounds_fit(alloc, place, ObjectKey("nest"), params, front.nest.bounds())
}

/// Whether what is said fits of the nest, its outer variables, and the way to the word's instance.
fn nest_fits(
    alloc: Global,
    program: &Program,
    quasts: &Quasts,
    place: &Place,
    front: &Wavefront,
) -> Result<(), Refused>
    ensures { Decides (nest_fit (meaning program.now) (trees_of quasts.now) place.now (front_of front.now)) result }
{
    all_ranges_fit(alloc, program, place, front)?;
    outer_fits(alloc, program, place, front)?;
    way_fits(alloc, program, quasts, place, front)?;
    Ok(())
}

/// Whether what is said fits of the read and of what shows the ranges of the nest's variables.
fn read_fits(
    alloc: Global,
    program: &Program,
    place: &Place,
    front: &Wavefront,
) -> Result<(), Refused>
    ensures { Decides (read_fit (meaning program.now) place.now (front_of front.now)) result }
{
    if usize::from(front.read) >= read_count(program, front.user.statement) {
        return Err(misfit(alloc, place, Step::Key(ObjectKey("read"))));
    }
    let depth = front.nest.bounds().len();
    list_fits(
        alloc,
        place,
        Step::Key(ObjectKey("shown")),
        front.sums.shown().len(),
        depth,
    )?;
    Ok(())
}

/// Whether what is said fits of a spot at a key.
fn spot_at_fits(
    alloc: Global,
    program: &Program,
    place: &Place,
    front: &Wavefront,
    key: ObjectKey,
    spot: &Spot,
) -> Result<(), Refused>
    ensures { Decides (spot_fit (meaning program.now) (front_variables (meaning program.now) (front_of front.now)) (place.now ++ Key key ∷ []) (spot_of spot.now)) result }
{
    let at = place.within(alloc, Step::Key(key))?;
    spot_fits(alloc, program, &at, variables(program, front), spot)
}

/// Whether what is said fits of the word's instance.
fn source_fits(
    alloc: Global,
    program: &Program,
    place: &Place,
    front: &Wavefront,
) -> Result<(), Refused>
    ensures { Decides (source_fit (meaning program.now) place.now (front_of front.now) (front_of front.now).source) result }
{
    match &front.source {
        Some(spot) => spot_at_fits(alloc, program, place, front, ObjectKey("source"), spot),
        None => Ok(()),
    }
}

/// Whether what is said fits of the polynomials of the count.
fn counted_fits(
    alloc: Global,
    program: &Program,
    place: &Place,
    front: &Wavefront,
) -> Result<(), Refused>
    ensures { Decides (polynomials_fit (length (meaning program.now).parameters) (place.now ++ Key (codes "sums") ∷ []) (front_of front.now).count.sums (length (front_of front.now).nest)) result }
{
    let depth = front.nest.bounds().len();
    let params = program.params().len();
    all_polynomials_fit(
        alloc,
        place,
        ObjectKey("sums"),
        params,
        front.sums.sums(),
        depth,
    )
}

/// Whether what is said fits of the read, the word's instance, and the count.
fn count_fits(
    alloc: Global,
    program: &Program,
    place: &Place,
    front: &Wavefront,
) -> Result<(), Refused>
    ensures { Decides (count_fit (meaning program.now) place.now (front_of front.now)) result }
{
    read_fits(alloc, program, place, front)?;
    source_fits(alloc, program, place, front)?;
    counted_fits(alloc, program, place, front)?;
    Ok(())
}

/// Whether what is said fits of the user and the vertex.
fn all_spots_fit(
    alloc: Global,
    program: &Program,
    place: &Place,
    front: &Wavefront,
) -> Result<(), Refused>
    ensures { Decides (spots_fit (meaning program.now) place.now (front_of front.now)) result }
{
    spot_at_fits(alloc, program, place, front, ObjectKey("user"), &front.user)?;
    spot_at_fits(
        alloc,
        program,
        place,
        front,
        ObjectKey("vertex"),
        &front.vertex,
    )?;
    Ok(())
}

/// Whether what is said fits of a wavefront term at this place.
pub(crate) fn front_fits(
    alloc: Global,
    program: &Program,
    quasts: &Quasts,
    place: &Place,
    front: &Wavefront,
) -> Result<(), Refused>
    ensures { Decides (front_fit (meaning program.now) (trees_of quasts.now) place.now (front_of front.now)) result }
{
    first_fits(alloc, program, quasts, place, front)?;
    nest_fits(alloc, program, quasts, place, front)?;
    count_fits(alloc, program, place, front)?;
    all_spots_fit(alloc, program, place, front)?;
    Ok(())
}
