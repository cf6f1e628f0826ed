//! Whether partition terms fit.
#![tactic(auto, using(claims::proofs::Found::in_a_row))]

ghost use Rattle.claims.specs.Claims.{Decides};
ghost use Rattle.std.specs.Prelude.{◌≡◌, ◌↔◌, length, IsTrue, IfOk};
ghost use Rattle.affine_program.specs.Parts.{meaning};
ghost use Rattle.iolb_check.specs.PartitionFit.{apart_count, apart_fit, coordinates_fit, nest_fit, number_fit, partition_fit, points_fit, walked_fit, walks_fit};
ghost use Rattle.k_partition.specs.View.{partition_of};
ghost use Rattle.dep_quast.specs.Quasts.{trees_of};

use crate::family_targets::targets_of_families;
use crate::fit_colds::columns_called;
use crate::fit_credits::credited_fits;
use affine_form::Memory;
use affine_program::Program;
use certificate_fit::counts::{domain_size, loops_around};
use certificate_fit::families::all_families_fit;
use certificate_fit::lists::{all_bounds_fit, all_polynomials_fit, misfit};
use claims::{ObjectKey, Place, Refused, Step};
use k_partition::{Partition, Shape};
use reuse_paths::{Quasts, has_pairs};
use std::alloc::Global;

/// Whether there are as many multipliers as are called for to show that no two families have a word in common.
fn has_apart(
    alloc: Global,
    program: &Program,
    quasts: &Quasts,
    term: &Partition,
) -> Result<bool, Memory>
    ensures { IfOk result (λ has. IsTrue has ↔ (length term.now.apart.items ≡ apart_count term.now.shape (meaning program.now) (trees_of quasts.now) (partition_of term.now))) }
{
    let shown = term.apart.as_slice().len();
    match term.shape {
        Shape::Each => Ok(shown == 0),
        Shape::Sum => {
            let families = term.families.as_slice();
            let targets = targets_of_families(alloc, program, quasts, term.statement, families)?;
            Ok(has_pairs(targets.as_slice(), shown))
        }
    }
}

/// Whether what is said fits of what shows the families apart.
fn all_apart_fit(
    alloc: Global,
    program: &Program,
    quasts: &Quasts,
    place: &Place,
    term: &Partition,
) -> Result<(), Refused>
    ensures { Decides (apart_fit (meaning program.now) (trees_of quasts.now) place.now (partition_of term.now)) result }
{
    if has_apart(alloc, program, quasts, term)? {
        return Ok(());
    }
    Err(misfit(alloc, place, Step::Key(ObjectKey("apart"))))
}

/// Whether what is said fits of the families.
fn walked_fits(
    alloc: Global,
    program: &Program,
    quasts: &Quasts,
    place: &Place,
    term: &Partition,
) -> Result<(), Refused>
    ensures { Decides (walked_fit (meaning program.now) (trees_of quasts.now) place.now (partition_of term.now)) result }
{
    let list = place.within(alloc, Step::Key(ObjectKey("families")))?;
    let credits = term.credits.as_slice();
    let families = term.families.as_slice();
    all_families_fit(
        alloc,
        program,
        quasts,
        term.statement,
        credits,
        &list,
        families,
    )
}

/// Whether what is said fits of what shows the families apart, of the credits, and of the families.
fn all_walks_fit(
    alloc: Global,
    program: &Program,
    quasts: &Quasts,
    place: &Place,
    term: &Partition,
) -> Result<(), Refused>
    ensures { Decides (walks_fit (meaning program.now) (trees_of quasts.now) place.now (partition_of term.now)) result }
{
    all_apart_fit(alloc, program, quasts, place, term)?;
    credited_fits(alloc, program, place, term.credits.as_slice())?;
    walked_fits(alloc, program, quasts, place, term)?;
    Ok(())
}

/// Whether what is said fits of what shows that the points are instances, and of the matrices.
fn coordinates_fit(
    alloc: Global,
    program: &Program,
    place: &Place,
    term: &Partition,
) -> Result<(), Refused>
    ensures { Decides (coordinates_fit (meaning program.now) (partition_of term.now) place.now) result }
{
    let loops = loops_around(program, term.statement);
    if term.inside.as_slice().len() != domain_size(program, term.statement) {
        return Err(misfit(alloc, place, Step::Key(ObjectKey("inside"))));
    }
    let (inverse, matrix) = (&term.inverse, &term.matrix);
    if inverse.rows() != loops {
        return Err(misfit(alloc, place, Step::Key(ObjectKey("inverse"))));
    }
    if inverse.cols() != columns_called(inverse.rows(), loops) {
        return Err(misfit(alloc, place, Step::Key(ObjectKey("inverse"))));
    }
    if matrix.rows() != loops {
        return Err(misfit(alloc, place, Step::Key(ObjectKey("matrix"))));
    }
    if matrix.cols() != columns_called(matrix.rows(), loops) {
        return Err(misfit(alloc, place, Step::Key(ObjectKey("matrix"))));
    }
    Ok(())
}

/// Whether what is said fits of the nest.
fn nest_fits(
    alloc: Global,
    program: &Program,
    place: &Place,
    term: &Partition,
) -> Result<(), Refused>
    ensures { Decides (nest_fit (meaning program.now) place.now (partition_of term.now)) result }
{
    let bounds = term.nest.bounds();
    if bounds.len() != loops_around(program, term.statement) {
        return Err(misfit(alloc, place, Step::Key(ObjectKey("nest"))));
    }
    all_bounds_fit(
        alloc,
        place,
        ObjectKey("nest"),
        program.params().len(),
        bounds,
    )?;
    Ok(())
}

/// Whether what is said fits of the points.
fn all_points_fit(
    alloc: Global,
    program: &Program,
    place: &Place,
    term: &Partition,
) -> Result<(), Refused>
    ensures { Decides (points_fit (meaning program.now) place.now (partition_of term.now)) result }
{
    coordinates_fit(alloc, program, place, term)?;
    nest_fits(alloc, program, place, term)?;
    Ok(())
}

/// Whether what is said fits of the statement, and of what is claimed of the number of points.
fn number_fits(
    alloc: Global,
    program: &Program,
    place: &Place,
    term: &Partition,
) -> Result<(), Refused>
    ensures { Decides (number_fit (meaning program.now) place.now (partition_of term.now)) result }
{
    let depth = term.nest.bounds().len();
    if term.sums.shown().len() != depth {
        return Err(misfit(alloc, place, Step::Key(ObjectKey("shown"))));
    }
    if usize::from(term.statement) >= program.statements().len() {
        return Err(misfit(alloc, place, Step::Key(ObjectKey("statement"))));
    }
    let params = program.params().len();
    all_polynomials_fit(
        alloc,
        place,
        ObjectKey("sums"),
        params,
        term.sums.sums(),
        depth,
    )?;
    Ok(())
}

/// Whether what is said fits of a partition term at this place.
pub(crate) fn partition_fits(
    alloc: Global,
    program: &Program,
    quasts: &Quasts,
    place: &Place,
    term: &Partition,
) -> Result<(), Refused>
    ensures { Decides (partition_fit (meaning program.now) (trees_of quasts.now) place.now (partition_of term.now)) result }
{
    all_walks_fit(alloc, program, quasts, place, term)?;
    all_points_fit(alloc, program, place, term)?;
    number_fits(alloc, program, place, term)?;
    Ok(())
}
