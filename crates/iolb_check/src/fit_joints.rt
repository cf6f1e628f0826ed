//! Whether joint terms fit.
#![tactic(auto, using(claims::proofs::Found::in_a_row))]

ghost use Rattle.claims.specs.Claims.{Decides, numbered};
ghost use Rattle.std.specs.Prelude.{◌≡◌, ◌+◌, length, map};
ghost use Rattle.affine_program.specs.Domain.{depth_of};
ghost use Rattle.affine_program.specs.Parts.{meaning};
ghost use Rattle.dep_quast.specs.Quasts.{trees_of};
ghost use Rattle.iolb_check.specs.JointFit.{apart_front_fit, inverse_fit, joint_fit, map_fit, nest_of_part, part_at, part_fit};
ghost use Rattle.certificate_fit.specs.FamilyFit.{credit_count_fit, credit_nest_fit};
ghost use Rattle.joint_partition.specs.View.{joint_of, part_of};

use crate::fit_colds::{columns_called, matrix_misfit};
use crate::fit_credits::credited_fits;
use crate::fit_joint_walks::all_joint_families_fit;
use crate::fit_splits::all_distinct_fit;
use crate::joint_targets::has_group_pairs;
use affine_program::Program;
use certificate_fit::counts::{domain_size, loops_around};
use certificate_fit::lists::{all_bounds_fit, all_forms_fit, all_polynomials_fit, misfit};
use claims::{ObjectKey, Place, Refused, Step};
use joint_partition::{Joint, Part, dimensions_of};
use reuse_paths::Quasts;
use std::alloc::Global;

// ---- parts

/// Whether what is said fits of what shows that a part's points are instances, and of its inverse, with so many columns.
fn inverse_fits(
    alloc: Global,
    program: &Program,
    place: &Place,
    dimensions: usize,
    part: &Part,
) -> Result<(), Refused>
    ensures { Decides (inverse_fit (meaning program.now) dimensions place.now (part_of part.now)) result }
{
    if part.inside.as_slice().len() != domain_size(program, part.statement) {
        return Err(misfit(alloc, place, Step::Key(ObjectKey("inside"))));
    }
    let matrix = &part.inverse.matrix;
    if matrix.rows() != loops_around(program, part.statement) {
        return Err(matrix_misfit(alloc, place));
    }
    if matrix.cols() != columns_called(matrix.rows(), dimensions) {
        return Err(matrix_misfit(alloc, place));
    }
    Ok(())
}

/// How many variables the forms of a part's map have: the parameters, and the loop values.
fn map_variables(program: &Program, part: &Part) -> u128
    ensures { result ≡ length (meaning program.now).parameters + depth_of (meaning program.now) part.now.statement }
{
    program.params().len() as u128 + loops_around(program, part.statement) as u128
}

/// Whether what is said fits of a part's map, with so many forms.
fn map_fits(
    alloc: Global,
    program: &Program,
    place: &Place,
    dimensions: usize,
    part: &Part,
) -> Result<(), Refused>
    ensures { Decides (map_fit (meaning program.now) dimensions place.now (part_of part.now)) result }
{
    let image = part.image.as_slice();
    if image.len() != dimensions {
        return Err(misfit(alloc, place, Step::Key(ObjectKey("map"))));
    }
    let variables = map_variables(program, part);
    all_forms_fit(alloc, place, ObjectKey("map"), variables, image)?;
    Ok(())
}

/// Whether what is said fits of a part's nest, which has a variable for each loop around its statement.
fn nest_fits(alloc: Global, program: &Program, place: &Place, part: &Part) -> Result<(), Refused>
    ensures { Decides (credit_nest_fit (meaning program.now) place.now (nest_of_part (part_of part.now))) result }
{
    let bounds = part.nest.bounds();
    if bounds.len() != loops_around(program, part.statement) {
        return Err(misfit(alloc, place, Step::Key(ObjectKey("nest"))));
    }
    let params = program.params().len();
    all_bounds_fit(alloc, place, ObjectKey("nest"), params, bounds)?;
    Ok(())
}

/// Whether what is said fits of a part's statement, and of what is claimed of the number of its points.
fn count_fits(alloc: Global, program: &Program, place: &Place, part: &Part) -> Result<(), Refused>
    ensures { Decides (credit_count_fit (meaning program.now) place.now (nest_of_part (part_of part.now)) (part_of part.now).count) result }
{
    let depth = part.nest.bounds().len();
    if part.sums.shown().len() != depth {
        return Err(misfit(alloc, place, Step::Key(ObjectKey("shown"))));
    }
    if usize::from(part.statement) >= program.statements().len() {
        return Err(misfit(alloc, place, Step::Key(ObjectKey("statement"))));
    }
    let params = program.params().len();
    let sums = part.sums.sums();
    all_polynomials_fit(alloc, place, ObjectKey("sums"), params, sums, depth)?;
    Ok(())
}

/// Whether what is said fits of a part of a term with so many dimensions, at this place.
fn part_fits(
    alloc: Global,
    program: &Program,
    place: &Place,
    dimensions: usize,
    part: &Part,
) -> Result<(), Refused>
    ensures { Decides (part_fit (meaning program.now) dimensions place.now (part_of part.now)) result }
{
    inverse_fits(alloc, program, place, dimensions, part)?;
    map_fits(alloc, program, place, dimensions, part)?;
    nest_fits(alloc, program, place, part)?;
    count_fits(alloc, program, place, part)?;
    Ok(())
}

/// Whether what is said fits of parts of a term with so many dimensions, in a list at this place.
fn all_parts_fit(
    alloc: Global,
    program: &Program,
    list: &Place,
    dimensions: usize,
    parts: &[Part],
) -> Result<(), Refused>
    ensures { Decides (numbered (part_at (meaning program.now) dimensions list.now) 0 (map part_of parts.now)) result }
{
    for (index, part) in parts.iter().enumerate() {
        let at = list.within(alloc, Step::Index(index as u64))?;
        part_fits(alloc, program, &at, dimensions, part)?;
    }
    Ok(())
}

// ---- terms

/// Whether what is said fits of what shows the groups and the images apart, and of the credits.
fn apart_front_fits(
    alloc: Global,
    program: &Program,
    quasts: &Quasts,
    place: &Place,
    term: &Joint,
) -> Result<(), Refused>
    ensures { Decides (apart_front_fit (meaning program.now) (trees_of quasts.now) place.now (joint_of term.now)) result }
{
    if !has_group_pairs(alloc, program, quasts, term)? {
        return Err(misfit(alloc, place, Step::Key(ObjectKey("apart"))));
    }
    credited_fits(alloc, program, place, term.credits.as_slice())?;
    all_distinct_fit(alloc, program, place, term)?;
    Ok(())
}

/// Whether what is said fits of a joint term at this place.
pub(crate) fn joint_fits(
    alloc: Global,
    program: &Program,
    quasts: &Quasts,
    place: &Place,
    term: &Joint,
) -> Result<(), Refused>
    ensures { Decides (joint_fit (meaning program.now) (trees_of quasts.now) place.now (joint_of term.now)) result }
{
    apart_front_fits(alloc, program, quasts, place, term)?;
    let dimensions = dimensions_of(term);
    let list = place.within(alloc, Step::Key(ObjectKey("families")))?;
    let families = term.families.as_slice();
    all_joint_families_fit(alloc, program, quasts, term, &list, dimensions, families)?;
    let list = place.within(alloc, Step::Key(ObjectKey("parts")))?;
    all_parts_fit(alloc, program, &list, dimensions, term.parts.as_slice())?;
    Ok(())
}
