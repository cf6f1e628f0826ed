//! Whether the images of two parts are shown to differ.
#![tactic(auto, using(claims::proofs::Found::in_a_row))]

ghost use Rattle.std.specs.Prelude.{◌≡◌, ℕ, ◌≤◌, ◌<◌, ◌+◌, ◌*◌, ◌^◌, ◌++◌, length, map, IfOk};
ghost use Rattle.std.specs.List.{AllByRecursion};
ghost use Rattle.affine_form.specs.Rows.{BoundsFit, IsSmallOver, equality_rows, put_in, variables_from, within_rows};
ghost use Rattle.affine_form.specs.System.{AllOver};
ghost use Rattle.affine_program.specs.Parts.{meaning};
ghost use Rattle.claims.specs.Claims.{Decides};
ghost use Rattle.dep_quast.specs.Context.{parameter_point};
ghost use Rattle.iolb_model.specs.declared.limits.TheConstants.{NEST_VARIABLES, ROWS, TREE_TESTS, VARIABLES};
ghost use Rattle.joint_partition.specs.Claims.{apart_claims, apart_from, distinct_claims, first_values, second_values, two_rows, two_variables};
ghost use Rattle.joint_partition.specs.SplitFits.{SplitFits, nesting};
ghost use Rattle.joint_partition.specs.View.{FitsPart, SplitsFit, SplitsFrom, part_of, split_of};

use crate::places::member_at;
use crate::split_shown::split_shown;
use crate::term::{Part, Split};
use affine_form::{Form, Memory, cell_rows, variables_from, within_rows};
use affine_program::Program;
use claims::lists::{all_widened, followed_by};
use claims::{ObjectKey, Place, Refused};
use domain_count::Nest;
use std::alloc::Global;

/// How many variables two parts have: the parameters, the loop values of the first, and those of the second.
fn two_variables(program: &Program, first: &Part, second: &Part) -> usize
    requires first { length first.now.nest ≤ NEST_VARIABLES }
    requires second { length second.now.nest ≤ NEST_VARIABLES }
    ensures variables { result ≡ two_variables (meaning program.now) (part_of first.now) (part_of second.now) }
    ensures few { result ≤ VARIABLES }
{
    program.params().len() + first.nest.bounds().len() + second.nest.bounds().len()
}

/// The parameters, and loop values from a variable on, as forms over so many variables.
fn point_from(
    alloc: Global,
    program: &Program,
    vars: usize,
    first: usize,
    size: usize,
) -> Result<Vec<Form>, Memory>
    requires few { vars ≤ VARIABLES }
    requires params { length program.now.params ≤ vars }
    requires room { first + size ≤ vars }
    ensures point { IfOk result (λ point. point.items ≡ parameter_point (meaning program.now) vars ++ variables_from vars first size) }
    ensures many { IfOk result (λ point. length point.items ≡ length program.now.params + size) }
    ensures over { IfOk result (λ point. AllByRecursion (IsSmallOver vars) point.items) }
{
    let params = variables_from(alloc, vars, 0, program.params().len())?;
    let values = variables_from(alloc, vars, first, size)?;
    followed_by(alloc, params, values.as_slice())
}

/// The rows which say that loop values from a variable on are within the bounds of a nest.
fn nest_rows(
    alloc: Global,
    program: &Program,
    vars: usize,
    first: usize,
    nest: &Nest,
) -> Result<Vec<Form>, Memory>
    requires few { vars ≤ VARIABLES }
    requires few_values { length nest.now ≤ NEST_VARIABLES }
    requires bounds { BoundsFit (length program.now.params) nest.now }
    requires params { length program.now.params ≤ vars }
    requires room { first + length nest.now ≤ vars }
    ensures rows { IfOk result (λ rows. rows.items ≡ within_rows vars nest.now (parameter_point (meaning program.now) vars) (variables_from vars first (length nest.now))) }
    ensures many { IfOk result (λ rows. length rows.items ≡ 2 * length nest.now) }
    ensures over { IfOk result (λ rows. AllOver vars rows.items) }
{
    let bounds = nest.bounds();
    let params = variables_from(alloc, vars, 0, program.params().len())?;
    let values = variables_from(alloc, vars, first, bounds.len())?;
    let rows = within_rows(alloc, vars, bounds, params.as_slice(), values.as_slice())?;
    Ok(rows)
}

/// The rows which say that two parts have an image in common where they have these points: that their maps are equal, form by form.
fn image_rows(
    alloc: Global,
    program: &Program,
    first: &Part,
    second: &Part,
) -> Result<Vec<Form>, Memory>
    requires first { FitsPart program.now (length first.now.image.items) first.now }
    requires second { FitsPart program.now (length first.now.image.items) second.now }
    ensures rows { IfOk result (λ rows. let vars = two_variables (meaning program.now) (part_of first.now) (part_of second.now) in
        rows.items ≡ equality_rows vars (put_in (parameter_point (meaning program.now) vars ++ first_values (meaning program.now) (part_of first.now) (part_of second.now)) first.now.image.items)
        (put_in (parameter_point (meaning program.now) vars ++ second_values (meaning program.now) (part_of first.now) (part_of second.now)) second.now.image.items)) }
    ensures over { IfOk result (λ rows. AllOver (two_variables (meaning program.now) (part_of first.now) (part_of second.now)) rows.items) }
    ensures many { IfOk result (λ rows. length rows.items ≤ 2 * length first.now.image.items) }
{
    let vars = two_variables(program, first, second);
    let params = program.params().len();
    let size = first.nest.bounds().len();
    let others = second.nest.bounds().len();
    let one = point_from(alloc, program, vars, params, size)?;
    let other = point_from(alloc, program, vars, params + size, others)?;
    let (image, others) = (first.image.as_slice(), second.image.as_slice());
    let rows = cell_rows(alloc, vars, image, one.as_slice(), others, other.as_slice())?;
    Ok(rows)
}

/// The rows which say that two parts have an image in common.
fn two_rows(
    alloc: Global,
    program: &Program,
    first: &Part,
    second: &Part,
) -> Result<Vec<Form>, Memory>
    requires first { FitsPart program.now (length first.now.image.items) first.now }
    requires second { FitsPart program.now (length first.now.image.items) second.now }
    ensures rows { IfOk result (λ rows. rows.items ≡ two_rows (meaning program.now) (part_of first.now) (part_of second.now)) }
    ensures over { IfOk result (λ rows. AllOver (two_variables (meaning program.now) (part_of first.now) (part_of second.now)) rows.items) }
    ensures few { IfOk result (λ rows. length rows.items + TREE_TESTS ≤ ROWS) }
{
    let vars = two_variables(program, first, second);
    let params = program.params().len();
    let middle = params + first.nest.bounds().len();
    let assumed = all_widened(alloc, vars, program.assumed().rows())?;
    let own = nest_rows(alloc, program, vars, params, &first.nest)?;
    let other = nest_rows(alloc, program, vars, middle, &second.nest)?;
    let equal = image_rows(alloc, program, first, second)?;
    let rows = followed_by(alloc, assumed, own.as_slice())?;
    let rows = followed_by(alloc, rows, other.as_slice())?;
    followed_by(alloc, rows, equal.as_slice())
}

/// Whether the images of two parts are shown to differ, by the split with this number.
fn pair_shown(
    alloc: Global,
    program: &Program,
    place: &Place,
    index: usize,
    first: &Part,
    second: &Part,
    split: &Split,
) -> Result<(), Refused>
    requires first { FitsPart program.now (length first.now.image.items) first.now }
    requires second { FitsPart program.now (length first.now.image.items) second.now }
    requires split { SplitFits (two_variables (meaning program.now) (part_of first.now) (part_of second.now)) (split_of split.now) }
    requires nesting { nesting (split_of split.now) ≤ TREE_TESTS }
    ensures { Decides (apart_claims (meaning program.now) index place.now (part_of first.now) (part_of second.now) (split_of split.now)) result }
{
    let here = member_at(alloc, place, ObjectKey("distinct"), index)?;
    let vars = two_variables(program, first, second);
    let rows = two_rows(alloc, program, first, second)?;
    split_shown(alloc, &here, vars, rows.as_slice(), split)
}

/// Whether the images of a part and of each of a list are shown to differ, by splits of which the first has this number.
fn later_shown(
    alloc: Global,
    program: &Program,
    place: &Place,
    index: usize,
    part: &Part,
    others: &[Part],
    splits: &[Split],
) -> Result<(), Refused>
    requires part { FitsPart program.now (length part.now.image.items) part.now }
    requires others { AllByRecursion (FitsPart program.now (length part.now.image.items)) others.now }
    requires splits { SplitsFrom (meaning program.now) (part_of part.now) (map part_of others.now) (map split_of splits.now) }
    requires room { index + length splits.now < 2 ^ 64 }
    ensures { Decides (apart_from (meaning program.now) place.now index (part_of part.now) (map part_of others.now) (map split_of splits.now)) result }
{
    let Some((other, others)) = others.split_first() else {
        return Ok(());
    };
    let Some((split, splits)) = splits.split_first() else {
        return Ok(());
    };
    pair_shown(alloc, program, place, index, part, other, split)?;
    later_shown(alloc, program, place, index + 1, part, others, splits)
}

/// Whether the images of each two of these parts are shown to differ, by splits of which the first has this number.
pub(crate) fn distinct_shown(
    alloc: Global,
    program: &Program,
    place: &Place,
    index: usize,
    parts: &[Part],
    splits: &[Split],
) -> Result<(), Refused>
    requires parts { (dimensions : ℕ) × AllByRecursion (FitsPart program.now dimensions) parts.now }
    requires splits { SplitsFit (meaning program.now) (map part_of parts.now) (map split_of splits.now) }
    requires room { index + length splits.now < 2 ^ 64 }
    ensures { Decides (distinct_claims (meaning program.now) place.now index (map part_of parts.now) (map split_of splits.now)) result }
{
    let Some((part, later)) = parts.split_first() else {
        return Ok(());
    };
    later_shown(alloc, program, place, index, part, later, splits)?;
    let (_here, behind) = splits.split_at(later.len());
    let next = index + later.len();
    distinct_shown(alloc, program, place, next, later, behind)
}
