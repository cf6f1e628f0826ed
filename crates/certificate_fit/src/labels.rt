//! Whether labels fit.
#![tactic(auto, using(claims::proofs::Found::in_a_row))]

ghost use Rattle.std.specs.Prelude.{◌≡◌, ◌+◌, ◌++◌, ◌∷◌, [], length, map, option_map, slice_get, codes};
ghost use Rattle.affine_program.specs.Domain.{depth_of};
ghost use Rattle.affine_program.specs.Parts.{meaning};
ghost use Rattle.claims.specs.Claims.{numbered, Decides};
ghost use Rattle.claims.specs.declared.place.Step.TheVariants.{Key};
ghost use Rattle.certificate_fit.specs.FamilyFit.{input_fit, inputs_fit, instance_fit, instances_fit, label_fit, subscripts_of};
ghost use Rattle.reuse_paths.specs.Families.{boxed_forms};

use crate::counts::loops_around;
use crate::lists::{all_forms_fit_in, misfit};
use affine_form::Form;
use affine_program::Program;
use claims::{ObjectKey, Place, Refused, Step};
use std::alloc::Global;

/// Whether what is said fits of a label, one step further in: of so many forms over so many variables.
pub(crate) fn label_fits(
    alloc: Global,
    place: &Place,
    step: Step,
    size: usize,
    variables: u128,
    label: &[Form],
) -> Result<(), Refused>
    ensures { Decides (label_fit size variables (place.now ++ step ∷ []) label.now) result }
{
    if label.len() != size {
        return Err(misfit(alloc, place, step));
    }
    all_forms_fit_in(alloc, place, step, variables, label)?;
    Ok(())
}

/// How many subscripts an array has: none if it isn't there.
fn subscripts_of(program: &Program, array: usize) -> usize
    ensures { result ≡ subscripts_of (slice_get (meaning program.now).arrays array) }
{
    match program.arrays().get(array) {
        Some((_, rank)) => usize::from(*rank),
        None => 0,
    }
}

/// How many variables a label of the cells of an array has: the parameters and the subscripts.
fn cell_variables(program: &Program, array: usize) -> u128
    ensures { result ≡ length (meaning program.now).parameters + subscripts_of (slice_get (meaning program.now).arrays array) }
{
    program.params().len() as u128 + subscripts_of(program, array) as u128
}

/// Whether what is said fits of the label of an array's cells, if they have one, in a list at this place.
fn input_fits(
    alloc: Global,
    program: &Program,
    list: &Place,
    size: usize,
    array: usize,
    label: &Option<Box<Vec<Form>>>,
) -> Result<(), Refused>
    ensures { Decides (input_fit (meaning program.now) size list.now array (option_map boxed_forms label.now)) result }
{
    let Some(label) = label else {
        return Ok(());
    };
    let variables = cell_variables(program, array);
    let step = Step::Index(array as u64);
    label_fits(alloc, list, step, size, variables, label.as_slice())
}

/// Whether what is said fits of the labels of the arrays' cells, in a list at this place.
fn all_labels_fit(
    alloc: Global,
    program: &Program,
    list: &Place,
    size: usize,
    labels: &[Option<Box<Vec<Form>>>],
) -> Result<(), Refused>
    ensures { Decides (numbered (input_fit (meaning program.now) size list.now) 0 (map (option_map boxed_forms) labels.now)) result }
{
    for (array, label) in labels.iter().enumerate() {
        input_fits(alloc, program, list, size, array, label)?;
    }
    Ok(())
}

/// Whether what is said fits of the labels of the arrays' cells, of so many forms each, the list with the key `inputs`.
pub fn all_inputs_fit(
    alloc: Global,
    program: &Program,
    place: &Place,
    size: usize,
    labels: &[Option<Box<Vec<Form>>>],
) -> Result<(), Refused>
    ensures { Decides (inputs_fit (meaning program.now) (place.now ++ Key (codes "inputs") ∷ []) size (map (option_map boxed_forms) labels.now)) result }
{
    if labels.len() != program.arrays().len() {
        return Err(misfit(alloc, place, Step::Key(ObjectKey("inputs"))));
    }
    let list = place.within(alloc, Step::Key(ObjectKey("inputs")))?;
    all_labels_fit(alloc, program, &list, size, labels)?;
    Ok(())
}

/// How many variables a label of the instances of a statement has: the parameters and the loop values.
pub(crate) fn instance_variables(program: &Program, statement: u16) -> u128
    ensures { result ≡ length (meaning program.now).parameters + depth_of (meaning program.now) statement }
{
    program.params().len() as u128 + loops_around(program, statement) as u128
}

/// Whether what is said fits of the label of a statement's instances, if they have one, in a list at this place.
fn instance_fits(
    alloc: Global,
    program: &Program,
    list: &Place,
    size: usize,
    statement: u16,
    label: &Option<Box<Vec<Form>>>,
) -> Result<(), Refused>
    ensures { Decides (instance_fit (meaning program.now) size list.now statement (option_map boxed_forms label.now)) result }
{
    let Some(label) = label else {
        return Ok(());
    };
    let variables = instance_variables(program, statement);
    let step = Step::Index(u64::from(statement));
    label_fits(alloc, list, step, size, variables, label.as_slice())
}

/// Whether what is said fits of the labels of the statements' instances, in a list at this place.
fn all_instance_labels_fit(
    alloc: Global,
    program: &Program,
    list: &Place,
    size: usize,
    labels: &[Option<Box<Vec<Form>>>],
) -> Result<(), Refused>
    requires { length labels.now ≡ length program.now.statements }
    ensures { Decides (numbered (instance_fit (meaning program.now) size list.now) 0 (map (option_map boxed_forms) labels.now)) result }
{
    let _params = program.params();
    for (statement, label) in labels.iter().enumerate() {
        instance_fits(alloc, program, list, size, statement as u16, label)?;
    }
    Ok(())
}

/// Whether what is said fits of the labels of the statements' instances, of so many forms each, the list with the key `nodes`.
pub fn all_instances_fit(
    alloc: Global,
    program: &Program,
    place: &Place,
    size: usize,
    labels: &[Option<Box<Vec<Form>>>],
) -> Result<(), Refused>
    ensures { Decides (instances_fit (meaning program.now) (place.now ++ Key (codes "nodes") ∷ []) size (map (option_map boxed_forms) labels.now)) result }
{
    if labels.len() != program.statements().len() {
        return Err(misfit(alloc, place, Step::Key(ObjectKey("nodes"))));
    }
    let list = place.within(alloc, Step::Key(ObjectKey("nodes")))?;
    all_instance_labels_fit(alloc, program, &list, size, labels)?;
    Ok(())
}
