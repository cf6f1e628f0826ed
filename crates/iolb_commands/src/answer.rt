//! What answers a job.

ghost use Rattle.std.specs.Prelude.{◌≡◌, ◌≤◌, ◌<◌, ◌^◌, ◌++◌, length, slice_get, List, Some, codes, decimal, IfOk, IfErr, OnOk};
ghost use Rattle.std.specs.List.{AllByRecursion};
ghost use Rattle.iolb_model.specs.Bound.{AreMet, bound_value, branch_value};
ghost use Rattle.iolb_model.specs.Program.{AffineProgram};
ghost use Rattle.affine_program.specs.Parts.{meaning};
ghost use Rattle.affine_form.specs.Form.{IsSmall};
ghost use Rattle.command_words.specs.Requests.{IsSmallJob, judges, task_of};
ghost use Rattle.iolb_model.specs.Headline.{BoundHolds};
ghost use Rattle.iolb_model.specs.Parallel.{HoldsInParallel};
ghost use Rattle.iolb_check.specs.declared.bound.Value.{Value as value};
ghost use Rattle.iolb_check.specs.Bounds.{HasWideBranch, bound_of, terms_of};
ghost use Rattle.iolb_commands.specs.Phases.{AtSizes, Narrow, Says, TaskComes};
ghost use Rattle.iolb_commands.specs.Stop.{IsCalm};
ghost use Rattle.iolb_commands.specs.Values.{branch_value_lines, values_text};
ghost use Rattle.iolb_commands.specs.Works.{sizes_for, whole};
ghost use Rattle.iolb_commands.specs.Written.{IsOfWork, answer_form, end_of};
ghost use Rattle.iolb_model.specs.declared.limits.TheConstants.{VALUE_SIZE};

use crate::answered::Answer;
use crate::levelling::levels_answer;
use crate::sharing::parallel_answer;
use crate::stop::{Refusal, Stop};
use affine_form::Memory;
use affine_program::Program;
use command_words::Job;
use iolb_cert::bound_text;
use iolb_check::{Bound, ValueFault};
use std::alloc::Global;

/// What answers a job, where the bound holds: its text, or its values at the sizes.
pub(crate) fn answer(
    alloc: Global,
    program: &Program,
    bound: &Bound,
    job: &Job,
    sizes: &[i64],
) -> Result<Answer, Stop>
    requires assumed { bound.now.assumed ≡ program.now.assumed }
    requires holds { BoundHolds (meaning program.now) (bound_of bound.now) }
    requires parallel { HoldsInParallel (meaning program.now) (bound_of bound.now) }
    requires job { IsSmallJob job.now }
    requires given { sizes_for (judges (task_of job.now)) program.now.params ≡ Some sizes.now }
    requires small { AllByRecursion (IsSmall VALUE_SIZE) sizes.now }
    ensures comes { TaskComes (task_of job.now) (meaning program.now) sizes.now bound.now.branches (end_of result) }
    ensures kind { IfOk result (IsOfWork (judges (task_of job.now))) }
    ensures calm { IfErr result IsCalm }
{
    let _params = program.params();
    match job {
        Job::Check => match bound_text(alloc, program, bound) {
            Ok(text) => Ok(Answer::Text(text)),
            Err(Memory) => Err(Stop::Memory),
        },
        Job::Eval(setting) => valued(alloc, bound, sizes, setting.memory),
        Job::Parallel {
            processors,
            setting,
        } => parallel_answer(alloc, bound, sizes, *processors, setting.memory),
        Job::Levels(setting) => levels_answer(alloc, bound, sizes, setting.capacities.as_slice()),
    }
}

/// The lines of a bound's values, where the sizes meet its assumptions.
fn valued(alloc: Global, bound: &Bound, sizes: &[i64], s: u64) -> Result<Answer, Stop>
    requires each { length sizes.now ≡ bound.now.assumed.vars }
    requires small { AllByRecursion (IsSmall VALUE_SIZE) sizes.now }
    requires some { 1 ≤ s }
    requires few { s < 2 ^ 63 }
    ensures comes { (program : AffineProgram) → BoundHolds program (bound_of bound.now) → AtSizes bound.now.assumed.rows sizes.now
        (Narrow (HasWideBranch sizes.now s bound.now.branches) (Says (BoundHolds program (bound_of bound.now)) (values_text (bound_of bound.now) sizes.now s))) (end_of result) }
    ensures kind { IfOk result (λ answer. answer_form answer ≡ whole) }
    ensures calm { IfErr result IsCalm }
{
    let value = match bound.value(sizes, s) {
        Ok(value) => value,
        Err(ValueFault::OutsideAssumption(number)) => return Err(Stop::Refused(Refusal::Assumption(
            number,
        ))),
        Err(ValueFault::Wide) => return Err(Stop::Wide),
    };
    match all_lines(alloc, bound, sizes, s, value) {
        Ok(text) => Ok(Answer::Text(text)),
        Err(Memory) => Err(Stop::Memory),
    }
}

/// The lines of a bound's values, where this is its own.
fn all_lines(
    alloc: Global,
    bound: &Bound,
    sizes: &[i64],
    s: u64,
    value: u128,
) -> Result<Vec<u8>, Memory>
    requires each { length sizes.now ≡ bound.now.assumed.vars }
    requires small { AllByRecursion (IsSmall VALUE_SIZE) sizes.now }
    requires some { 1 ≤ s }
    requires few { s < 2 ^ 63 }
    requires met { AreMet bound.now.assumed.rows sizes.now }
    requires narrow { ¬ HasWideBranch sizes.now s bound.now.branches }
    requires value { value ≡ bound_value (bound_of bound.now) sizes.now s }
    ensures { IfOk result (λ text. text.items ≡ values_text (bound_of bound.now) sizes.now s) }
{
    let mut text = branch_lines(alloc, bound, sizes, s)?;
    text.extend_from_slice(b"value ")?;
    text.extend_from_slice(format!(in alloc; "{value}")?.as_bytes())?;
    text.push(b'\n')?;
    Ok(text)
}

/// The line of each branch's value.
fn branch_lines(alloc: Global, bound: &Bound, sizes: &[i64], s: u64) -> Result<Vec<u8>, Memory>
    requires each { length sizes.now ≡ bound.now.assumed.vars }
    requires small { AllByRecursion (IsSmall VALUE_SIZE) sizes.now }
    requires some { 1 ≤ s }
    requires few { s < 2 ^ 63 }
    requires met { AreMet bound.now.assumed.rows sizes.now }
    requires narrow { ¬ HasWideBranch sizes.now s bound.now.branches }
    ensures { IfOk result (λ text. text.items ≡ branch_value_lines 0 (bound_of bound.now).branches sizes.now s) }
{
    let mut text = Vec::new(alloc);
    for branch in 0..bound.branches() {
        let value = value_of(bound, branch, sizes, s);
        push_branch(alloc, &mut text, branch, value)?;
    }
    Ok(text)
}

/// The value of a branch of a bound whose values at the sizes aren't beyond 128 bits.
fn value_of(bound: &Bound, branch: usize, sizes: &[i64], s: u64) -> u128
    requires there { branch < length bound.now.branches }
    requires each { length sizes.now ≡ bound.now.assumed.vars }
    requires small { AllByRecursion (IsSmall VALUE_SIZE) sizes.now }
    requires some { 1 ≤ s }
    requires few { s < 2 ^ 63 }
    requires met { AreMet bound.now.assumed.rows sizes.now }
    requires narrow { ¬ HasWideBranch sizes.now s bound.now.branches }
    ensures { (terms : List value) × (slice_get bound.now.branches branch ≡ Some terms) × (result ≡ branch_value (terms_of terms) sizes.now s) }
{
    match bound.branch_value(branch, sizes, s) {
        Ok(value) => value,
        Err(_) => unreachable!(),
    }
}

/// A branch's value, on a line at the end.
fn push_branch(alloc: Global, text: &mut Vec<u8>, branch: usize, value: u128) -> Result<(), Memory>
    ensures { OnOk result (text.new.items ≡ text.old.items ++ codes "branch " ++ decimal branch ++ codes " " ++ decimal value ++ codes "\n") }
{
    text.extend_from_slice(b"branch ")?;
    text.extend_from_slice(format!(in alloc; "{branch}")?.as_bytes())?;
    text.push(b' ')?;
    text.extend_from_slice(format!(in alloc; "{value}")?.as_bytes())?;
    text.push(b'\n')?;
    Ok(())
}
