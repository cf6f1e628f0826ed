//! The value of a bound for several processors.

ghost use Rattle.std.specs.Prelude.{◌≡◌, ◌≤◌, ◌<◌, ◌^◌, length, IfOk, IfErr};
ghost use Rattle.std.specs.List.{AllByRecursion};
ghost use Rattle.affine_form.specs.Form.{IsSmall};
ghost use Rattle.iolb_check.specs.Bounds.{bound_of};
ghost use Rattle.iolb_model.specs.Headline.{BoundHolds};
ghost use Rattle.iolb_model.specs.Parallel.{HoldsInParallel};
ghost use Rattle.iolb_model.specs.Program.{AffineProgram};
ghost use Rattle.parallel_bound.specs.Widths.{HasWideParallelBranch};
ghost use Rattle.iolb_commands.specs.Phases.{AtSizes, Narrow, Says};
ghost use Rattle.iolb_commands.specs.Stop.{IsCalm};
ghost use Rattle.iolb_commands.specs.Values.{parallel_text, processor_lines as lines_of_processors};
ghost use Rattle.iolb_commands.specs.Works.{whole};
ghost use Rattle.iolb_commands.specs.Written.{answer_form, end_of};
ghost use Rattle.iolb_model.specs.declared.limits.TheConstants.{PROCESSORS, VALUE_SIZE};

use crate::answered::Answer;
use crate::stop::{Refusal, Stop};
use affine_form::Memory;
use iolb_check::{Bound, ValueFault};
use parallel_bound::value_in_parallel;
use std::alloc::Global;

/// The lines of a bound's value for so many processors, where the sizes meet its assumptions.
pub(crate) fn parallel_answer(
    alloc: Global,
    bound: &Bound,
    sizes: &[i64],
    processors: u32,
    s: u64,
) -> Result<Answer, Stop>
    requires each { length sizes.now ≡ bound.now.assumed.vars }
    requires small { AllByRecursion (IsSmall VALUE_SIZE) sizes.now }
    requires some_processor { 1 ≤ processors }
    requires few_processors { processors ≤ PROCESSORS }
    requires some { 1 ≤ s }
    requires few { s < 2 ^ 63 }
    ensures comes { (program : AffineProgram) → BoundHolds program (bound_of bound.now) → HoldsInParallel program (bound_of bound.now) → AtSizes bound.now.assumed.rows sizes.now
        (Narrow (HasWideParallelBranch sizes.now processors s bound.now.branches)
        (Says (BoundHolds program (bound_of bound.now) × HoldsInParallel program (bound_of bound.now)) (parallel_text processors (bound_of bound.now) sizes.now s))) (end_of result) }
    ensures kind { IfOk result (λ answer. answer_form answer ≡ whole) }
    ensures calm { IfErr result IsCalm }
{
    let value = match value_in_parallel(bound, sizes, processors, s) {
        Ok(value) => value,
        Err(ValueFault::OutsideAssumption(number)) => return Err(Stop::Refused(Refusal::Assumption(
            number,
        ))),
        Err(ValueFault::Wide) => return Err(Stop::Wide),
    };
    match processor_lines(alloc, processors, value) {
        Ok(text) => Ok(Answer::Text(text)),
        Err(Memory) => Err(Stop::Memory),
    }
}

/// So many processors, and a value for them.
fn processor_lines(alloc: Global, processors: u32, value: u128) -> Result<Vec<u8>, Memory>
    ensures { IfOk result (λ text. text.items ≡ lines_of_processors processors value) }
{
    let text = format!(in alloc; "processors {processors}\nvalue {value}\n")?;
    Ok(Vec::from_slice(alloc, text.as_bytes())?)
}
