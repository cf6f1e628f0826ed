//! Bounds for several processors.

ghost use Rattle.std.specs.Prelude.{◌≡◌, ◌≤◌, ◌<◌, ◌^◌, length, IfOk};
ghost use Rattle.std.specs.List.{AllByRecursion};
ghost use Rattle.affine_form.specs.Form.{IsSmall};
ghost use Rattle.affine_program.specs.Parts.{meaning};
ghost use Rattle.iolb_model.specs.declared.limits.TheConstants.{PROCESSORS, VALUE_SIZE};
ghost use Rattle.parallel_bound.specs.Faults.{AnswersInParallel, SomeProcessorLoads};

use crate::evaluation::value_in_parallel;
use crate::fault::ParallelFault;
use crate::holds::accepted_bounds_hold_in_parallel;
use affine_program::Program;
use claims::Refused;
use iolb_check::{Certificate, ValueFault, check};
use std::alloc::Global;

/// How many loads the busiest of so many processors makes at least, each with a fast memory of `s` words over one slow memory,
/// at sizes for the parameters: in every complete parallel pebbling of the program's computation graph some processor makes as
/// many.
///
/// # Errors
///
/// `Refused` is the certificate's first condition that fails. Where all are met, `OutsideAssumption` names the first assumption
/// that is false at the sizes, and `Wide` comes where all are true, exactly as `value_in_parallel` has it. `Memory` says that
/// there was no memory for the check.
pub fn parallel(
    alloc: Global,
    program: &Program,
    certificate: &Certificate,
    sizes: &[i64],
    processors: u32,
    s: u64,
) -> Result<u128, ParallelFault>
    requires each { length sizes.now ≡ length program.now.params }
    requires small { AllByRecursion (IsSmall VALUE_SIZE) sizes.now }
    requires some_processor { 1 ≤ processors }
    requires few_processors { processors ≤ PROCESSORS }
    requires some { 1 ≤ s }
    requires few { s < 2 ^ 63 }
    ensures answer { AnswersInParallel program.now certificate.now sizes.now processors s result }
    ensures busiest { IfOk result (λ value. SomeProcessorLoads (meaning program.now) sizes.now processors s value) }
{
    let _params = program.params();
    accepted_bounds_hold_in_parallel();
    let bound = match check(alloc, program, certificate) {
        Ok(bound) => bound,
        Err(Refused::Failed(failed)) => return Err(ParallelFault::Refused(failed)),
        Err(Refused::Memory) => return Err(ParallelFault::Memory),
    };
    match value_in_parallel(&bound, sizes, processors, s) {
        Ok(value) => Ok(value),
        Err(ValueFault::OutsideAssumption(number)) => Err(ParallelFault::OutsideAssumption(number)),
        Err(ValueFault::Wide) => Err(ParallelFault::Wide),
    }
}
