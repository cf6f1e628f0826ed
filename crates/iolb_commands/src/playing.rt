//! A schedule that was read, and its play.

ghost use Rattle.std.specs.Prelude.{◌≡◌, ◌≤◌, Some, IfOk, IfErr};
ghost use Rattle.std.specs.List.{AllByRecursion};
ghost use Rattle.affine_form.specs.Form.{IsSmall};
ghost use Rattle.affine_program.specs.Parts.{meaning};
ghost use Rattle.command_words.specs.Sizes.{NamedSize, values_for};
ghost use Rattle.std.specs.Prelude.{List};
ghost use Rattle.iolb_commands.specs.Phases.{ScheduleComes};
ghost use Rattle.iolb_commands.specs.Stop.{IsCalm};
ghost use Rattle.iolb_commands.specs.Works.{by_lines};
ghost use Rattle.iolb_commands.specs.Written.{answer_form, end_of};
ghost use Rattle.iolb_model.specs.declared.limits.TheConstants.{VALUE_SIZE};

use crate::answered::Answer;
use crate::stop::{OtherFault, Refusal, Stop};
use affine_program::Program;
use std::alloc::Global;
use tile_sched::{Play, PlayFault, SchedError, read_schedule};

/// Reads a schedule from its text, and makes it ready to be played at the sizes with `s` red pebbles.
pub(crate) fn readied(
    alloc: Global,
    program: &Program,
    s: u64,
    sizes: &[i64],
    bytes: &[u8],
) -> Result<Answer, Stop>
    requires some { 1 ≤ s }
    requires given { (named : List NamedSize) × (values_for program.now.params named ≡ Some sizes.now) }
    requires small { AllByRecursion (IsSmall VALUE_SIZE) sizes.now }
    ensures comes { ScheduleComes s (meaning program.now) sizes.now bytes.now (end_of result) }
    ensures kind { IfOk result (λ answer. answer_form answer ≡ by_lines) }
    ensures calm { IfErr result IsCalm }
{
    let schedule = match read_schedule(alloc, bytes, program) {
        Ok(schedule) => schedule,
        Err(SchedError::Fault(fault)) => return Err(Stop::OtherText(OtherFault::Schedule(fault))),
        Err(SchedError::Memory) => return Err(Stop::Memory),
    };
    match Play::new(alloc, program, &schedule, sizes, s) {
        Ok(play) => Ok(Answer::Lines(play)),
        Err(PlayFault::Refused(unplayed)) => Err(Stop::Refused(Refusal::Unplayed(unplayed))),
        Err(PlayFault::Memory) => Err(Stop::Memory),
    }
}
