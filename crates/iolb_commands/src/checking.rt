//! A certificate that was read: whether it meets the conditions, and what answers the job.

ghost use Rattle.std.specs.Prelude.{◌≡◌, Some, IfOk, IfErr};
ghost use Rattle.std.specs.List.{AllByRecursion};
ghost use Rattle.affine_form.specs.Form.{IsSmall};
ghost use Rattle.affine_program.specs.Parts.{meaning};
ghost use Rattle.command_words.specs.Requests.{IsSmallJob, judges, task_of};
ghost use Rattle.iolb_commands.specs.Phases.{CertificateComes};
ghost use Rattle.iolb_commands.specs.Stop.{IsCalm};
ghost use Rattle.iolb_commands.specs.Works.{sizes_for};
ghost use Rattle.iolb_commands.specs.Written.{IsOfWork, end_of};
ghost use Rattle.iolb_model.specs.declared.limits.TheConstants.{VALUE_SIZE};

use crate::answer::answer;
use crate::answered::Answer;
use crate::stop::{OtherFault, Refusal, Stop};
use affine_program::Program;
use claims::Refused;
use command_words::Job;
use iolb_cert::{CertError, read_certificate};
use iolb_check::check;
use parallel_bound::holds::accepted_bounds_hold_in_parallel;
use std::alloc::Global;

/// Reads a certificate from its text, checks it for the program, and answers the job.
pub(crate) fn judged(
    alloc: Global,
    program: &Program,
    job: &Job,
    sizes: &[i64],
    bytes: &[u8],
) -> Result<Answer, Stop>
    requires job { IsSmallJob job.now }
    requires given { sizes_for (judges (task_of job.now)) program.now.params ≡ Some sizes.now }
    requires small { AllByRecursion (IsSmall VALUE_SIZE) sizes.now }
    ensures comes { CertificateComes (task_of job.now) (meaning program.now) sizes.now bytes.now (end_of result) }
    ensures kind { IfOk result (IsOfWork (judges (task_of job.now))) }
    ensures calm { IfErr result IsCalm }
{
    let certificate = match read_certificate(alloc, bytes) {
        Ok(certificate) => certificate,
        Err(CertError::Fault(fault)) => return Err(Stop::OtherText(OtherFault::Certificate(fault))),
        Err(CertError::Memory) => return Err(Stop::Memory),
    };
    accepted_bounds_hold_in_parallel();
    let _params = program.params();
    match check(alloc, program, &certificate) {
        Ok(bound) => answer(alloc, program, &bound, job, sizes),
        Err(Refused::Failed(failed)) => Err(Stop::Refused(Refusal::Condition(failed))),
        Err(Refused::Memory) => Err(Stop::Memory),
    }
}
