//! A certificate that is made for a program.

ghost use Rattle.std.specs.Prelude.{◌≡◌, IfOk, IfErr};
ghost use Rattle.affine_program.specs.Parts.{meaning};
ghost use Rattle.iolb_commands.specs.Bounded.{IsBounded};
ghost use Rattle.iolb_commands.specs.Phases.{Answered};
ghost use Rattle.iolb_commands.specs.Stop.{IsCalm};
ghost use Rattle.iolb_commands.specs.Works.{with_note};
ghost use Rattle.iolb_commands.specs.Written.{answer_form, answer_note, answer_text, end_of};

use crate::answered::Answer;
use crate::stop::Stop;
use affine_form::Memory;
use affine_program::Program;
use find_terms::made;
use iolb_cert::bound_text;
use std::alloc::Global;

/// Makes a certificate for a program.
pub(crate) fn bounded(alloc: Global, program: &Program) -> Result<Answer, Stop>
    ensures comes { Answered (IsBounded (meaning program.now)) (end_of result) }
    ensures kind { IfOk result (λ answer. answer_form answer ≡ with_note) }
    ensures calm { IfErr result IsCalm }
{
    match texts(alloc, program) {
        Ok(answer) => Ok(answer),
        Err(Memory) => Err(Stop::Memory),
    }
}

/// The text of a certificate for a program, and that of its bound.
fn texts(alloc: Global, program: &Program) -> Result<Answer, Memory>
    ensures good { IfOk result (λ answer. IsBounded (meaning program.now) (answer_text answer) (answer_note answer)) }
    ensures kind { IfOk result (λ answer. answer_form answer ≡ with_note) }
{
    let _params = program.params();
    let accepted = made(alloc, program)?;
    let bound = bound_text(alloc, program, &accepted.bound)?;
    Ok(Answer::Bound {
        certificate: accepted.text,
        bound,
    })
}
