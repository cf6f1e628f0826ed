//! Loads and stores together.

ghost use Rattle.std.specs.Prelude.{◌≡◌, ◌≤◌, ◌<◌, ◌+◌, ◌^◌, Some, List, IfOk, IfErr};
ghost use Rattle.std.specs.List.{AllByRecursion};
ghost use Rattle.affine_form.specs.Form.{IsSmall};
ghost use Rattle.affine_program.specs.Parts.{meaning};
ghost use Rattle.command_words.specs.Sizes.{NamedSize, values_for};
ghost use Rattle.iolb_check.specs.Claims.{claim_of_certificate};
ghost use Rattle.iolb_commands.specs.Phases.{TrafficComes};
ghost use Rattle.iolb_commands.specs.Stop.{IsCalm};
ghost use Rattle.iolb_commands.specs.Values.{traffic_text};
ghost use Rattle.iolb_commands.specs.Works.{whole};
ghost use Rattle.iolb_commands.specs.Written.{answer_form, end_of};
ghost use Rattle.iolb_model.specs.declared.limits.TheConstants.{MEASURE, VALUE_SIZE};
ghost use Rattle.store_terms.specs.Claims.{claim_of_stores};

use crate::answered::Answer;
use crate::stop::{Refusal, Stop};
use affine_form::Memory;
use affine_program::Program;
use iolb_check::Certificate;
use std::alloc::Global;
use store_bound::{TrafficFault, traffic};
use store_terms::Stores;

/// The lines of what a certificate and stores say of loads and stores together at the sizes, with `s` red pebbles.
pub(crate) fn traffic_answer(
    alloc: Global,
    program: &Program,
    certificate: &Certificate,
    stores: &Stores,
    sizes: &[i64],
    s: u64,
) -> Result<Answer, Stop>
    requires some { 1 ≤ s }
    requires few { s < 2 ^ 63 }
    requires given { (named : List NamedSize) × (values_for program.now.params named ≡ Some sizes.now) }
    requires small { AllByRecursion (IsSmall VALUE_SIZE) sizes.now }
    ensures comes { TrafficComes s (meaning program.now) sizes.now (claim_of_certificate certificate.now) (claim_of_stores stores.now) (end_of result) }
    ensures kind { IfOk result (λ answer. answer_form answer ≡ whole) }
    ensures calm { IfErr result IsCalm }
{
    let found = match traffic(alloc, program, certificate, stores, sizes, s) {
        Ok(found) => found,
        Err(TrafficFault::Refused(failed)) => return Err(Stop::Refused(Refusal::Condition(failed))),
        Err(TrafficFault::StoresRefused(failed)) => return Err(Stop::Refused(
            Refusal::StoresCondition(failed),
        )),
        Err(TrafficFault::OutsideAssumption(number)) => return Err(Stop::Refused(
            Refusal::Assumption(number),
        )),
        Err(TrafficFault::Wide) => return Err(Stop::Wide),
        Err(TrafficFault::Memory) => return Err(Stop::Memory),
    };
    match traffic_lines(alloc, found.loads, found.stores) {
        Ok(text) => Ok(Answer::Text(text)),
        Err(Memory) => Err(Stop::Memory),
    }
}

/// So many loads, so many stores, and both together.
fn traffic_lines(alloc: Global, loads: u128, stores: u128) -> Result<Vec<u8>, Memory>
    requires { loads + stores < MEASURE }
    ensures { IfOk result (λ text. text.items ≡ traffic_text loads stores) }
{
    let both = loads + stores;
    let text = format!(in alloc; "loads {loads}\nstores {stores}\ntraffic {both}\n")?;
    Ok(Vec::from_slice(alloc, text.as_bytes())?)
}
