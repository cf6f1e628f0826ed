//! The conditions of outputs.
#![tactic(auto, using(claims::proofs::Found::in_a_row))]

ghost use Rattle.std.specs.Prelude.{map, IfOk, IfErr, OnOk};
ghost use Rattle.std.specs.List.{AllByRecursion, AllZip};
ghost use Rattle.affine_program.specs.Parts.{meaning};
ghost use Rattle.claims.specs.Claims.{AllHold, IsRefusal, numbered};
ghost use Rattle.domain_count.specs.Count.{IsCount};
ghost use Rattle.last_writers.specs.Fitting.{FitsOutput};
ghost use Rattle.last_writers.specs.Outputs.{IsSoundOutput};
ghost use Rattle.store_bound.specs.Conditions.{AreCountsOf, output_claims_at};
ghost use Rattle.store_bound.specs.Sound.{IsOutputCount};
ghost use Rattle.store_terms.specs.Claims.{claim_of_output};

use crate::fit_stores::output_place;
use affine_program::Program;
use claims::Refused;
use last_writers::check_output;
use poly_tree::Poly;
use std::alloc::Global;
use store_terms::Output;

/// The count of the output of this number.
fn checked_output(
    alloc: Global,
    program: &Program,
    index: usize,
    output: &Output,
) -> Result<Poly, Refused>
    requires { FitsOutput program.now output.now }
    ensures accepted { OnOk result (AllHold (output_claims_at (meaning program.now) index (claim_of_output output.now))) }
    ensures counted { IfOk result (λ count. IsOutputCount program.now output.now count) }
    ensures value { IfOk result (λ count. IsCount (meaning program.now) output.now.nest output.now.sums count) }
    ensures sound { OnOk result (IsSoundOutput (meaning program.now) (claim_of_output output.now)) }
    ensures refused { IfErr result (IsRefusal (output_claims_at (meaning program.now) index (claim_of_output output.now))) }
{
    let _params = program.params();
    let Ok(place) = output_place(alloc, index) else {
        return Err(Refused::Memory);
    };
    let count = check_output(alloc, program, output, &place)?;
    Ok(count)
}

/// The counts of outputs, in order.
///
/// # Errors
///
/// The first condition of the first output for which one fails.
pub(crate) fn check_outputs(
    alloc: Global,
    program: &Program,
    outputs: &[Output],
) -> Result<Vec<Poly>, Refused>
    requires { AllByRecursion (FitsOutput program.now) outputs.now }
    ensures accepted { OnOk result (AllHold (numbered (output_claims_at (meaning program.now)) 0 (map claim_of_output outputs.now))) }
    ensures counted { IfOk result (λ counts. AllZip (IsOutputCount program.now) outputs.now counts.items) }
    ensures values { IfOk result (λ counts. AreCountsOf (meaning program.now) (map claim_of_output outputs.now) counts.items) }
    ensures sound { OnOk result (AllByRecursion (IsSoundOutput (meaning program.now)) (map claim_of_output outputs.now)) }
    ensures refused { IfErr result (IsRefusal (numbered (output_claims_at (meaning program.now)) 0 (map claim_of_output outputs.now))) }
{
    let mut counts = Vec::new(alloc);
    for (index, output) in outputs.iter().enumerate() {
        let count = checked_output(alloc, program, index, output)?;
        let Ok(()) = counts.push(count) else {
            return Err(Refused::Memory);
        };
    }
    Ok(counts)
}
