//! The values of a bound for levels of memory.

ghost use Rattle.std.specs.Prelude.{◌≡◌, ◌++◌, length, IfOk, IfErr, OnOk};
ghost use Rattle.std.specs.List.{AllByRecursion};
ghost use Rattle.affine_form.specs.Form.{IsSmall};
ghost use Rattle.iolb_check.specs.Bounds.{bound_of};
ghost use Rattle.iolb_model.specs.Headline.{BoundHolds};
ghost use Rattle.iolb_model.specs.Program.{AffineProgram};
ghost use Rattle.iolb_model.specs.Tower.{HoldsAtLevels};
ghost use Rattle.memory_levels.specs.Towers.{AreCapacities};
ghost use Rattle.memory_levels.specs.Values.{IsWideAtLevels};
ghost use Rattle.iolb_commands.specs.Phases.{AtSizes, Narrow, Says};
ghost use Rattle.iolb_commands.specs.Stop.{IsCalm};
ghost use Rattle.iolb_commands.specs.Values.{boundary_line, boundary_lines as lines_of_boundaries, levels_text};
ghost use Rattle.iolb_commands.specs.Works.{whole};
ghost use Rattle.iolb_commands.specs.Written.{answer_form, end_of};
ghost use Rattle.iolb_model.specs.declared.limits.TheConstants.{VALUE_SIZE};

use crate::answered::Answer;
use crate::stop::{Refusal, Stop};
use affine_form::Memory;
use iolb_check::Bound;
use memory_levels::law::bounds_hold_at_levels;
use memory_levels::{ValuesFault, values_at_levels};
use std::alloc::Global;

/// The lines of a bound's values for the boundaries of fast levels, where the sizes meet its assumptions.
pub(crate) fn levels_answer(
    alloc: Global,
    bound: &Bound,
    sizes: &[i64],
    capacities: &[u64],
) -> Result<Answer, Stop>
    requires each { length sizes.now ≡ bound.now.assumed.vars }
    requires small { AllByRecursion (IsSmall VALUE_SIZE) sizes.now }
    requires held { AreCapacities capacities.now }
    ensures comes { (program : AffineProgram) → BoundHolds program (bound_of bound.now) → AtSizes bound.now.assumed.rows sizes.now
        (Narrow (IsWideAtLevels sizes.now capacities.now bound.now.branches)
        (Says (BoundHolds program (bound_of bound.now) × HoldsAtLevels program (bound_of bound.now)) (levels_text (bound_of bound.now) sizes.now capacities.now))) (end_of result) }
    ensures kind { IfOk result (λ answer. answer_form answer ≡ whole) }
    ensures calm { IfErr result IsCalm }
{
    bounds_hold_at_levels();
    let values = match values_at_levels(alloc, bound, sizes, capacities) {
        Ok(values) => values,
        Err(ValuesFault::OutsideAssumption(number)) => return Err(Stop::Refused(Refusal::Assumption(
            number,
        ))),
        Err(ValuesFault::Wide) => return Err(Stop::Wide),
        Err(ValuesFault::Memory) => return Err(Stop::Memory),
    };
    match boundary_lines(alloc, values.as_slice()) {
        Ok(text) => Ok(Answer::Text(text)),
        Err(Memory) => Err(Stop::Memory),
    }
}

/// A value for each boundary, from the first on.
fn boundary_lines(alloc: Global, values: &[u128]) -> Result<Vec<u8>, Memory>
    ensures { IfOk result (λ text. text.items ≡ lines_of_boundaries 1 values.now) }
{
    let mut text = Vec::new(alloc);
    for (place, value) in values.iter().enumerate() {
        push_boundary(alloc, &mut text, place + 1, *value)?;
    }
    Ok(text)
}

/// A boundary's value, on a line at the end.
fn push_boundary(
    alloc: Global,
    text: &mut Vec<u8>,
    boundary: usize,
    value: u128,
) -> Result<(), Memory>
    ensures { OnOk result (text.new.items ≡ text.old.items ++ boundary_line boundary value) }
{
    let line = format!(in alloc; "boundary {boundary} {value}\n")?;
    text.extend_from_slice(line.as_bytes())?;
    Ok(())
}
