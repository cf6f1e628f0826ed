//! The values of bounds at the levels of a memory.

ghost use Rattle.std.specs.Prelude.{◌≡◌, length};
ghost use Rattle.std.specs.List.{AllByRecursion};
ghost use Rattle.affine_form.specs.Form.{IsSmall};
ghost use Rattle.memory_levels.specs.Towers.{AreCapacities};
ghost use Rattle.memory_levels.specs.Values.{EvaluatesAtLevels};
ghost use Rattle.iolb_model.specs.declared.limits.TheConstants.{VALUE_SIZE};

use iolb_check::{Bound, ValueFault};
use std::alloc::Global;

/// Why a bound has no values at levels.
#[derive(Clone, Copy, Debug, PartialEq, Eq)]
pub enum ValuesFault {
    /// The assumption of this number is the first that is false.
    OutsideAssumption(u16),
    /// A value at one of the levels is beyond 128 bits.
    Wide,
    /// There was no memory for the values.
    Memory,
}

/// The values of a bound at sizes for the parameters, one for each boundary of a memory whose fast levels hold so many words, the
/// fastest first: that for one fast memory which holds as much as the levels up to the boundary together.
///
/// # Errors
///
/// `OutsideAssumption` names the first assumption that is false at the sizes. `Wide` comes where all are true, exactly where the
/// bound's own `value` is wide for one of these sums.
pub fn values_at_levels(
    alloc: Global,
    bound: &Bound,
    sizes: &[i64],
    capacities: &[u64],
) -> Result<Vec<u128>, ValuesFault>
    requires each { length sizes.now ≡ bound.now.assumed.vars }
    requires small { AllByRecursion (IsSmall VALUE_SIZE) sizes.now }
    requires held { AreCapacities capacities.now }
    ensures { EvaluatesAtLevels bound.now sizes.now capacities.now result }
{
    let mut values = Vec::new(alloc);
    let mut held: u64 = 0;
    for capacity in capacities {
        held += *capacity;
        let value = match bound.value(sizes, held) {
            Ok(value) => value,
            Err(ValueFault::OutsideAssumption(number)) => {
                return Err(ValuesFault::OutsideAssumption(number));
            }
            Err(ValueFault::Wide) => return Err(ValuesFault::Wide),
        };
        if values.push(value).is_err() {
            return Err(ValuesFault::Memory);
        }
    }
    Ok(values)
}
