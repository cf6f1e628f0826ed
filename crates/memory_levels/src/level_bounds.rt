//! What a certificate says at the levels of a memory.

ghost use Rattle.std.specs.Prelude.{◌≡◌, length};
ghost use Rattle.std.specs.List.{AllByRecursion};
ghost use Rattle.affine_form.specs.Form.{IsSmall};
ghost use Rattle.memory_levels.specs.Towers.{AreCapacities};
ghost use Rattle.memory_levels.specs.Values.{BoundsLevels};
ghost use Rattle.iolb_model.specs.declared.limits.TheConstants.{VALUE_SIZE};

use crate::law::bounds_hold_at_levels;
use crate::level_values::{ValuesFault, values_at_levels};
use affine_program::Program;
use claims::{FailedCondition, Refused};
use iolb_check::{Certificate, check};
use std::alloc::Global;

/// Why a certificate has no values at levels.
#[derive(Debug, Drop)]
pub enum LevelsFault {
    /// A condition of the certificate doesn't hold.
    Refused(FailedCondition),
    /// The assumption of this number is the first that is false.
    OutsideAssumption(u16),
    /// A value at one of the levels is beyond 128 bits.
    Wide,
    /// There was no memory for the answer.
    Memory,
}

/// What a certificate says of a program at sizes for its parameters and the levels of a memory, whose fast levels hold so many
/// words, the fastest first: for each boundary a number of words that every complete play brings over it at least. (Savage
/// 1995, after Hong and Kung 1981.)
///
/// # Errors
///
/// `Refused` names the first condition of the certificate that fails. Else `OutsideAssumption` names the first assumption that is
/// false at the sizes, and else `Wide` comes exactly where the bound's value is wide at one of the boundaries.
pub fn levels(
    alloc: Global,
    program: &Program,
    certificate: &Certificate,
    sizes: &[i64],
    capacities: &[u64],
) -> Result<Vec<u128>, LevelsFault>
    requires each { length sizes.now ≡ program.now.assumed.vars }
    requires small { AllByRecursion (IsSmall VALUE_SIZE) sizes.now }
    requires held { AreCapacities capacities.now }
    ensures { BoundsLevels program.now certificate.now sizes.now capacities.now result }
{
    bounds_hold_at_levels();
    let bound = match check(alloc, program, certificate) {
        Ok(bound) => bound,
        Err(Refused::Failed(failed)) => return Err(LevelsFault::Refused(failed)),
        Err(Refused::Memory) => return Err(LevelsFault::Memory),
    };
    match values_at_levels(alloc, &bound, sizes, capacities) {
        Ok(values) => Ok(values),
        Err(ValuesFault::OutsideAssumption(number)) => Err(LevelsFault::OutsideAssumption(number)),
        Err(ValuesFault::Wide) => Err(LevelsFault::Wide),
        Err(ValuesFault::Memory) => Err(LevelsFault::Memory),
    }
}
