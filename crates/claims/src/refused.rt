//! Refusals of what a certificate claims.

ghost use Rattle.claims.specs.Claims.{IsRefusalAt};

use crate::place::Place;
use affine_form::Memory;
use std::alloc::Global;

/// A condition that doesn't hold, by its number, and the place of the claim in the certificate.
#[derive(Debug, Drop)]
pub struct FailedCondition {
    /// The condition's number.
    pub condition: u8,
    /// Where the claim stands.
    pub place: Place,
}

/// Why a claim wasn't accepted.
#[derive(Debug, Drop)]
pub enum Refused {
    /// A condition doesn't hold.
    Failed(FailedCondition),
    /// There was no memory to test the claim.
    Memory,
}

impl From<Memory> for Refused {
    ghost use Rattle.claims.specs.declared.refused.Refused.{Refused};
    ghost use Rattle.std.specs.Prelude.{◌≡◌};

    ghost from_gives = { λ _ e. e ≡ Refused.Memory };

    fn from(_error: Memory) -> Refused {
        Refused::Memory
    }
}

/// The refusal of a claim: this condition doesn't hold at this place. Where there is no memory for the place, it says that.
pub fn refusal(alloc: Global, condition: u8, place: &Place) -> Refused
    ensures { IsRefusalAt condition place.now result }
{
    match place.try_clone(alloc) {
        Ok(place) => Refused::Failed(FailedCondition { condition, place }),
        Err(Memory) => Refused::Memory,
    }
}
