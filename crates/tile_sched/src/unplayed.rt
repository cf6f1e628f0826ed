//! Why a schedule isn't played.

ghost use Rattle.std.specs.Prelude.{◌≡◌};
ghost use Rattle.tile_sched.specs.declared.unplayed.PlayFault.TheVariants.{Memory as WantOfMemory};

use affine_form::Memory;

/// Why a schedule can't be played at sizes with so many red pebbles.
#[derive(Clone, Copy, Debug, PartialEq, Eq)]
pub enum Unplayed {
    /// The assumption of this number is the first that is false at the sizes.
    Assumption(u16),
    /// There are too many vertices or turns of loops, or a turn with too great a value.
    TooMany,
    /// This source of the instance comes after it in the order.
    OutOfOrder { vertex: u32, source: u32 },
    /// The instance needs so many red pebbles, more than there are.
    TooSmall { vertex: u32, need: u64 },
}

/// Why there is no play.
#[derive(Clone, Copy, Debug, PartialEq, Eq)]
pub enum PlayFault {
    /// The schedule can't be played.
    Refused(Unplayed),
    /// There was no memory.
    Memory,
}

impl From<Memory> for PlayFault {
    ghost from_gives = { λ _ e. e ≡ WantOfMemory };

    fn from(_error: Memory) -> PlayFault {
        PlayFault::Memory
    }
}
