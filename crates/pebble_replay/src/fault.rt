//! Why an order isn't played.

ghost use Rattle.std.specs.Prelude.{◌≡◌};
ghost use Rattle.pebble_replay.specs.declared.fault.ReplayFault.TheVariants.{Memory as WantOfMemory};

use pebble_game::Memory;
use std::alloc::{AllocError, AllocFailed};

/// Why an order isn't played.
#[derive(Clone, Copy, Debug, PartialEq, Eq)]
pub enum ReplayFault {
    /// This source of the instance comes after it in the order.
    OutOfOrder { vertex: u32, source: u32 },
    /// The instance needs so many red pebbles, more than there are.
    TooSmall { vertex: u32, need: u64 },
    /// There was no memory.
    Memory,
}

impl From<Memory> for ReplayFault {
    ghost from_gives = { λ _ e. e ≡ WantOfMemory };

    fn from(_error: Memory) -> ReplayFault {
        ReplayFault::Memory
    }
}

impl From<AllocError> for ReplayFault {
    ghost from_gives = { λ _ e. e ≡ WantOfMemory };

    fn from(_error: AllocError) -> ReplayFault {
        ReplayFault::Memory
    }
}

impl<T: Drop> From<AllocFailed<T>> for ReplayFault {
    ghost from_gives = { λ _ e. e ≡ WantOfMemory };

    fn from(_error: AllocFailed<T>) -> ReplayFault {
        ReplayFault::Memory
    }
}
