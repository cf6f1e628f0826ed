//! Faults of texts.

use affine_form::Memory;
use std::alloc::{AllocError, AllocFailed};

/// A fault of a text: its number, and its place as a byte offset in the text, from 0.
#[derive(Clone, Copy)]
pub struct ReadFault {
    pub number: u8,
    pub place: usize,
}

/// Why a text wasn't read.
#[derive(Clone, Copy)]
pub enum ReadError {
    /// The text has a fault.
    Fault(ReadFault),
    /// There was no memory for what was read.
    Memory,
}

impl From<Memory> for ReadError {
    ghost use Rattle.std.specs.Prelude.{◌≡◌};
    ghost use Rattle.c_reading.specs.declared.error.ReadError.TheVariants.{Memory};

    ghost from_gives = { λ _ e. e ≡ Memory };

    fn from(_error: Memory) -> ReadError {
        ReadError::Memory
    }
}

impl From<AllocError> for ReadError {
    ghost use Rattle.std.specs.Prelude.{◌≡◌};
    ghost use Rattle.c_reading.specs.declared.error.ReadError.TheVariants.{Memory};

    ghost from_gives = { λ _ e. e ≡ Memory };

    fn from(_error: AllocError) -> ReadError {
        ReadError::Memory
    }
}

impl<T: Drop> From<AllocFailed<T>> for ReadError {
    ghost use Rattle.std.specs.Prelude.{◌≡◌};
    ghost use Rattle.c_reading.specs.declared.error.ReadError.TheVariants.{Memory};

    ghost from_gives = { λ _ e. e ≡ Memory };

    fn from(_error: AllocFailed<T>) -> ReadError {
        ReadError::Memory
    }
}
