//! Faults of program texts.

use affine_form::Memory;
use std::alloc::{AllocError, AllocFailed};

/// A fault of a program text: its number, and its place as a byte offset in the text, from 0.
#[derive(Clone, Copy, Debug)]
pub struct ProgramFault {
    pub number: u8,
    pub place: u64,
}

/// Why a text wasn't read.
#[derive(Clone, Copy, Debug)]
pub enum ProgramError {
    /// The text has a fault.
    Fault(ProgramFault),
    /// There was no memory for the program.
    Memory,
}

impl From<Memory> for ProgramError {
    ghost use Rattle.std.specs.Prelude.{◌≡◌};
    ghost use Rattle.affine_c.specs.declared.fault.ProgramError.TheVariants.{Memory};

    ghost from_gives = { λ _ e. e ≡ Memory };

    fn from(_error: Memory) -> ProgramError {
        ProgramError::Memory
    }
}

impl From<AllocError> for ProgramError {
    ghost use Rattle.std.specs.Prelude.{◌≡◌};
    ghost use Rattle.affine_c.specs.declared.fault.ProgramError.TheVariants.{Memory};

    ghost from_gives = { λ _ e. e ≡ Memory };

    fn from(_error: AllocError) -> ProgramError {
        ProgramError::Memory
    }
}

impl<T: Drop> From<AllocFailed<T>> for ProgramError {
    ghost use Rattle.std.specs.Prelude.{◌≡◌};
    ghost use Rattle.affine_c.specs.declared.fault.ProgramError.TheVariants.{Memory};

    ghost from_gives = { λ _ e. e ≡ Memory };

    fn from(_error: AllocFailed<T>) -> ProgramError {
        ProgramError::Memory
    }
}
