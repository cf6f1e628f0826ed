//! Why a text has no tokens.

use std::alloc::{AllocError, AllocFailed};

/// Why the tokens of a text weren't given.
#[derive(Clone, Copy, Debug)]
pub enum TokensError {
    /// No line opens the program, or no later line closes it.
    NoScop,
    /// There was no memory for the tokens.
    Memory,
}

impl From<AllocError> for TokensError {
    ghost use Rattle.std.specs.Prelude.{◌≡◌};
    ghost use Rattle.c_tokens.specs.declared.error.TokensError.TheVariants.{Memory};

    ghost from_gives = { λ _ e. e ≡ Memory };

    fn from(_error: AllocError) -> TokensError {
        TokensError::Memory
    }
}

impl<T: Drop> From<AllocFailed<T>> for TokensError {
    ghost use Rattle.std.specs.Prelude.{◌≡◌};
    ghost use Rattle.c_tokens.specs.declared.error.TokensError.TheVariants.{Memory};

    ghost from_gives = { λ _ e. e ≡ Memory };

    fn from(_error: AllocFailed<T>) -> TokensError {
        TokensError::Memory
    }
}
