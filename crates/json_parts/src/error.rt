//! Faults of certificate texts.

ghost use Rattle.std.specs.Prelude.{◌≡◌, ◌∷◌, []};
ghost use Rattle.json_parts.specs.Outcome.{IsFault, IsUnder};

use affine_form::Memory;
use claims::{Place, Step};
use std::alloc::{AllocError, AllocFailed, Global};

/// A fault of a certificate's text: its number, and the place of the value at fault.
#[derive(Debug, Drop)]
pub struct CertFault {
    pub number: u8,
    pub place: Place,
}

/// Why a certificate's text wasn't read.
#[derive(Debug, Drop)]
pub enum CertError {
    /// The text has a fault.
    Fault(CertFault),
    /// There was no memory for the certificate.
    Memory,
}

impl From<AllocError> for CertError {
    ghost use Rattle.json_parts.specs.declared.error.CertError.TheVariants.{Memory};

    ghost from_gives = { λ _ e. e ≡ Memory };

    fn from(_error: AllocError) -> CertError {
        CertError::Memory
    }
}

impl<T: Drop> From<AllocFailed<T>> for CertError {
    ghost use Rattle.json_parts.specs.declared.error.CertError.TheVariants.{Memory};

    ghost from_gives = { λ _ e. e ≡ Memory };

    fn from(_error: AllocFailed<T>) -> CertError {
        CertError::Memory
    }
}

impl From<Memory> for CertError {
    ghost use Rattle.json_parts.specs.declared.error.CertError.TheVariants.{Memory};

    ghost from_gives = { λ _ e. e ≡ Memory };

    fn from(_error: Memory) -> CertError {
        CertError::Memory
    }
}

/// The fault of this number at the value that is read.
pub fn fault(alloc: Global, number: u8) -> CertError
    ensures { IsFault number result }
{
    CertError::Fault(CertFault {
        number,
        place: Place::new(Vec::new(alloc)),
    })
}

/// The error of a part of a value, where this step leads to the part, as an error of the value.
pub fn under(alloc: Global, step: Step, error: CertError) -> CertError
    ensures { IsUnder step error result }
{
    let CertError::Fault(fault) = error else {
        return CertError::Memory;
    };
    match fault.place.behind(alloc, step) {
        Ok(place) => CertError::Fault(CertFault {
            number: fault.number,
            place,
        }),
        Err(_) => CertError::Memory,
    }
}
