//! Why a projective program gets no certificate.

ghost use Rattle.std.specs.Prelude.{◌≡◌};

use affine_form::Memory;

/// Why there is no certificate.
#[derive(Debug, Drop, PartialEq, Eq)]
pub enum CertifyFault {
    /// No cover and packing of equal totals have a denominator from 1 to 12 and a total of at most 24.
    TooFine,
    /// Memory was wanted.
    Memory,
}

impl From<Memory> for CertifyFault {
    ghost use Rattle.projective_bounds.specs.declared.fault.CertifyFault.{CertifyFault};

    ghost from_gives = { λ _ e. e ≡ CertifyFault.Memory };

    fn from(_error: Memory) -> CertifyFault {
        CertifyFault::Memory
    }
}
