//! Why a polynomial can't be made.

ghost use Rattle.std.specs.Prelude.{◌≡◌};

use affine_form::Memory;

/// Why an operation on polynomials has no answer.
#[derive(Clone, Copy, Debug, PartialEq, Eq)]
pub enum PolyFault {
    /// A number or a degree could pass its limit, by the operation's measure.
    Wide,
    /// There was no memory for the answer.
    Memory,
}

impl From<Memory> for PolyFault {
    ghost use Rattle.poly_tree.specs.declared.fault.PolyFault.{PolyFault};

    ghost from_gives = { λ _ e. e ≡ PolyFault.Memory };

    fn from(_error: Memory) -> PolyFault {
        PolyFault::Memory
    }
}
