//! Why a vertex isn't named.

use affine_form::Memory;

/// Why a vertex isn't named.
#[derive(Clone, Copy, Debug, PartialEq, Eq)]
pub enum Unnamed {
    /// The assumption of this number is false.
    Assumption(u16),
    /// There are too many instances, or turns of loops.
    TooMany,
    /// There is no such vertex.
    Absent,
    /// There was no memory.
    Memory,
}

impl From<Memory> for Unnamed {
    ghost use Rattle.std.specs.Prelude.{◌≡◌};
    ghost use Rattle.named_vertices.specs.declared.fault.Unnamed.TheVariants.{Memory};

    ghost from_gives = { λ _ e. e ≡ Memory };

    fn from(_error: Memory) -> Unnamed {
        Unnamed::Memory
    }
}
