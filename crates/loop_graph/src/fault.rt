//! Why a graph isn't built.

ghost use Rattle.std.specs.Prelude.{◌≡◌};
ghost use Rattle.loop_graph.specs.declared.fault.GraphFault.TheVariants.{Memory as WantOfMemory};

use affine_form::Memory;

/// Why there is no graph of a program at given sizes.
#[derive(Clone, Copy, Debug, PartialEq, Eq)]
pub enum GraphFault {
    /// The assumption of this number is the first that is false.
    OutsideAssumption(u16),
    /// There are too many vertices or turns of loops, or a turn with too great a value.
    TooMany,
    /// There was no memory.
    Memory,
}

impl From<Memory> for GraphFault {
    ghost from_gives = { λ _ e. e ≡ WantOfMemory };

    fn from(_error: Memory) -> GraphFault {
        GraphFault::Memory
    }
}
