//! Refusals of moves over levels of memory.

ghost use Rattle.std.specs.Prelude.{◌≡◌};
ghost use Rattle.memory_levels.specs.Towers.{illegal_number};

/// Why a move over levels of memory isn't allowed.
#[derive(Clone, Copy, Debug, PartialEq, Eq)]
pub enum TowerIllegal {
    /// The word isn't at the next slower level.
    NotAbove,
    /// The word isn't at this level.
    NotHere,
    /// This predecessor, the first such, isn't at level 1.
    NeedsFirst(u32),
    /// The instance was computed before.
    Computed,
    /// The level to which the word comes has no room.
    Full,
    /// The vertex is an input.
    InputVertex,
    /// There is no such level for this move.
    NoLevel,
    /// There is no such vertex.
    NoVertex,
}

impl TowerIllegal {
    /// The number of the refusal, in the order in which they are listed, from 1.
    pub fn number(&self) -> u8
        ensures { result ≡ illegal_number self.now }
    {
        match self {
            TowerIllegal::NotAbove => 1,
            TowerIllegal::NotHere => 2,
            TowerIllegal::NeedsFirst(_) => 3,
            TowerIllegal::Computed => 4,
            TowerIllegal::Full => 5,
            TowerIllegal::InputVertex => 6,
            TowerIllegal::NoLevel => 7,
            TowerIllegal::NoVertex => 8,
        }
    }
}
