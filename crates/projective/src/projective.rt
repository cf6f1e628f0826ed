//! What a projective program's loops and arrays are.

ghost use Rattle.std.specs.Prelude.{◌≡◌};

use cover_lp::CoordSet;

/// The loops of a projective program, and which of them stand in each array's reference.
#[derive(Debug, Drop)]
pub struct Projective {
    /// For each array, in their order, the places of the loops that are its subscripts, counted from the outermost, rising.
    pub(crate) sets: Vec<CoordSet>,
    /// How many loops there are.
    pub(crate) depth: u8,
}

impl Projective {
    /// For each array, in their order, the places of the loops that are its subscripts, counted from the outermost, rising.
    pub fn sets(&self) -> &[CoordSet]
        ensures { result.now ≡ self.now.sets.items }
    {
        self.sets.as_slice()
    }

    /// How many loops there are.
    pub fn depth(&self) -> u8
        ensures { result ≡ self.now.depth }
    {
        self.depth
    }
}
