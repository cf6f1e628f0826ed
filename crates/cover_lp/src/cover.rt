//! Sets of coordinates, and covers by them.

ghost use Rattle.std.specs.Prelude.{◌≡◌};
ghost use Rattle.cover_lp.specs.Cover.{holds};

use affine_form::Memory;
use std::marker::Model;

/// A set of coordinates, by their numbers.
#[derive(Debug, Drop)]
pub struct CoordSet {
    coords: Vec<u8>,
}

impl Model for CoordSet {
    ghost use Rattle.std.specs.Prelude.{ℕ, List};

    ghost Value = { List ℕ };

    ghost view = { λ set. set.coords.items };
}

impl CoordSet {
    /// The set of these coordinates.
    pub fn new(coords: Vec<u8>) -> CoordSet
        ensures { result ≡ coords.items }
    {
        CoordSet { coords }
    }

    /// The coordinates.
    pub fn coords(&self) -> &[u8]
        ensures { result.now ≡ self.now }
    {
        self.coords.as_slice()
    }

    /// Whether the set holds a coordinate.
    pub(crate) fn holds(&self, coordinate: u8) -> bool
        ensures { result ≡ holds self.now coordinate }
    {
        self.coords().contains(&coordinate)
    }
}

/// A cover: a weight for each set, an amount for each coordinate, of the same total, and the denominator of both.
#[derive(Debug, Drop)]
pub struct Cover {
    pub(crate) weights: Vec<u8>,
    pub(crate) packing: Vec<u8>,
    pub(crate) q: u8,
}

impl Cover {
    /// The weight of each set.
    pub fn weights(&self) -> &[u8]
        ensures { result.now ≡ self.now.weights.items }
    {
        self.weights.as_slice()
    }

    /// The amount packed at each coordinate.
    pub fn packing(&self) -> &[u8]
        ensures { result.now ≡ self.now.packing.items }
    {
        self.packing.as_slice()
    }

    /// The denominator of weights and amounts.
    pub fn q(&self) -> u8
        ensures { result ≡ self.now.q }
    {
        self.q
    }
}

/// Why there is no cover.
#[derive(Debug, Drop, PartialEq, Eq)]
pub enum CoverFault {
    /// The least coordinate that is in no set.
    Uncovered(u8),
    /// No cover and packing of equal totals have a denominator from 1 to 12 and a total of at most 24.
    TooFine,
    /// Memory was wanted.
    Memory,
}

impl From<Memory> for CoverFault {
    ghost use Rattle.cover_lp.specs.declared.cover.CoverFault.{CoverFault};

    ghost from_gives = { λ _ e. e ≡ CoverFault.Memory };

    fn from(_error: Memory) -> CoverFault {
        CoverFault::Memory
    }
}
