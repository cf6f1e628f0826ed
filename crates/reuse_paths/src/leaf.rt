//! Claims at the leaves of source trees.

ghost use Rattle.std.specs.Prelude.{◌≡◌};
ghost use Rattle.reuse_paths.specs.LeafClaims.{claim_of, is_stop};

use affine_form::Multipliers;

/// What is claimed at a leaf of a source tree, under the leaf's tests.
#[derive(Debug, Drop)]
pub enum Leaf {
    /// No point comes there. The multipliers show it.
    Empty(Multipliers),
    /// A walk back stops there at an input cell. The multipliers show that the cell has the walk's label.
    Stop {
        label: Vec<Multipliers>,
    },
    /// A walk back stops there in a credited nest: the multipliers show that the source is in it, and has the walk's
    /// label.
    Credit {
        credit: u8,
        rows: Vec<Multipliers>,
        label: Vec<Multipliers>,
    },
    /// A walk back goes on there: the multipliers show that the source is in its statement's region, and has the walk's
    /// label.
    Go {
        rows: Vec<Multipliers>,
        label: Vec<Multipliers>,
    },
    /// A walk back arrives there: the multipliers show that the source is the walk's target.
    Arrive {
        equal: Vec<Multipliers>,
    },
}

impl Leaf {
    /// Whether it is claimed that a walk stops there.
    pub fn is_stop(&self) -> bool
        ensures { result ≡ is_stop (claim_of self.now) }
    {
        matches!(self, Leaf::Stop { .. })
    }
}
