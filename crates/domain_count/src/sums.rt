//! What is claimed of a nest's number of points.

ghost use Rattle.std.specs.Prelude.{◌≡◌};

use affine_form::Multipliers;
use poly_tree::Poly;
use std::marker::Model;

/// What is claimed of a nest's number of points: for each variable multipliers that show that its upper form is at least
/// its lower form less 1, and a polynomial, whose difference from its shift by the variable is what the variables behind
/// it count.
#[derive(Debug, Drop)]
pub struct Sums {
    shown: Vec<Multipliers>,
    sums: Vec<Poly>,
}

impl Model for Sums {
    ghost use Rattle.domain_count.specs.Claims.{SumClaims};
    ghost use Rattle.poly_tree.specs.Stored.{quotient_code};
    ghost use Rattle.std.specs.Coded.{codes};

    ghost Value = { SumClaims };

    ghost coded = { Prim.hlevel (codes, quotient_code) };

    ghost view = { λ claims. record { shown = claims.shown.items; sums = claims.sums.items } };
}

impl Sums {
    /// The claims of these multipliers and these polynomials.
    pub fn new(shown: Vec<Multipliers>, sums: Vec<Poly>) -> Sums
        ensures { result ≡ record { shown = shown.items; sums = sums.items } }
    {
        Sums { shown, sums }
    }

    /// The multipliers, one for each variable.
    pub fn shown(&self) -> &[Multipliers]
        ensures { result.now ≡ self.now.shown }
    {
        self.shown.as_slice()
    }

    /// The polynomials, one for each variable.
    pub fn sums(&self) -> &[Poly]
        ensures { result.now ≡ self.now.sums }
    {
        self.sums.as_slice()
    }
}
