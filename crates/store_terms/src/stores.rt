//! Stores.

ghost use Rattle.std.specs.Prelude.{◌≡◌, MatchOption};
ghost use Rattle.store_terms.specs.Limits.{IsWithinLimits, StoresParts};

use crate::limits::is_within_limits;
use crate::output::Output;
use affine_form::Multipliers;
use std::marker::Model;

/// Stores, beside a program and a certificate: outputs; the branch of the certificate whose wavefronts' computed words are
/// counted too, if any; and multipliers which show that no two outputs store one instance, and no output one of these words.
/// They are within the limits of stores.
#[derive(Debug, Drop)]
pub struct Stores {
    outputs: Vec<Output>,
    branch: Option<u8>,
    apart: Vec<Multipliers>,
}

impl Model for Stores {
    ghost use Rattle.poly_tree.specs.Stored.{quotient_code};
    ghost use Rattle.std.specs.Coded.{codes};
    ghost use Rattle.store_terms.specs.Limits.{IsWithinLimits, StoresParts};

    ghost Value = { StoresParts };

    ghost coded = { Prim.hlevel (codes, quotient_code) };

    ghost view = { λ stores. record { outputs = stores.outputs.items; branch = stores.branch; apart = stores.apart.items } };

    ghost invariant = { λ stores. IsWithinLimits (record { outputs = stores.outputs.items; branch = stores.branch; apart = stores.apart.items }) };
}

impl Stores {
    /// The stores of these parts, and `None` exactly where a limit is passed.
    pub fn new(outputs: Vec<Output>, branch: Option<u8>, apart: Vec<Multipliers>) -> Option<Stores>
        ensures { let parts : StoresParts = record { outputs = outputs.items; branch = branch; apart = apart.items } in
            MatchOption result (¬ IsWithinLimits parts) (λ stores. stores ≡ parts) }
    {
        if is_within_limits(outputs.as_slice(), branch, apart.as_slice()) {
            Some(Stores {
                outputs,
                branch,
                apart,
            })
        } else {
            None
        }
    }

    /// The stores of these parts, which are within the limits.
    pub fn within(outputs: Vec<Output>, branch: Option<u8>, apart: Vec<Multipliers>) -> Stores
        requires { IsWithinLimits (record { outputs = outputs.items; branch = branch; apart = apart.items }) }
        ensures { result ≡ record { outputs = outputs.items; branch = branch; apart = apart.items } }
    {
        Stores {
            outputs,
            branch,
            apart,
        }
    }

    /// The outputs.
    pub fn outputs(&self) -> &[Output]
        ensures outputs { result.now ≡ self.now.outputs }
        ensures limits { IsWithinLimits self.now }
    {
        self.outputs.as_slice()
    }

    /// The number of the branch whose wavefronts' computed words are counted too.
    pub fn branch(&self) -> Option<u8>
        ensures branch { result ≡ self.now.branch }
        ensures limits { IsWithinLimits self.now }
    {
        self.branch
    }

    /// The multipliers which show that no instance is counted twice.
    pub fn apart(&self) -> &[Multipliers]
        ensures apart { result.now ≡ self.now.apart }
        ensures limits { IsWithinLimits self.now }
    {
        self.apart.as_slice()
    }
}
