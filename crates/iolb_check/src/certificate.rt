//! Certificates.

ghost use Rattle.std.specs.Prelude.{◌≡◌, MatchOption};
ghost use Rattle.iolb_check.specs.Limits.{CertificateParts, IsWithinLimits};

use crate::limits::is_within_limits;
use crate::term::Branch;
use reuse_paths::Quasts;
use std::marker::Model;

/// A certificate: the source trees of a program's reads, and branches of terms. It is within the limits of certificates.
#[derive(Debug, Drop)]
pub struct Certificate {
    quasts: Quasts,
    branches: Vec<Branch>,
}

impl Model for Certificate {
    ghost use Rattle.iolb_check.specs.Limits.{CertificateParts, IsWithinLimits};
    ghost use Rattle.dep_quast.specs.contracts.quast.Quast as quast;
    ghost use Rattle.joint_partition.specs.contracts.term.Split as split;
    ghost use Rattle.poly_tree.specs.Stored.{quotient_code};
    ghost use Rattle.reuse_paths.specs.contracts.walk.Walk as walk;
    ghost use Rattle.std.specs.Coded.{codes};

    ghost Value = { CertificateParts };

    ghost coded = { Prim.hlevel (codes, quast.the_row.coded, split.the_row.coded, walk.the_row.coded, quotient_code) };

    ghost view = { λ certificate. record { quasts = certificate.quasts; branches = certificate.branches.items } };

    ghost invariant = { λ certificate. IsWithinLimits (record { quasts = certificate.quasts; branches = certificate.branches.items }) };
}

impl Certificate {
    /// The certificate of these source trees and branches, and `None` exactly where a limit is passed.
    pub fn new(quasts: Quasts, branches: Vec<Branch>) -> Option<Certificate>
        ensures { let parts : CertificateParts = record { quasts = quasts; branches = branches.items } in
            MatchOption result (¬ IsWithinLimits parts) (λ certificate. certificate ≡ parts) }
    {
        if is_within_limits(&quasts, branches.as_slice()) {
            Some(Certificate { quasts, branches })
        } else {
            None
        }
    }

    /// The certificate of these source trees and branches, which are within the limits.
    pub fn within(quasts: Quasts, branches: Vec<Branch>) -> Certificate
        requires { IsWithinLimits (record { quasts = quasts; branches = branches.items }) }
        ensures { result ≡ record { quasts = quasts; branches = branches.items } }
    {
        Certificate { quasts, branches }
    }

    /// The source trees.
    pub fn quasts(&self) -> &Quasts
        ensures quasts { result.now ≡ self.now.quasts }
        ensures limits { IsWithinLimits self.now }
    {
        &self.quasts
    }

    /// The branches.
    pub fn branches(&self) -> &[Branch]
        ensures branches { result.now ≡ self.now.branches }
        ensures limits { IsWithinLimits self.now }
    {
        self.branches.as_slice()
    }

    /// The source trees and the branches.
    pub fn parts(self) -> (Quasts, Vec<Branch>)
        ensures quasts { result.0 ≡ self.quasts }
        ensures branches { result.1.items ≡ self.branches }
    {
        (self.quasts, self.branches)
    }
}
