//! Whether the parts of a certificate are within their limits.

ghost use Rattle.std.specs.Prelude.{◌↔◌, IsTrue};
ghost use Rattle.iolb_check.specs.Limits.{IsWithinLimits};

use crate::term::Branch;
use crate::term_limits::are_small_branches;
use certificate_fit::rows_are_small;
use iolb_model::limits;
use reuse_paths::Quasts;

/// Whether source trees and branches are within the limits of certificates.
pub(crate) fn is_within_limits(quasts: &Quasts, branches: &[Branch]) -> bool
    ensures { IsTrue result ↔ IsWithinLimits (record { quasts = quasts.now; branches = branches.now }) }
{
    branches.len() <= limits::BRANCHES
        && are_small_branches(branches)
        && rows_are_small(quasts.rows())
}
