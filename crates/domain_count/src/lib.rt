//! Counting the points of a nest of variables by summation: claims of antidifferences, whether they are right, and claims
//! that are, found: multipliers that show that ranges are whole, and antidifferences by sums of powers.
//!
//! Nothing is enumerated. The claims are compared as polynomials, and give one in the parameters (Graham, Knuth and
//! Patashnik, Concrete Mathematics, section 2.6).
#![tactic(auto)]

mod coefficients;
mod count;
pub mod law;
mod making;
mod nest;
mod nest_summation;
mod operations;
mod ranges;
mod summation;
mod sums;

pub use count::{check_count, check_sums};
pub use making::{CountFault, make_count};
pub use nest::Nest;
pub use ranges::rows_before;
pub use sums::Sums;
