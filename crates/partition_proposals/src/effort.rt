//! How much is tried.

use affine_facts::facts::Facts;

/// The share of one statement, where so much may be tried for all of them together: so that what is spent on a long program doesn't grow
/// with the square of the number of its statements.
pub(crate) fn share(facts: &Facts, all: usize) -> usize {
    all.checked_div(facts.statements.len()).unwrap_or(all)
}
