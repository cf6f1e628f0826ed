//! Laws of whole numbers, of either sign and without a bound, and of lists that several crates cite.
#![tactic(auto)]
