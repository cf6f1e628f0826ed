//! Sums of powers: polynomials whose value at n is the sum of `i^d` for i from 1 to n.
#![tactic(auto)]

mod row;

pub use row::{ROW_COUNT, Row, power_sum};
