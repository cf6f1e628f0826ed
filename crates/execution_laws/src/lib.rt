//! Laws of the executions of affine programs: which instances they have and in which order.
#![tactic(auto)]

pub mod domain;
pub mod order;
