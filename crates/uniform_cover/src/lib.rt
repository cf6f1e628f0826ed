//! The uniform cover inequality in whole-number powers, and the greatest number that it allows.
//!
//! The laws stand on functions with empty bodies: each is a statement of `specs/` that its `ensures`
//! cites. No root, fraction or logarithm stands in a statement, and `0^0` is 1 throughout.
#![tactic(auto)]

mod cover;
mod greatest;
mod mean;
mod power;
mod projection;

pub use cover::{cover_inequality, cover_inequality_each, cover_inequality_sum};
pub use greatest::{Wide, greatest_u};
pub use mean::{mean_inequality, superadditive_step, weighted_mean_inequality};
pub use projection::projection_inequality;
