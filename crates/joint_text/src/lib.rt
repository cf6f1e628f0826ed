//! The texts of joint partition terms.
#![tactic(auto)]

mod families;
mod joint;
mod law;
mod parts;
mod splits;

pub use joint::OfJoint;
pub use law::joints_are_within_limits;
