//! What certificates claim, condition by condition: places in a certificate, and refusals; and what multipliers show of systems.
#![tactic(auto)]

pub mod lists;
mod place;
mod refused;
pub mod shown;

pub use place::{ObjectKey, Place, Step};
pub use refused::{FailedCondition, Refused, refusal};
