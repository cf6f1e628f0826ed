//! The texts of stores: outputs, the branch of a certificate whose wavefronts' computed words are counted too, and what shows that
//! nothing is counted twice.
#![tactic(auto)]

mod law;
mod outputs;
mod reading;

pub use json_parts::{CertError, CertFault};
pub use law::stores_are_one;
pub use reading::read_stores;
