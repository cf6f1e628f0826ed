//! JSON values (RFC 8259) whose arrays and objects take no more room than their members, read as `serde_json` reads them.
#![tactic(auto)]

mod numbers;
mod reading;
mod room;
mod sorting;
mod value;

pub use reading::JsonError;
pub use value::Json;
