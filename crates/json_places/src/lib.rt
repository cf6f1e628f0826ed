//! Where the values of a JSON text begin, as byte offsets, and where a text stops to be JSON.
#![tactic(auto)]

mod cursor;
mod errors;
mod find;
mod items;

pub use errors::first_error;
pub use find::value_place;
pub use items::{item_places, value_end};
