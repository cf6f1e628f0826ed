//! What has to be stored in the red-blue pebble game (Hong and Kung 1981, without recomputation), for any computation graph and
//! any complete pebbling; and what is said of all moves of a kind, loads as stores.
#![tactic(auto)]

pub mod kinds;
pub mod stored;
