//! What a certificate and stores say together of loads and stores: how many of both every complete pebbling makes at least.
//! (The red-blue pebble game of Hong and Kung 1981, without recomputation.)
#![tactic(auto)]

mod counted;
mod evaluation;
mod fault;
mod fit_stores;
pub mod law;
mod output_checks;
mod pair_counts;
mod pairs;
mod pieces;
mod stores_check;
mod transfers;

pub use fault::{Traffic, TrafficFault};
pub use stores_check::check_stores;
pub use transfers::traffic;
