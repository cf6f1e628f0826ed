//! Terms of bounds that follow from single vertices: cold terms, whose words are inputs, and wavefronts.
#![tactic(auto)]

mod checker;
mod cold;
mod cold_shown;
mod edge_leaves;
mod edges_shown;
mod front;
mod front_checker;
mod front_piece;
mod front_shown;
mod instance;
mod inverse;
mod inverse_shown;
pub mod law;
mod leaves_shown;
mod pieces;
pub mod waves;

pub use checker::check_cold;
pub use cold::{Cold, Inverse};
pub use front::Wavefront;
pub use front_checker::check_wavefront;
pub use front_piece::{front_pieces, front_pieces_cover};
pub use inverse::first_difference;
pub use pieces::{cold_pieces, cold_pieces_cover};
