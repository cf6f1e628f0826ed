//! Pieces of footprints: vertices of the computation graph that are given by rows and a point; and that pieces have no vertex
//! in common.
#![tactic(auto)]

mod disjoint;
mod piece;
mod shared;
mod target_pairs;

pub use disjoint::{check_disjoint, disjoint_pieces_are_apart, later_shown, lists_shown};
pub use piece::{Piece, Target};
pub use target_pairs::{has_pairs, pairs_left};
