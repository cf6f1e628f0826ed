//! What terms of a certificate are asked to show beyond their own instances: the systems of walks, of words and of
//! pairs of pieces, and numbers that are called for beside those that stand there.
#![tactic(auto)]

mod counts;
mod families;
mod frames;
mod fronts;
mod images;
mod joint_families;
mod joint_lengths;
mod leaves;
mod lengths;
mod numbers;
mod pairs;
mod pieces;
mod points;
mod reaches;
mod said;
mod walks;

pub use counts::write_sum;
pub use families::write_family;
pub use fronts::{write_cold_leaf, write_edge};
pub use images::write_distinct;
pub use joint_families::{joint_pieces, write_joint_family};
pub use joint_lengths::{joint_family_length, split_length};
pub use leaves::open_count;
pub use lengths::{family_length, reach_length};
pub use numbers::{
    write_cold_inverse, write_cover, write_front_inverse, write_image_inverse, write_joint_cover,
    write_unit, write_vertex,
};
pub use pairs::{pair_count, write_pair};
pub use pieces::{Piece, PieceList, cold_pieces, front_pieces, partition_pieces};
pub use reaches::write_reach;
