//! What reads of a program reuse: the source trees of all reads, what is claimed at their leaves, walks back along them,
//! and pieces of footprints.
#![tactic(auto)]

mod credited;
mod entry_shown;
mod family;
mod family_footprint;
mod family_shown;
mod kept_shown;
pub mod law;
mod leaf;
mod leaf_pieces;
mod reach;
mod reach_shown;
mod region;
mod walk;
pub mod walk_shown;
mod walking;
mod word_labels;

pub use dep_quast::{Quasts, check_quasts};
pub use family::{Credit, Family, FamilyNode, Nodes, instance_label, label_in};
pub use family_footprint::{family_pieces, push_walk};
pub use family_shown::{check_family, start_rows};
pub use footprint_pieces::{
    Piece, Target, check_disjoint, disjoint_pieces_are_apart, has_pairs, lists_shown,
};
pub use leaf::Leaf;
pub use reach::{Reach, Spot};
pub use reach_shown::check_reach;
pub use region::region_context;
pub use walk::{Region, Walk, entry_count};
pub use walking::{Aim, Kept, Walking, region_at};
