//! Joint partition terms: points of several statements, or of one under several images, are counted in one space, and families of
//! walks may share words within groups.
#![tactic(auto)]

mod checker;
mod claims_checker;
pub mod counts;
mod cover_shown;
mod dimensions;
mod distinct_shown;
mod families_shown;
mod groups_apart;
pub mod limits;
mod numbers;
mod part_shown;
mod parts_counted;
mod pieces;
mod places;
mod points_checker;
pub mod small;
mod split_shown;
pub mod splits;
mod start_label;
mod starts_shown;
mod term;
pub mod terms;
pub mod values;
mod walk_pushed;
mod way_walks;
mod ways_shown;

pub use checker::check_joint;
pub use dimensions::dimensions_of;
pub use pieces::joint_pieces;
pub use term::{Joint, JointFamily, Labeling, Part, Split, Start, Way};
