//! Several levels of memory: the pebble game over them, what a boundary between two of them sees, and plays from a text of
//! moves. (Savage 1995, after Hong and Kung 1981.)
#![tactic(auto)]

pub mod climbs;
pub mod illegal;
pub mod law;
mod level;
pub mod level_bounds;
pub mod level_values;
pub mod moves_error;
pub mod moves_text;
pub mod seeing;
pub mod tower;

pub use affine_form::Memory;
pub use climbs::{ClimbFault, Crossed, climb};
pub use illegal::TowerIllegal;
pub use iolb_model::tower::TowerMove;
pub use level_bounds::{LevelsFault, levels};
pub use level_values::{ValuesFault, values_at_levels};
pub use moves_error::MovesError;
pub use moves_text::read_moves;
pub use seeing::seen;
pub use tower::Tower;
