//! Instances that write their cells last: outputs, checked; and what they cost.
#![tactic(auto)]

mod checker;
mod fitting;
mod inverse_shown;
mod later_rows;
mod later_shown;
mod law;
mod output_shown;
mod piece;

pub use checker::check_output;
pub use fitting::output_fits;
pub use law::{outputs_are_stored, valid_outputs_are_sound};
pub use piece::{output_piece, output_pieces_cover};
