//! What a program that was read consists of, in words: its parameters, assumptions and arrays, its statements with their reads,
//! and where these stand in the text.
#![tactic(auto)]

mod arrays;
mod names;
mod page;
mod places;
mod references;
mod statements;

pub use names::names_at;
pub use page::write_program;
pub use places::{Places, StatementPlaces, find_places};
pub use references::write_reference;
