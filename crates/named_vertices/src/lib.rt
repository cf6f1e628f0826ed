//! The vertices of a program's computation graph, by their numbers and by what they are.
#![tactic(auto)]

mod cells;
mod fault;
mod instances;
mod names;
mod spot;
mod vertices;

pub use fault::Unnamed;
pub use instances::{find_instances, vertex_place};
pub use names::write_named;
pub use spot::{Spot, spot_of};
pub use vertices::{Named, named_at, number_of};
