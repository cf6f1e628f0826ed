//! The red-blue pebble game of Hong and Kung (1981) on a computation graph, without recomputation. What the game
//! is stands in `iolb_model`; here are graphs, boards on which moves are made, and laws of all complete pebblings: what
//! they have to load of any graph, and of the computation graph of a program.
#![tactic(auto)]

pub mod board;
pub mod branches;
pub mod cold;
pub mod graph;
pub mod illegal;
pub mod inputs;
pub mod sets;

pub use affine_form::Memory;
pub use board::Board;
pub use graph::Graph;
pub use illegal::Illegal;
pub use iolb_model::game::Move;
