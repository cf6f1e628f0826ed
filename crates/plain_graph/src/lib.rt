//! A plain slow program that says what the definitions say: the execution list and the computation graph of a small
//! program at given parameter values, and the order of the program.
#![tactic(auto)]

pub mod cells;
pub mod graphs;
pub mod orders;
pub mod runs;
pub mod sources;
pub mod stopped;
