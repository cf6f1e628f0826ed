//! What a program, an execution, a source, a computation graph, a game and a bound are: the definitions that
//! every contract of IOLB cites stand in `specs/`. The code here is the plain data that they share with programs.
#![tactic(auto)]

pub mod game;
pub mod limits;
pub mod tower;
