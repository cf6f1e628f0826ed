//! What a program says of its statements, in affine forms that saturate, and what follows from rows of them, found.
#![tactic(auto)]

pub mod affine;
pub mod combined;
pub mod facts;
pub mod fitted;
pub mod inverses;
pub mod leaves;
pub mod nests;
pub mod numbers;
pub mod placed;
pub mod shown;
pub mod words;
