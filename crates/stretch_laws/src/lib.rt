//! Bounds by stretches of moves: how many loads and other events lie between the computations of points that reuse words
//! along walks, by the uniform cover inequality. (The partition argument of Hong and Kung 1981.)
#![tactic(auto)]

pub mod pebblings;
pub mod runs;
pub mod stretches;
