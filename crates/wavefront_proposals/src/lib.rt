//! Cold and wavefront terms that are likely to be strong. Nothing is promised of them; the checker decides.
#![tactic(auto)]

mod cold;
mod fronts;

pub use cold::choosing::{Choice, cold_choice};
pub use cold::outlines::Outline;
pub use cold::terms::cold_term;
pub use fronts::terms::wavefronts;
