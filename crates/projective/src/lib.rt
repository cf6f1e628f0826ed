//! Projective programs: one statement in a nest of loops that run upward from 0 to below parameters, where each reference is
//! a coordinate projection of the loops (Dinh and Demmel 2020).
#![tactic(auto)]

mod assumed;
mod counts;
pub mod forms;
mod law;
mod loops;
pub mod parameters;
mod powers;
mod projective;
mod recognising;
mod references;
pub mod standing;
mod trees;
mod turn_leaves;
pub mod turns;

pub use counts::product_sums;
pub use law::least_covers_have_least_exponents;
pub use projective::Projective;
pub use recognising::as_projective;
pub use trees::source_trees;
