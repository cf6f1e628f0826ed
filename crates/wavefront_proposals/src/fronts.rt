//! Wavefront terms that are likely to be strong.

mod claims_shown;
mod outlines;
pub(crate) mod terms;
mod turns;
mod ways;
