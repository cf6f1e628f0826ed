//! Cold terms that are likely to be large.

pub(crate) mod choosing;
pub(crate) mod outlines;
mod pieces;
mod remainders;
mod starts;
pub(crate) mod terms;
mod turns;
