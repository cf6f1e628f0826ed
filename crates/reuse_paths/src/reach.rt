//! Walks that arrive.

use crate::walk::Region;
use affine_form::{Form, Multipliers};

/// An instance for each point of a nest: a statement with its loop values, as forms over the parameters and the nest's
/// variables.
#[derive(Debug, Drop)]
pub struct Spot {
    pub statement: u16,
    pub point: Vec<Form>,
}

/// What shows that a walk back from one spot arrives at another.
#[derive(Debug, Drop)]
pub enum Reach {
    /// The spots are the same instance: the multipliers show that their loop values are equal.
    Same(Vec<Multipliers>),
    /// A walk through regions, one or none for each statement, whose forms are over the parameters, the nest's variables
    /// and the statement's loop values. The multipliers show that the spot from which it starts is in its region.
    Walked {
        start: Vec<Multipliers>,
        nodes: Vec<Option<Box<Region>>>,
    },
}
