//! Terms.

use std::marker::Model;

/// A coefficient times powers of the variables: an exponent for each variable, 0 past the end.
#[derive(Debug, Drop)]
pub(crate) struct Term {
    pub(crate) coefficient: i128,
    pub(crate) exponents: Vec<usize>,
}

impl Model for Term {
    ghost use Rattle.iolb_model.specs.Polynomial.{Term};

    ghost Value = { Term };

    ghost view = { λ term. record { coefficient = term.coefficient; exponents = term.exponents.items } };
}
