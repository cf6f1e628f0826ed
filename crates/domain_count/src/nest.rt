//! Nests of variables.

ghost use Rattle.std.specs.Prelude.{◌≡◌};

use affine_form::Form;
use std::marker::Model;

/// A nest: for each variable its lower and its upper form, both included, over the parameters and the variables before
/// it.
#[derive(Debug, Drop)]
pub struct Nest {
    bounds: Vec<(Form, Form)>,
}

impl Model for Nest {
    ghost use Rattle.std.specs.Prelude.{List};
    ghost use Rattle.iolb_model.specs.Form.{AffineForm};

    ghost Value = { List (AffineForm × AffineForm) };

    ghost view = { λ nest. nest.bounds.items };
}

impl Nest {
    /// The nest of variables between these bounds.
    pub fn new(bounds: Vec<(Form, Form)>) -> Nest
        ensures { result ≡ bounds.items }
    {
        Nest { bounds }
    }

    /// The lower and the upper form of each variable.
    pub fn bounds(&self) -> &[(Form, Form)]
        ensures { result.now ≡ self.now }
    {
        self.bounds.as_slice()
    }
}
