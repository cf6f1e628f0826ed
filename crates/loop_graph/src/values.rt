//! The values of a loop.

ghost use Rattle.std.specs.Prelude.{◌≡◌, ◌∷◌, [], MatchOption};
ghost use Rattle.std.specs.List.{AllByRecursion};
ghost use Rattle.affine_form.specs.Form.{IsSmall};
ghost use Rattle.loop_graph.specs.Values.{values_left};
ghost use Rattle.iolb_model.specs.declared.limits.TheConstants.{VALUE_SIZE};

/// The values that a loop has yet to take: those from the lower to the upper, both included, and whether it runs downward.
#[derive(Clone, Copy, Debug)]
pub struct Values {
    pub lower: i128,
    pub upper: i128,
    pub down: bool,
}

impl Values {
    /// Takes the next value, if there is one.
    pub fn next(&mut self) -> Option<i128>
        requires small { AllByRecursion (IsSmall VALUE_SIZE) (values_left self.old) }
        ensures { MatchOption result (values_left self.old ≡ []) (λ value. values_left self.old ≡ value ∷ values_left self.new) }
    {
        if self.upper < self.lower {
            return None;
        }
        if self.down {
            let value = self.upper;
            self.upper -= 1;
            return Some(value);
        }
        let value = self.lower;
        self.lower += 1;
        Some(value)
    }
}
