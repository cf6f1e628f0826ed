//! How many values a loop has.

ghost use Rattle.std.specs.Prelude.{◌≡◌, ◌≤◌, length, IfOk, IfSome};
ghost use Rattle.std.specs.List.{AllByRecursion};
ghost use Rattle.affine_form.specs.Form.{IsSmall, variables};
ghost use Rattle.iolb_model.specs.declared.limits.TheConstants.{NUMBER_SIZE, VARIABLES};

use affine_form::{Form, Memory};
use affine_program::is_small;
use std::alloc::Global;

/// A form that says how many values a loop has: a coefficient for each parameter and each loop round it, and a constant. The
/// numbers of programs are so small that none of those computed here leaves 128 bits; if one did it would stay at the end.
#[derive(Drop)]
pub(crate) struct Span {
    coef: Vec<i128>,
    constant: i128,
}

impl Span {
    /// One more than a loop's upper bound less its lower, over so many variables.
    pub(crate) fn of(
        alloc: Global,
        lower: &Form,
        upper: &Form,
        variables: usize,
    ) -> Result<Span, Memory> {
        let mut coef = Vec::new(alloc);
        for place in 0..variables {
            coef.push(
                upper
                    .coefficient(place)
                    .saturating_sub(lower.coefficient(place)),
            )?;
        }
        let constant = upper.constant().saturating_sub(lower.constant());
        Ok(Span {
            coef,
            constant: constant.saturating_add(1),
        })
    }

    /// The coefficient of a variable.
    fn coefficient(&self, place: usize) -> i128 {
        self.coef.as_slice().get(place).copied().unwrap_or(0)
    }

    /// Adds a form so many times.
    fn add(&mut self, form: &Form, times: i128) {
        for place in 0..self.coef.len() {
            if let Some(number) = self.coef.get_mut(place) {
                *number = number.saturating_add(times.saturating_mul(form.coefficient(place)));
            }
        }
        let more = times.saturating_mul(form.constant());
        self.constant = self.constant.saturating_add(more);
    }

    /// Puts the bound of a loop at which the form is least in the place of its variable.
    pub(crate) fn put_least(&mut self, place: usize, lower: &Form, upper: &Form) {
        let times = self.coefficient(place);
        if let Some(number) = self.coef.get_mut(place) {
            *number = 0;
        }
        if times < 0 {
            self.add(upper, times);
        } else {
            self.add(lower, times);
        }
    }

    /// The coefficients of so many variables, where they are within the limits of texts.
    fn numbers(&self, alloc: Global, variables: usize) -> Result<Option<Vec<i128>>, Memory>
        ensures many { IfOk result (λ found. IfSome found (λ numbers. length numbers.items ≡ variables)) }
        ensures small { IfOk result (λ found. IfSome found (λ numbers. AllByRecursion (IsSmall NUMBER_SIZE) numbers.items)) }
    {
        let mut numbers = Vec::new(alloc);
        for place in 0..variables {
            let number = self.coefficient(place);
            if !is_small(number) {
                return Ok(None);
            }
            numbers.push(number)?;
        }
        Ok(Some(numbers))
    }

    /// The form over so many variables, where its numbers are within the limits of texts.
    pub(crate) fn form(&self, alloc: Global, count: usize) -> Result<Option<Form>, Memory>
        requires { count ≤ VARIABLES }
        ensures { IfOk result (λ found. IfSome found (λ form. variables form ≡ count)) }
    {
        if !is_small(self.constant) {
            return Ok(None);
        }
        match self.numbers(alloc, count)? {
            Some(numbers) => Ok(Some(Form::new(numbers, self.constant))),
            None => Ok(None),
        }
    }
}
