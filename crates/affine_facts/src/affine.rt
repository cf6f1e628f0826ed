//! Affine forms in which proposals are thought out: their numbers saturate, and what is missing is 0. What is handed out is
//! made of forms whose numbers are within the limits.

ghost use Rattle.std.specs.Prelude.{◌≡◌, ◌≤◌, ◌<◌, length, IfOk, IfSome};
ghost use Rattle.std.specs.List.{AllByRecursion};
ghost use Rattle.affine_form.specs.Form.{IsSmall};
ghost use Rattle.affine_form.specs.Rows.{IsSmallOver};
ghost use Rattle.iolb_model.specs.declared.limits.TheConstants.{NUMBER_SIZE, VARIABLES};

use affine_form::{Form, Memory};
use affine_program::is_small;
use std::alloc::Global;

/// What stands for a number that is too large.
const LARGE: i64 = 1 << 40;

/// An affine form: a coefficient for each of the first variables, and a constant.
#[derive(Drop)]
pub struct Affine {
    coef: Vec<i64>,
    constant: i64,
}

/// A number as one that saturates.
fn narrow(number: i128) -> i64 {
    i64::try_from(number).unwrap_or(LARGE)
}

/// A number divided by another one that divides it.
fn quotient(number: i64, divisor: i64) -> Option<i64> {
    if number.checked_rem(divisor)? == 0 {
        number.checked_div(divisor)
    } else {
        None
    }
}

/// A number divided by one of at least 1, rounded down.
fn rounded_down(number: i64, divisor: i64) -> i64 {
    let quotient = number.checked_div(divisor).unwrap_or(number);
    if number.checked_rem(divisor).unwrap_or(0) < 0 {
        quotient.saturating_sub(1)
    } else {
        quotient
    }
}

impl Affine {
    /// The form that is this number everywhere.
    pub fn number(alloc: Global, constant: i64) -> Affine {
        Affine {
            coef: Vec::new(alloc),
            constant,
        }
    }

    /// A variable.
    pub fn variable(alloc: Global, place: usize) -> Result<Affine, Memory> {
        let mut form = Affine::number(alloc, 0);
        form.add_variable(place, 1)?;
        Ok(form)
    }

    /// The same as a form.
    pub fn of(alloc: Global, form: &Form) -> Result<Affine, Memory> {
        let mut coef = Vec::new(alloc);
        for number in form.coef() {
            coef.push(narrow(*number))?;
        }
        Ok(Affine {
            coef,
            constant: narrow(form.constant()),
        })
    }

    /// A copy.
    pub fn copied(&self, alloc: Global) -> Result<Affine, Memory> {
        let coef = Vec::from_slice(alloc, self.coef.as_slice())?;
        Ok(Affine {
            coef,
            constant: self.constant,
        })
    }

    /// The coefficient of a variable.
    pub fn at(&self, place: usize) -> i64 {
        match self.coef.as_slice().get(place) {
            Some(number) => *number,
            None => 0,
        }
    }

    /// The constant.
    pub fn constant(&self) -> i64 {
        self.constant
    }

    /// How many variables it may have.
    pub fn width(&self) -> usize {
        self.coef.len()
    }

    /// Adds a variable so many times.
    pub fn add_variable(&mut self, place: usize, times: i64) -> Result<(), Memory> {
        if place < 64 && self.coef.len() <= place {
            self.coef.resize(place + 1, 0)?;
        }
        if let Some(number) = self.coef.get_mut(place) {
            *number = number.saturating_add(times);
        }
        Ok(())
    }

    /// Adds a number.
    pub fn add_number(&mut self, number: i64) {
        self.constant = self.constant.saturating_add(number);
    }

    /// Adds another form so many times.
    pub fn add(&mut self, other: &Affine, times: i64) -> Result<(), Memory> {
        for (place, number) in other.coef.as_slice().iter().enumerate() {
            self.add_variable(place, number.saturating_mul(times))?;
        }
        self.add_number(other.constant.saturating_mul(times));
        Ok(())
    }

    /// This form less another, and a number.
    pub fn less(&self, alloc: Global, other: &Affine, number: i64) -> Result<Affine, Memory> {
        let mut form = self.copied(alloc)?;
        form.add(other, -1)?;
        form.add_number(number);
        Ok(form)
    }

    /// The row that is at least 0 where this one is at most -1.
    pub fn negated(&self, alloc: Global) -> Result<Affine, Memory> {
        Affine::number(alloc, -1).less(alloc, self, 0)
    }

    /// Whether both have the same value everywhere.
    pub fn is_same(&self, other: &Affine) -> bool {
        for place in 0..self.width().max(other.width()) {
            if self.at(place) != other.at(place) {
                return false;
            }
        }
        self.constant == other.constant
    }

    /// The form with the variables past the parameters replaced by forms.
    pub fn put(&self, alloc: Global, params: usize, values: &[Affine]) -> Result<Affine, Memory> {
        let mut form = Affine::number(alloc, self.constant);
        for (place, number) in self.coef.as_slice().iter().enumerate() {
            if place < params {
                form.add_variable(place, *number)?;
            } else if let Some(value) = values.get(place - params) {
                form.add(value, *number)?;
            }
        }
        Ok(form)
    }

    /// The form with the variables past the parameters moved by so many places.
    pub fn moved(&self, alloc: Global, params: usize, by: usize) -> Result<Affine, Memory> {
        let mut form = Affine::number(alloc, self.constant);
        for (place, number) in self.coef.as_slice().iter().enumerate() {
            let to = if place < params {
                place
            } else {
                place.saturating_add(by)
            };
            form.add_variable(to, *number)?;
        }
        Ok(form)
    }

    /// Whether it is one number everywhere.
    pub fn is_number(&self) -> bool {
        self.coef.as_slice().iter().all(|number| *number == 0)
    }

    /// The first variable past the parameters whose coefficient isn't 0.
    pub fn first_loop(&self, params: usize) -> Option<usize> {
        for place in params..self.width() {
            if self.at(place) != 0 {
                return Some(place - params);
            }
        }
        None
    }

    /// The last variable past the parameters whose coefficient isn't 0.
    pub fn last_loop(&self, params: usize) -> Option<usize> {
        let mut last = None;
        for place in params..self.width() {
            if self.at(place) != 0 {
                last = Some(place - params);
            }
        }
        last
    }

    /// A row divided by the size of its last loop's coefficient, where this divides each coefficient; its constant is rounded
    /// down, so that the row holds at the same points.
    pub fn reduced(&self, alloc: Global, params: usize) -> Result<Affine, Memory> {
        let Some(last) = self.last_loop(params) else {
            return self.copied(alloc);
        };
        let size = self.at(params.saturating_add(last)).saturating_abs();
        let mut coef = Vec::new(alloc);
        for number in self.coef.as_slice() {
            match quotient(*number, size) {
                Some(number) => coef.push(number)?,
                None => return self.copied(alloc),
            }
        }
        Ok(Affine {
            coef,
            constant: rounded_down(self.constant, size),
        })
    }

    /// The loop with which the form is that loop or its opposite, and some form of the parameters.
    pub fn only_loop(&self, params: usize) -> Option<usize> {
        let first = self.first_loop(params)?;
        let place = params.saturating_add(first);
        for other in place.saturating_add(1)..self.width() {
            if self.at(other) != 0 {
                return None;
            }
        }
        if self.at(place) == 1 || self.at(place) == -1 {
            Some(first)
        } else {
            None
        }
    }

    /// The coefficients of so many variables, where they are within the limits.
    fn numbers(&self, alloc: Global, vars: usize) -> Result<Option<Vec<i128>>, Memory>
        ensures many { IfOk result (λ found. IfSome found (λ numbers. length numbers.items ≡ vars)) }
        ensures small { IfOk result (λ found. IfSome found (λ numbers. AllByRecursion (IsSmall NUMBER_SIZE) numbers.items)) }
    {
        let mut numbers = Vec::new(alloc);
        for place in 0..vars {
            let number = i128::from(self.at(place));
            if !is_small(number) {
                return Ok(None);
            }
            numbers.push(number)?;
        }
        Ok(Some(numbers))
    }

    /// The form over so many variables, where it has no others and its numbers are within the limits.
    pub fn form(&self, alloc: Global, vars: usize) -> Result<Option<Form>, Memory>
        requires { vars ≤ VARIABLES }
        ensures { IfOk result (λ found. IfSome found (λ form. IsSmallOver vars form)) }
    {
        let constant = i128::from(self.constant);
        if self.uses_past(vars) || !is_small(constant) {
            return Ok(None);
        }
        match self.numbers(alloc, vars)? {
            Some(numbers) => Ok(Some(Form::new(numbers, constant))),
            None => Ok(None),
        }
    }

    /// Whether it has a variable past so many.
    pub fn uses_past(&self, vars: usize) -> bool {
        for place in vars..self.width() {
            if self.at(place) != 0 {
                return true;
            }
        }
        false
    }
}

/// Copies of forms.
pub fn copies(alloc: Global, forms: &[Affine]) -> Result<Vec<Affine>, Memory> {
    let mut all = Vec::new(alloc);
    for form in forms {
        all.push(form.copied(alloc)?)?;
    }
    Ok(all)
}

/// The loop values themselves.
pub fn loops(alloc: Global, params: usize, depth: usize) -> Result<Vec<Affine>, Memory> {
    let mut all = Vec::new(alloc);
    for place in 0..depth {
        all.push(Affine::variable(alloc, params.saturating_add(place))?)?;
    }
    Ok(all)
}
