//! Sums of variables.

use affine_form::{Form, Memory, TermsText};
use plain_pages::Page;
use std::alloc::Global;

/// A sum of variables times numbers, and a number. Numbers that would leave 128 bits stay at the end.
#[derive(Drop)]
pub struct Sum {
    coef: Vec<i128>,
    constant: i128,
}

impl Sum {
    /// A number, as a sum over so many variables.
    pub fn new(alloc: Global, vars: usize, constant: i128) -> Result<Sum, Memory> {
        let coef = vec![in alloc; 0; vars]?;
        Ok(Sum { coef, constant })
    }

    /// The sum that a form is, over so many variables.
    pub fn of(alloc: Global, vars: usize, form: &Form) -> Result<Sum, Memory> {
        let mut sum = Sum::new(alloc, vars, 0)?;
        sum.add(form, 1);
        Ok(sum)
    }

    /// The variable at this place, over so many.
    pub fn variable(alloc: Global, vars: usize, place: usize) -> Result<Sum, Memory> {
        let mut sum = Sum::new(alloc, vars, 0)?;
        if let Some(number) = sum.coef.get_mut(place) {
            *number = 1;
        }
        Ok(sum)
    }

    /// A form with sums over so many variables put in for its variables.
    pub fn put(alloc: Global, vars: usize, form: &Form, point: &[Sum]) -> Result<Sum, Memory> {
        let mut sum = Sum::new(alloc, vars, form.constant())?;
        for (place, value) in point.iter().enumerate() {
            sum.add_sum(value, form.coefficient(place));
        }
        Ok(sum)
    }

    /// Adds a form so many times.
    pub fn add(&mut self, form: &Form, times: i128) {
        for place in 0..self.coef.len() {
            if let Some(number) = self.coef.get_mut(place) {
                *number = number.saturating_add(times.saturating_mul(form.coefficient(place)));
            }
        }
        let more = times.saturating_mul(form.constant());
        self.constant = self.constant.saturating_add(more);
    }

    /// Adds another sum so many times.
    pub(crate) fn add_sum(&mut self, other: &Sum, times: i128) {
        for place in 0..self.coef.len() {
            if let (Some(number), Some(more)) = (self.coef.get_mut(place), other.coef.get(place)) {
                *number = number.saturating_add(times.saturating_mul(*more));
            }
        }
        let more = times.saturating_mul(other.constant);
        self.constant = self.constant.saturating_add(more);
    }

    /// A copy of the sum, with so many variables more, of coefficient 0, in front of those from a place on.
    pub fn moved(&self, alloc: Global, place: usize, more: usize) -> Result<Sum, Memory> {
        let (front, behind) = self.coef.as_slice().split_at(place.min(self.coef.len()));
        let mut coef = Vec::from_slice(alloc, front)?;
        let zeros = vec![in alloc; 0; more]?;
        coef.extend_from_slice(zeros.as_slice())?;
        coef.extend_from_slice(behind)?;
        let constant = self.constant;
        Ok(Sum { coef, constant })
    }

    /// The sum that is at least 0 exactly where this one is at most -1.
    pub fn opposite(&self, alloc: Global) -> Result<Sum, Memory> {
        let mut sum = self.times(alloc, -1)?;
        sum.constant = sum.constant.saturating_sub(1);
        Ok(sum)
    }

    /// Whether the sum is 0 whatever its variables are.
    pub fn is_zero(&self) -> bool {
        for number in self.coef.as_slice() {
            if *number != 0 {
                return false;
            }
        }
        self.constant == 0
    }

    /// The coefficient of a variable; 0 for one that isn't there.
    pub fn coefficient(&self, place: usize) -> i128 {
        match self.coef.get(place) {
            Some(number) => *number,
            None => 0,
        }
    }

    /// The sum less another.
    pub fn less(&self, alloc: Global, other: &Sum) -> Result<Sum, Memory> {
        let mut coef = Vec::new(alloc);
        for (number, less) in self.coef.as_slice().iter().zip(other.coef.as_slice()) {
            coef.push(number.saturating_sub(*less))?;
        }
        let constant = self.constant.saturating_sub(other.constant);
        Ok(Sum { coef, constant })
    }

    /// So many times the sum.
    pub fn times(&self, alloc: Global, times: i128) -> Result<Sum, Memory> {
        let mut coef = Vec::new(alloc);
        for number in self.coef.as_slice() {
            coef.push(number.saturating_mul(times))?;
        }
        let constant = self.constant.saturating_mul(times);
        Ok(Sum { coef, constant })
    }

    /// Writes the sum, where the variables have these names.
    pub fn write(&self, page: &mut Page, names: &[Vec<u8>]) -> Result<(), Memory> {
        let alloc = page.alloc();
        let mut text = TermsText::new(alloc);
        for (name, number) in names.iter().zip(self.coef.as_slice()) {
            text = text.with_term(alloc, *number, name.as_slice())?;
        }
        let text = text.with_term(alloc, self.constant, &[])?.finish()?;
        page.write_bytes(text.as_slice())?;
        Ok(())
    }
}
