//! The values of bounds at sizes.

ghost use Rattle.std.specs.Prelude.{◌≡◌, ◌≤◌, ◌<◌, ◌^◌, ◌*◌, ◌↔◌, ◌⊎◌, [], min, take, length, IfOk, IsErr};
ghost use Rattle.std.specs.List.{AllByRecursion};
ghost use Rattle.affine_form.specs.Form.{IsSmall};
ghost use Rattle.iolb_model.specs.Bound.{AreMet, bound_value, branch_value, count_value, term_value};
ghost use Rattle.poly_tree.specs.Printed.{polynomial_of};
ghost use Rattle.iolb_check.specs.Bounds.{Evaluates, EvaluatesBranch, HasWideBranch, IsCounting, IsTermValue, IsWideAt, IsWideBranch, IsWideTerm, IsWideTimes, bound_of, greatest_branch, lists, term_of, terms_of};
ghost use Rattle.iolb_model.specs.declared.limits.TheConstants.{MEASURE, VALUE_SIZE, VARIABLES};

use crate::bound::{Bound, Value};
use crate::partition_values::partition_at;
use crate::value_fault::ValueFault;
use affine_form::System;
use affine_program::first_unmet;
use iolb_model::limits;
use poly_tree::printed_law::terms_have_the_value;
use poly_tree::{Poly, Wide};

impl Bound {
    /// The value at sizes for the parameters and with s red pebbles: the greatest value of a branch, and 0 if there is none.
    ///
    /// # Errors
    ///
    /// `OutsideAssumption` names the first assumption that is false at the sizes. `Wide` comes where all are true, exactly
    /// where in some branch the terms of a polynomial, each coefficient's size times the powers of the variables' sizes,
    /// reach 2^126 in sum, or s times the vertices of a wavefront term do, or the events of a term's stretches, or
    /// the branch's value; or where the labels of a stretch, to the power of the weights, reach 2^127.
    pub fn value(&self, sizes: &[i64], s: u64) -> Result<u128, ValueFault>
        requires each { length sizes.now ≡ self.now.assumed.vars }
        requires small { AllByRecursion (IsSmall VALUE_SIZE) sizes.now }
        requires some { 1 ≤ s }
        requires few { s < 2 ^ 63 }
        ensures { Evaluates self.now.assumed.rows sizes.now (bound_value (bound_of self.now) sizes.now s) (HasWideBranch sizes.now s self.now.branches) result }
    {
        let assumed = self.assumed();
        let variables = assumed.vars();
        let wide = widened(sizes);
        let point = &wide[..variables];
        if let Some(number) = first_unmet(assumed.rows(), point) {
            return Err(ValueFault::OutsideAssumption(number));
        }
        greatest(self.branch_lists(), assumed, point, s)
    }

    /// The value of a branch that is there, the sum of its terms' values.
    ///
    /// # Errors
    ///
    /// Those of `value`, for this branch.
    pub fn branch_value(&self, branch: usize, sizes: &[i64], s: u64) -> Result<u128, ValueFault>
        requires there { branch < length self.now.branches }
        requires each { length sizes.now ≡ self.now.assumed.vars }
        requires small { AllByRecursion (IsSmall VALUE_SIZE) sizes.now }
        requires some { 1 ≤ s }
        requires few { s < 2 ^ 63 }
        ensures { EvaluatesBranch self.now sizes.now s branch result }
    {
        let terms = self.terms(branch);
        let assumed = self.assumed();
        let variables = assumed.vars();
        let wide = widened(sizes);
        let point = &wide[..variables];
        if let Some(number) = first_unmet(assumed.rows(), point) {
            return Err(ValueFault::OutsideAssumption(number));
        }
        branch_sum(terms, assumed, point, s)
    }
}

/// The sizes, and then zeros, as a point for forms and polynomials.
pub fn widened(sizes: &[i64]) -> [i128; 24]
    requires { length sizes.now ≤ VARIABLES }
    ensures { take (length sizes.now) result ≡ sizes.now }
{
    let mut point = [0i128; 24];
    for (i, size) in sizes.iter().enumerate() {
        point[i] = i128::from(*size);
    }
    point
}

/// The greatest value of branches at sizes that meet the assumptions.
fn greatest(
    branches: &[Vec<Value>],
    assumed: &System,
    point: &[i128],
    s: u64,
) -> Result<u128, ValueFault>
    requires counting { AllByRecursion (λ terms. AllByRecursion (IsTermValue assumed.now) terms) (lists branches.now) }
    requires each { length point.now ≡ assumed.now.vars }
    requires met { AreMet assumed.now.rows point.now }
    requires some { 1 ≤ s }
    ensures { Evaluates [] point.now (greatest_branch (lists branches.now) point.now s 0) (HasWideBranch point.now s (lists branches.now)) result }
{
    let mut best = 0;
    for terms in branches {
        let sum = branch_sum(terms.as_slice(), assumed, point, s)?;
        best = sum.max(best);
    }
    Ok(best)
}

/// The sum of terms' values at sizes that meet the assumptions.
fn branch_sum(terms: &[Value], assumed: &System, point: &[i128], s: u64) -> Result<u128, ValueFault>
    requires counting { AllByRecursion (IsTermValue assumed.now) terms.now }
    requires each { length point.now ≡ assumed.now.vars }
    requires met { AreMet assumed.now.rows point.now }
    requires some { 1 ≤ s }
    ensures { Evaluates [] point.now (branch_value (terms_of terms.now) point.now s) (IsWideBranch point.now s terms.now) result }
{
    let mut total = 0;
    for term in terms {
        let Ok(value) = value_of(term, assumed, point, s) else {
            return Err(ValueFault::Wide);
        };
        total = (value + total).min(limits::MEASURE);
    }
    if total < limits::MEASURE {
        Ok(total)
    } else {
        Err(ValueFault::Wide)
    }
}

/// A term's value at sizes that meet the assumptions, or 2^126 if that is less.
fn value_of(term: &Value, assumed: &System, point: &[i128], s: u64) -> Result<u128, Wide>
    requires counting { IsTermValue assumed.now term.now }
    requires each { length point.now ≡ assumed.now.vars }
    requires met { AreMet assumed.now.rows point.now }
    requires some { 1 ≤ s }
    ensures value { IfOk result (λ value. value ≡ min (term_value (term_of term.now) point.now s) MEASURE) }
    ensures wide { IsErr result ↔ IsWideTerm point.now s term.now }
{
    let value = match term {
        Value::Cold(count) => count_at(count, assumed, point)?,
        Value::Partition(bound) | Value::Joint(bound) => partition_at(bound, assumed, point, s)?,
        Value::Wavefront { pairs, outer } => {
            let words = count_at(pairs, assumed, point)?;
            let red = red_at(outer, assumed, point, u128::from(s))?;
            words.saturating_sub(red)
        }
    };
    Ok(value.min(limits::MEASURE))
}

/// How many words may be red in all when so many vertices are computed as a polynomial counts: s for each.
pub fn red_at(outer: &Poly, assumed: &System, point: &[i128], s: u128) -> Result<u128, Wide>
    requires counting { IsCounting assumed.now outer.now }
    requires each { length point.now ≡ assumed.now.vars }
    requires met { AreMet assumed.now.rows point.now }
    ensures value { IfOk result (λ value. value ≡ s * count_value (polynomial_of outer.now) point.now) }
    ensures wide { IsErr result ↔ (IsWideAt point.now outer.now ⊎ IsWideTimes point.now s outer.now) }
{
    let vertices = count_at(outer, assumed, point)?;
    match s.checked_mul(vertices) {
        Some(red) if red < limits::MEASURE => Ok(red),
        _ => Err(Wide),
    }
}

/// The value at sizes that meet the assumptions of a polynomial that counts something. It is `Wide` exactly where the terms
/// reach 2^126 in sum, each coefficient's size times the powers of the variables' sizes.
pub fn count_at(count: &Poly, assumed: &System, point: &[i128]) -> Result<u128, Wide>
    requires counting { IsCounting assumed.now count.now }
    requires each { length point.now ≡ assumed.now.vars }
    requires met { AreMet assumed.now.rows point.now }
    ensures value { IfOk result (λ value. value ≡ count_value (polynomial_of count.now) point.now) }
    ensures wide { IsErr result ↔ IsWideAt point.now count.now }
{
    terms_have_the_value();
    let numerator = count.numer(point)?;
    let value = numerator / count.den();
    Ok(value as u128)
}
