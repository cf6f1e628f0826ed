//! Forms read over more variables, and their differences.

ghost use Rattle.std.specs.Prelude.{◌≡◌, ◌≤◌, ◌<◌, ◌^◌, ◌+◌, ◌+ℤ◌, ◌-ℤ◌, IfOk, unsigned_abs};
ghost use Rattle.affine_form.specs.Combination.{coefficient_of};
ghost use Rattle.affine_form.specs.Form.{variables, IsSmallForm};
ghost use Rattle.affine_form.specs.Rows.{widened, difference};
ghost use Rattle.iolb_model.specs.declared.limits.TheConstants.{COEFFICIENT_SIZE, PUT_SIZE, VARIABLES};

use crate::{Form, Memory};
use std::alloc::Global;

/// The form read over so many variables: those that it lacks have coefficient 0.
pub fn widened(alloc: Global, vars: usize, form: &Form) -> Result<Form, Memory>
    requires room { variables form.now ≤ vars }
    requires few { vars ≤ VARIABLES }
    ensures { IfOk result (λ wide. wide ≡ widened vars form.now) }
{
    let mut coef = Vec::from_slice(alloc, form.coef())?;
    for _place in form.coef().len()..vars {
        coef.push(0)?;
    }
    Ok(Form::new(coef, form.constant()))
}

/// A form less another, both read over so many variables, and a number.
pub fn difference(
    alloc: Global,
    vars: usize,
    left: &Form,
    right: &Form,
    number: i128,
) -> Result<Form, Memory>
    requires few { vars ≤ VARIABLES }
    requires left_in { variables left.now ≤ vars }
    requires right_in { variables right.now ≤ vars }
    requires small_left { IsSmallForm PUT_SIZE left.now }
    requires small_right { IsSmallForm PUT_SIZE right.now }
    requires small_number { unsigned_abs number ≤ 1 }
    ensures { IfOk result (λ form. form ≡ difference vars left.now right.now number) }
{
    let mut coef = Vec::new(alloc);
    for place in 0..vars {
        coef.push(coefficient_less(left, right, place))?;
    }
    Ok(Form::new(coef, constant_less(left, right, number)))
}

/// The coefficient of a variable in a form less another.
fn coefficient_less(left: &Form, right: &Form, place: usize) -> i128
    requires small_left { IsSmallForm PUT_SIZE left.now }
    requires small_right { IsSmallForm PUT_SIZE right.now }
    ensures value { result ≡ coefficient_of place left.now -ℤ coefficient_of place right.now }
    ensures small { unsigned_abs result < COEFFICIENT_SIZE }
{
    less(coefficient(left, place), coefficient(right, place))
}

/// The coefficient of a variable, 0 past a form's variables.
fn coefficient(form: &Form, place: usize) -> i128
    requires { IsSmallForm PUT_SIZE form.now }
    ensures value { result ≡ coefficient_of place form.now }
    ensures small { unsigned_abs result < PUT_SIZE }
{
    let coef = form.coef();
    if place < coef.len() { coef[place] } else { 0 }
}

/// The constant of a form less another, and a number.
fn constant_less(left: &Form, right: &Form, number: i128) -> i128
    requires small_left { IsSmallForm PUT_SIZE left.now }
    requires small_right { IsSmallForm PUT_SIZE right.now }
    requires small_number { unsigned_abs number ≤ 1 }
    ensures value { result ≡ (left.now.constant -ℤ right.now.constant) +ℤ number }
    ensures small { unsigned_abs result < COEFFICIENT_SIZE }
{
    less(left.constant(), right.constant()) + number
}

/// A small number less another.
fn less(x: i128, y: i128) -> i128
    requires small_x { unsigned_abs x < PUT_SIZE }
    requires small_y { unsigned_abs y < PUT_SIZE }
    ensures value { result ≡ x -ℤ y }
    ensures small { unsigned_abs result < 2 ^ 61 }
{
    x - y
}
