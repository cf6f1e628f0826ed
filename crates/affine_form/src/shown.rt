//! What Farkas multipliers show.

ghost use Rattle.std.specs.Prelude.{◌≡◌, ◌<◌, ◌≤◌, ◌*ℤ◌, ◌↔◌, IsTrue, pos, unsigned_abs};
ghost use Rattle.affine_form.specs.Combination.{coefficient_of};
ghost use Rattle.affine_form.specs.Shown.{NamesRows, Shows, Follows, HasNoPoint, minus_one, row_sum};
ghost use Rattle.iolb_model.specs.declared.limits.TheConstants.{COEFFICIENT_SIZE};

use crate::form::Form;
use crate::multipliers::Multipliers;
use crate::system::System;
use crate::wide::add_product;

/// Whether the multipliers show the goal from the rows of the system: the rows that they name are there, and `c`
/// times the goal is, as a form, `m0` and each named row times its multiplier. Then the goal is at least 0 at every
/// point of whole numbers where all rows are (Farkas 1902; the sound direction).
pub fn entails(system: &System, goal: &Form, shown: &Multipliers) -> bool
    ensures exact { IsTrue result ↔ Shows system.now goal.now shown.now }
    ensures sound { IsTrue result → Follows system.now goal.now }
{
    let coef = goal.coef();
    if coef.len() != system.vars() {
        return false;
    }
    if !names_rows(system, shown) {
        return false;
    }
    for (variable, coefficient) in coef.iter().enumerate() {
        if scaled(shown, *coefficient) != coefficient_sum(system, shown, variable) {
            return false;
        }
    }
    if scaled(shown, goal.constant()) != constant_sum(system, shown) {
        return false;
    }
    true
}

/// Whether the multipliers show that no point of whole numbers meets all rows of the system: whether they show the
/// goal -1.
pub fn empty(system: &System, shown: &Multipliers) -> bool
    ensures exact { IsTrue result ↔ Shows system.now (minus_one system.now.vars) shown.now }
    ensures sound { IsTrue result → HasNoPoint system.now }
{
    if !names_rows(system, shown) {
        return false;
    }
    for variable in 0..system.vars() {
        if coefficient_sum(system, shown, variable) != 0 {
            return false;
        }
    }
    if scaled(shown, -1) != constant_sum(system, shown) {
        return false;
    }
    true
}

/// Whether each row that is named is there.
fn names_rows(system: &System, shown: &Multipliers) -> bool
    ensures { IsTrue result ↔ NamesRows system.now.rows shown.now.weights }
{
    let rows = system.rows().len();
    for (row, _) in shown.m() {
        if usize::from(*row) >= rows {
            return false;
        }
    }
    true
}

/// A number of a form times the scale.
fn scaled(shown: &Multipliers, number: i128) -> i128
    requires { unsigned_abs number < COEFFICIENT_SIZE }
    ensures product { result ≡ pos shown.now.scale *ℤ number }
    ensures some { 1 ≤ shown.now.scale }
{
    add_product(0, i128::from(shown.c()), number)
}

/// The coefficient of a variable in the sum of the rows.
fn coefficient_sum(system: &System, shown: &Multipliers, variable: usize) -> i128
    requires named { NamesRows system.now.rows shown.now.weights }
    requires variable_in { variable < system.now.vars }
    ensures { result ≡ coefficient_of variable (row_sum system.now shown.now) }
{
    let rows = system.rows();
    let mut sum = 0;
    for (row, weight) in shown.m() {
        let form = &rows[usize::from(*row)];
        sum = add_product(sum, i128::from(*weight), form.coef()[variable]);
    }
    sum
}

/// The constant of the sum of the rows.
fn constant_sum(system: &System, shown: &Multipliers) -> i128
    requires { NamesRows system.now.rows shown.now.weights }
    ensures { result ≡ (row_sum system.now shown.now).constant }
{
    let rows = system.rows();
    let mut sum = 0;
    for (row, weight) in shown.m() {
        let form = &rows[usize::from(*row)];
        sum = add_product(sum, i128::from(*weight), form.constant());
    }
    add_product(sum, 1, i128::from(shown.m0()))
}
