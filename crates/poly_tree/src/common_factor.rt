//! Common factors of trees.

ghost use Rattle.std.specs.Prelude.{◌≡◌, ◌*ℤ◌, ◌≤ℤ◌, pos, unsigned_abs, IfOk};
ghost use Rattle.std.specs.Int.{IsGcd, ◌∣◌};
ghost use Rattle.poly_tree.specs.Expansion.{DividesAll, IsContent, scaled};
ghost use Rattle.poly_tree.specs.Tree.{expansion};

use crate::top::{Top, look};
use crate::tree::Tree;
use affine_form::Memory;
use std::alloc::Global;

/// The greatest common divisor of a number of at least 1 and all numbers of a tree.
pub(crate) fn common_factor(tree: &Tree, start: i128) -> i128
    requires { pos 1 ≤ℤ start }
    ensures some { pos 1 ≤ℤ result }
    ensures content { IsContent (expansion tree.now) (unsigned_abs start) (unsigned_abs result) }
{
    content(tree, start.unsigned_abs()) as i128
}

/// The greatest common divisor of a number and all numbers of a tree.
fn content(tree: &Tree, start: u128) -> u128
    ensures { IsContent (expansion tree.now) start result }
{
    match look(tree) {
        Top::Number(number) => gcd(start, number.unsigned_abs()),
        Top::Over(_, parts) => {
            let mut factor = start;
            for part in parts {
                factor = content(part, factor);
            }
            factor
        }
    }
}

/// The greatest common divisor of two numbers, by Euclid's algorithm.
pub fn gcd(a: u128, b: u128) -> u128
    ensures { IsGcd a b result }
{
    let (mut x, mut y) = (a, b);
    while y != 0 {
        (x, y) = (y, x % y);
    }
    x
}

/// A tree divided by a number that divides all of its numbers.
pub(crate) fn divided(alloc: Global, tree: &Tree, factor: i128) -> Result<Tree, Memory>
    requires some { pos 1 ≤ℤ factor }
    requires divides { DividesAll (unsigned_abs factor) (expansion tree.now) }
    ensures { IfOk result (λ t. scaled factor (expansion t) ≡ expansion tree.now) }
{
    match look(tree) {
        Top::Number(number) => Ok(Tree::Num(quotient(number, factor))),
        Top::Over(var, parts) => {
            let mut quotients = Vec::new(alloc);
            for part in parts {
                quotients.push(divided(alloc, part, factor)?)?;
            }
            Ok(Tree::Over {
                var,
                parts: quotients,
            })
        }
    }
}

/// A number divided by one that divides it.
pub(crate) fn quotient(number: i128, factor: i128) -> i128
    requires some { pos 1 ≤ℤ factor }
    requires divides { unsigned_abs factor ∣ unsigned_abs number }
    ensures { factor *ℤ result ≡ number }
{
    number / factor
}
