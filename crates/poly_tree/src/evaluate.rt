//! Values of trees.

ghost use Rattle.std.specs.Prelude.{◌≡◌, ◌+◌, ◌<◌, ◌^◌, length, min, unsigned_abs};
ghost use Rattle.poly_tree.specs.Expansion.{IsCanonical, at, size_at, value};
ghost use Rattle.poly_tree.specs.Tree.{expansion};
ghost use Rattle.iolb_model.specs.declared.limits.TheConstants.{MEASURE};

use crate::size::capped_product;
use crate::top::{Top, look};
use crate::tree::Tree;
use affine_form::add_product;
use iolb_model::limits;

/// The sum over a tree's terms of the coefficient's size times the powers of the sizes of the variables' values, each
/// at least 1; or 2^126 if that is less.
pub(crate) fn size_at(tree: &Tree, point: &[i128]) -> u128
    requires { IsCanonical (length point.now) (expansion tree.now) }
    ensures { result ≡ min (size_at (expansion tree.now) (at point.now)) MEASURE }
{
    match look(tree) {
        Top::Number(number) => number.unsigned_abs().min(limits::MEASURE),
        Top::Over(v, parts) => {
            let base = point[usize::from(v)].unsigned_abs().max(1);
            let mut total = 0;
            for done in 0..parts.len() {
                let part = size_at(&parts[parts.len() - 1 - done], point);
                total = (part + capped_product(total, base)).min(limits::MEASURE);
            }
            total
        }
    }
}

/// The value of a tree.
pub(crate) fn value_at(tree: &Tree, point: &[i128]) -> i128
    requires canonical { IsCanonical (length point.now) (expansion tree.now) }
    requires small { size_at (expansion tree.now) (at point.now) < MEASURE }
    ensures { result ≡ value (expansion tree.now) (at point.now) }
{
    match look(tree) {
        Top::Number(number) => number,
        Top::Over(v, parts) => {
            let x = point[usize::from(v)];
            let mut total = 0;
            for done in 0..parts.len() {
                let part = value_at(&parts[parts.len() - 1 - done], point);
                total = add_product(part, x, total);
            }
            total
        }
    }
}
