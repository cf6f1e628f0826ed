//! How great the numbers of polynomials are.

ghost use Rattle.std.specs.Prelude.{◌≡◌, ◌↔◌, IsTrue, min};
ghost use Rattle.std.specs.List.{AllByRecursion};
ghost use Rattle.affine_form.specs.Form.{IsSmall};
ghost use Rattle.poly_tree.specs.Expansion.{coefficients};
ghost use Rattle.poly_tree.specs.Poly.{size};
ghost use Rattle.poly_tree.specs.Tree.{expansion};
ghost use Rattle.iolb_model.specs.declared.limits.TheConstants.{MEASURE};

use crate::poly::{Poly, size_of};
use crate::tree::Tree;

impl Poly {
    /// Whether each coefficient is of size below a limit.
    pub fn has_numbers_below(&self, limit: u128) -> bool
        ensures { IsTrue result ↔ AllByRecursion (IsSmall limit) (coefficients self.now.tree) }
    {
        numbers_below(self.tree(), limit)
    }

    /// The greater of 1 and the sum of the coefficients' sizes, times the denominator; 2^126 if that is less.
    pub fn capped_size(&self) -> u128
        ensures { result ≡ min (size self.now) MEASURE }
    {
        size_of(self)
    }
}

/// Whether each number of a tree is of size below a limit.
fn numbers_below(tree: &Tree, limit: u128) -> bool
    ensures { IsTrue result ↔ AllByRecursion (IsSmall limit) (coefficients (expansion tree.now)) }
{
    match tree {
        Tree::Num(number) => number.unsigned_abs() < limit,
        Tree::Over { parts, .. } => {
            for part in parts {
                if !numbers_below(part, limit) {
                    return false;
                }
            }
            true
        }
    }
}
