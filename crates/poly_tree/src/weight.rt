//! The sizes of trees.

ghost use Rattle.std.specs.Prelude.{◌≡◌, min};
ghost use Rattle.poly_tree.specs.Expansion.{weight};
ghost use Rattle.poly_tree.specs.Tree.{expansion};
ghost use Rattle.iolb_model.specs.declared.limits.TheConstants.{MEASURE};

use crate::tree::Tree;
use iolb_model::limits;

/// The sum of the sizes of the numbers, or 2^126 if that is less.
pub(crate) fn weight_of(tree: &Tree) -> u128
    ensures { result ≡ min (weight (expansion tree.now)) MEASURE }
{
    match tree {
        Tree::Num(number) => number.unsigned_abs().min(limits::MEASURE),
        Tree::Over { parts, .. } => {
            let mut sum = 0;
            for part in parts {
                sum = (sum + weight_of(part)).min(limits::MEASURE);
            }
            sum
        }
    }
}
