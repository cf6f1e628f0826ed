//! Sums of multiples of trees.

ghost use Rattle.std.specs.Prelude.{◌≢◌, ◌+◌, ◌*◌, ◌<◌, ◌^◌, pos, unsigned_abs, IfOk};
ghost use Rattle.poly_tree.specs.Expansion.{IsLinear, weight};
ghost use Rattle.poly_tree.specs.Tree.{expansion};

use crate::scale::scale;
use crate::sum::sum;
use crate::tree::Tree;
use affine_form::Memory;
use std::alloc::Global;

/// A multiple of a tree and one of another.
pub(crate) fn linear(
    alloc: Global,
    a: &Tree,
    a_factor: i128,
    b: &Tree,
    b_factor: i128,
) -> Result<Tree, Memory>
    requires first { a_factor ≢ pos 0 }
    requires second { b_factor ≢ pos 0 }
    requires light { unsigned_abs a_factor * weight (expansion a.now) + unsigned_abs b_factor * weight (expansion b.now) < 2 ^ 127 }
    ensures { IfOk result (λ t. IsLinear a_factor (expansion a.now) b_factor (expansion b.now) (expansion t)) }
{
    let first = scale(alloc, a, a_factor)?;
    let second = scale(alloc, b, b_factor)?;
    sum(alloc, &first, &second)
}
