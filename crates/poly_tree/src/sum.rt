//! Sums of trees.

ghost use Rattle.std.specs.Prelude.{◌≡◌, ◌+◌, ◌<◌, ◌^◌, IfOk};
ghost use Rattle.poly_tree.specs.Expansion.{IsSum, weight, zero_expansion};
ghost use Rattle.poly_tree.specs.Tree.{expansion};

use crate::join::join;
use crate::top::{highest, number, part_or, parts_in};
use crate::tree::Tree;
use affine_form::Memory;
use std::alloc::Global;

/// The sum of two trees.
pub(crate) fn sum(alloc: Global, a: &Tree, b: &Tree) -> Result<Tree, Memory>
    requires { weight (expansion a.now) + weight (expansion b.now) < 2 ^ 127 }
    ensures { IfOk result (λ t. IsSum (expansion a.now) (expansion b.now) (expansion t)) }
{
    sum_beside(alloc, &Tree::Num(0), a, b)
}

/// The sum of two trees; zero stands for the parts that one of them lacks.
fn sum_beside(alloc: Global, zero: &Tree, a: &Tree, b: &Tree) -> Result<Tree, Memory>
    requires zero { expansion zero.now ≡ zero_expansion }
    requires light { weight (expansion a.now) + weight (expansion b.now) < 2 ^ 127 }
    ensures { IfOk result (λ t. IsSum (expansion a.now) (expansion b.now) (expansion t)) }
{
    let Some(var) = highest(a, b) else {
        return Ok(Tree::Num(number(a) + number(b)));
    };
    let first = parts_in(a, var);
    let second = parts_in(b, var);
    let count = first.len().max(second.len());
    let mut parts = Vec::with_capacity(alloc, count)?;
    for power in 0..count {
        let x = part_or(first, power, zero);
        let y = part_or(second, power, zero);
        parts.push(sum_beside(alloc, zero, x, y)?)?;
    }
    Ok(join(var, parts))
}
