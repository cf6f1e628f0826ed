//! Products of trees.

ghost use Rattle.std.specs.Prelude.{◌≡◌, ◌*◌, ◌<◌, ◌^◌, unsigned_abs, IfOk};
ghost use Rattle.poly_tree.specs.Expansion.{IsProduct, number, weight};
ghost use Rattle.poly_tree.specs.Tree.{expansion};

use crate::raise::raise;
use crate::scale::scale;
use crate::sum::sum;
use crate::top::{Top, look};
use crate::tree::Tree;
use affine_form::Memory;
use std::alloc::Global;

/// The product of two trees.
pub(crate) fn mul(alloc: Global, a: &Tree, b: &Tree) -> Result<Tree, Memory>
    requires { weight (expansion a.now) * weight (expansion b.now) < 2 ^ 127 }
    ensures { IfOk result (λ t. IsProduct (expansion a.now) (expansion b.now) (expansion t)) }
{
    match look(a) {
        Top::Number(number) => mul_number(alloc, number, b),
        Top::Over(var, parts) => {
            let mut total = Tree::Num(0);
            for done in 0..parts.len() {
                let product = mul(alloc, &parts[parts.len() - 1 - done], b)?;
                let raised = raise(alloc, &total, var)?;
                total = sum(alloc, &product, &raised)?;
            }
            Ok(total)
        }
    }
}

/// A number times a tree.
fn mul_number(alloc: Global, a: i128, b: &Tree) -> Result<Tree, Memory>
    requires { unsigned_abs a * weight (expansion b.now) < 2 ^ 127 }
    ensures { IfOk result (λ t. IsProduct (number a) (expansion b.now) (expansion t)) }
{
    if a == 0 {
        return Ok(Tree::Num(0));
    }
    scale(alloc, b, a)
}
