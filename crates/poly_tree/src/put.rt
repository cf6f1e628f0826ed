//! Trees put in for variables of trees.

ghost use Rattle.std.specs.Prelude.{◌<◌, ◌*◌, ◌^◌, max, IfOk};
ghost use Rattle.poly_tree.specs.Expansion.{IsPut, IsPutPower, growth, put_weight, weight};
ghost use Rattle.poly_tree.specs.Tree.{expansion};

use crate::mul::mul;
use crate::raise::raise;
use crate::sum::sum;
use crate::top::{Top, look};
use crate::tree::Tree;
use affine_form::Memory;
use std::alloc::Global;

/// A tree with another put in for a variable.
pub(crate) fn put(alloc: Global, tree: &Tree, var: u16, inner: &Tree) -> Result<Tree, Memory>
    requires { put_weight var (max 1 (weight (expansion inner.now))) (expansion tree.now) < 2 ^ 127 }
    ensures { IfOk result (λ t. IsPut var (expansion inner.now) (expansion tree.now) (expansion t)) }
{
    match look(tree) {
        Top::Number(number) => Ok(Tree::Num(number)),
        Top::Over(v, parts) => {
            let mut total = Tree::Num(0);
            for done in 0..parts.len() {
                let part = put(alloc, &parts[parts.len() - 1 - done], var, inner)?;
                let raised = raise_put(alloc, &total, v, var, inner)?;
                total = sum(alloc, &part, &raised)?;
            }
            Ok(total)
        }
    }
}

/// A tree times a variable `v`, or times the tree that is put in for `var` where the two are the same.
fn raise_put(alloc: Global, tree: &Tree, v: u16, var: u16, inner: &Tree) -> Result<Tree, Memory>
    requires { growth var (max 1 (weight (expansion inner.now))) v * weight (expansion tree.now) < 2 ^ 127 }
    ensures { IfOk result (λ t. IsPutPower var (expansion inner.now) v (expansion tree.now) (expansion t)) }
{
    if v == var {
        let product = mul(alloc, inner, tree)?;
        return Ok(product);
    }
    let raised = raise(alloc, tree, v)?;
    Ok(raised)
}
