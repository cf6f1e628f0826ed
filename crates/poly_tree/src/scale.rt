//! Multiples of trees.

ghost use Rattle.std.specs.Prelude.{◌≡◌, ◌*◌, ◌<◌, ◌^◌, unsigned_abs, IfOk};
ghost use Rattle.poly_tree.specs.Expansion.{scaled, weight};
ghost use Rattle.poly_tree.specs.Tree.{expansion};

use crate::top::{Top, look};
use crate::tree::Tree;
use affine_form::Memory;
use std::alloc::Global;

/// A tree times a number.
pub(crate) fn scale(alloc: Global, tree: &Tree, factor: i128) -> Result<Tree, Memory>
    requires { unsigned_abs factor * weight (expansion tree.now) < 2 ^ 127 }
    ensures { IfOk result (λ multiple. expansion multiple ≡ scaled factor (expansion tree.now)) }
{
    match look(tree) {
        Top::Number(number) => Ok(Tree::Num(factor * number)),
        Top::Over(var, parts) => {
            let mut multiples = Vec::new(alloc);
            for part in parts {
                multiples.push(scale(alloc, part, factor)?)?;
            }
            Ok(Tree::Over {
                var,
                parts: multiples,
            })
        }
    }
}
