//! Copies of trees.

ghost use Rattle.std.specs.Prelude.{◌≡◌, IfOk};
ghost use Rattle.poly_tree.specs.Tree.{expansion};

use crate::tree::Tree;
use affine_form::Memory;
use std::alloc::Global;

/// A copy of a tree.
pub(crate) fn copied(alloc: Global, tree: &Tree) -> Result<Tree, Memory>
    ensures { IfOk result (λ copy. expansion copy ≡ expansion tree.now) }
{
    match tree {
        Tree::Num(number) => Ok(Tree::Num(*number)),
        Tree::Over { var, parts } => {
            let mut copies = Vec::new(alloc);
            for part in parts {
                copies.push(copied(alloc, part)?)?;
            }
            Ok(Tree::Over {
                var: *var,
                parts: copies,
            })
        }
    }
}
