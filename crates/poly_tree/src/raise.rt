//! Trees times a variable.

ghost use Rattle.std.specs.Prelude.{◌≡◌, ◌∷◌, IfOk};
ghost use Rattle.poly_tree.specs.Expansion.{IsRaised, TopAtMost, IsPartsIn, zero_expansion};
ghost use Rattle.poly_tree.specs.Tree.{expansion, expansions};

use crate::copy::copied;
use crate::join::join;
use crate::top::{Top, look, parts_in};
use crate::tree::Tree;
use affine_form::Memory;
use std::alloc::Global;

/// A tree times a variable.
pub(crate) fn raise(alloc: Global, tree: &Tree, var: u16) -> Result<Tree, Memory>
    ensures { IfOk result (λ t. IsRaised var (expansion tree.now) (expansion t)) }
{
    match look(tree) {
        Top::Over(v, parts) if v > var => {
            let mut raised = Vec::new(alloc);
            for part in parts {
                raised.push(raise(alloc, part, var)?)?;
            }
            Ok(join(v, raised))
        }
        _ => raise_low(alloc, tree, var),
    }
}

/// A tree in variables of at most this number, times it.
fn raise_low(alloc: Global, tree: &Tree, var: u16) -> Result<Tree, Memory>
    requires { TopAtMost var (expansion tree.now) }
    ensures { IfOk result (λ t. IsRaised var (expansion tree.now) (expansion t)) }
{
    let parts = shifted(alloc, parts_in(tree, var))?;
    Ok(join(var, parts))
}

/// Copies of the parts, after a zero.
fn shifted(alloc: Global, parts: &[Tree]) -> Result<Vec<Tree>, Memory>
    ensures { IfOk result (λ copies. expansions copies.items ≡ zero_expansion ∷ expansions parts.now) }
{
    let mut copies = Vec::new(alloc);
    copies.push(Tree::Num(0))?;
    for part in parts {
        copies.push(copied(alloc, part)?)?;
    }
    Ok(copies)
}
