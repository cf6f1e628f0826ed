//! Forms as trees.

ghost use Rattle.std.specs.Prelude.{IfOk};
ghost use Rattle.affine_form.specs.Form.{IsLegalForm};
ghost use Rattle.poly_tree.specs.Expansion.{IsAffine, IsExtended};
ghost use Rattle.poly_tree.specs.Tree.{expansion};

use crate::tree::Tree;
use affine_form::{Form, Memory};
use std::alloc::Global;

/// A form as a tree.
pub(crate) fn form_tree(alloc: Global, form: &Form) -> Result<Tree, Memory>
    ensures legal { IsLegalForm form.now }
    ensures affine { IfOk result (λ t. IsAffine form.now.coefficients form.now.constant (expansion t)) }
{
    let mut tree = Tree::Num(form.constant());
    for (var, coefficient) in form.coef().iter().enumerate() {
        tree = with_variable(alloc, tree, var as u16, *coefficient)?;
    }
    Ok(tree)
}

/// A tree and a multiple of a higher variable.
pub(crate) fn with_variable(
    alloc: Global,
    tree: Tree,
    var: u16,
    coefficient: i128,
) -> Result<Tree, Memory>
    ensures { IfOk result (λ t. IsExtended var coefficient (expansion tree) (expansion t)) }
{
    if coefficient == 0 {
        return Ok(tree);
    }
    let mut parts = Vec::new(alloc);
    parts.push(tree)?;
    parts.push(Tree::Num(coefficient))?;
    Ok(Tree::Over { var, parts })
}
