//! Degrees of trees.

ghost use Rattle.std.specs.Prelude.{◌≡◌, ◌↔◌, IsTrue};
ghost use Rattle.poly_tree.specs.Expansion.{DegreesAtMost, degree_in};
ghost use Rattle.poly_tree.specs.Tree.{expansion};

use crate::top::{Top, look};
use crate::tree::Tree;

/// Whether each variable of a tree has at most degree 8.
pub(crate) fn degrees_fit(tree: &Tree) -> bool
    ensures { IsTrue result ↔ DegreesAtMost 8 (expansion tree.now) }
{
    match look(tree) {
        Top::Number(_) => true,
        Top::Over(_, parts) => {
            if parts.len() > 9 {
                return false;
            }
            for part in parts {
                if !degrees_fit(part) {
                    return false;
                }
            }
            true
        }
    }
}

/// The degree of a canonical tree in a variable.
pub(crate) fn degree_in(tree: &Tree, var: u16) -> usize
    ensures { result ≡ degree_in var (expansion tree.now) }
{
    match look(tree) {
        Top::Number(_) => 0,
        Top::Over(v, parts) => {
            if v == var {
                return parts.len().saturating_sub(1);
            }
            let mut degree = 0;
            for part in parts {
                degree = degree_in(part, var).max(degree);
            }
            degree
        }
    }
}
