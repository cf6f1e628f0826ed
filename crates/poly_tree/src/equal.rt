//! Equality of trees.

ghost use Rattle.std.specs.Prelude.{◌≡◌, ◌↔◌, IsTrue};
ghost use Rattle.poly_tree.specs.Tree.{expansion};

use crate::top::{Top, look};
use crate::tree::Tree;

/// Whether two trees are equal.
pub(crate) fn equal(a: &Tree, b: &Tree) -> bool
    ensures { IsTrue result ↔ (expansion a.now ≡ expansion b.now) }
{
    match (look(a), look(b)) {
        (Top::Number(m), Top::Number(n)) => m == n,
        (Top::Over(v, first), Top::Over(w, second)) => {
            if v != w {
                return false;
            }
            if first.len() != second.len() {
                return false;
            }
            for (power, x) in first.iter().enumerate() {
                if !equal(x, &second[power]) {
                    return false;
                }
            }
            true
        }
        _ => false,
    }
}
