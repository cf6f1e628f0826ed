//! Trees made of their parts.

ghost use Rattle.std.specs.Prelude.{◌↔◌, ◌≡◌, IsTrue, MatchBool};
ghost use Rattle.poly_tree.specs.Expansion.{IsJoined, IsTrimmed, EndsNonzero, EndsInZero, number, zero_expansion};
ghost use Rattle.poly_tree.specs.Tree.{expansion, expansions, parts_of};

use crate::tree::Tree;

/// The polynomial in a variable with these parts, canonical where they are and use lower variables.
pub(crate) fn join(var: u16, mut parts: Vec<Tree>) -> Tree
    ensures { IsJoined var (parts_of parts.items) (expansion result) }
{
    trim(&mut parts);
    if parts.len() >= 2 {
        return Tree::Over { var, parts };
    }
    match parts.pop() {
        Some(only) => only,
        None => Tree::Num(0),
    }
}

/// Takes the zeros off the end.
fn trim(parts: &mut Vec<Tree>)
    ensures trimmed { IsTrimmed (expansions parts.old.items) (expansions parts.new.items) }
    ensures nonzero { EndsNonzero (expansions parts.new.items) }
{
    while ends_in_zero(parts) {
        let _zero = parts.pop();
    }
}

/// Whether there is a last part, and it is zero.
fn ends_in_zero(parts: &[Tree]) -> bool
    ensures { MatchBool result (EndsInZero (expansions parts.now)) (EndsNonzero (expansions parts.now)) }
{
    match parts.last() {
        Some(last) => is_zero(last),
        None => false,
    }
}

/// Whether a tree is zero.
pub(crate) fn is_zero(tree: &Tree) -> bool
    ensures { IsTrue result ↔ (expansion tree.now ≡ zero_expansion) }
{
    matches!(tree, Tree::Num(0))
}
