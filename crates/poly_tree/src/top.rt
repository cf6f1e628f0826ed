//! The top of a tree.

ghost use Rattle.std.specs.Prelude.{◌≡◌, MatchOption};
ghost use Rattle.poly_tree.specs.Expansion.{IsHighest, IsNumber, IsPartsIn, TopAtMost, number_of, zero_expansion};
ghost use Rattle.poly_tree.specs.Tree.{expansion, expansions, part_at};
ghost use Rattle.poly_tree.specs.Top.{top_expansion};

use crate::tree::Tree;
use std::slice;

/// A number, or a variable with the coefficients of its powers.
#[derive(Drop)]
pub(crate) enum Top<'a> {
    Number(i128),
    Over(u16, &'a [Tree]),
}

/// What stands at the top of a tree.
pub(crate) fn look(tree: &Tree) -> Top<'_>
    ensures { expansion tree.now ≡ top_expansion result }
{
    match tree {
        Tree::Num(number) => Top::Number(*number),
        Tree::Over { var, parts } => Top::Over(*var, parts.as_slice()),
    }
}

/// The number that a tree is, 0 if it has a variable.
pub(crate) fn number(tree: &Tree) -> i128
    ensures { result ≡ number_of (expansion tree.now) }
{
    match look(tree) {
        Top::Number(number) => number,
        Top::Over(..) => 0,
    }
}

/// The highest variable of two trees.
pub(crate) fn highest(a: &Tree, b: &Tree) -> Option<u16>
    ensures { MatchOption result (IsNumber (expansion a.now) × IsNumber (expansion b.now))
        (λ v. IsHighest v (expansion a.now) (expansion b.now)) }
{
    match (look(a), look(b)) {
        (Top::Number(_), Top::Number(_)) => None,
        (Top::Over(v, _), Top::Number(_)) => Some(v),
        (Top::Number(_), Top::Over(w, _)) => Some(w),
        (Top::Over(v, _), Top::Over(w, _)) => Some(v.max(w)),
    }
}

/// The parts of a tree in a variable; of a tree in lower variables alone, itself.
pub(crate) fn parts_in(tree: &Tree, var: u16) -> &[Tree]
    requires { TopAtMost var (expansion tree.now) }
    ensures { IsPartsIn var (expansion tree.now) (expansions result.now) }
{
    match look(tree) {
        Top::Over(v, parts) if v == var => parts,
        _ => slice::from_ref(tree),
    }
}

/// The part at a power, and zero past the last.
pub(crate) fn part_or<'a>(parts: &'a [Tree], power: usize, zero: &'a Tree) -> &'a Tree
    requires { expansion zero.now ≡ zero_expansion }
    ensures { expansion result.now ≡ part_at parts.now power }
{
    parts.get(power).unwrap_or(zero)
}
