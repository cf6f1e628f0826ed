//! The terms of trees.

ghost use Rattle.std.specs.Prelude.{◌≡◌, ◌++◌, map, OnOk, IfOk};
ghost use Rattle.poly_tree.specs.Printed.{expansion_terms, number_terms, with_exponent, with_power};
ghost use Rattle.poly_tree.specs.Tree.{expansion};

use crate::term::Term;
use crate::tree::Tree;
use affine_form::Memory;
use std::alloc::Global;

/// The terms of a tree whose coefficients aren't 0, the powers of the highest variable rising.
pub(crate) fn terms_of_tree(alloc: Global, tree: &Tree) -> Result<Vec<Term>, Memory>
    ensures { IfOk result (λ terms. terms.items ≡ expansion_terms (expansion tree.now)) }
{
    match tree {
        Tree::Num(number) => terms_of_number(alloc, *number),
        Tree::Over { var, parts } => {
            let mut terms = Vec::new(alloc);
            for (power, part) in parts.iter().enumerate() {
                let inner = terms_of_tree(alloc, part)?;
                append_with_power(&mut terms, inner, usize::from(*var), power)?;
            }
            Ok(terms)
        }
    }
}

/// The term that a number is; 0 is none.
fn terms_of_number(alloc: Global, number: i128) -> Result<Vec<Term>, Memory>
    ensures { IfOk result (λ terms. terms.items ≡ number_terms number) }
{
    let mut terms = Vec::new(alloc);
    if number != 0 {
        terms.push(Term {
            coefficient: number,
            exponents: Vec::new(alloc),
        })?;
    }
    Ok(terms)
}

/// Terms in variables below one, times a power of it, appended.
fn append_with_power(
    terms: &mut Vec<Term>,
    inner: Vec<Term>,
    var: usize,
    power: usize,
) -> Result<(), Memory>
    ensures { OnOk result (terms.new.items ≡ terms.old.items ++ map (with_power var power) inner.items) }
{
    for term in inner {
        terms.push(Term {
            coefficient: term.coefficient,
            exponents: exponents_with(term.exponents, var, power)?,
        })?;
    }
    Ok(())
}

/// Exponents of variables below one, and then its own.
fn exponents_with(exponents: Vec<usize>, var: usize, power: usize) -> Result<Vec<usize>, Memory>
    ensures { IfOk result (λ all. all.items ≡ with_exponent var power exponents.items) }
{
    let mut all = exponents;
    if power == 0 {
        return Ok(all);
    }
    for _ in all.len()..var {
        all.push(0)?;
    }
    all.push(power)?;
    Ok(all)
}
