//! The order in which terms are printed.

ghost use Rattle.std.specs.Prelude.{◌≡◌, ◌∷◌, ◌++◌, ◌≤◌, length, sum, take, drop, OnOk, IfOk};
ghost use Rattle.poly_tree.specs.Printed.{in_print_order as terms_in_order, insert_term, is_greater as is_greater_list, is_printed_before as is_term_printed_before};

use crate::term::Term;
use affine_form::Memory;
use std::alloc::Global;

/// The terms in the order in which they are printed.
pub(crate) fn in_print_order(alloc: Global, terms: Vec<Term>) -> Result<Vec<Term>, Memory>
    ensures { IfOk result (λ ordered. ordered.items ≡ terms_in_order terms.items) }
{
    let mut rest = terms;
    let mut ordered = Vec::new(alloc);
    while let Some(term) = rest.pop() {
        put_in_order(&mut ordered, term)?;
    }
    Ok(ordered)
}

/// A term put before the first that is printed after it.
fn put_in_order(terms: &mut Vec<Term>, term: Term) -> Result<(), Memory>
    ensures { OnOk result (terms.new.items ≡ insert_term term terms.old.items) }
{
    let place = place_in_order(terms.as_slice(), &term);
    terms.insert(place, term)?;
    Ok(())
}

/// The place of the first term that is printed after this one.
fn place_in_order(terms: &[Term], term: &Term) -> usize
    ensures place { insert_term term.now terms.now ≡ take result terms.now ++ term.now ∷ drop result terms.now }
    ensures within { result ≤ length terms.now }
{
    for (place, other) in terms.iter().enumerate() {
        if is_printed_before(term, other) {
            return place;
        }
    }
    terms.len()
}

/// Whether a term is printed before another: by falling total degree, ties by the first exponent that differs.
fn is_printed_before(first: &Term, second: &Term) -> bool
    ensures { result ≡ is_term_printed_before first.now second.now }
{
    let degree = total_degree(first.exponents.as_slice());
    let other = total_degree(second.exponents.as_slice());
    if degree != other {
        return degree > other;
    }
    is_greater(first.exponents.as_slice(), second.exponents.as_slice())
}

/// The sum of exponents.
fn total_degree(exponents: &[usize]) -> u128
    ensures { result ≡ sum exponents.now }
{
    let mut degree = 0;
    for exponent in exponents {
        degree += *exponent as u128;
    }
    degree
}

/// Whether the first exponent that differs is greater; exponents past the end are 0.
fn is_greater(first: &[usize], second: &[usize]) -> bool
    ensures { result ≡ is_greater_list first.now second.now }
{
    for (i, exponent) in first.iter().enumerate() {
        let other = second.get(i).copied().unwrap_or(0);
        if *exponent != other {
            return *exponent > other;
        }
    }
    false
}
