//! Polynomials by their terms.

ghost use Rattle.std.specs.Prelude.{◌≡◌, ◌-◌, ◌++◌, ◌≤◌, length, map, replicate, IfOk};
ghost use Rattle.std.specs.List.{AllByRecursion};
ghost use Rattle.iolb_model.specs.Polynomial.{Term as SomeTerm};
ghost use Rattle.poly_tree.specs.Printed.{AreWritten, polynomial_of, width as width_of_terms, widened as with_zeros, widened_term, written_terms};
ghost use Rattle.poly_tree.specs.Terms.{terms_of};
ghost use Rattle.iolb_model.specs.declared.limits.TheConstants.{EXPONENT};

use crate::flatten::terms_of_tree;
use crate::poly::Poly;
use crate::print_order::in_print_order;
use crate::term::Term;
use affine_form::Memory;
use std::alloc::Global;

impl Poly {
    /// The terms in the order in which they are printed: a coefficient that isn't 0, and an exponent for each variable
    /// up to the greatest that the polynomial uses.
    pub fn terms(&self, alloc: Global) -> Result<Vec<(i128, Vec<u8>)>, Memory>
        ensures terms { IfOk result (λ terms. terms_of terms.items ≡ written_terms self.now) }
        ensures written { AreWritten self.now }
    {
        let tree = self.tree();
        let terms = in_print_order(alloc, terms_of_tree(alloc, tree)?)?;
        widened_terms(alloc, terms.as_slice(), width(terms.as_slice()))
    }
}

/// The length of the longest exponent list.
fn width(terms: &[Term]) -> usize
    ensures { result ≡ width_of_terms terms.now }
{
    let mut width = 0;
    for term in terms {
        width = width.max(term.exponents.len());
    }
    width
}

/// Terms with exponents for so many variables.
fn widened_terms(
    alloc: Global,
    terms: &[Term],
    width: usize,
) -> Result<Vec<(i128, Vec<u8>)>, Memory>
    requires { AllByRecursion (λ (term : SomeTerm). AllByRecursion (λ e. e ≤ EXPONENT) term.exponents) terms.now }
    ensures { IfOk result (λ all. terms_of all.items ≡ map (widened_term width) terms.now) }
{
    let mut all = Vec::new(alloc);
    for term in terms {
        let exponents = widened(alloc, term.exponents.as_slice(), width)?;
        all.push((term.coefficient, exponents))?;
    }
    Ok(all)
}

/// Exponents for so many variables, which are 0 past the end.
fn widened(alloc: Global, exponents: &[usize], width: usize) -> Result<Vec<u8>, Memory>
    requires { AllByRecursion (λ e. e ≤ EXPONENT) exponents.now }
    ensures { IfOk result (λ all. all.items ≡ with_zeros width exponents.now) }
{
    let mut all = narrowed(alloc, exponents)?;
    for _ in exponents.len()..width {
        all.push(0)?;
    }
    Ok(all)
}

/// Exponents as bytes.
fn narrowed(alloc: Global, exponents: &[usize]) -> Result<Vec<u8>, Memory>
    requires { AllByRecursion (λ e. e ≤ EXPONENT) exponents.now }
    ensures { IfOk result (λ all. all.items ≡ exponents.now) }
{
    let mut all = Vec::new(alloc);
    for exponent in exponents {
        all.push(*exponent as u8)?;
    }
    Ok(all)
}
