//! Polynomials made of terms.

ghost use Rattle.std.specs.Prelude.{◌≡◌, ◌*◌, ◌<◌, ◌≤◌, ◌+◌, [], ◌∷◌, ◌++◌, length, min, pos, ◌≤ℤ◌, replicate, unsigned_abs, IfOk, IsOk};
ghost use Rattle.std.specs.List.{AllByRecursion};
ghost use Rattle.poly_tree.specs.Expansion.{IsJoined, IsMonomial, parts_from, zero_expansion};
ghost use Rattle.poly_tree.specs.Poly.{IsLegal};
ghost use Rattle.poly_tree.specs.Terms.{AreApart, HasExponents, IsNoGreater, IsTermsOver, IsTermsSum, terms_of, terms_size, terms_weight};
ghost use Rattle.poly_tree.specs.Tree.{expansion, expansions};
ghost use Rattle.iolb_model.specs.declared.limits.TheConstants.{MEASURE, EXPONENT, VARIABLES};

use crate::fault::PolyFault;
use crate::join::join;
use crate::poly::{Poly, reduced};
use crate::size::capped_product;
use crate::sum::sum;
use crate::tree::Tree;
use affine_form::Memory;
use iolb_model::limits;
use std::alloc::Global;

impl Poly {
    /// The sum of terms over a denominator: each term is a coefficient and the variables' exponents, each at most 8; the
    /// exponent lists are of one length, at most 24, and no two are equal.
    ///
    /// # Errors
    ///
    /// `Wide` exactly where the greater of 1 and the sum of the coefficients' sizes, times the denominator, reaches
    /// 2^126; `Memory` where there is none.
    pub fn from_terms(
        alloc: Global,
        terms: &[(i128, Vec<u8>)],
        den: i128,
    ) -> Result<Poly, PolyFault>
        requires positive { pos 1 ≤ℤ den }
        requires exponents { AllByRecursion HasExponents (terms_of terms.now) }
        requires apart { AreApart (terms_of terms.now) }
        ensures value { IfOk result (λ r. IsTermsOver (terms_of terms.now) (unsigned_abs den) r) }
        ensures legal { IfOk result (λ r. IsLegal r) }
        ensures within { IfOk result (λ r. IsNoGreater (terms_of terms.now) (unsigned_abs den) r) }
        ensures narrow { IsOk result → terms_size (terms_of terms.now) (unsigned_abs den) < MEASURE }
        ensures wide { result ≡ Err PolyFault.Wide → MEASURE ≤ terms_size (terms_of terms.now) (unsigned_abs den) }
    {
        let size = capped_product(weight_of_terms(terms).max(1), den.unsigned_abs());
        if size >= limits::MEASURE {
            return Err(PolyFault::Wide);
        }
        let tree = sum_of_terms(alloc, terms)?;
        Ok(reduced(alloc, &tree, den)?)
    }
}

/// The sum of the sizes of the coefficients, or 2^126 if that is less.
fn weight_of_terms(terms: &[(i128, Vec<u8>)]) -> u128
    ensures { result ≡ min (terms_weight (terms_of terms.now)) MEASURE }
{
    let mut sum = 0;
    for (coefficient, _) in terms {
        sum = (sum + coefficient.unsigned_abs().min(limits::MEASURE)).min(limits::MEASURE);
    }
    sum
}

/// The tree that terms add up to: the sum of what the halves add up to, so that no tree is copied once for each term.
fn sum_of_terms(alloc: Global, terms: &[(i128, Vec<u8>)]) -> Result<Tree, Memory>
    requires light { terms_weight (terms_of terms.now) < MEASURE }
    requires exponents { AllByRecursion HasExponents (terms_of terms.now) }
    ensures { IfOk result (λ t. IsTermsSum (terms_of terms.now) 24 (expansion t)) }
{
    let Some((coefficient, exponents)) = terms.first() else {
        return Ok(Tree::Num(0));
    };
    if terms.len() == 1 {
        return monomial(alloc, *coefficient, exponents.as_slice());
    }
    let (front, back) = terms.split_at(terms.len() / 2);
    let first = sum_of_terms(alloc, front)?;
    let second = sum_of_terms(alloc, back)?;
    sum(alloc, &first, &second)
}

/// A coefficient times powers of the variables, as a tree.
fn monomial(alloc: Global, coefficient: i128, exponents: &[u8]) -> Result<Tree, Memory>
    requires few { length exponents.now ≤ VARIABLES }
    requires low { AllByRecursion (λ e. e ≤ EXPONENT) exponents.now }
    ensures { IfOk result (λ t. IsMonomial coefficient exponents.now (expansion t)) }
{
    let mut tree = Tree::Num(coefficient);
    for (var, exponent) in exponents.iter().enumerate() {
        tree = times_power(alloc, tree, var as u16, *exponent)?;
    }
    Ok(tree)
}

/// A tree times a power of a higher variable.
fn times_power(alloc: Global, tree: Tree, var: u16, exponent: u8) -> Result<Tree, Memory>
    ensures { IfOk result (λ t. IsJoined var (parts_from (replicate exponent zero_expansion ++ expansion tree ∷ [])) (expansion t)) }
{
    let mut parts = zeros(alloc, exponent)?;
    parts.push(tree)?;
    Ok(join(var, parts))
}

/// So many zeros.
fn zeros(alloc: Global, count: u8) -> Result<Vec<Tree>, Memory>
    ensures { IfOk result (λ zeros. expansions zeros.items ≡ replicate count zero_expansion) }
{
    let mut zeros = Vec::new(alloc);
    for _ in 0..count {
        zeros.push(Tree::Num(0))?;
    }
    Ok(zeros)
}
