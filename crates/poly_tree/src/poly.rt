//! Polynomials over a denominator.

ghost use Rattle.std.specs.Prelude.{◌≡◌, ◌*◌, ◌<◌, ◌≤◌, ◌^◌, ◌⊎◌, min, max, pos, ◌≤ℤ◌, unsigned_abs, ◌↔◌, IfOk, IsErr, IsOk, IsTrue, length};
ghost use Rattle.poly_tree.specs.Expansion.{IsCanonical, DegreesAtMost, at, size_at, value, weight};
ghost use Rattle.poly_tree.specs.Tree.{expansion};
ghost use Rattle.poly_tree.specs.Poly.{IsDifferenceOf, IsForm, IsLegal, IsProductOf, IsPutIn, IsReduced, IsShiftOf, IsSubstitutionOf, IsSumOf, IsCombinationOf, ProductPassesDegree, PutPassesDegree, SameValues, ShiftPassesDegree, SubstitutionPassesDegree, form_size, numerator_at, put_size, size};
ghost use Rattle.iolb_model.specs.declared.limits.TheConstants.{MEASURE, SUM_MEASURE};

use crate::affine::{form_tree, with_variable};
use crate::common_factor::{common_factor, divided, quotient};
use crate::copy::copied;
use crate::degrees::{degree_in, degrees_fit};
use crate::equal::equal;
use crate::evaluate::{size_at, value_at};
use crate::fault::PolyFault;
use crate::linear::linear;
use crate::mul::mul;
use crate::put::put;
use crate::size::{capped_power, capped_product};
use crate::top::{Top, look};
use crate::tree::Tree;
use crate::weight::weight_of;
use crate::wide::Wide;
use affine_form::{Form, Memory};
use iolb_model::limits;
use std::alloc::Global;
use std::marker::Model;

/// A polynomial over a denominator: a canonical tree, of degree at most 8 in each variable, and a denominator of at
/// least 1 that has no factor in common with all of its numbers. So equal functions have equal trees.
#[derive(Debug, Drop)]
pub struct Poly {
    tree: Tree,
    den: i128,
}

impl Model for Poly {
    ghost use Rattle.std.specs.Prelude.{pos, ◌≤ℤ◌, unsigned_abs};
    ghost use Rattle.poly_tree.specs.Poly.{IsLegal, Quotient};
    ghost use Rattle.poly_tree.specs.Stored.{quotient_code};
    ghost use Rattle.poly_tree.specs.Tree.{expansion};

    ghost Value = { Quotient };

    ghost coded = { quotient_code };

    ghost view = { λ poly. record { tree = expansion poly.tree; denominator = unsigned_abs poly.den } };

    ghost invariant = { λ poly. IsLegal (record { tree = expansion poly.tree; denominator = unsigned_abs poly.den })
        × (pos 1 ≤ℤ poly.den) };
}

impl Poly {
    /// The polynomial that a form is.
    pub fn from_form(alloc: Global, form: &Form) -> Result<Poly, Memory>
        ensures { IfOk result (λ poly. IsForm form.now poly) }
    {
        let tree = form_tree(alloc, form)?;
        Ok(Poly { tree, den: 1 })
    }

    /// A copy of the polynomial.
    pub fn try_clone(&self, alloc: Global) -> Result<Poly, Memory>
        ensures { IfOk result (λ poly. poly ≡ self.now) }
    {
        let tree = copied(alloc, self.tree())?;
        Ok(Poly {
            tree,
            den: self.den(),
        })
    }

    /// The tree.
    pub fn tree(&self) -> &Tree
        ensures tree { expansion result.now ≡ self.now.tree }
        ensures legal { IsLegal self.now }
    {
        &self.tree
    }

    /// The denominator, at least 1.
    pub fn den(&self) -> i128
        ensures denominator { result ≡ pos self.now.denominator }
        ensures legal { IsLegal self.now }
    {
        self.den
    }

    /// Whether the polynomial uses only variables below a number.
    pub fn uses_below(&self, variables: usize) -> bool
        ensures { IsTrue result ↔ IsCanonical variables self.now.tree }
    {
        match look(self.tree()) {
            Top::Number(_) => true,
            Top::Over(v, _) => usize::from(v) < variables,
        }
    }

    /// The denominator times the value at a point. The polynomial uses only variables that the point has.
    ///
    /// # Errors
    ///
    /// `Wide` exactly where the sum over the terms of the coefficient's size times the powers of the sizes of the
    /// variables' values, each at least 1, reaches 2^126.
    pub fn numer(&self, point: &[i128]) -> Result<i128, Wide>
        requires { IsCanonical (length point.now) self.now.tree }
        ensures value { IfOk result (λ n. n ≡ numerator_at self.now point.now) }
        ensures exact { IsErr result ↔ (MEASURE ≤ size_at self.now.tree (at point.now)) }
    {
        if size_at(self.tree(), point) >= limits::MEASURE {
            return Err(Wide);
        }
        Ok(value_at(self.tree(), point))
    }

    /// The sum of two polynomials.
    ///
    /// # Errors
    ///
    /// `Wide` exactly where the product of the sizes reaches 2^125; `Memory` where there is none.
    pub fn add(&self, alloc: Global, other: &Poly) -> Result<Poly, PolyFault>
        ensures value { IfOk result (λ r. IsSumOf self.now other.now r) }
        ensures narrow { IsOk result → size self.now * size other.now < SUM_MEASURE }
        ensures wide { result ≡ Err PolyFault.Wide → SUM_MEASURE ≤ size self.now * size other.now }
    {
        combined(alloc, self, other, self.den())
    }

    /// A polynomial minus another.
    ///
    /// # Errors
    ///
    /// `Wide` exactly where the product of the sizes reaches 2^125; `Memory` where there is none.
    pub fn sub(&self, alloc: Global, other: &Poly) -> Result<Poly, PolyFault>
        ensures value { IfOk result (λ r. IsDifferenceOf self.now other.now r) }
        ensures narrow { IsOk result → size self.now * size other.now < SUM_MEASURE }
        ensures wide { result ≡ Err PolyFault.Wide → SUM_MEASURE ≤ size self.now * size other.now }
    {
        combined(alloc, self, other, -self.den())
    }

    /// The polynomial with a form put in for a variable.
    ///
    /// # Errors
    ///
    /// With e the degree in the variable and f the greater of 1 and the sum of the sizes of the form's numbers, `Wide`
    /// exactly where the size times f^e reaches 2^126, or the answer has a degree above 8; `Memory` where there is none.
    pub fn substitute(&self, alloc: Global, var: u16, form: &Form) -> Result<Poly, PolyFault>
        ensures value { IfOk result (λ r. IsSubstitutionOf self.now var form.now r) }
        ensures narrow { IsOk result → put_size self.now var (form_size form.now) < MEASURE }
        ensures wide { result ≡ Err PolyFault.Wide
            → (MEASURE ≤ put_size self.now var (form_size form.now)) ⊎ SubstitutionPassesDegree self.now var form.now }
    {
        let inner = form_tree(alloc, form)?;
        put_in(alloc, self, var, &inner)
    }

    /// The polynomial with `x - 1` put in for a variable `x`.
    ///
    /// # Errors
    ///
    /// With e the degree in the variable, `Wide` exactly where the size times 2^e reaches 2^126, or the answer has a
    /// degree above 8; `Memory` where there is none.
    pub fn shift(&self, alloc: Global, var: u16) -> Result<Poly, PolyFault>
        ensures value { IfOk result (λ r. IsShiftOf self.now var r) }
        ensures narrow { IsOk result → put_size self.now var 2 < MEASURE }
        ensures wide { result ≡ Err PolyFault.Wide
            → (MEASURE ≤ put_size self.now var 2) ⊎ ShiftPassesDegree self.now var }
    {
        let inner = with_variable(alloc, Tree::Num(-1), var, 1)?;
        put_in(alloc, self, var, &inner)
    }

    /// Whether two polynomials have the same value at every point of whole numbers. Then they are equal.
    pub fn same(&self, other: &Poly) -> bool
        ensures exact { IsTrue result ↔ SameValues self.now other.now }
        ensures equal { IsTrue result → self.now ≡ other.now }
    {
        if self.den() != other.den() {
            return false;
        }
        if !equal(self.tree(), other.tree()) {
            return false;
        }
        true
    }

    /// The product of two polynomials.
    ///
    /// # Errors
    ///
    /// `Wide` exactly where the product of the sizes reaches 2^126, or the product has a degree above 8; `Memory` where
    /// there is none.
    pub fn mul(&self, alloc: Global, other: &Poly) -> Result<Poly, PolyFault>
        ensures value { IfOk result (λ r. IsProductOf self.now other.now r) }
        ensures narrow { IsOk result → size self.now * size other.now < MEASURE }
        ensures wide { result ≡ Err PolyFault.Wide
            → (MEASURE ≤ size self.now * size other.now) ⊎ ProductPassesDegree self.now other.now }
    {
        if size_product(self, other) >= limits::MEASURE {
            return Err(PolyFault::Wide);
        }
        let tree = mul(alloc, self.tree(), other.tree())?;
        if !degrees_fit(&tree) {
            return Err(PolyFault::Wide);
        }
        Ok(reduced(alloc, &tree, common_denominator(self, other))?)
    }
}

/// A polynomial with a canonical tree put in for a variable.
fn put_in(alloc: Global, poly: &Poly, var: u16, inner: &Tree) -> Result<Poly, PolyFault>
    requires canonical { IsCanonical (2 ^ 16) (expansion inner.now) }
    requires light { weight (expansion inner.now) < MEASURE }
    ensures value { IfOk result (λ r. IsPutIn poly.now var (λ point. value (expansion inner.now) (at point)) r) }
    ensures narrow { IsOk result → put_size poly.now var (max 1 (weight (expansion inner.now))) < MEASURE }
    ensures wide { result ≡ Err PolyFault.Wide
        → (MEASURE ≤ put_size poly.now var (max 1 (weight (expansion inner.now)))) ⊎ PutPassesDegree poly.now var (expansion inner.now) }
{
    if put_size_of(poly, var, inner) >= limits::MEASURE {
        return Err(PolyFault::Wide);
    }
    let tree = put(alloc, poly.tree(), var, inner)?;
    if !degrees_fit(&tree) {
        return Err(PolyFault::Wide);
    }
    Ok(reduced(alloc, &tree, poly.den())?)
}

/// The size of a polynomial times the weight of a tree to the power of the degree in a variable, or at least 2^126 if
/// that is.
fn put_size_of(poly: &Poly, var: u16, inner: &Tree) -> u128
    requires { weight (expansion inner.now) < MEASURE }
    ensures { min result MEASURE ≡ min (put_size poly.now var (max 1 (weight (expansion inner.now)))) MEASURE }
{
    capped_power(
        size_of(poly),
        weight_of(inner).max(1),
        degree_in(poly.tree(), var),
    )
}

/// A polynomial plus another one's numerator times a number of the first one's denominator's size, over the product of
/// the denominators.
fn combined(alloc: Global, a: &Poly, b: &Poly, factor: i128) -> Result<Poly, PolyFault>
    requires { unsigned_abs factor ≡ a.now.denominator }
    ensures value { IfOk result (λ r. IsCombinationOf a.now b.now factor r) }
    ensures narrow { IsOk result → size a.now * size b.now < SUM_MEASURE }
    ensures wide { result ≡ Err PolyFault.Wide → SUM_MEASURE ≤ size a.now * size b.now }
{
    if size_product(a, b) >= limits::SUM_MEASURE {
        return Err(PolyFault::Wide);
    }
    let tree = linear(alloc, a.tree(), b.den(), b.tree(), factor)?;
    Ok(reduced(alloc, &tree, common_denominator(a, b))?)
}

/// The product of the denominators of two polynomials.
fn common_denominator(a: &Poly, b: &Poly) -> i128
    requires { a.now.denominator * b.now.denominator < 2 ^ 127 }
    ensures product { result ≡ pos (a.now.denominator * b.now.denominator) }
    ensures positive { pos 1 ≤ℤ result }
{
    a.den() * b.den()
}

/// The product of the sizes of two polynomials, or 2^126 if that is less.
fn size_product(a: &Poly, b: &Poly) -> u128
    ensures { result ≡ min (size a.now * size b.now) MEASURE }
{
    capped_product(size_of(a), size_of(b))
}

/// The size of a polynomial, or 2^126 if that is less.
pub(crate) fn size_of(poly: &Poly) -> u128
    ensures size { result ≡ min (size poly.now) MEASURE }
    ensures legal { IsLegal poly.now }
{
    capped_product(weight_of(&poly.tree).max(1), poly.den.unsigned_abs())
}

/// The polynomial that a canonical tree over a denominator is, without common factors.
pub(crate) fn reduced(alloc: Global, tree: &Tree, den: i128) -> Result<Poly, Memory>
    requires positive { pos 1 ≤ℤ den }
    requires canonical { IsCanonical (2 ^ 16) (expansion tree.now) }
    requires degrees { DegreesAtMost 8 (expansion tree.now) }
    ensures reduced { IfOk result (λ r. IsReduced (expansion tree.now) (unsigned_abs den) r) }
    ensures legal { IfOk result (λ r. IsLegal r) }
{
    let factor = common_factor(tree, den);
    let quotients = divided(alloc, tree, factor)?;
    Ok(Poly {
        tree: quotients,
        den: quotient(den, factor),
    })
}
