//! Operations on polynomials, each with what it makes and how it passes its limit.

ghost use Rattle.std.specs.Prelude.{◌≡◌, ◌≤◌, ◌≤ℤ◌, pos, unsigned_abs, IfOk};
ghost use Rattle.std.specs.List.{AllByRecursion};
ghost use Rattle.affine_form.specs.Form.{IsSmallForm};
ghost use Rattle.domain_count.specs.Antidifference.{BetweenPasses, IsBetween, IsSubstituted, IsSubtracted, SubstitutionPasses, SubtractionPasses, less_one};
ghost use Rattle.poly_tree.specs.Terms.{AreApart, HasExponents, terms_of};
ghost use Rattle.domain_count.specs.Summing.{AdditionPasses, IsAdded, IsConstant, IsMade, IsMultiplied, MakingPasses, MultiplicationPasses};
ghost use Rattle.iolb_model.specs.declared.limits.TheConstants.{NUMBER_SIZE};

use affine_form::{Form, Memory};
use poly_tree::{Poly, PolyFault};
use std::alloc::Global;

/// The polynomial 0.
pub(crate) fn zero(alloc: Global) -> Result<Poly, Memory>
    ensures { IfOk result (λ poly. IsConstant (pos 0) poly) }
{
    let form = Form::new(Vec::new(alloc), 0);
    let poly = Poly::from_form(alloc, &form)?;
    // Its reader says that the polynomial is canonical and in lowest terms; so below.
    let _den = poly.den();
    Ok(poly)
}

/// The polynomial 1.
pub(crate) fn one(alloc: Global) -> Result<Poly, Memory>
    ensures { IfOk result (λ poly. IsConstant (pos 1) poly) }
{
    let form = Form::new(Vec::new(alloc), 1);
    let poly = Poly::from_form(alloc, &form)?;
    let _den = poly.den();
    Ok(poly)
}

/// A polynomial of terms over a denominator.
pub(crate) fn made(alloc: Global, terms: &[(i128, Vec<u8>)], den: i128) -> Result<Poly, PolyFault>
    requires positive { pos 1 ≤ℤ den }
    requires exponents { AllByRecursion HasExponents (terms_of terms.now) }
    requires apart { AreApart (terms_of terms.now) }
    ensures made { IfOk result (λ poly. IsMade (terms_of terms.now) (unsigned_abs den) poly) }
    ensures wide { result ≡ Err PolyFault.Wide → MakingPasses (terms_of terms.now) (unsigned_abs den) }
{
    let poly = Poly::from_terms(alloc, terms, den)?;
    let _den = poly.den();
    Ok(poly)
}

/// The product of two polynomials.
pub(crate) fn multiplied(alloc: Global, a: &Poly, b: &Poly) -> Result<Poly, PolyFault>
    ensures product { IfOk result (λ product. IsMultiplied a.now b.now product) }
    ensures wide { result ≡ Err PolyFault.Wide → MultiplicationPasses a.now b.now }
{
    let product = a.mul(alloc, b)?;
    let _den = product.den();
    Ok(product)
}

/// The sum of two polynomials.
pub(crate) fn added(alloc: Global, a: &Poly, b: &Poly) -> Result<Poly, PolyFault>
    ensures total { IfOk result (λ total. IsAdded a.now b.now total) }
    ensures wide { result ≡ Err PolyFault.Wide → AdditionPasses a.now b.now }
{
    let total = a.add(alloc, b)?;
    let _den = total.den();
    Ok(total)
}

/// A polynomial with a variable's upper form for it, minus the polynomial with its lower form less 1.
pub(crate) fn between(
    alloc: Global,
    var: u16,
    bounds: &(Form, Form),
    sum: &Poly,
) -> Result<Poly, PolyFault>
    requires { IsSmallForm NUMBER_SIZE bounds.now.0 }
    ensures total { IfOk result (λ total. IsBetween var bounds.now sum.now total) }
    ensures wide { result ≡ Err PolyFault.Wide → BetweenPasses var bounds.now sum.now }
{
    let upper = substituted(alloc, var, &bounds.1, sum)?;
    let before = less_one(alloc, &bounds.0)?;
    let lower = substituted(alloc, var, &before, sum)?;
    subtracted(alloc, &upper, &lower)
}

/// A polynomial minus another.
pub(crate) fn subtracted(alloc: Global, a: &Poly, b: &Poly) -> Result<Poly, PolyFault>
    ensures less { IfOk result (λ less. IsSubtracted a.now b.now less) }
    ensures wide { result ≡ Err PolyFault.Wide → SubtractionPasses a.now b.now }
{
    let less = a.sub(alloc, b)?;
    let _den = less.den();
    Ok(less)
}

/// A polynomial with a form for a variable.
fn substituted(alloc: Global, var: u16, form: &Form, sum: &Poly) -> Result<Poly, PolyFault>
    ensures at_form { IfOk result (λ at_form. IsSubstituted var form.now sum.now at_form) }
    ensures wide { result ≡ Err PolyFault.Wide → SubstitutionPasses var form.now sum.now }
{
    let at_form = sum.substitute(alloc, var, form)?;
    let _den = at_form.den();
    Ok(at_form)
}

/// A form less 1.
fn less_one(alloc: Global, form: &Form) -> Result<Form, Memory>
    requires { IsSmallForm NUMBER_SIZE form.now }
    ensures { IfOk result (λ less. less ≡ less_one form.now) }
{
    let coef = Vec::from_slice(alloc, form.coef())?;
    Ok(Form::new(coef, form.constant() - 1))
}
