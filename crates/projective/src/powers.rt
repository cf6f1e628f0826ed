//! Products of variables as polynomials.

ghost use Rattle.std.specs.Prelude.{◌≡◌, ◌≤◌, ◌<◌, ◌+◌, ℕ, ℤ, IfOk, length};
ghost use Rattle.std.specs.List.{AllByRecursion};
ghost use Rattle.poly_tree.specs.Expansion.{powers_from};
ghost use Rattle.projective.specs.Products.{AreRepeated, IsRepeated, product_of};
ghost use Rattle.iolb_model.specs.declared.limits.TheConstants.{NEST_VARIABLES, VARIABLES};

use affine_form::Memory;
use poly_tree::{Poly, PolyFault};
use std::alloc::Global;

/// How often each of so many variables stands among some.
fn exponents(alloc: Global, count: usize, variables: &[usize]) -> Result<Vec<u8>, Memory>
    requires few { length variables.now ≤ NEST_VARIABLES }
    requires below { AllByRecursion (λ variable. variable < count) variables.now }
    ensures each { IfOk result (λ exponents. length exponents.items ≡ count) }
    ensures small { IfOk result (λ exponents. AllByRecursion (λ exponent. exponent ≤ NEST_VARIABLES) exponents.items) }
    ensures product { IfOk result (λ exponents. (values : ℕ → ℤ) → powers_from exponents.items 0 values ≡ product_of variables.now values) }
{
    let mut exponents = vec![in alloc; 0; count]?;
    for variable in variables {
        exponents[*variable] += 1;
    }
    Ok(exponents)
}

/// The sum of a product of variables over the values of another one, from 0 to itself: the product times the variable, and
/// once more.
fn repeated(alloc: Global, variable: usize, factors: &[usize]) -> Result<Poly, Memory>
    requires few { length factors.now ≤ NEST_VARIABLES }
    requires below { AllByRecursion (λ factor. factor < variable) factors.now }
    requires room { variable < VARIABLES }
    ensures { IfOk result (λ poly. IsRepeated variable factors.now poly) }
{
    let mut times = exponents(alloc, variable, factors)?;
    let mut once = exponents(alloc, variable, factors)?;
    times.push(1)?;
    once.push(0)?;
    let terms = vec![in alloc; (1, times), (1, once)]?;
    match Poly::from_terms(alloc, terms.as_slice(), 1) {
        Ok(poly) => Ok(poly),
        Err(PolyFault::Wide) => unreachable!(),
        Err(PolyFault::Memory) => Err(Memory),
    }
}

/// The polynomials of a nest's variables, from one on: each adds up the product of the parameters behind it.
pub(crate) fn all_repeated(
    alloc: Global,
    variable: usize,
    parameters: &[usize],
) -> Result<Vec<Poly>, Memory>
    requires few { length parameters.now ≤ NEST_VARIABLES }
    requires below { AllByRecursion (λ parameter. parameter < variable) parameters.now }
    requires room { variable + length parameters.now ≤ VARIABLES }
    ensures { IfOk result (λ polys. AreRepeated variable parameters.now polys.items) }
{
    let Some((_, others)) = parameters.split_first() else {
        return Ok(Vec::new(alloc));
    };
    let mut all = all_repeated(alloc, variable + 1, others)?;
    all.insert(0, repeated(alloc, variable, others)?)?;
    Ok(all)
}
