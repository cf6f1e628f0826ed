//! The summation of a nest, variable by variable from the last.

ghost use Rattle.std.specs.Prelude.{◌≡◌, ◌+◌, ◌≤◌, ◌≤ℤ◌, ◌<◌, ◌∷◌, ℤ, pos, length, unsigned_abs, IfOk};
ghost use Rattle.std.specs.List.{AllByRecursion};
ghost use Rattle.affine_form.specs.Rows.{BoundsFit};
ghost use Rattle.poly_tree.specs.Terms.{AreApart, HasExponents, terms_of};
ghost use Rattle.power_sums.specs.PowerSum.{IsPowerSum};
ghost use Rattle.domain_count.specs.Coefficients.{coefficient_terms, power_terms};
ghost use Rattle.domain_count.specs.Summing.{AreSummed, IsPart, IsPowerRow, IsPowersSum, PartPasses, PowerRowPasses, PowersSumPasses, SummationPasses};
ghost use Rattle.iolb_model.specs.declared.limits.TheConstants.{VARIABLES};

use crate::coefficients::{coefficient_terms, degree_of, power_terms};
use crate::operations::{added, between, made, multiplied, one, zero};
use affine_form::{Form, Memory};
use poly_tree::{Poly, PolyFault};
use power_sums::power_sum;
use std::alloc::Global;

/// The polynomials of variables, and what these variables count.
#[derive(Drop)]
pub(crate) struct NestSums {
    pub(crate) sums: Vec<Poly>,
    pub(crate) total: Poly,
}

/// The polynomials of the variables from one on, which has this number, and what these variables count.
pub(crate) fn summed(
    alloc: Global,
    var: u16,
    bounds: &[(Form, Form)],
) -> Result<NestSums, PolyFault>
    requires few { var + length bounds.now ≤ VARIABLES }
    requires fit { BoundsFit var bounds.now }
    ensures made { IfOk result (λ summed. AreSummed var bounds.now summed.sums.items summed.total) }
    ensures wide { result ≡ Err PolyFault.Wide → SummationPasses var bounds.now }
{
    let Some((first, others)) = bounds.split_first() else {
        let total = one(alloc)?;
        return Ok(NestSums {
            sums: Vec::new(alloc),
            total,
        });
    };
    let behind = summed(alloc, var + 1, others)?;
    let sum = powers_sum(alloc, var, &behind.total)?;
    let total = between(alloc, var, first, &sum)?;
    let sums = put_first(sum, behind.sums)?;
    Ok(NestSums { sums, total })
}

/// The polynomials with one before them.
fn put_first(first: Poly, others: Vec<Poly>) -> Result<Vec<Poly>, Memory>
    ensures { IfOk result (λ all. all.items ≡ first ∷ others.items) }
{
    let mut all = others;
    all.insert(0, first)?;
    Ok(all)
}

/// The polynomial of a variable, for what the variables behind it count.
fn powers_sum(alloc: Global, var: u16, summand: &Poly) -> Result<Poly, PolyFault>
    requires { var < VARIABLES }
    ensures sum { IfOk result (λ sum. IsPowersSum var summand.now sum) }
    ensures wide { result ≡ Err PolyFault.Wide → PowersSumPasses var summand.now }
{
    if !summand.uses_below(24) {
        return Err(PolyFault::Wide);
    }
    let den = summand.den();
    let terms = summand.terms(alloc)?;
    let degree = degree_of(terms.as_slice(), usize::from(var));
    let mut sum = zero(alloc)?;
    for power in 0..usize::from(degree) + 1 {
        let part = part_of(alloc, var, terms.as_slice(), den, power)?;
        sum = added(alloc, &sum, &part)?;
    }
    Ok(sum)
}

/// The coefficient of a variable's power, times the sum of such powers.
fn part_of(
    alloc: Global,
    var: u16,
    terms: &[(i128, Vec<u8>)],
    den: i128,
    power: usize,
) -> Result<Poly, PolyFault>
    requires var { var < VARIABLES }
    requires positive { pos 1 ≤ℤ den }
    requires exponents { AllByRecursion HasExponents (terms_of terms.now) }
    requires apart { AreApart (terms_of terms.now) }
    requires power { power < 256 }
    ensures part { IfOk result (λ part. IsPart var power (terms_of terms.now) (unsigned_abs den) part) }
    ensures wide { result ≡ Err PolyFault.Wide → PartPasses var power (terms_of terms.now) (unsigned_abs den) }
{
    let found = coefficient_terms(alloc, terms, usize::from(var), power as u8)?;
    let coefficient = made(alloc, found.as_slice(), den)?;
    let row = power_row(alloc, var, power)?;
    multiplied(alloc, &coefficient, &row)
}

/// The sum of such powers up to a variable.
fn power_row(alloc: Global, var: u16, power: usize) -> Result<Poly, PolyFault>
    requires { var < VARIABLES }
    ensures row { IfOk result (λ row. IsPowerRow var power row) }
    ensures wide { result ≡ Err PolyFault.Wide → PowerRowPasses var power }
{
    let Some(row) = power_sum(power) else {
        return Err(PolyFault::Wide);
    };
    let terms = power_terms(alloc, usize::from(var), &row.num)?;
    made(alloc, terms.as_slice(), i128::from(row.den))
}
