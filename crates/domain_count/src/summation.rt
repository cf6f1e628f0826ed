//! Summation over one variable.

ghost use Rattle.std.specs.Prelude.{◌≡◌, ◌<◌, IfOk, IfErr};
ghost use Rattle.affine_form.specs.Form.{IsSmallForm};
ghost use Rattle.domain_count.specs.Antidifference.{DifferencePasses, FailsAs, IsBackwardDifference, IsShifted, IsSummed, ShiftPasses};
ghost use Rattle.poly_tree.specs.Poly.{IsLegal};
ghost use Rattle.iolb_model.specs.declared.limits.TheConstants.{NUMBER_SIZE};

use crate::operations::{between, subtracted};
use affine_form::Form;
use poly_tree::{Poly, PolyFault};
use std::alloc::Global;

/// Why a polynomial doesn't sum another over a variable.
#[derive(Clone, Copy, Debug, PartialEq, Eq)]
pub(crate) enum SumFault {
    /// An operation on polynomials passes its limit.
    Wide,
    /// The difference from the polynomial's shift is another polynomial.
    Differs,
    /// There was no memory.
    Memory,
}

impl From<PolyFault> for SumFault {
    ghost use Rattle.std.specs.Prelude.{◌≡◌};
    ghost use Rattle.domain_count.specs.Faults.{fault_of};

    ghost from_gives = { λ fault e. e ≡ fault_of fault };

    fn from(fault: PolyFault) -> SumFault {
        match fault {
            PolyFault::Wide => SumFault::Wide,
            PolyFault::Memory => SumFault::Memory,
        }
    }
}

/// The sum of a summand over a variable between bounds, where the polynomial is an antidifference of the summand.
pub(crate) fn summed(
    alloc: Global,
    var: u16,
    bounds: &(Form, Form),
    summand: &Poly,
    sum: &Poly,
) -> Result<Poly, SumFault>
    requires { IsSmallForm NUMBER_SIZE bounds.now.0 }
    ensures legal { IsLegal sum.now }
    ensures total { IfOk result (λ total. IsSummed var bounds.now summand.now sum.now total) }
    ensures fails { IfErr result (λ fault. FailsAs var bounds.now summand.now sum.now fault) }
{
    // Its reader says that the polynomial is canonical and in lowest terms; so below.
    let _den = sum.den();
    let difference = backward_difference(alloc, var, sum)?;
    if !difference.same(summand) {
        return Err(SumFault::Differs);
    }
    Ok(between(alloc, var, bounds, sum)?)
}

/// A polynomial minus its shift by a variable.
fn backward_difference(alloc: Global, var: u16, sum: &Poly) -> Result<Poly, PolyFault>
    ensures difference { IfOk result (λ difference. IsBackwardDifference var sum.now difference) }
    ensures wide { result ≡ Err PolyFault.Wide → DifferencePasses var sum.now }
{
    let shifted = shift(alloc, var, sum)?;
    subtracted(alloc, sum, &shifted)
}

/// A polynomial with `x - 1` for a variable `x`.
fn shift(alloc: Global, var: u16, sum: &Poly) -> Result<Poly, PolyFault>
    ensures shifted { IfOk result (λ shifted. IsShifted var sum.now shifted) }
    ensures wide { result ≡ Err PolyFault.Wide → ShiftPasses var sum.now }
{
    let shifted = sum.shift(alloc, var)?;
    let _den = shifted.den();
    Ok(shifted)
}
