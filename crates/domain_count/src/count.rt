//! Counts by summation.

ghost use Rattle.std.specs.Prelude.{◌≡◌, ◌+◌, ◌≤◌, length, IfOk, IfErr, OnOk};
ghost use Rattle.affine_form.specs.Rows.{BoundsFit};
ghost use Rattle.affine_program.specs.Parts.{meaning};
ghost use Rattle.claims.specs.Claims.{AllHold, IsRefusal};
ghost use Rattle.poly_tree.specs.Expansion.{IsCanonical};
ghost use Rattle.domain_count.specs.Claims.{FitsCount};
ghost use Rattle.domain_count.specs.Count.{CountsPoints, IsCount, IsSumFrom, one};
ghost use Rattle.domain_count.specs.CountClaims.{count_claims, member_place, sums_claims, sums_down};
ghost use Rattle.domain_count.specs.Faults.{IsFaultRefusal};
ghost use Rattle.iolb_model.specs.declared.limits.TheConstants.{NEST_VARIABLES, VARIABLES};

use crate::nest::Nest;
use crate::ranges::{member_place, ranges_shown};
use crate::summation::{SumFault, summed};
use crate::sums::Sums;
use affine_form::{Form, Memory};
use affine_program::Program;
use claims::{FailedCondition, ObjectKey, Place, Refused};
use poly_tree::Poly;
use std::alloc::Global;

/// The polynomial that the claims give, where they are right: its value at all parameter values that meet the program's
/// assumptions, of any size, is the number of the nest's points.
///
/// # Errors
///
/// The place is the one handed in with a step and a variable's number after it.
///
/// - Condition 8 at `shown/k`, for the first variable whose multipliers don't show `upper - lower + 1 >= 0` from the
///   assumptions and the rows of the variables before it.
/// - Condition 9 at `sums/k`, from the last variable on, for the first polynomial whose difference from its shift isn't
///   what the variables behind it count.
/// - Condition 2 at `sums/k` where one of these operations passes its limit before that: the shift, the difference, and
///   after the comparison the upper form put in, the lower form less 1 put in, and their difference.
pub fn check_count(
    alloc: Global,
    program: &Program,
    nest: &Nest,
    sums: &Sums,
    place: &Place,
) -> Result<Poly, Refused>
    requires { FitsCount program.now nest.now sums.now }
    ensures right { IfOk result (λ poly. IsCount (meaning program.now) nest.now sums.now poly) }
    ensures counts { IfOk result (λ poly. CountsPoints (meaning program.now) nest.now poly) }
    ensures parameters { IfOk result (λ poly. IsCanonical (length program.now.params) poly.tree) }
    ensures holds { OnOk result (AllHold (count_claims (meaning program.now) nest.now sums.now place.now)) }
    ensures refused { IfErr result (λ refused. IsRefusal (count_claims (meaning program.now) nest.now sums.now place.now) refused) }
{
    ranges_shown(alloc, program, nest.bounds(), sums.shown(), place)?;
    let params = program.params().len();
    sum_up(
        alloc,
        params,
        nest.bounds(),
        sums.sums(),
        place,
        ObjectKey("sums"),
    )
}

/// The polynomial that a list of polynomials gives for variables, where each sums what the variables behind it count. It
/// counts their points where their ranges are whole, which isn't asked here.
///
/// # Errors
///
/// As `check_count` at `sums/k`: condition 9, and 2 where an operation passes its limit, with the place handed in, the key
/// and the variable's number.
pub fn check_sums(
    alloc: Global,
    program: &Program,
    bounds: &[(Form, Form)],
    sums: &[Poly],
    place: &Place,
    key: ObjectKey,
) -> Result<Poly, Refused>
    requires few { length bounds.now ≤ NEST_VARIABLES }
    requires fit { BoundsFit (length program.now.params) bounds.now }
    requires one_each { length sums.now ≡ length bounds.now }
    ensures total { IfOk result (λ total. IsSumFrom (length program.now.params) bounds.now sums.now total) }
    ensures parameters { IfOk result (λ total. IsCanonical (length program.now.params) total.tree) }
    ensures holds { OnOk result (AllHold (sums_claims (meaning program.now) bounds.now sums.now place.now key)) }
    ensures refused { IfErr result (λ refused. IsRefusal (sums_claims (meaning program.now) bounds.now sums.now place.now key) refused) }
{
    let params = program.params().len();
    sum_up(alloc, params, bounds, sums, place, key)
}

/// The sum over all variables, from the last on, of the polynomial 1.
fn sum_up(
    alloc: Global,
    params: usize,
    bounds: &[(Form, Form)],
    sums: &[Poly],
    place: &Place,
    key: ObjectKey,
) -> Result<Poly, Refused>
    requires few { params + length bounds.now ≤ VARIABLES }
    requires fit { BoundsFit params bounds.now }
    requires one_each { length sums.now ≡ length bounds.now }
    ensures total { IfOk result (λ total. IsSumFrom params bounds.now sums.now total) }
    ensures parameters { IfOk result (λ total. IsCanonical params total.tree) }
    ensures holds { OnOk result (AllHold (sums_down params bounds.now sums.now place.now key (length bounds.now))) }
    ensures refused { IfErr result (λ refused. IsRefusal (sums_down params bounds.now sums.now place.now key (length bounds.now)) refused) }
{
    let mut total = one(alloc)?;
    let mut k = bounds.len();
    while k > 0 {
        k -= 1;
        let var = (params + k) as u16;
        match summed(alloc, var, &bounds[k], &total, &sums[k]) {
            Ok(outer) => total = outer,
            Err(fault) => return Err(sum_refusal(alloc, place, key, k, fault)),
        }
    }
    // Its reader says that the polynomial is canonical.
    let _den = total.den();
    Ok(total)
}

/// The refusal where the summation over a variable fails.
fn sum_refusal(alloc: Global, place: &Place, key: ObjectKey, k: usize, fault: SumFault) -> Refused
    ensures { IsFaultRefusal (member_place place.now key k) fault result }
{
    let condition = match fault {
        SumFault::Wide => 2,
        SumFault::Differs => 9,
        SumFault::Memory => return Refused::Memory,
    };
    match member_place(alloc, place, key, k) {
        Ok(place) => Refused::Failed(FailedCondition { condition, place }),
        Err(Memory) => Refused::Memory,
    }
}

/// The polynomial 1.
fn one(alloc: Global) -> Result<Poly, Memory>
    ensures { IfOk result (λ poly. poly ≡ one) }
{
    let form = Form::new(Vec::new(alloc), 1);
    let poly = Poly::from_form(alloc, &form)?;
    // Its reader says that the polynomial is canonical and in lowest terms.
    let _den = poly.den();
    Ok(poly)
}
