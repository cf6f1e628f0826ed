//! The values of a bound and of stores at sizes.

ghost use Rattle.std.specs.Prelude.{◌≡◌, ◌≤◌, ◌<◌, ◌^◌, ◌+◌, ◌↔◌, ◌⊎◌, length, map, min, IfOk, IsErr};
ghost use Rattle.std.specs.List.{AllByRecursion};
ghost use Rattle.affine_form.specs.Form.{IsSmall};
ghost use Rattle.iolb_check.specs.Bounds.{HasWideTerm, IsCounting, IsTermValue, IsWideAt, IsWideTerm, bound_of, term_of, terms_of};
ghost use Rattle.iolb_check.specs.Claims.{claim_of_term};
ghost use Rattle.iolb_model.specs.Bound.{AreMet, bound_value, branch_value, count_value, term_value};
ghost use Rattle.iolb_model.specs.declared.limits.TheConstants.{MEASURE, VALUE_SIZE};
ghost use Rattle.poly_tree.specs.Printed.{polynomial_of};
ghost use Rattle.store_bound.specs.Counted.{computed_values, named_values};
ghost use Rattle.store_bound.specs.Values.{EvaluatesBoth, HasWideCount, HasWordValue, HaveWordValues, IsWavefront, IsWideTraffic, output_value, store_value, word_value};

use crate::counted::word_statement;
use crate::fault::Traffic;
use affine_form::System;
use iolb_check::evaluation::{count_at, red_at, widened};
use iolb_check::{Bound, Term, Value, ValueFault};
use iolb_model::limits;
use poly_tree::{Poly, Wide};

/// How many instances an output has at sizes that meet the assumptions, by its count, or 2^126 if that is less.
fn output_at(count: &Poly, assumed: &System, point: &[i128]) -> Result<u128, Wide>
    requires counting { IsCounting assumed.now count.now }
    requires each { length point.now ≡ assumed.now.vars }
    requires met { AreMet assumed.now.rows point.now }
    ensures value { IfOk result (λ value. value ≡ min (count_value (polynomial_of count.now) point.now) MEASURE) }
    ensures wide { IsErr result ↔ IsWideAt point.now count.now }
{
    let value = count_at(count, assumed, point)?;
    Ok(value.min(limits::MEASURE))
}

/// How many instances outputs have at sizes that meet the assumptions, by their counts, or 2^126 if that is less. It is `Wide`
/// exactly where the terms of a count reach 2^126 in sum.
fn outputs_at(counts: &[Poly], assumed: &System, point: &[i128]) -> Result<u128, Wide>
    requires counting { AllByRecursion (IsCounting assumed.now) counts.now }
    requires each { length point.now ≡ assumed.now.vars }
    requires met { AreMet assumed.now.rows point.now }
    ensures value { IfOk result (λ value. value ≡ min (output_value counts.now point.now) MEASURE) }
    ensures narrow { IfOk result (λ value. ¬ HasWideCount point.now counts.now) }
    ensures wide { IsErr result → HasWideCount point.now counts.now }
{
    let mut total = 0;
    for count in counts {
        let value = output_at(count, assumed, point)?;
        total = (value + total).min(limits::MEASURE);
    }
    Ok(total)
}

/// The value of a wavefront term at sizes that meet the assumptions, or 2^126 if that is less: how many words it has, less `s`
/// for each vertex.
fn words_of(value: &Value, assumed: &System, point: &[i128], s: u64) -> Result<u128, Wide>
    requires counting { IsTermValue assumed.now value.now }
    requires front { IsWavefront value.now }
    requires each { length point.now ≡ assumed.now.vars }
    requires met { AreMet assumed.now.rows point.now }
    ensures value { IfOk result (λ words. words ≡ min (term_value (term_of value.now) point.now s) MEASURE) }
    ensures wide { IsErr result ↔ IsWideTerm point.now s value.now }
{
    let Value::Wavefront { pairs, outer } = value else {
        unreachable!();
    };
    let words = count_at(pairs, assumed, point)?;
    let red = red_at(outer, assumed, point, u128::from(s))?;
    Ok(words.saturating_sub(red).min(limits::MEASURE))
}

/// The value of a term, if its words were computed, and else 0; or 2^126 if that is less.
fn term_at(
    term: &Term,
    value: &Value,
    assumed: &System,
    point: &[i128],
    s: u64,
) -> Result<u128, Wide>
    requires valued { HasWordValue (claim_of_term term.now) value.now }
    requires counting { IsTermValue assumed.now value.now }
    requires each { length point.now ≡ assumed.now.vars }
    requires met { AreMet assumed.now.rows point.now }
    ensures value { IfOk result (λ words. words ≡ min (word_value (claim_of_term term.now) value.now point.now s) MEASURE) }
    ensures wide { IsErr result → IsWideTerm point.now s value.now }
{
    if word_statement(term).is_some() {
        words_of(value, assumed, point, s)
    } else {
        Ok(0)
    }
}

/// The sum of these values, or 2^126 if that is less.
fn words_at(
    terms: &[Term],
    values: &[Value],
    assumed: &System,
    point: &[i128],
    s: u64,
) -> Result<u128, Wide>
    requires valued { HaveWordValues (map claim_of_term terms.now) values.now }
    requires counting { AllByRecursion (IsTermValue assumed.now) values.now }
    requires each { length point.now ≡ assumed.now.vars }
    requires met { AreMet assumed.now.rows point.now }
    ensures value { IfOk result (λ total. total ≡ min (branch_value (terms_of (computed_values (map claim_of_term terms.now) values.now)) point.now s) MEASURE) }
    ensures wide { IsErr result → HasWideTerm point.now s values.now }
{
    let mut total = 0;
    for i in 0..terms.len().min(values.len()) {
        let words = term_at(&terms[i], &values[i], assumed, point, s)?;
        total = (words + total).min(limits::MEASURE);
    }
    Ok(total)
}

/// The values of the terms of the branch of this number: none where there is no number, or no such branch.
fn named_values(bound: &Bound, branch: Option<u8>) -> &[Value]
    ensures values { result.now ≡ named_values bound.now.branches branch }
    ensures counting { AllByRecursion (IsTermValue bound.now.assumed) result.now }
{
    let Some(number) = branch else {
        return &[];
    };
    match bound.branch_lists().get(usize::from(number)) {
        Some(values) => values.as_slice(),
        None => &[],
    }
}

/// The value of stores at sizes that meet the assumptions, or at least 2^126 if that is less: of the outputs by their counts, and
/// of the terms of the named branch whose words were computed.
fn stores_at(
    counts: &[Poly],
    terms: &[Term],
    values: &[Value],
    assumed: &System,
    point: &[i128],
    s: u64,
) -> Result<u128, Wide>
    requires counts { AllByRecursion (IsCounting assumed.now) counts.now }
    requires valued { HaveWordValues (map claim_of_term terms.now) values.now }
    requires counting { AllByRecursion (IsTermValue assumed.now) values.now }
    requires each { length point.now ≡ assumed.now.vars }
    requires met { AreMet assumed.now.rows point.now }
    ensures value { IfOk result (λ total. total ≡ min (store_value counts.now (computed_values (map claim_of_term terms.now) values.now) point.now s) MEASURE) }
    ensures narrow { IfOk result (λ total. ¬ HasWideCount point.now counts.now) }
    ensures wide { IsErr result → HasWideCount point.now counts.now ⊎ HasWideTerm point.now s values.now }
{
    let outputs = outputs_at(counts, assumed, point)?;
    let words = words_at(terms, values, assumed, point, s)?;
    Ok((outputs + words).min(limits::MEASURE))
}

/// The value of stores at sizes that meet the assumptions, or 2^126 if that is less: of the outputs by their counts, and of the
/// terms of the branch of this number whose words were computed.
fn stored_at(
    bound: &Bound,
    counts: &[Poly],
    terms: &[Term],
    branch: Option<u8>,
    sizes: &[i64],
    s: u64,
) -> Result<u128, Wide>
    requires counting { AllByRecursion (IsCounting bound.now.assumed) counts.now }
    requires valued { HaveWordValues (map claim_of_term terms.now) (named_values bound.now.branches branch) }
    requires each { length sizes.now ≡ bound.now.assumed.vars }
    requires met { AreMet bound.now.assumed.rows sizes.now }
    ensures value { IfOk result (λ total. total ≡ min (store_value counts.now (computed_values (map claim_of_term terms.now) (named_values bound.now.branches branch)) sizes.now s) MEASURE) }
    ensures narrow { IfOk result (λ total. ¬ HasWideCount sizes.now counts.now) }
    ensures wide { IsErr result → HasWideCount sizes.now counts.now ⊎ HasWideTerm sizes.now s (named_values bound.now.branches branch) }
{
    let assumed = bound.assumed();
    let variables = assumed.vars();
    let wide = widened(sizes);
    let point = &wide[..variables];
    let values = named_values(bound, branch);
    stores_at(counts, terms, values, assumed, point, s)
}

/// The value of a bound at sizes, and that of stores: of the outputs by their counts, and of the terms of the branch of this
/// number whose words were computed.
///
/// # Errors
///
/// Those of `Bound::value`; and `Wide` also where the terms of a count reach 2^126 in sum, or both values together do.
pub(crate) fn both_at(
    bound: &Bound,
    counts: &[Poly],
    terms: &[Term],
    branch: Option<u8>,
    sizes: &[i64],
    s: u64,
) -> Result<Traffic, ValueFault>
    requires counting { AllByRecursion (IsCounting bound.now.assumed) counts.now }
    requires valued { HaveWordValues (map claim_of_term terms.now) (named_values bound.now.branches branch) }
    requires each { length sizes.now ≡ bound.now.assumed.vars }
    requires small { AllByRecursion (IsSmall VALUE_SIZE) sizes.now }
    requires some { 1 ≤ s }
    requires few { s < 2 ^ 63 }
    ensures { EvaluatesBoth bound.now.assumed.rows sizes.now (bound_value (bound_of bound.now) sizes.now s)
        (store_value counts.now (computed_values (map claim_of_term terms.now) (named_values bound.now.branches branch)) sizes.now s)
        (IsWideTraffic sizes.now s bound.now.branches counts.now (bound_value (bound_of bound.now) sizes.now s
        + store_value counts.now (computed_values (map claim_of_term terms.now) (named_values bound.now.branches branch)) sizes.now s)) result }
{
    let loads = bound.value(sizes, s)?;
    let Ok(stores) = stored_at(bound, counts, terms, branch, sizes, s) else {
        return Err(ValueFault::Wide);
    };
    if loads.saturating_add(stores) < limits::MEASURE {
        Ok(Traffic { loads, stores })
    } else {
        Err(ValueFault::Wide)
    }
}
