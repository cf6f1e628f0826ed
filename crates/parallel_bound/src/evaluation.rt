//! The values of bounds for several processors, at sizes.

ghost use Rattle.std.specs.Prelude.{◌≡◌, ◌≤◌, ◌<◌, ◌^◌, ◌*◌, ◌↔◌, ◌⊎◌, [], map, max, fold, min, length, IfOk, IsErr};
ghost use Rattle.std.specs.List.{AllByRecursion};
ghost use Rattle.affine_form.specs.Form.{IsSmall};
ghost use Rattle.iolb_model.specs.Bound.{AreMet};
ghost use Rattle.iolb_model.specs.Parallel.{ceiling, own_part, own_stretches, parallel_branch_value, parallel_value, shared_part};
ghost use Rattle.iolb_model.specs.declared.limits.TheConstants.{MEASURE, PROCESSORS, VALUE_SIZE};
ghost use Rattle.iolb_check.specs.Bounds.{Evaluates, IsStretching, IsTermValue, bound_of, lists, term_of, terms_of};
ghost use Rattle.k_partition.specs.Numbers.{numbers_of};
ghost use Rattle.poly_tree.specs.Printed.{polynomial_of};
ghost use Rattle.parallel_bound.specs.Widths.{HasWideParallelBranch, IsWideInParallel, IsWideOwn, IsWideParallelBranch, greatest_parallel_branch};

use affine_form::System;
use affine_program::first_unmet;
use iolb_check::evaluation::{count_at, red_at, widened};
use iolb_check::partition_values::events_at;
use iolb_check::{Bound, Value, ValueFault};
use iolb_model::limits;
use k_partition::PartitionBound;
use poly_tree::Wide;

/// The value of a bound at sizes for the parameters, for so many processors with `s` red pebbles each: the greatest value of a
/// branch, and 0 if there is none. The value of a branch is the greatest of the own parts of its partition and joint terms, which
/// are the values of as many instances or images as one processor computes at least, and of a processor's share of what all
/// processors load together for the cold and the wavefront terms.
///
/// # Errors
///
/// `OutsideAssumption` names the first assumption that is false at the sizes. `Wide` comes where all are true, exactly where in
/// some branch the terms of a polynomial, each coefficient's size times the powers of the variables' sizes, reach 2^126 in sum,
/// or all processors' red pebbles times the vertices of a wavefront term do, or the events of the stretches that a processor's
/// share of a partition or joint term fills, or what all processors load together; or where the labels of a stretch, to the power of the
/// weights, reach 2^127.
pub fn value_in_parallel(
    bound: &Bound,
    sizes: &[i64],
    processors: u32,
    s: u64,
) -> Result<u128, ValueFault>
    requires each { length sizes.now ≡ bound.now.assumed.vars }
    requires small { AllByRecursion (IsSmall VALUE_SIZE) sizes.now }
    requires some_processor { 1 ≤ processors }
    requires few_processors { processors ≤ PROCESSORS }
    requires some { 1 ≤ s }
    requires few { s < 2 ^ 63 }
    ensures { Evaluates bound.now.assumed.rows sizes.now (parallel_value (bound_of bound.now) sizes.now processors s) (HasWideParallelBranch sizes.now processors s bound.now.branches) result }
{
    let assumed = bound.assumed();
    let variables = assumed.vars();
    let wide = widened(sizes);
    let point = &wide[..variables];
    if let Some(number) = first_unmet(assumed.rows(), point) {
        return Err(ValueFault::OutsideAssumption(number));
    }
    greatest(bound.branch_lists(), assumed, point, processors, s)
}

/// The greatest value of branches at sizes that meet the assumptions.
fn greatest(
    branches: &[Vec<Value>],
    assumed: &System,
    point: &[i128],
    processors: u32,
    s: u64,
) -> Result<u128, ValueFault>
    requires counting { AllByRecursion (λ terms. AllByRecursion (IsTermValue assumed.now) terms) (lists branches.now) }
    requires each { length point.now ≡ assumed.now.vars }
    requires met { AreMet assumed.now.rows point.now }
    requires some_processor { 1 ≤ processors }
    requires some { 1 ≤ s }
    ensures { Evaluates [] point.now (greatest_parallel_branch (lists branches.now) point.now processors s 0) (HasWideParallelBranch point.now processors s (lists branches.now)) result }
{
    let mut best = 0;
    for terms in branches {
        let value = branch_at(terms.as_slice(), assumed, point, processors, s)?;
        best = value.max(best);
    }
    Ok(best)
}

/// The value of a branch at sizes that meet the assumptions.
fn branch_at(
    terms: &[Value],
    assumed: &System,
    point: &[i128],
    processors: u32,
    s: u64,
) -> Result<u128, ValueFault>
    requires counting { AllByRecursion (IsTermValue assumed.now) terms.now }
    requires each { length point.now ≡ assumed.now.vars }
    requires met { AreMet assumed.now.rows point.now }
    requires some_processor { 1 ≤ processors }
    requires some { 1 ≤ s }
    ensures { Evaluates [] point.now (parallel_branch_value (terms_of terms.now) point.now processors s) (IsWideParallelBranch point.now processors s terms.now) result }
{
    let mut greatest_own = 0;
    let mut all_shared = 0;
    for term in terms {
        let Ok((own, shared)) = parts_at(term, assumed, point, processors, s) else {
            return Err(ValueFault::Wide);
        };
        greatest_own = own.max(greatest_own);
        all_shared = (shared + all_shared).min(limits::MEASURE);
    }
    if all_shared < limits::MEASURE {
        Ok(rounded_up(all_shared, processors).max(greatest_own))
    } else {
        Err(ValueFault::Wide)
    }
}

/// A term's own part and its shared part at sizes that meet the assumptions; of the shared part 2^126 if that is less.
fn parts_at(
    term: &Value,
    assumed: &System,
    point: &[i128],
    processors: u32,
    s: u64,
) -> Result<(u128, u128), Wide>
    requires counting { IsTermValue assumed.now term.now }
    requires each { length point.now ≡ assumed.now.vars }
    requires met { AreMet assumed.now.rows point.now }
    requires some_processor { 1 ≤ processors }
    requires some { 1 ≤ s }
    ensures own { IfOk result (λ parts. parts.0 ≡ own_part (term_of term.now) point.now processors s) }
    ensures shared { IfOk result (λ parts. parts.1 ≡ min (shared_part (term_of term.now) point.now processors s) MEASURE) }
    ensures wide { IsErr result ↔ IsWideInParallel point.now processors s term.now }
{
    match term {
        Value::Cold(count) => {
            let cells = count_at(count, assumed, point)?;
            Ok((0, cells.min(limits::MEASURE)))
        }
        Value::Partition(bound) | Value::Joint(bound) => {
            let own = own_at(bound, assumed, point, processors, s)?;
            Ok((own, 0))
        }
        Value::Wavefront { pairs, outer } => {
            let words = count_at(pairs, assumed, point)?;
            let red = red_at(
                outer,
                assumed,
                point,
                u128::from(processors) * u128::from(s),
            )?;
            Ok((0, words.saturating_sub(red).min(limits::MEASURE)))
        }
    }
}

/// The own part of a partition or joint term at sizes that meet the assumptions.
fn own_at(
    bound: &PartitionBound,
    assumed: &System,
    point: &[i128],
    processors: u32,
    s: u64,
) -> Result<u128, Wide>
    requires counting { IsStretching assumed.now bound.now }
    requires each { length point.now ≡ assumed.now.vars }
    requires met { AreMet assumed.now.rows point.now }
    requires some_processor { 1 ≤ processors }
    requires some { 1 ≤ s }
    ensures value { IfOk result (λ own. own ≡ own_stretches (polynomial_of bound.now.count) (polynomial_of bound.now.credits) (numbers_of bound.now) point.now processors s) }
    ensures wide { IsErr result ↔ IsWideOwn point.now processors s bound.now }
{
    let points = count_at(&bound.count, assumed, point)?;
    let credited = count_at(&bound.credits, assumed, point)?;
    let events = events_at(bound, rounded_up(points, processors), s)?;
    Ok(events.saturating_sub(credited))
}

/// One number over another, rounded up.
fn rounded_up(number: u128, parts: u32) -> u128
    requires { 1 ≤ parts }
    ensures { result ≡ ceiling number parts }
{
    if number == 0 {
        return 0;
    }
    (number - 1) / u128::from(parts) + 1
}
