//! Matrix products, and the value of a bound of theirs.

ghost use Rattle.std.specs.Prelude.{◌≡◌, ◌≤◌, ◌<◌, ◌^◌, List, [], Some, length, slice_get, IfOk, IfErr};
ghost use Rattle.std.specs.List.{AllByRecursion};
ghost use Rattle.affine_form.specs.Form.{IsSmall};
ghost use Rattle.iolb_commands.specs.Phases.{Answered};
ghost use Rattle.iolb_check.specs.declared.bound.Value.{Value as value};
ghost use Rattle.iolb_commands.specs.Sampled.{IsGreatestNarrow, IsNarrowValue, IsSampled, sample_text as lines_of_sample};
ghost use Rattle.iolb_commands.specs.Stop.{IsCalm};
ghost use Rattle.iolb_commands.specs.Works.{whole};
ghost use Rattle.iolb_commands.specs.Written.{answer_form, end_of};
ghost use Rattle.iolb_model.specs.Bound.{AreMet};
ghost use Rattle.iolb_model.specs.declared.limits.TheConstants.{STATEMENTS, VALUE_SIZE};

use crate::answered::Answer;
use crate::stop::Stop;
use affine_c::products;
use affine_form::Memory;
use find_terms::made;
use find_terms::products::{one_product_is_certified, products_have_openings};
use iolb_check::Bound;
use std::alloc::Global;

/// Makes a certificate of so many matrix products, 1 to 32, and values its bound with 64 red pebbles for matrices of 64 by 64
/// numbers.
pub(crate) fn sampled(alloc: Global, count: u8) -> Result<Answer, Stop>
    requires some { 1 ≤ count }
    requires few { count ≤ STATEMENTS }
    ensures comes { Answered (IsSampled count) (end_of result) }
    ensures kind { IfOk result (λ answer. answer_form answer ≡ whole) }
    ensures calm { IfErr result IsCalm }
{
    match sample_text(alloc, count) {
        Ok(text) => Ok(Answer::Text(text)),
        Err(Memory) => Err(Stop::Memory),
    }
}

/// The number of matrix products, and the value of a bound of theirs.
fn sample_text(alloc: Global, count: u8) -> Result<Vec<u8>, Memory>
    requires some { 1 ≤ count }
    requires few { count ≤ STATEMENTS }
    ensures { IfOk result (λ text. IsSampled count text.items []) }
{
    one_product_is_certified();
    products_have_openings(alloc);
    let program = products(alloc, count)?;
    let _params = program.params();
    let accepted = made(alloc, &program)?;
    let value = greatest_narrow(&accepted.bound, &[64], 64);
    let text = sample_lines(alloc, count, value)?;
    Ok(text)
}

/// So many products, and a value.
fn sample_lines(alloc: Global, count: u8, value: u128) -> Result<Vec<u8>, Memory>
    ensures { IfOk result (λ text. text.items ≡ lines_of_sample count value) }
{
    let text = format!(in alloc; "products {count}\nvalue {value}\n")?;
    Ok(Vec::from_slice(alloc, text.as_bytes())?)
}

/// The greatest value of a bound's branches at the sizes, of those that aren't beyond 128 bits, and 0 where there is none.
fn greatest_narrow(bound: &Bound, sizes: &[i64], s: u64) -> u128
    requires each { length sizes.now ≡ bound.now.assumed.vars }
    requires small { AllByRecursion (IsSmall VALUE_SIZE) sizes.now }
    requires some { 1 ≤ s }
    requires few { s < 2 ^ 63 }
    requires met { AreMet bound.now.assumed.rows sizes.now }
    ensures { IsGreatestNarrow bound.now.branches sizes.now s result }
{
    let mut greatest: u128 = 0;
    for branch in 0..bound.branches() {
        greatest = greatest.max(narrow_value(bound, branch, sizes, s));
    }
    greatest
}

/// The value of a branch that isn't beyond 128 bits, and 0 of one that is.
fn narrow_value(bound: &Bound, branch: usize, sizes: &[i64], s: u64) -> u128
    requires there { branch < length bound.now.branches }
    requires each { length sizes.now ≡ bound.now.assumed.vars }
    requires small { AllByRecursion (IsSmall VALUE_SIZE) sizes.now }
    requires some { 1 ≤ s }
    requires few { s < 2 ^ 63 }
    requires met { AreMet bound.now.assumed.rows sizes.now }
    ensures { (terms : List value) × (slice_get bound.now.branches branch ≡ Some terms) × IsNarrowValue sizes.now s terms result }
{
    match bound.branch_value(branch, sizes, s) {
        Ok(value) => value,
        Err(_) => 0,
    }
}
