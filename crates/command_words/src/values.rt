//! The sizes of a program's parameters.

ghost use Rattle.std.specs.Prelude.{◌≡◌, ◌<◌, ◌==◌, map, min, option_map, bytes_eq, unsigned_abs, IfOk, IfSome};
ghost use Rattle.std.specs.List.{AllByRecursion, list_all, list_any};
ghost use Rattle.affine_form.specs.Form.{IsSmall};
ghost use Rattle.command_words.specs.Sizes.{NamedSize, named_of, times as times_named, value_for as value_named, values_for as values_named};
ghost use Rattle.iolb_model.specs.declared.limits.TheConstants.{VALUE_SIZE};

use crate::size::Size;
use affine_form::{Memory, Name};
use std::alloc::Global;

/// Whether a name is one of these.
fn is_one(name: &[u8], names: &[Name]) -> bool
    ensures { result ≡ list_any (λ other. bytes_eq name.now other) names.now }
{
    for other in names {
        if name == other.bytes() {
            return true;
        }
    }
    false
}

/// Whether each size is one of a parameter with one of these names.
fn are_known(sizes: &[Size], names: &[Name]) -> bool
    ensures { result ≡ list_all (λ (size : NamedSize). list_any (λ name. bytes_eq size.name name) names.now) (map named_of sizes.now) }
{
    for size in sizes {
        if !is_one(size.name.as_slice(), names) {
            return false;
        }
    }
    true
}

/// How often a name is named.
fn times(name: &[u8], sizes: &[Size]) -> usize
    ensures { result ≡ times_named name.now (map named_of sizes.now) }
{
    let mut count = 0;
    for size in sizes {
        if size.name.as_slice() == name {
            count += 1;
        }
    }
    count
}

/// Whether a name is named once.
fn is_named_once(name: &[u8], sizes: &[Size]) -> bool
    ensures { result ≡ (times_named name.now (map named_of sizes.now) == 1) }
{
    times(name, sizes) == 1
}

/// Whether each name is named once.
fn are_named_once(names: &[Name], sizes: &[Size]) -> bool
    ensures { result ≡ list_all (λ name. times_named name (map named_of sizes.now) == 1) names.now }
{
    for name in names {
        if !is_named_once(name.bytes(), sizes) {
            return false;
        }
    }
    true
}

/// The first number for a name, and 0 if there is none.
fn value_for(name: &[u8], sizes: &[Size]) -> i64
    requires small { AllByRecursion (λ size. unsigned_abs size.value < VALUE_SIZE) sizes.now }
    ensures value { result ≡ value_named name.now (map named_of sizes.now) }
    ensures small { unsigned_abs result < VALUE_SIZE }
{
    for size in sizes {
        if size.name.as_slice() == name {
            return size.value;
        }
    }
    0
}

/// The numbers of parameters with these names, in their order, where each is named exactly once and nothing else is.
pub fn values_for(alloc: Global, names: &[Name], sizes: &[Size]) -> Result<Option<Vec<i64>>, Memory>
    requires small { AllByRecursion (λ size. unsigned_abs size.value < VALUE_SIZE) sizes.now }
    ensures values { IfOk result (λ found. option_map (λ values. values.items) found ≡ values_named names.now (map named_of sizes.now)) }
    ensures small { IfOk result (λ found. IfSome found (λ values. AllByRecursion (IsSmall VALUE_SIZE) values.items)) }
{
    if !are_known(sizes, names) || !are_named_once(names, sizes) {
        return Ok(None);
    }
    Ok(Some(values_of(alloc, names, sizes)?))
}

/// The first number for each name.
fn values_of(alloc: Global, names: &[Name], sizes: &[Size]) -> Result<Vec<i64>, Memory>
    requires small { AllByRecursion (λ size. unsigned_abs size.value < VALUE_SIZE) sizes.now }
    ensures values { IfOk result (λ values. values.items ≡ map (λ name. value_named name (map named_of sizes.now)) names.now) }
    ensures small { IfOk result (λ values. AllByRecursion (IsSmall VALUE_SIZE) values.items) }
{
    let mut values = Vec::new(alloc);
    for name in names {
        values.push(value_for(name.bytes(), sizes))?;
    }
    Ok(values)
}
