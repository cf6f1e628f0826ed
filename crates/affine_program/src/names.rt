//! Names of parameters, arrays and loops.

ghost use Rattle.std.specs.Prelude.{◌≡◌, ◌↔◌, ◌++◌, ◌∷◌, [], IsTrue, ℕ, List, map, bytes_eq, IfOk};
ghost use Rattle.std.specs.List.{AllByRecursion, list_any};
ghost use Rattle.c_tokens.specs.Names.{IsName};
ghost use Rattle.affine_program.specs.Parts.{array_of};
ghost use Rattle.affine_program.specs.Printable.{AreDifferent, AreDifferentArrays, IsArrayName, is_array_name};

use affine_form::{Memory, Name};
use c_tokens::is_name;
use std::alloc::Global;

/// Whether a name is one of these.
pub(crate) fn is_among(names: &[Name], name: &Name) -> bool
    ensures { result ≡ list_any (bytes_eq name.now) names.now }
{
    for other in names {
        if name.bytes() == other.bytes() {
            return true;
        }
    }
    false
}

/// Whether a name is an array's.
pub(crate) fn is_array(arrays: &[(Name, u8)], name: &Name) -> bool
    ensures { result ≡ is_array_name name.now (map array_of arrays.now) }
{
    for (other, _) in arrays {
        if name.bytes() == other.bytes() {
            return true;
        }
    }
    false
}

/// Whether each name is a name of texts.
pub(crate) fn are_names(names: &[Name]) -> bool
    ensures { IsTrue result ↔ AllByRecursion IsName names.now }
{
    for name in names {
        if !is_name(name.bytes()) {
            return false;
        }
    }
    true
}

/// Whether no name stands again behind itself.
pub(crate) fn are_different(names: &[Name]) -> bool
    ensures { IsTrue result ↔ AreDifferent names.now }
{
    match names.split_first() {
        Some((first, rest)) => !is_among(rest, first) && are_different(rest),
        None => true,
    }
}

/// Whether no array has the name of one behind it.
pub(crate) fn are_different_arrays(arrays: &[(Name, u8)]) -> bool
    ensures { IsTrue result ↔ AreDifferentArrays (map array_of arrays.now) }
{
    match arrays.split_first() {
        Some((first, rest)) => !is_array(rest, &first.0) && are_different_arrays(rest),
        None => true,
    }
}

/// Whether an array has a name of texts, and none of these.
fn is_array_named(names: &[Name], array: &(Name, u8)) -> bool
    ensures { IsTrue result ↔ IsArrayName names.now (array_of array.now) }
{
    is_name(array.0.bytes()) && !is_among(names, &array.0)
}

/// Whether each array has a name of texts, and none of these.
pub(crate) fn are_arrays_named(names: &[Name], arrays: &[(Name, u8)]) -> bool
    ensures { IsTrue result ↔ AllByRecursion (IsArrayName names.now) (map array_of arrays.now) }
{
    for array in arrays {
        if !is_array_named(names, array) {
            return false;
        }
    }
    true
}

/// Copies of names, and one more. Want of memory is its only error.
pub fn with_name(alloc: Global, names: &[Name], last: &Name) -> Result<Vec<Name>, Memory>
    ensures { IfOk result (λ all. all.items ≡ names.now ++ last.now ∷ []) }
{
    let mut all = Vec::new(alloc);
    for name in names {
        all.push(name.try_clone(alloc)?)?;
    }
    all.push(last.try_clone(alloc)?)?;
    Ok(all)
}
