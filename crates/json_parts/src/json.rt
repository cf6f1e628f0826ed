//! Looking into JSON values.

ghost use Rattle.std.specs.Prelude.{◌≡◌, ◌<◌, ◌≤◌, ◌^◌, length, map, option_map, unsigned_abs, IfOk};
ghost use Rattle.json_values.specs.View.{json_data};
ghost use Rattle.json_parts.specs.Outcome.{Gives};
ghost use Rattle.json_parts.specs.Json.{has_keys as has_names, elements_of, reads_list, reads_short_list, reads_integer, reads_natural};

use crate::error::{CertError, fault};
use json_values::Json;
use std::alloc::Global;

/// Whether a value is an object with exactly these different keys.
#[tactic(auto, using(crate::proofs::Keys::count_of_members_data), unfolding(crate::specs::Json::has_keys))]
pub fn has_keys(value: &Json, names: &[&str]) -> bool
    ensures { result ≡ has_names (map (λ name. name.now) names.now) (json_data value.now) }
{
    let Some(members) = value.as_object() else {
        return false;
    };
    if members.len() != names.len() {
        return false;
    }
    for name in names {
        if value.get(name).is_none() {
            return false;
        }
    }
    true
}

/// The members of an array.
pub fn elements(value: &Json) -> Option<&[Json]>
    ensures { option_map (λ list. map json_data list.now) result ≡ elements_of (json_data value.now) }
{
    value.as_array()
}

/// The members of an array. A value that is none has fault 2.
#[tactic(auto, unfolding(crate::specs::Json::reads_list))]
pub fn list(alloc: Global, value: &Json) -> Result<&[Json], CertError>
    ensures { Gives (λ list. map json_data list.now) result (reads_list (json_data value.now)) }
{
    match elements(value) {
        Some(list) => Ok(list),
        None => Err(fault(alloc, 2)),
    }
}

/// The members of an array of at most so many. A value that is no array has fault 2, and a longer one fault 3.
#[tactic(auto, unfolding(crate::specs::Json::reads_short_list))]
pub fn short_list(alloc: Global, value: &Json, most: usize) -> Result<&[Json], CertError>
    ensures read { Gives (λ list. map json_data list.now) result (reads_short_list most (json_data value.now)) }
    ensures few { IfOk result (λ list. length list.now ≤ most) }
{
    let list = list(alloc, value)?;
    if list.len() <= most {
        Ok(list)
    } else {
        Err(fault(alloc, 3))
    }
}

/// A whole number of size below a limit. A value that is no whole number of 64 bits has fault 2, and a greater size
/// fault 3.
#[tactic(auto, unfolding(crate::specs::Json::reads_integer))]
pub fn integer(alloc: Global, value: &Json, limit: u128) -> Result<i128, CertError>
    ensures read { Gives (λ z. z) result (reads_integer limit (json_data value.now)) }
    ensures small { IfOk result (λ z. unsigned_abs z < limit) }
{
    let Some(number) = value.as_number() else {
        return Err(fault(alloc, 2));
    };
    let Some(whole) = number.as_i128() else {
        return Err(fault(alloc, 2));
    };
    if whole.unsigned_abs() < limit {
        Ok(whole)
    } else {
        Err(fault(alloc, 3))
    }
}

/// A whole number from a least one to a greatest one. A value that is no whole number of 64 bits has fault 2, and one
/// outside the range fault 3.
#[tactic(auto, unfolding(crate::specs::Json::reads_natural))]
pub fn natural(alloc: Global, value: &Json, least: u64, most: u64) -> Result<u64, CertError>
    ensures read { Gives (λ n. n) result (reads_natural least most (json_data value.now)) }
    ensures least { IfOk result (λ n. least ≤ n) }
    ensures most { IfOk result (λ n. n ≤ most) }
{
    let Some(number) = value.as_number() else {
        return Err(fault(alloc, 2));
    };
    if let Some(whole) = number.as_u64() {
        if least <= whole && whole <= most {
            return Ok(whole);
        }
        return Err(fault(alloc, 3));
    }
    match number.as_i128() {
        Some(_) => Err(fault(alloc, 3)),
        None => Err(fault(alloc, 2)),
    }
}
