//! Members by the byte order of their keys.

ghost use Rattle.std.specs.Prelude.{◌≡◌, IfOk, map, string_cmp, IsTrue};
ghost use Rattle.std.specs.List.Sorted.{IsStrictlySortedBy};
ghost use Rattle.std.specs.Map.{keys_of};
ghost use Rattle.serde_json.specs.Data.{no_members};
ghost use Rattle.json_values.specs.Puts.{put_all};
ghost use Rattle.json_values.specs.View.{members_data};

use crate::value::Json;
use std::alloc::{AllocError, Global};
use std::cmp::Ordering;
use std::collections::BTreeMap;

/// Members as an object has them: by the byte order of their keys, of equal ones the last.
pub(crate) fn members_in_key_order(
    alloc: Global,
    members: Vec<(String, Json)>,
) -> Result<Vec<(String, Json)>, AllocError>
    ensures { IfOk result (λ ordered. members_data ordered.items ≡ put_all members.items no_members) }
{
    if are_sorted(members.as_slice()) {
        return Ok(members);
    }
    members_of_map(alloc, map_of_members(alloc, members)?)
}

/// Whether each key is below the next.
fn are_sorted(members: &[(String, Json)]) -> bool
    ensures { IsTrue result → IsStrictlySortedBy string_cmp (keys_of members.now) }
{
    for next in 1..members.len() {
        match members[next - 1].0.cmp(&members[next].0) {
            Ordering::Less => {}
            Ordering::Equal | Ordering::Greater => return false,
        }
    }
    true
}

/// The map of the members, of equal keys the last.
fn map_of_members(
    alloc: Global,
    members: Vec<(String, Json)>,
) -> Result<BTreeMap<String, Json>, AllocError>
    ensures { IfOk result (λ map. members_data map.entries ≡ put_all members.items no_members) }
{
    members.into_iter().collect(alloc)
}

/// The members of a map, by the byte order of their keys.
fn members_of_map(
    alloc: Global,
    map: BTreeMap<String, Json>,
) -> Result<Vec<(String, Json)>, AllocError>
    ensures { IfOk result (λ members. members.items ≡ map.entries) }
{
    let mut members = Vec::with_capacity(alloc, map.len())?;
    for member in map {
        members.push(member)?;
    }
    Ok(members)
}
