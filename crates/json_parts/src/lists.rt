//! Lists.

ghost use Rattle.std.specs.Prelude.{◌≡◌, ◌≤◌, List, length, map, IfOk};
ghost use Rattle.std.specs.List.{AllByRecursion};
ghost use Rattle.json_values.specs.View.{json_data};
ghost use Rattle.serde_json.specs.View.{view};
ghost use Rattle.json_parts.specs.Json.{each};
ghost use Rattle.json_parts.specs.Outcome.{GivesBy};
ghost use Rattle.json_parts.specs.Related.{AreAll, AreSaid, list_link};
ghost use Rattle.json_parts.specs.Written.{list as list_data};
ghost use Rattle.json_parts.specs.Shape.{IsReadBack, list_shape, few_shape};

use crate::error::{CertError, under};
use crate::json::{list, short_list};
use crate::part::Part;
use affine_form::Memory;
use claims::Step;
use json_values::Json;
use serde_json::Value;
use std::alloc::Global;
use std::marker::PhantomData;

/// For how many members of an array room is made before they are read. A longer list gets more as it grows, so that an array
/// whose first member is at fault costs no room for all.
const AT_ONCE: usize = 1024;

/// What each member of an array says.
fn read_all<S: Part>(alloc: Global, values: &[Json]) -> Result<Vec<S::Value>, CertError>
    ensures { GivesBy (λ said all. AreSaid S.link.is_plain S.link.all_said S.link.Is said all.items) result (each S.shape.reads 0 (map json_data values.now)) }
{
    let mut all = Vec::with_capacity(alloc, values.len().min(AT_ONCE))?;
    for (i, value) in values.iter().enumerate() {
        match S::read(alloc, value) {
            Ok(found) => all.push(found)?,
            Err(error) => return Err(under(alloc, Step::Index(i as u64), error)),
        }
    }
    Ok(all)
}

/// The array of these parts.
pub fn write_list<S: Part>(alloc: Global, parts: &[S::Value]) -> Result<Value, Memory>
    requires { AllByRecursion S.Fits parts.now }
    ensures value { IfOk result (λ value. view value ≡ list_data (map S.shape.data_of (S.link.all_said parts.now))) }
    ensures read { IfOk result (λ _. AllByRecursion (IsReadBack S.shape) (S.link.all_said parts.now)) }
    ensures is { IfOk result (λ _. AreSaid S.link.is_plain S.link.all_said S.link.Is (S.link.all_said parts.now) parts.now) }
{
    let mut items = Vec::new(alloc);
    for one in parts {
        items.push(S::write(alloc, one)?)?;
    }
    Ok(Value::Array(items))
}

/// A list.
pub struct ListOf<S> {
    of: PhantomData<S>,
}

impl<S: Part> Part for ListOf<S> {
    type Value = Vec<S::Value>;

    ghost Said = { List S.Said };

    ghost shape = { list_shape S.shape };

    ghost link = { list_link S.link };

    ghost Fits = { λ all. AllByRecursion S.Fits all.items };

    #[tactic(auto, unfolding(crate::specs::Json::reads_all))]
    fn read(alloc: Global, value: &Json) -> Result<Vec<S::Value>, CertError> {
        let values = list(alloc, value)?;
        read_all::<S>(alloc, values)
    }

    fn write(alloc: Global, part: &Vec<S::Value>) -> Result<Value, Memory> {
        let value = write_list::<S>(alloc, part.as_slice())?;
        Ok(value)
    }
}

/// A list of at most so many.
pub struct Few<S, const MOST: usize> {
    of: PhantomData<S>,
}

impl<S: Part, const MOST: usize> Part for Few<S, MOST> {
    type Value = Vec<S::Value>;

    ghost Said = { List S.Said };

    ghost shape = { few_shape MOST S.shape };

    ghost link = { list_link S.link };

    ghost Fits = { λ all. AllByRecursion S.Fits all.items × (length all.items ≤ MOST) };

    #[tactic(auto, unfolding(crate::specs::Json::reads_few))]
    fn read(alloc: Global, value: &Json) -> Result<Vec<S::Value>, CertError> {
        let values = short_list(alloc, value, MOST)?;
        read_all::<S>(alloc, values)
    }

    fn write(alloc: Global, part: &Vec<S::Value>) -> Result<Value, Memory> {
        let value = write_list::<S>(alloc, part.as_slice())?;
        Ok(value)
    }
}
