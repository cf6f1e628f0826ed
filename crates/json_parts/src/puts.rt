//! Members that are to be written, by the byte order of their keys.

ghost use Rattle.std.specs.Prelude.{◌≡◌, ◌≤◌, ℕ, suc, List, [], length, map, true, IfOk};
ghost use Rattle.std.specs.List.{AllByRecursion};
ghost use Rattle.serde_json.specs.Data.{object};
ghost use Rattle.serde_json.specs.View.{view, members_view};
ghost use Rattle.json_parts.specs.Fields.{Fields, no_fields, field, rises, AreReadBack, object_shape};
ghost use Rattle.json_parts.specs.Names.{first_of, more_of, names_of, no-names, one-more-name};
ghost use Rattle.json_parts.specs.Related.{AreSaid};
ghost use Rattle.json_parts.specs.Shape.{IsReadBack, list_shape, few_shape};

use crate::lists::write_list;
use crate::members::End;
use crate::part::Part;
use affine_form::Memory;
use serde_json::{Map, Value, put};
use std::alloc::Global;
use std::marker::PhantomData;

/// Members that are to be written.
pub trait Puts: Drop {
    ghost Said: { Type 0 };

    ghost COUNT: { ℕ };

    /// The members with these keys.
    ghost fields: { List (List ℕ) → Fields Said };

    ghost said: { Self → Said };

    /// What the values keep.
    ghost Fit: { Self → Type 0 };

    /// What holds of the values that are written.
    ghost Are: { Self → Type 0 };

    fn write(&self, alloc: Global, names: &[&str]) -> Result<Map<String, Value>, Memory>
        requires fit { Fit self.now }
        requires names { length names.now ≡ COUNT }
        requires rise { rises (names_of names.now) ≡ true }
        ensures members { IfOk result (λ map. members_view map.entries ≡ (fields (names_of names.now)).members (said self.now)) }
        ensures read { IfOk result (λ _. AreReadBack (fields (names_of names.now)) (said self.now)) }
        ensures are { IfOk result (λ _. Are self.now) };

    ghost names_are: { (names : List (List ℕ)) → length names ≡ COUNT → (fields names).names ≡ names };
}

impl Puts for End {
    ghost Said = { Unit {0} };

    ghost COUNT = { 0 };

    ghost fields = { λ _. no_fields };

    ghost said = { λ _. tt };

    ghost Fit = { λ _. Unit {0} };

    ghost Are = { λ _. Unit {0} };

    fn write(&self, alloc: Global, _names: &[&str]) -> Result<Map<String, Value>, Memory> {
        Ok(Map::new(alloc))
    }

    ghost names_are = { λ names none. no-names names none };
}

/// A member that is to be written, and those behind it.
#[derive(Drop)]
pub struct Put<'a, S, T, R> {
    pub value: &'a T,
    pub rest: R,
    pub of: PhantomData<S>,
}

impl<'a, S: Part, R: Puts> Puts for Put<'a, S, S::Value, R> {
    ghost Said = { S.Said × R.Said };

    ghost COUNT = { suc R.COUNT };

    ghost fields = { λ names. field (first_of [] names) S.shape (R.fields (more_of names)) };

    ghost said = { λ puts. (S.link.said puts.value.now, R.said puts.rest) };

    ghost Fit = { λ puts. S.Fits puts.value.now × R.Fit puts.rest };

    ghost Are = { λ puts. S.link.Is (S.link.said puts.value.now) puts.value.now × R.Are puts.rest };

    fn write(&self, alloc: Global, names: &[&str]) -> Result<Map<String, Value>, Memory> {
        let mut members = self.rest.write(alloc, &names[1..])?;
        let value = S::write(alloc, self.value)?;
        put(&mut members, alloc, names[0], value)?;
        Ok(members)
    }

    ghost names_are = { λ names so_many. one-more-name R.COUNT (λ more. (R.fields more).names) (λ more some. R.names_are more some) names so_many };
}

/// A list that is to be written, and the members behind it.
#[derive(Drop)]
pub struct PutList<'a, S, T, R> {
    pub values: &'a [T],
    pub rest: R,
    pub of: PhantomData<S>,
}

impl<'a, S: Part, R: Puts> Puts for PutList<'a, S, S::Value, R> {
    ghost Said = { List S.Said × R.Said };

    ghost COUNT = { suc R.COUNT };

    ghost fields = { λ names. field (first_of [] names) (list_shape S.shape) (R.fields (more_of names)) };

    ghost said = { λ puts. (S.link.all_said puts.values.now, R.said puts.rest) };

    ghost Fit = { λ puts. AllByRecursion S.Fits puts.values.now × R.Fit puts.rest };

    ghost Are = { λ puts. AreSaid S.link.is_plain S.link.all_said S.link.Is (S.link.all_said puts.values.now) puts.values.now × R.Are puts.rest };

    fn write(&self, alloc: Global, names: &[&str]) -> Result<Map<String, Value>, Memory> {
        let mut members = self.rest.write(alloc, &names[1..])?;
        let value = write_list::<S>(alloc, self.values)?;
        put(&mut members, alloc, names[0], value)?;
        Ok(members)
    }

    ghost names_are = { λ names so_many. one-more-name R.COUNT (λ more. (R.fields more).names) (λ more some. R.names_are more some) names so_many };
}

/// A list of at most so many that is to be written, and the members behind it.
#[derive(Drop)]
pub struct PutFew<'a, S, T, R, const MOST: usize> {
    pub values: &'a [T],
    pub rest: R,
    pub of: PhantomData<S>,
}

impl<'a, S: Part, R: Puts, const MOST: usize> Puts for PutFew<'a, S, S::Value, R, MOST> {
    ghost Said = { List S.Said × R.Said };

    ghost COUNT = { suc R.COUNT };

    ghost fields = { λ names. field (first_of [] names) (few_shape MOST S.shape) (R.fields (more_of names)) };

    ghost said = { λ puts. (S.link.all_said puts.values.now, R.said puts.rest) };

    ghost Fit = { λ puts. (AllByRecursion S.Fits puts.values.now × (length puts.values.now ≤ MOST)) × R.Fit puts.rest };

    ghost Are = { λ puts. AreSaid S.link.is_plain S.link.all_said S.link.Is (S.link.all_said puts.values.now) puts.values.now × R.Are puts.rest };

    fn write(&self, alloc: Global, names: &[&str]) -> Result<Map<String, Value>, Memory> {
        let mut members = self.rest.write(alloc, &names[1..])?;
        let value = write_list::<S>(alloc, self.values)?;
        put(&mut members, alloc, names[0], value)?;
        Ok(members)
    }

    ghost names_are = { λ names so_many. one-more-name R.COUNT (λ more. (R.fields more).names) (λ more some. R.names_are more some) names so_many };
}

/// A part that is to be written as a member, and those behind it.
#[macro_export]
macro_rules! put {
    ($of:ty, $value:expr, $rest:expr) => {
        $crate::Put {
            value: $value,
            rest: $rest,
            of: std::marker::PhantomData::<$of>,
        }
    };
}

/// A list of such parts.
#[macro_export]
macro_rules! put_list {
    ($of:ty, $values:expr, $rest:expr) => {
        $crate::PutList {
            values: $values,
            rest: $rest,
            of: std::marker::PhantomData::<$of>,
        }
    };
}

/// This value, and the members behind it.
pub fn put_part<'a, S: Part, R: Puts>(value: &'a S::Value, rest: R) -> Put<'a, S, S::Value, R>
    ensures value { result.value.now ≡ value.now }
    ensures rest { result.rest ≡ rest }
{
    Put {
        value,
        rest,
        of: PhantomData,
    }
}

/// The list of these values, and the members behind it.
pub fn put_list<'a, S: Part, R: Puts>(
    values: &'a [S::Value],
    rest: R,
) -> PutList<'a, S, S::Value, R>
    ensures values { result.values.now ≡ values.now }
    ensures rest { result.rest ≡ rest }
{
    PutList {
        values,
        rest,
        of: PhantomData,
    }
}

/// The object of these members.
pub fn write_object<M: Puts>(alloc: Global, names: &[&str], members: &M) -> Result<Value, Memory>
    requires fit { M.Fit members.now }
    requires names { length names.now ≡ M.COUNT }
    requires rise { rises (names_of names.now) ≡ true }
    ensures value { IfOk result (λ value. view value ≡ object ((M.fields (names_of names.now)).members (M.said members.now))) }
    ensures read { IfOk result (λ _. IsReadBack (object_shape (M.fields (names_of names.now))) (M.said members.now)) }
    ensures are { IfOk result (λ _. M.Are members.now) }
{
    Ok(Value::Object(members.write(alloc, names)?))
}
