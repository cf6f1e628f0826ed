//! The members of objects, by a type: a member, and those behind it.

ghost use Rattle.std.specs.Prelude.{◌≡◌, ℕ, suc, List, [], length, true};
ghost use Rattle.json_values.specs.View.{json_data};
ghost use Rattle.json_parts.specs.Outcome.{Gives, GivesBy};
ghost use Rattle.json_parts.specs.Json.{part};
ghost use Rattle.json_parts.specs.Fields.{Fields, no_fields, field, reads_object};
ghost use Rattle.json_parts.specs.Names.{first_of, more_of, names_of, no-names, one-more-name};

use crate::error::{CertError, fault, under};
use crate::json::has_keys;
use crate::part::Part;
use claims::{ObjectKey, Step};
use json_values::Json;
use std::alloc::Global;

/// The members of an object, by the byte order of their keys.
pub trait Members {
    type Values: Drop;

    ghost Said: { Type 0 };

    ghost COUNT: { ℕ };

    /// The members with these keys.
    ghost fields: { List (List ℕ) → Fields Said };

    ghost Are: { Said → Self.Values → Type 0 };

    /// What the members with these keys say.
    fn read(alloc: Global, value: &Json, names: &[&'static str]) -> Result<Self::Values, CertError>
        requires names { length names.now ≡ COUNT }
        ensures { GivesBy Are result ((fields (names_of names.now)).reads (json_data value.now)) };

    ghost names_are: { (names : List (List ℕ)) → length names ≡ COUNT → (fields names).names ≡ names };
}

/// No more members.
#[derive(Drop)]
pub struct End {}

impl Members for End {
    type Values = ();

    ghost Said = { Unit {0} };

    ghost COUNT = { 0 };

    ghost fields = { λ _. no_fields };

    ghost Are = { λ _ _. Unit {0} };

    fn read(_alloc: Global, _value: &Json, _names: &[&'static str]) -> Result<(), CertError> {
        Ok(())
    }

    ghost names_are = { λ names none. no-names names none };
}

/// The member with this name.
pub fn member<S: Part>(
    alloc: Global,
    value: &Json,
    name: &'static str,
) -> Result<S::Value, CertError>
    ensures { GivesBy S.link.Is result (part name.now S.shape.reads (json_data value.now)) }
{
    match value.get(name) {
        Some(member) => match S::read(alloc, member) {
            Ok(found) => Ok(found),
            Err(error) => Err(under(alloc, Step::Key(ObjectKey(name)), error)),
        },
        None => Err(fault(alloc, 2)),
    }
}

impl<S: Part, R: Members> Members for (S, R) {
    type Values = (S::Value, R::Values);

    ghost Said = { S.Said × R.Said };

    ghost COUNT = { suc R.COUNT };

    ghost fields = { λ names. field (first_of [] names) S.shape (R.fields (more_of names)) };

    ghost Are = { λ said values. S.link.Is said.0 values.0 × R.Are said.1 values.1 };

    fn read(
        alloc: Global,
        value: &Json,
        names: &[&'static str],
    ) -> Result<(S::Value, R::Values), CertError> {
        let first = member::<S>(alloc, value, names[0])?;
        let rest = R::read(alloc, value, &names[1..])?;
        Ok((first, rest))
    }

    ghost names_are = { λ names so_many. one-more-name R.COUNT (λ more. (R.fields more).names) (λ more some. R.names_are more some) names so_many };
}

/// The members of an object with exactly these keys.
#[tactic(auto, unfolding(crate::specs::Fields::reads_object))]
pub fn read_object<M: Members>(
    alloc: Global,
    value: &Json,
    names: &[&'static str],
) -> Result<M::Values, CertError>
    requires names { length names.now ≡ M.COUNT }
    ensures { GivesBy M.Are result (reads_object (M.fields (names_of names.now)) (json_data value.now)) }
{
    if has_keys(value, names) {
        M::read(alloc, value, names)
    } else {
        Err(fault(alloc, 2))
    }
}

/// The member with this name, where the value says just what is said.
pub fn said_member<S: Part>(
    alloc: Global,
    value: &Json,
    name: &'static str,
) -> Result<S::Value, CertError>
    requires { S.link.is_plain ≡ true }
    ensures { Gives S.link.said result (part name.now S.shape.reads (json_data value.now)) }
{
    member::<S>(alloc, value, name)
}
