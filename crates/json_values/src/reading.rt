//! Reading values from texts, in one pass over the tokens.

ghost use Rattle.std.specs.Prelude.{◌≡◌, ◌<◌, length, Some, None, IfOk, OnOk, IfErr, IsUtf8};
ghost use Rattle.json.specs.Json.{value, items, members};
ghost use Rattle.json.specs.Lex.{tokens};
ghost use Rattle.serde_json.specs.Data.{no_members};
ghost use Rattle.serde_json.specs.Read.{of_json, of_items, of_members, converted, read};
ghost use Rattle.json_values.specs.View.{json_data, items_data, members_data};
ghost use Rattle.json_values.specs.declared.reading.JsonError.TheVariants.{NoJson};

use crate::numbers::number;
use crate::room::taken;
use crate::sorting::members_in_key_order;
use crate::value::Json;
use json::{Invalid, Reader, Scratch, Token};
use std::alloc::{AllocError, AllocFailed, Global};

/// Why a text gives no value.
#[derive(Clone, Copy, Debug, PartialEq, Eq)]
pub enum JsonError {
    /// It is no JSON.
    NoJson,
    /// There was no memory for its value.
    Memory,
}

impl From<Invalid> for JsonError {
    ghost use Rattle.std.specs.Prelude.{◌≡◌};
    ghost use Rattle.json_values.specs.declared.reading.JsonError.TheVariants.{NoJson};

    ghost from_gives = { λ _ e. e ≡ NoJson };

    fn from(_invalid: Invalid) -> JsonError {
        JsonError::NoJson
    }
}

impl From<AllocError> for JsonError {
    ghost use Rattle.std.specs.Prelude.{◌≡◌};
    ghost use Rattle.json_values.specs.declared.reading.JsonError.TheVariants.{Memory};

    ghost from_gives = { λ _ e. e ≡ Memory };

    fn from(_error: AllocError) -> JsonError {
        JsonError::Memory
    }
}

impl<T: Drop> From<AllocFailed<T>> for JsonError {
    ghost use Rattle.std.specs.Prelude.{◌≡◌};
    ghost use Rattle.json_values.specs.declared.reading.JsonError.TheVariants.{Memory};

    ghost from_gives = { λ _ e. e ≡ Memory };

    fn from(_error: AllocFailed<T>) -> JsonError {
        JsonError::Memory
    }
}

/// The members so far of all arrays and objects that are being read, those of the innermost last.
#[derive(Drop)]
struct Pending {
    items: Vec<Json>,
    members: Vec<(String, Json)>,
}

/// How deep arrays and objects may nest.
const DEPTH: usize = 127;

impl Json {
    /// The value of a text.
    ///
    /// # Errors
    ///
    /// `NoJson` where the bytes aren't UTF-8, or not the text of a value that nests at most 127 deep, and each of whose numbers
    /// is a whole number of 64 bits or near a finite float.
    pub fn from_slice(alloc: Global, bytes: &[u8]) -> Result<Json, JsonError>
        ensures utf8 { IfOk result (λ _. IsUtf8 bytes.now) }
        ensures value { IfOk result (λ v. read bytes.now ≡ Some (json_data v)) }
        ensures none { result ≡ Err NoJson → IsUtf8 bytes.now → read bytes.now ≡ None }
    {
        match simdutf8::compat::from_utf8(bytes) {
            Ok(text) => whole_value(alloc, text),
            Err(_) => Err(JsonError::NoJson),
        }
    }
}

/// The value of a text, up to its end.
fn whole_value(alloc: Global, text: &str) -> Result<Json, JsonError>
    ensures value { IfOk result (λ v. read text.now ≡ Some (json_data v)) }
    ensures none { result ≡ Err NoJson → read text.now ≡ None }
{
    let mut scratch = Scratch::new(alloc);
    let mut reader = Reader::new(text, &mut scratch)?;
    let mut pending = Pending {
        items: Vec::new(alloc),
        members: Vec::new(alloc),
    };
    let value = next_value(alloc, &mut reader, &mut pending, DEPTH)?;
    if reader.next().is_some() {
        return Err(JsonError::NoJson);
    }
    Ok(value)
}

/// The next value, in which arrays and objects may nest so deep. It is inlined, so that a member that is none costs no call.
#[cycle(next_value)]
#[inline(always)]
fn next_value(
    alloc: Global,
    reader: &mut Reader<'_>,
    pending: &mut Pending,
    depth: usize,
) -> Result<Json, JsonError>
    ensures value { IfOk result (λ v. converted of_json (value depth reader.old) ≡ Some (json_data v, reader.new)) }
    ensures shorter { OnOk result (length reader.new < length reader.old) }
    ensures items_stay { OnOk result (pending.new.items.items ≡ pending.old.items.items) }
    ensures members_stay { OnOk result (pending.new.members.items ≡ pending.old.members.items) }
    ensures none { result ≡ Err NoJson → converted of_json (value depth reader.old) ≡ None }
{
    let token = reader.next().ok_or(JsonError::NoJson)?;
    match token {
        Token::Null => Ok(Json::Null),
        Token::Bool(b) => Ok(Json::Bool(b)),
        Token::Number(text) => match number(text) {
            Some(number) => Ok(Json::Number(number)),
            None => Err(JsonError::NoJson),
        },
        Token::String(text) => Ok(Json::String(String::from_str(alloc, text)?)),
        Token::BeginArray => {
            if depth == 0 {
                return Err(JsonError::NoJson);
            }
            Ok(Json::Array(next_items(alloc, reader, pending, depth - 1)?))
        }
        Token::BeginObject => {
            if depth == 0 {
                return Err(JsonError::NoJson);
            }
            Ok(Json::Object(next_members(alloc, reader, pending, depth - 1)?))
        }
        Token::EndObject | Token::EndArray | Token::Key(_) | Token::Bad => Err(JsonError::NoJson),
    }
}

/// The members of an array up to its end.
#[cycle(next_value)]
fn next_items(
    alloc: Global,
    reader: &mut Reader<'_>,
    pending: &mut Pending,
    depth: usize,
) -> Result<Vec<Json>, JsonError>
    ensures value { IfOk result (λ v. converted of_items (items (value depth) (length reader.old) reader.old) ≡ Some (items_data v.items, reader.new)) }
    ensures shorter { OnOk result (length reader.new < length reader.old) }
    ensures items_stay { OnOk result (pending.new.items.items ≡ pending.old.items.items) }
    ensures members_stay { OnOk result (pending.new.members.items ≡ pending.old.members.items) }
    ensures none { result ≡ Err NoJson → converted of_items (items (value depth) (length reader.old) reader.old) ≡ None }
{
    let first = pending.items.len();
    'items: while !reader.take_end_array() {
        let item = next_value(alloc, reader, pending, depth)?;
        pending.items.push(item)?;
    }
    Ok(taken(&mut pending.items, first)?)
}

/// The members of an object up to its end.
#[cycle(next_value)]
fn next_members(
    alloc: Global,
    reader: &mut Reader<'_>,
    pending: &mut Pending,
    depth: usize,
) -> Result<Vec<(String, Json)>, JsonError>
    ensures value { IfOk result (λ v. converted (λ ms. of_members ms no_members) (members (value depth) (length reader.old) reader.old) ≡ Some (members_data v.items, reader.new)) }
    ensures shorter { OnOk result (length reader.new < length reader.old) }
    ensures items_stay { OnOk result (pending.new.items.items ≡ pending.old.items.items) }
    ensures members_stay { OnOk result (pending.new.members.items ≡ pending.old.members.items) }
    ensures none { result ≡ Err NoJson → converted (λ ms. of_members ms no_members) (members (value depth) (length reader.old) reader.old) ≡ None }
{
    let first = pending.members.len();
    'members: while let Some(name) = reader.next_key()? {
        let name = String::from_str(alloc, name)?;
        let member = next_value(alloc, reader, pending, depth)?;
        pending.members.push((name, member))?;
    }
    let found = taken(&mut pending.members, first)?;
    Ok(members_in_key_order(alloc, found)?)
}
