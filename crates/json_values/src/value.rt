//! Values, and looking into them.

ghost use Rattle.std.specs.Prelude.{◌≡◌, is_some, length, map, option_map, option_and_then};
ghost use Rattle.serde_json.specs.Find.{as_null, as_bool, as_number, as_str, as_array, as_object, as_u64, get, get_member};
ghost use Rattle.serde_json.specs.View.{number_view};
ghost use Rattle.json_values.specs.View.{json_data, items_data, members_data};

use serde_json::Number;

/// A JSON value. An object has each key once, by the byte order of the keys.
#[derive(Drop)]
pub enum Json {
    Null,
    Bool(bool),
    Number(Number),
    String(String),
    Array(Vec<Json>),
    Object(Vec<(String, Json)>),
}

impl Json {
    /// Whether it is null.
    pub fn is_null(&self) -> bool
        ensures { result ≡ is_some (as_null (json_data self.now)) }
    {
        if let Json::Null = self { true } else { false }
    }

    /// The truth value that it is.
    pub fn as_bool(&self) -> Option<bool>
        ensures { result ≡ as_bool (json_data self.now) }
    {
        if let Json::Bool(b) = self {
            Some(*b)
        } else {
            None
        }
    }

    /// The number that it is.
    pub fn as_number(&self) -> Option<&Number>
        ensures { option_map (λ n. number_view n.now) result ≡ as_number (json_data self.now) }
    {
        if let Json::Number(number) = self {
            Some(number)
        } else {
            None
        }
    }

    /// The whole number of 64 bits without a sign that it is.
    pub fn as_u64(&self) -> Option<u64>
        ensures { result ≡ option_and_then as_u64 (as_number (json_data self.now)) }
    {
        match self.as_number() {
            Some(number) => number.as_u64(),
            None => None,
        }
    }

    /// The text that it is.
    pub fn as_str(&self) -> Option<&str>
        ensures { option_map (λ s. s.now) result ≡ as_str (json_data self.now) }
    {
        if let Json::String(text) = self {
            Some(text.as_str())
        } else {
            None
        }
    }

    /// The members of the array that it is.
    pub fn as_array(&self) -> Option<&[Json]>
        ensures { option_map (λ v. items_data v.now) result ≡ as_array (json_data self.now) }
    {
        if let Json::Array(list) = self {
            Some(list.as_slice())
        } else {
            None
        }
    }

    /// The members of the object that it is.
    pub fn as_object(&self) -> Option<&[(String, Json)]>
        ensures { option_map (λ v. members_data v.now) result ≡ as_object (json_data self.now) }
    {
        if let Json::Object(members) = self {
            Some(members.as_slice())
        } else {
            None
        }
    }

    /// The value of this key, where it is an object that has it.
    pub fn get(&self, name: &str) -> Option<&Json>
        ensures { option_map (λ v. json_data v.now) result ≡ get name.now (json_data self.now) }
    {
        match self {
            Json::Object(members) => value_of(members.as_slice(), name),
            _ => None,
        }
    }
}

/// The value of this key among members.
fn value_of<'v>(members: &'v [(String, Json)], name: &str) -> Option<&'v Json>
    ensures { option_map (λ v. json_data v.now) result ≡ get_member name.now (members_data members.now) }
{
    for member in members {
        if member.0.as_str() == name {
            return Some(&member.1);
        }
    }
    None
}
