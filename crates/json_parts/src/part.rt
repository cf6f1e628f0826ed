//! What a part of a JSON value says.

ghost use Rattle.std.specs.Prelude.{◌≡◌, IfOk};
ghost use Rattle.json_values.specs.View.{json_data};
ghost use Rattle.serde_json.specs.View.{view};
ghost use Rattle.json_parts.specs.Outcome.{GivesBy};
ghost use Rattle.json_parts.specs.Related.{Link};
ghost use Rattle.json_parts.specs.Shape.{Shape, IsReadBack};

use crate::error::CertError;
use affine_form::Memory;
use json_values::Json;
use serde_json::Value;
use std::alloc::Global;

/// A part of a JSON value, by a type that has no values of its own.
pub trait Part {
    /// What the code holds of such a part.
    type Value: Drop;

    /// What a text says of it.
    ghost Said: { Type 0 };

    ghost shape: { Shape Said };

    ghost link: { Link Said Self.Value };

    /// The limits that a value keeps that is written.
    ghost Fits: { Self.Value → Type 0 };

    /// What a JSON value says, or its first fault.
    fn read(alloc: Global, value: &Json) -> Result<Self::Value, CertError>
        ensures { GivesBy link.Is result (shape.reads (json_data value.now)) };

    /// The JSON value that says this.
    fn write(alloc: Global, part: &Self::Value) -> Result<Value, Memory>
        requires { Fits part.now }
        ensures value { IfOk result (λ value. view value ≡ shape.data_of (link.said part.now)) }
        ensures read { IfOk result (λ _. IsReadBack shape (link.said part.now)) }
        ensures is { IfOk result (λ _. link.Is (link.said part.now) part.now) };
}
