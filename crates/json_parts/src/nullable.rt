//! Parts that may be null.

ghost use Rattle.std.specs.Prelude.{◌≡◌, Option, IfSome, true};
ghost use Rattle.json_parts.specs.Related.{option_link};
ghost use Rattle.json_parts.specs.Shape.{or_null_shape};

use crate::error::CertError;
use crate::part::Part;
use affine_form::Memory;
use json_values::Json;
use serde_json::Value;
use std::alloc::Global;
use std::marker::PhantomData;

/// A part, or null.
pub struct OrNull<S> {
    of: PhantomData<S>,
}

impl<S: Part> Part for OrNull<S> {
    type Value = Option<S::Value>;

    ghost Said = { Option S.Said };

    ghost shape = { or_null_shape S.shape };

    ghost link = { option_link S.link };

    ghost Fits = { λ one. IfSome one (λ x. S.Fits x × (S.shape.is_present ≡ true)) };

    #[tactic(auto, unfolding(crate::specs::Json::reads_or_null))]
    fn read(alloc: Global, value: &Json) -> Result<Option<S::Value>, CertError> {
        if value.is_null() {
            return Ok(None);
        }
        let one = S::read(alloc, value)?;
        Ok(Some(one))
    }

    #[tactic(auto, using(crate::proofs::Back::not_null_read), unfolding(crate::specs::Json::reads_or_null))]
    fn write(alloc: Global, part: &Option<S::Value>) -> Result<Value, Memory> {
        match part {
            Some(one) => S::write(alloc, one),
            None => Ok(Value::Null),
        }
    }
}
