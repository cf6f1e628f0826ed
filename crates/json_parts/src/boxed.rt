//! Parts that the code holds in boxes.

ghost use Rattle.std.specs.Box.{box_value};
ghost use Rattle.json_parts.specs.Related.{box_link};

use crate::error::CertError;
use crate::part::Part;
use affine_form::Memory;
use json_values::Json;
use serde_json::Value;
use std::alloc::Global;
use std::marker::PhantomData;

/// A part, of which the code holds a box.
pub struct Boxed<S> {
    of: PhantomData<S>,
}

impl<S: Part> Part for Boxed<S> {
    type Value = Box<S::Value>;

    ghost Said = { S.Said };

    ghost shape = { S.shape };

    ghost link = { box_link S.link };

    ghost Fits = { λ one. S.Fits (box_value one) };

    fn read(alloc: Global, value: &Json) -> Result<Box<S::Value>, CertError> {
        let one = S::read(alloc, value)?;
        Ok(Box::new(alloc, one)?)
    }

    fn write(alloc: Global, part: &Box<S::Value>) -> Result<Value, Memory> {
        S::write(alloc, part)
    }
}
