//! Lists that have a member.

ghost use Rattle.std.specs.Prelude.{List};
ghost use Rattle.json_parts.specs.OneToMost.{AreOneToMost, one_to_most_shape};
ghost use Rattle.json_parts.specs.Related.{list_link};

use crate::error::{CertError, fault};
use crate::lists::{Few, write_list};
use crate::part::Part;
use affine_form::Memory;
use json_values::Json;
use serde_json::Value;
use std::alloc::Global;
use std::marker::PhantomData;

/// A list of one at least and so many at most.
pub struct OneToMost<S, const MOST: usize> {
    of: PhantomData<S>,
}

impl<S: Part, const MOST: usize> Part for OneToMost<S, MOST> {
    type Value = Vec<S::Value>;

    ghost Said = { List S.Said };

    ghost shape = { one_to_most_shape MOST S.shape };

    ghost link = { list_link S.link };

    ghost Fits = { λ all. AreOneToMost MOST S.Fits all.items };

    fn read(alloc: Global, value: &Json) -> Result<Vec<S::Value>, CertError> {
        let all = <Few<S, MOST> as Part>::read(alloc, value)?;
        if all.as_slice().is_empty() {
            Err(fault(alloc, 3))
        } else {
            Ok(all)
        }
    }

    fn write(alloc: Global, part: &Vec<S::Value>) -> Result<Value, Memory> {
        let value = write_list::<S>(alloc, part.as_slice())?;
        Ok(value)
    }
}
