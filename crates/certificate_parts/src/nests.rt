//! Nests.

ghost use Rattle.std.specs.Prelude.{List};
ghost use Rattle.iolb_model.specs.Form.{AffineForm};
ghost use Rattle.json_parts.specs.Related.{same_link};
ghost use Rattle.certificate_parts.specs.Nests.{pair_shape, IsSmallPair, nest_shape, IsSmallNest};

use crate::forms::OfForm;
use affine_form::{Form, Memory};
use claims::Step;
use domain_count::Nest;
use json_parts::{CertError, Few, Part, fault, list, under, write_list};
use json_values::Json;
use serde_json::Value;
use std::alloc::Global;

/// A variable by its lower and its upper form.
struct OfPair {}

impl Part for OfPair {
    type Value = (Form, Form);

    ghost Said = { AffineForm × AffineForm };

    ghost shape = { pair_shape };

    ghost link = { same_link };

    ghost Fits = { IsSmallPair };

    #[tactic(auto, unfolding(crate::specs::Nests::reads_pair))]
    fn read(alloc: Global, value: &Json) -> Result<(Form, Form), CertError> {
        let values = list(alloc, value)?;
        if values.len() != 2 {
            return Err(fault(alloc, 2));
        }
        let lower = match <OfForm as Part>::read(alloc, &values[0]) {
            Ok(lower) => lower,
            Err(error) => return Err(under(alloc, Step::Index(0), error)),
        };
        match <OfForm as Part>::read(alloc, &values[1]) {
            Ok(upper) => Ok((lower, upper)),
            Err(error) => Err(under(alloc, Step::Index(1), error)),
        }
    }

    #[tactic(auto, unfolding(crate::specs::Nests::reads_pair))]
    fn write(alloc: Global, part: &(Form, Form)) -> Result<Value, Memory> {
        let mut items = Vec::new(alloc);
        items.push(<OfForm as Part>::write(alloc, &part.0)?)?;
        items.push(<OfForm as Part>::write(alloc, &part.1)?)?;
        Ok(Value::Array(items))
    }
}

/// A nest: at most six variables, with forms whose numbers are of size below 2^20.
pub struct OfNest {}

impl Part for OfNest {
    type Value = Nest;

    ghost Said = { List (AffineForm × AffineForm) };

    ghost shape = { nest_shape };

    ghost link = { same_link };

    ghost Fits = { IsSmallNest };

    fn read(alloc: Global, value: &Json) -> Result<Nest, CertError> {
        let bounds = <Few<OfPair, 6> as Part>::read(alloc, value)?;
        Ok(Nest::new(bounds))
    }

    fn write(alloc: Global, part: &Nest) -> Result<Value, Memory> {
        let value = write_list::<OfPair>(alloc, part.bounds())?;
        Ok(value)
    }
}
