//! Forms.

ghost use Rattle.std.specs.Prelude.{◌≡◌, ◌<◌, ◌∷◌, [], ◌++◌, length, map, IfOk};
ghost use Rattle.std.specs.List.{AllByRecursion};
ghost use Rattle.iolb_model.specs.Form.{AffineForm};
ghost use Rattle.iolb_model.specs.declared.limits.TheConstants.{NUMBER_SIZE};
ghost use Rattle.affine_form.specs.Form.{IsSmall, IsSmallForm};
ghost use Rattle.json_values.specs.View.{json_data};
ghost use Rattle.json_parts.specs.Json.{each, reads_integer};
ghost use Rattle.json_parts.specs.Outcome.{Gives};
ghost use Rattle.json_parts.specs.Related.{same_link};
ghost use Rattle.certificate_parts.specs.Forms.{form_shape};

use crate::numbers::{narrowed, write_numbers};
use affine_form::{Form, Memory};
use claims::Step;
use iolb_model::limits;
use json_parts::{CertError, Part, fault, integer, short_list, under};
use json_values::Json;
use serde_json::Value;
use std::alloc::Global;

/// The numbers of a form.
fn numbers(alloc: Global, values: &[Json]) -> Result<Vec<i128>, CertError>
    ensures read { Gives (λ numbers. numbers.items) result (each (reads_integer NUMBER_SIZE) 0 (map json_data values.now)) }
    ensures small { IfOk result (λ numbers. AllByRecursion (IsSmall NUMBER_SIZE) numbers.items) }
    ensures all { IfOk result (λ numbers. length numbers.items ≡ length values.now) }
{
    let mut numbers = Vec::new(alloc);
    for (i, value) in values.iter().enumerate() {
        match integer(alloc, value, limits::NUMBER_SIZE) {
            Ok(number) => numbers.push(number)?,
            Err(error) => return Err(under(alloc, Step::Index(i as u64), error)),
        }
    }
    Ok(numbers)
}

/// The numbers of a form: its coefficients, then its constant.
fn form_numbers(alloc: Global, form: &Form) -> Result<Vec<i64>, Memory>
    ensures { IfOk result (λ list. list.items ≡ form.now.coefficients ++ form.now.constant ∷ []) }
{
    let mut list = Vec::new(alloc);
    for coefficient in form.coef() {
        list.push(narrowed(*coefficient))?;
    }
    list.push(narrowed(form.constant()))?;
    Ok(list)
}

/// A form: at most 24 coefficients, and a constant, of size below 2^20.
///
/// An empty array has fault 2, a longer one fault 3, and so on for the first number that isn't whole (2) or whose size isn't
/// below the limit (3).
pub struct OfForm {}

impl Part for OfForm {
    type Value = Form;

    ghost Said = { AffineForm };

    ghost shape = { form_shape };

    ghost link = { same_link };

    ghost Fits = { IsSmallForm NUMBER_SIZE };

    #[tactic(auto, unfolding(crate::specs::Forms::reads_form))]
    fn read(alloc: Global, value: &Json) -> Result<Form, CertError> {
        let values = short_list(alloc, value, 25)?;
        let mut numbers = numbers(alloc, values)?;
        match numbers.pop() {
            Some(constant) => Ok(Form::new(numbers, constant)),
            None => Err(fault(alloc, 2)),
        }
    }

    fn write(alloc: Global, part: &Form) -> Result<Value, Memory> {
        let _constant = part.constant();
        let list = form_numbers(alloc, part)?;
        let value = write_numbers(alloc, list.as_slice())?;
        Ok(value)
    }
}
