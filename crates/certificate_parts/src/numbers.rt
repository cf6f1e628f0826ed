//! Arrays of whole numbers.

ghost use Rattle.std.specs.Prelude.{◌≡◌, map, IfOk};
ghost use Rattle.affine_form.specs.Form.{IsSmall};
ghost use Rattle.serde_json.specs.View.{view};
ghost use Rattle.json_parts.specs.Written.{list, whole};
ghost use Rattle.iolb_model.specs.declared.limits.TheConstants.{COEFFICIENT_SIZE};

use affine_form::Memory;
use serde_json::Value;
use std::alloc::Global;

/// The array of these numbers.
pub(crate) fn write_numbers(alloc: Global, numbers: &[i64]) -> Result<Value, Memory>
    ensures { IfOk result (λ value. view value ≡ list (map whole numbers.now)) }
{
    let mut items = Vec::new(alloc);
    for number in numbers {
        items.push(Value::from(*number))?;
    }
    Ok(Value::Array(items))
}

/// A number of size below 2^62, in 64 bits.
pub(crate) fn narrowed(number: i128) -> i64
    requires { IsSmall COEFFICIENT_SIZE number }
    ensures { result ≡ number }
{
    number as i64
}
