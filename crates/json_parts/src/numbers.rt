//! Whole numbers in a range.

ghost use Rattle.std.specs.Prelude.{◌≤◌, ℕ, min};
ghost use Rattle.json_parts.specs.Related.{same_link};
ghost use Rattle.json_parts.specs.Shape.{natural_shape, exact_shape};

use crate::error::{CertError, fault};
use crate::json::natural;
use crate::part::Part;
use affine_form::Memory;
use json_values::Json;
use serde_json::Value;
use std::alloc::Global;

/// A number of 8 bits, from a least one to a greatest one.
pub struct Number8<const LEAST: u64, const MOST: u64> {}

impl<const LEAST: u64, const MOST: u64> Part for Number8<LEAST, MOST> {
    type Value = u8;

    ghost Said = { ℕ };

    ghost shape = { natural_shape LEAST (min MOST 255) };

    ghost link = { same_link };

    ghost Fits = { λ n. (LEAST ≤ n) × (n ≤ MOST) };

    fn read(alloc: Global, value: &Json) -> Result<u8, CertError> {
        Ok(natural(alloc, value, LEAST, MOST.min(255))? as u8)
    }

    #[tactic(auto, using(crate::proofs::Back::natural_read))]
    fn write(_alloc: Global, part: &u8) -> Result<Value, Memory> {
        Ok(Value::from(*part))
    }
}

/// Any number of 8 bits.
pub struct Any8 {}

impl Part for Any8 {
    type Value = u8;

    ghost Said = { ℕ };

    ghost shape = { natural_shape 0 255 };

    ghost link = { same_link };

    ghost Fits = { λ _. Unit {0} };

    fn read(alloc: Global, value: &Json) -> Result<u8, CertError> {
        Ok(natural(alloc, value, 0, 255)? as u8)
    }

    #[tactic(auto, using(crate::proofs::Back::natural_read))]
    fn write(_alloc: Global, part: &u8) -> Result<Value, Memory> {
        Ok(Value::from(*part))
    }
}

/// Any number of 16 bits.
pub struct Any16 {}

impl Part for Any16 {
    type Value = u16;

    ghost Said = { ℕ };

    ghost shape = { natural_shape 0 65535 };

    ghost link = { same_link };

    ghost Fits = { λ _. Unit {0} };

    fn read(alloc: Global, value: &Json) -> Result<u16, CertError> {
        Ok(natural(alloc, value, 0, 65535)? as u16)
    }

    #[tactic(auto, using(crate::proofs::Back::natural_read))]
    fn write(_alloc: Global, part: &u16) -> Result<Value, Memory> {
        Ok(Value::from(*part))
    }
}

/// A number of 32 bits, from a least one to a greatest one.
pub struct Number32<const LEAST: u64, const MOST: u64> {}

impl<const LEAST: u64, const MOST: u64> Part for Number32<LEAST, MOST> {
    type Value = u32;

    ghost Said = { ℕ };

    ghost shape = { natural_shape LEAST (min MOST 4294967295) };

    ghost link = { same_link };

    ghost Fits = { λ n. (LEAST ≤ n) × (n ≤ MOST) };

    fn read(alloc: Global, value: &Json) -> Result<u32, CertError> {
        Ok(natural(alloc, value, LEAST, MOST.min(4294967295))? as u32)
    }

    #[tactic(auto, using(crate::proofs::Back::natural_read))]
    fn write(_alloc: Global, part: &u32) -> Result<Value, Memory> {
        Ok(Value::from(*part))
    }
}

/// This number alone. Any other value has fault 2.
pub struct Exactly<const N: u64> {}

impl<const N: u64> Part for Exactly<N> {
    type Value = ();

    ghost Said = { Unit {0} };

    ghost shape = { exact_shape N };

    ghost link = { same_link };

    ghost Fits = { λ _. Unit {0} };

    #[tactic(auto, unfolding(crate::specs::Json::reads_exactly))]
    fn read(alloc: Global, value: &Json) -> Result<(), CertError> {
        match value.as_u64() {
            Some(found) if found == N => Ok(()),
            _ => Err(fault(alloc, 2)),
        }
    }

    #[tactic(auto, using(crate::proofs::Back::exact_read))]
    fn write(_alloc: Global, _part: &()) -> Result<Value, Memory> {
        Ok(Value::from(N))
    }
}
