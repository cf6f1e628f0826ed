//! Reading stores.

ghost use Rattle.json_parts.specs.Outcome.{GivesBy};
ghost use Rattle.json_values.specs.View.{json_data};
ghost use Rattle.store_terms.specs.Claims.{claim_of_stores};
ghost use Rattle.store_text.specs.Read.{IsStores};
ghost use Rattle.store_text.specs.Stores.{reads_stores};
ghost use Rattle.store_text.specs.Texts.{ReadsText};

use crate::outputs::OfOutput;
use certificate_parts::OfMultipliers;
use json_parts::{Any8, CertError, End, Exactly, Few, ListOf, OrNull, fault, read_object};
use json_values::{Json, JsonError};
use std::alloc::Global;
use store_terms::Stores;

type Behind = (Few<OfOutput, 16>, (Exactly<1>, End));

type Members = (ListOf<OfMultipliers>, (OrNull<Any8>, Behind));

/// The stores that a value says.
#[tactic(auto, unfolding(crate::specs::Stores::stores_shape))]
fn stores_in(alloc: Global, value: &Json) -> Result<Stores, CertError>
    ensures { GivesBy (λ said stores. IsStores said (claim_of_stores stores)) result (reads_stores (json_data value.now)) }
{
    let names = ["apart", "branch", "outputs", "version"];
    let (apart, (branch, (outputs, ((), ())))) = read_object::<Members>(alloc, value, &names)?;
    // Each limit was looked at where the text was read.
    Ok(Stores::within(outputs, branch, apart))
}

/// Reads the text of stores.
///
/// # Errors
///
/// The first fault of the text: 1, at the whole, where it is no JSON; else the first in one walk over the value, an
/// object's keys before its values, these by the byte order of the keys: 2 where a value has another shape, 3 where a
/// limit is passed. Want of memory, at any time.
pub fn read_stores(alloc: Global, bytes: &[u8]) -> Result<Stores, CertError>
    ensures { ReadsText bytes.now result }
{
    let value = match Json::from_slice(alloc, bytes) {
        Ok(value) => value,
        Err(JsonError::Memory) => return Err(CertError::Memory),
        Err(JsonError::NoJson) => return Err(fault(alloc, 1)),
    };
    stores_in(alloc, &value)
}
