//! Multipliers.

ghost use Rattle.std.specs.Prelude.{◌≡◌, ◌<◌, ◌≤◌, ◌%◌, ◌++◌, length, map, OnOk, IfOk, IsTrue};
ghost use Rattle.std.specs.List.{AllByRecursion};
ghost use Rattle.affine_form.specs.Multipliers.{FarkasMultipliers, IsWeight, RowsRise};
ghost use Rattle.claims.specs.declared.place.Step.TheVariants.{Index};
ghost use Rattle.certificate_fit.specs.Limits.{NamesRows};
ghost use Rattle.json_values.specs.View.{json_data};
ghost use Rattle.serde_json.specs.View.{view};
ghost use Rattle.json_parts.specs.Json.{reads_natural};
ghost use Rattle.json_parts.specs.Outcome.{Gives, under as seen_under};
ghost use Rattle.json_parts.specs.Related.{same_link};
ghost use Rattle.certificate_parts.specs.Multipliers.{rise_from, reads_weights, multipliers_of as multipliers_from, weights_data, multipliers_shape};

use affine_form::{Memory, Multipliers};
use claims::Step;
use iolb_model::limits;
use json_parts::{CertError, Part, fault, list, natural, under};
use json_values::Json;
use serde_json::Value;
use std::alloc::Global;

/// A whole number in a range, the member of an array at this index.
fn member(alloc: Global, value: &Json, index: u64, least: u64, most: u64) -> Result<u64, CertError>
    ensures read { Gives (λ n. n) result (seen_under (Index index) (reads_natural least most (json_data value.now))) }
    ensures least { IfOk result (λ n. least ≤ n) }
    ensures most { IfOk result (λ n. n ≤ most) }
{
    match natural(alloc, value, least, most) {
        Ok(number) => Ok(number),
        Err(error) => Err(under(alloc, Step::Index(index), error)),
    }
}

/// The rows that are named, each with its multiplier.
fn weights(alloc: Global, values: &[Json]) -> Result<Vec<(u8, u64)>, CertError>
    requires { length values.now % 2 ≡ 0 }
    ensures read { Gives (λ weights. weights.items) result (reads_weights 2 (map json_data values.now)) }
    ensures small { IfOk result (λ weights. AllByRecursion IsWeight weights.items) }
{
    let mut weights = Vec::new(alloc);
    let mut i = 0;
    while i + 1 < values.len() {
        let row = member(alloc, &values[i], i as u64 + 2, 0, 127)?;
        let most = limits::MULTIPLIER_SIZE - 1;
        let multiplier = member(alloc, &values[i + 1], i as u64 + 3, 1, most)?;
        weights.push((row as u8, multiplier))?;
        i += 2;
    }
    Ok(weights)
}

/// Whether each row is behind the one before it.
fn rows_rise(weights: &[(u8, u64)]) -> bool
    ensures rise { result ≡ rise_from 0 weights.now }
    ensures legal { IsTrue result → RowsRise weights.now }
{
    let mut least: u16 = 0;
    for (row, _) in weights {
        if u16::from(*row) < least {
            return false;
        }
        least = u16::from(*row) + 1;
    }
    true
}

/// Multipliers of some members.
#[tactic(auto, unfolding(crate::specs::Multipliers::multipliers_of))]
fn multipliers_of(
    alloc: Global,
    scale: &Json,
    rest: &Json,
    values: &[Json],
) -> Result<Multipliers, CertError>
    requires { length values.now % 2 ≡ 0 }
    ensures { Gives (λ shown. shown) result (multipliers_from (json_data scale.now) (json_data rest.now) (map json_data values.now)) }
{
    let most = limits::MULTIPLIER_SIZE - 1;
    let scale = member(alloc, scale, 0, 1, most)?;
    let rest = member(alloc, rest, 1, 0, most)?;
    let weights = weights(alloc, values)?;
    if rows_rise(weights.as_slice()) {
        Ok(Multipliers::new(scale, rest, weights))
    } else {
        Err(fault(alloc, 2))
    }
}

/// The rows that are named, each with its multiplier, appended.
fn push_weights(items: &mut Vec<Value>, weights: &[(u8, u64)]) -> Result<(), Memory>
    ensures { OnOk result (map view items.new.items ≡ map view items.old.items ++ weights_data weights.now) }
{
    for (row, multiplier) in weights {
        items.push(Value::from(*row))?;
        items.push(Value::from(*multiplier))?;
    }
    Ok(())
}

/// Multipliers of rows below 128: the scale, the number beside the rows, then the rows, each with its multiplier.
pub struct OfMultipliers {}

impl Part for OfMultipliers {
    type Value = Multipliers;

    ghost Said = { FarkasMultipliers };

    ghost shape = { multipliers_shape };

    ghost link = { same_link };

    ghost Fits = { NamesRows };

    #[tactic(auto, unfolding(crate::specs::Multipliers::reads_multipliers, crate::specs::Multipliers::multipliers_in))]
    fn read(alloc: Global, value: &Json) -> Result<Multipliers, CertError> {
        let values = list(alloc, value)?;
        if values.len() < 2 || values.len() % 2 != 0 {
            return Err(fault(alloc, 2));
        }
        let shown = multipliers_of(alloc, &values[0], &values[1], &values[2..])?;
        Ok(shown)
    }

    fn write(alloc: Global, part: &Multipliers) -> Result<Value, Memory> {
        let scale = part.c();
        let rest = part.m0();
        let weights = part.m();
        let mut items = Vec::new(alloc);
        items.push(Value::from(scale))?;
        items.push(Value::from(rest))?;
        push_weights(&mut items, weights)?;
        Ok(Value::Array(items))
    }
}
