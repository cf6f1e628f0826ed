//! Nests over some loops of a statement.

use crate::affine::Affine;
use affine_form::Memory;
use std::alloc::Global;

/// Whether a variable stands in forms.
pub fn stands_in(forms: &[Affine], place: usize) -> bool {
    forms.iter().any(|form| form.at(place) != 0)
}

/// A nest over some loops of a statement, and the loop values at its points.
#[derive(Drop)]
pub struct PlacedNest {
    pub bounds: Vec<(Affine, Affine)>,
    pub values: Vec<Affine>,
}

/// The nest of the loops that stand in forms; each other loop is in its first turn.
pub fn nested(
    alloc: Global,
    params: usize,
    bounds: &[(Affine, Affine)],
    forms: &[Affine],
) -> Result<PlacedNest, Memory> {
    let mut all = Vec::new(alloc);
    let mut values = Vec::new(alloc);
    for (place, (lower, upper)) in bounds.iter().enumerate() {
        let least = lower.put(alloc, params, values.as_slice())?;
        if stands_in(forms, params.saturating_add(place)) {
            let most = upper.put(alloc, params, values.as_slice())?;
            values.push(Affine::variable(alloc, params.saturating_add(all.len()))?)?;
            all.push((least, most))?;
        } else {
            values.push(least)?;
        }
    }
    Ok(PlacedNest {
        bounds: all,
        values,
    })
}
