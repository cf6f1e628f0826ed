//! Forms written over other forms.

use crate::affine::Affine;
use affine_form::Memory;
use std::alloc::Global;

/// The first value that is a form of the parameters beside this loop or its opposite.
fn value_of(params: usize, place: usize, values: &[Affine]) -> Option<(usize, &Affine)> {
    for (number, value) in values.iter().enumerate() {
        if value.only_loop(params) == Some(place) {
            return Some((number, value));
        }
    }
    None
}

/// The lower bound of a loop, if bounds are given.
fn lower_of(bounds: Option<&[(Affine, Affine)]>, place: usize) -> Option<&Affine> {
    let (lower, _) = bounds?.get(place)?;
    Some(lower)
}

/// A form over the parameters and as many variables as there are values, which is the wanted form where the values are put
/// in for the variables. A loop that stands in no value is taken to be at its lower bound, if bounds are given.
pub fn combined(
    alloc: Global,
    params: usize,
    wanted: &Affine,
    values: &[Affine],
    bounds: Option<&[(Affine, Affine)]>,
) -> Result<Option<Affine>, Memory> {
    let mut rest = wanted.copied(alloc)?;
    let mut form = Affine::number(alloc, 0);
    for place in params..wanted.width() {
        let loop_place = place - params;
        let amount = rest.at(place);
        if amount != 0 {
            match value_of(params, loop_place, values) {
                Some((number, value)) => {
                    let times = amount.saturating_mul(value.at(place));
                    form.add_variable(params.saturating_add(number), times)?;
                    rest.add(value, times.saturating_neg())?;
                }
                None => {
                    let Some(lower) = lower_of(bounds, loop_place) else {
                        return Ok(None);
                    };
                    rest.add_variable(place, amount.saturating_neg())?;
                    rest.add(lower, amount)?;
                }
            }
        }
    }
    form.add(&rest, 1)?;
    Ok(Some(form))
}

/// Each of the wanted forms so.
pub fn all_combined(
    alloc: Global,
    params: usize,
    wanted: &[Affine],
    values: &[Affine],
    bounds: Option<&[(Affine, Affine)]>,
) -> Result<Option<Vec<Affine>>, Memory> {
    let mut forms = Vec::new(alloc);
    for form in wanted {
        let Some(found) = combined(alloc, params, form, values, bounds)? else {
            return Ok(None);
        };
        forms.push(found)?;
    }
    Ok(Some(forms))
}
