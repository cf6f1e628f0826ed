//! Nests of instances, and how many they are.

ghost use Rattle.std.specs.Prelude.{◌≤◌, length, IfOk, IfSome};
ghost use Rattle.affine_form.specs.Rows.{BoundsFit};
ghost use Rattle.iolb_model.specs.declared.limits.TheConstants.{NEST_VARIABLES, PARAMETERS};

use crate::affine::{Affine, copies, loops};
use crate::combined::combined;
use crate::facts::{Facts, StatementFacts};
use crate::shown::{Rows, all_shown, followed, within};
use affine_form::Memory;
use affine_program::Program;
use domain_count::{CountFault, Nest, Sums, make_count};
use iolb_model::limits;
use std::alloc::Global;

/// Copies of bounds.
pub fn copied_bounds(
    alloc: Global,
    bounds: &[(Affine, Affine)],
) -> Result<Vec<(Affine, Affine)>, Memory> {
    let mut all = Vec::new(alloc);
    for (lower, upper) in bounds {
        all.push((lower.copied(alloc)?, upper.copied(alloc)?))?;
    }
    Ok(all)
}

/// What a row says of the last loop that stands in it.
#[derive(Drop)]
pub struct Limit {
    pub place: usize,
    pub bound: Affine,
    pub is_lower: bool,
}

/// The bound of the last loop in a row by the parameters and the loops around it, where the row is one.
pub fn limit_of(alloc: Global, params: usize, row: &Affine) -> Result<Option<Limit>, Memory> {
    let Some(place) = row.last_loop(params) else {
        return Ok(None);
    };
    let variable = params.saturating_add(place);
    let sign = row.at(variable);
    if sign != 1 && sign != -1 {
        return Ok(None);
    }
    let mut bound = Affine::number(alloc, 0);
    bound.add(row, sign.saturating_neg())?;
    bound.add_variable(variable, 1)?;
    Ok(Some(Limit {
        place,
        bound,
        is_lower: sign == 1,
    }))
}

/// The bounds of those that meet a row too, where the row bounds one loop by the parameters and the loops around it.
pub fn tightened(
    alloc: Global,
    params: usize,
    bounds: &[(Affine, Affine)],
    row: &Affine,
) -> Result<Option<Vec<(Affine, Affine)>>, Memory> {
    let Some(limit) = limit_of(alloc, params, row)? else {
        return Ok(None);
    };
    let mut all = copied_bounds(alloc, bounds)?;
    let Some(pair) = all.get_mut(limit.place) else {
        return Ok(None);
    };
    if limit.is_lower {
        pair.0 = limit.bound;
    } else {
        pair.1 = limit.bound;
    }
    Ok(Some(all))
}

/// The bounds of those that meet rows too, where each bounds one loop by the parameters and the loops around it.
pub fn restricted(
    alloc: Global,
    params: usize,
    bounds: &[(Affine, Affine)],
    rows: &[Affine],
) -> Result<Option<Vec<(Affine, Affine)>>, Memory> {
    let mut all = copied_bounds(alloc, bounds)?;
    for row in rows {
        match tightened(alloc, params, all.as_slice(), row)? {
            Some(fewer) => all = fewer,
            None => return Ok(None),
        }
    }
    Ok(Some(all))
}

/// The bounds with those of the loops around tightened, until each range is shown to be whole.
pub fn ranged(
    alloc: Global,
    facts: &Facts,
    bounds: Vec<(Affine, Affine)>,
) -> Result<Option<Vec<(Affine, Affine)>>, Memory> {
    let mut all = bounds;
    for _turn in 0..8 {
        let Some(row) = first_open(alloc, facts, all.as_slice())? else {
            return Ok(Some(all));
        };
        match tightened(alloc, facts.params, all.as_slice(), &row)? {
            Some(bounds) => all = bounds,
            None => return Ok(None),
        }
    }
    Ok(None)
}

/// The first range that isn't shown to be whole, as a row.
fn first_open(
    alloc: Global,
    facts: &Facts,
    bounds: &[(Affine, Affine)],
) -> Result<Option<Affine>, Memory> {
    let values = own_values(alloc, facts.params, bounds)?;
    let mut rows = copies(alloc, facts.assumed.as_slice())?;
    for (place, ((lower, upper), value)) in bounds.iter().zip(values.iter()).enumerate() {
        let given = Rows {
            vars: facts.params.saturating_add(place),
            rows: copies(alloc, rows.as_slice())?,
        };
        let goals = vec![in alloc; upper.less(alloc, lower, 1)?]?;
        if all_shown(alloc, &given, goals.as_slice())?.is_none() {
            return Ok(Some(upper.less(alloc, lower, 1)?));
        }
        rows.push(value.less(alloc, lower, 0)?)?;
        rows.push(upper.less(alloc, value, 0)?)?;
    }
    Ok(None)
}

/// Whether some variable is seen to have no value.
pub fn is_empty(alloc: Global, bounds: &[(Affine, Affine)]) -> Result<bool, Memory> {
    for (lower, upper) in bounds {
        let count = upper.less(alloc, lower, 1)?;
        if count.is_number() && count.constant() <= 0 {
            return Ok(true);
        }
    }
    Ok(false)
}

/// How many loops may take many values, since no number bounds how far their bounds are apart.
pub fn wide_loops(alloc: Global, bounds: &[(Affine, Affine)]) -> Result<usize, Memory> {
    let mut count: usize = 0;
    for (lower, upper) in bounds {
        if !upper.less(alloc, lower, 0)?.is_number() {
            count = count.saturating_add(1);
        }
    }
    Ok(count)
}

/// The bounds of a nest that holds the points of a statement in these bounds: a loop value that is a form of those before it is
/// fixed, each other one is free.
pub fn image(
    alloc: Global,
    params: usize,
    bounds: &[(Affine, Affine)],
    point: &[Affine],
) -> Result<Vec<(Affine, Affine)>, Memory> {
    let mut all = Vec::new(alloc);
    let mut free = Vec::new(alloc);
    for ((lower, upper), value) in bounds.iter().zip(point.iter()) {
        match combined(alloc, params, value, free.as_slice(), None)? {
            Some(fixed) => {
                all.push((fixed.copied(alloc)?, fixed))?;
                free.push(Affine::number(alloc, 0))?;
            }
            None => {
                all.push((lower.copied(alloc)?, upper.copied(alloc)?))?;
                free.push(value.copied(alloc)?)?;
            }
        }
    }
    Ok(all)
}

/// A bound of the loop of which a value is a turn so many later, where it is, as a form over a nest's variables whose values at
/// the reader's loop values are these.
fn moved_bound(
    alloc: Global,
    params: usize,
    reader: &[(Affine, Affine)],
    values: &[Affine],
    value: &Affine,
    is_lower: bool,
) -> Result<Option<Affine>, Memory> {
    let Some(place) = value.only_loop(params) else {
        return Ok(None);
    };
    let variable = params.saturating_add(place);
    let Some((lower, upper)) = reader.get(place) else {
        return Ok(None);
    };
    let bound = if is_lower { lower } else { upper };
    if value.at(variable) != 1 {
        return Ok(None);
    }
    let mut form = value.copied(alloc)?;
    form.add_variable(variable, -1)?;
    form.add(bound, 1)?;
    combined(alloc, params, &form, values, None)
}

/// The greater of two bounds, if they differ by a number and the second is over so many variables, and else the first; or the
/// lesser one.
fn closer(
    alloc: Global,
    bound: Affine,
    other: Option<Affine>,
    vars: usize,
    is_lower: bool,
) -> Result<Affine, Memory> {
    let Some(other) = other else {
        return Ok(bound);
    };
    let apart = other.less(alloc, &bound, 0)?;
    let is_closer = if is_lower {
        apart.constant() > 0
    } else {
        apart.constant() < 0
    };
    if apart.is_number() && is_closer && !other.uses_past(vars) {
        return Ok(other);
    }
    Ok(bound)
}

/// The bounds of a nest that holds a source, narrowed by those of the reader's loops of which its values are turns.
pub fn narrowed(
    alloc: Global,
    params: usize,
    bounds: Vec<(Affine, Affine)>,
    values: &[Affine],
    reader: &[(Affine, Affine)],
) -> Result<Vec<(Affine, Affine)>, Memory> {
    let mut all = Vec::new(alloc);
    for ((lower, upper), value) in bounds.into_iter().zip(values.iter()) {
        let vars = params.saturating_add(all.len());
        if lower.is_same(&upper) {
            all.push((lower, upper))?;
        } else {
            let least = moved_bound(alloc, params, reader, values, value, true)?;
            let most = moved_bound(alloc, params, reader, values, value, false)?;
            let lower = closer(alloc, lower, least, vars, true)?;
            all.push((lower, closer(alloc, upper, most, vars, false)?))?;
        }
    }
    Ok(all)
}

/// The values of a nest's variables.
fn own_values(
    alloc: Global,
    params: usize,
    bounds: &[(Affine, Affine)],
) -> Result<Vec<Affine>, Memory> {
    loops(alloc, params, bounds.len())
}

/// The rows of a nest's points: the assumptions and the bounds.
pub fn nest_rows(
    alloc: Global,
    facts: &Facts,
    bounds: &[(Affine, Affine)],
) -> Result<Rows, Memory> {
    let values = own_values(alloc, facts.params, bounds)?;
    let nest = within(alloc, facts.params, bounds, values.as_slice())?;
    let rows = copies(alloc, facts.assumed.as_slice())?;
    Ok(Rows {
        vars: facts.params.saturating_add(bounds.len()),
        rows: followed(alloc, rows, nest.as_slice())?,
    })
}

/// The rows of a statement's instances: the assumptions, its domain, and more.
pub fn instance_rows(
    alloc: Global,
    facts: &Facts,
    own: &StatementFacts,
    more: &[Affine],
) -> Result<Rows, Memory> {
    let values = loops(alloc, facts.params, own.depth())?;
    let domain = own.domain(alloc, facts.params, values.as_slice())?;
    let rows = copies(alloc, facts.assumed.as_slice())?;
    let rows = followed(alloc, rows, domain.as_slice())?;
    Ok(Rows {
        vars: facts.params.saturating_add(own.depth()),
        rows: followed(alloc, rows, more)?,
    })
}

/// The nest of these bounds, where it is within the limits.
fn nest_of(
    alloc: Global,
    params: usize,
    bounds: &[(Affine, Affine)],
) -> Result<Option<Nest>, Memory>
    requires { params ≤ PARAMETERS }
    ensures fit { IfOk result (λ found. IfSome found (λ nest. BoundsFit params nest)) }
    ensures few { IfOk result (λ found. IfSome found (λ nest. length nest ≤ NEST_VARIABLES)) }
{
    if bounds.len() > limits::NEST_VARIABLES {
        return Ok(None);
    }
    let mut all = Vec::new(alloc);
    for (place, (lower, upper)) in bounds.iter().enumerate() {
        let Some(lower) = lower.form(alloc, params + place)? else {
            return Ok(None);
        };
        let Some(upper) = upper.form(alloc, params + place)? else {
            return Ok(None);
        };
        all.push((lower, upper))?;
    }
    Ok(Some(Nest::new(all)))
}

/// A nest and its count, where they are within the limits and shown.
pub fn counted(
    alloc: Global,
    program: &Program,
    bounds: &[(Affine, Affine)],
) -> Result<Option<(Nest, Sums)>, Memory> {
    let params = program.params().len();
    let Some(nest) = nest_of(alloc, params, bounds)? else {
        return Ok(None);
    };
    match make_count(alloc, program, &nest) {
        Ok(sums) => Ok(Some((nest, sums))),
        Err(CountFault::Memory) => Err(Memory),
        Err(_) => Ok(None),
    }
}
