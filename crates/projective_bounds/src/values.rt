//! The loop values of the instances that a cold term counts.

ghost use Rattle.std.specs.Prelude.{◌≡◌, ◌≤◌, ◌+◌, IfOk, length, map};
ghost use Rattle.std.specs.List.{range_with_len};
ghost use Rattle.iolb_model.specs.declared.limits.TheConstants.{VARIABLES};
ghost use Rattle.projective_bounds.specs.Outline.{value_among};

use affine_form::{Form, Memory, variable};
use projective::forms::zero;
use std::alloc::Global;

/// The value of a loop: where it is one of these, its variable, of which the first has this place; else 0.
fn value_among(
    alloc: Global,
    vars: usize,
    place: usize,
    loops: &[usize],
    level: usize,
) -> Result<Form, Memory>
    requires few { vars ≤ VARIABLES }
    requires room { place + length loops.now ≤ vars }
    ensures { IfOk result (λ form. form ≡ value_among vars place loops.now level) }
{
    let Some((first, others)) = loops.split_first() else {
        return zero(alloc, vars);
    };
    if *first == level {
        return variable(alloc, vars, place);
    }
    value_among(alloc, vars, place + 1, others, level)
}

/// The values of so many loops, of which these have a variable each, and the others are in their first turns.
pub(crate) fn values(
    alloc: Global,
    params: usize,
    depth: usize,
    loops: &[usize],
) -> Result<Vec<Form>, Memory>
    requires { params + length loops.now ≤ VARIABLES }
    ensures { IfOk result (λ all. all.items ≡ map (value_among (params + length loops.now) params loops.now) (range_with_len 0 depth)) }
{
    let mut all = Vec::new(alloc);
    for level in 0..depth {
        all.push(value_among(alloc, params + loops.len(), params, loops, level)?)?;
    }
    Ok(all)
}
