//! Nests whose variables run from 0 to below parameters.

ghost use Rattle.std.specs.Prelude.{◌≡◌, ◌≤◌, ◌<◌, ◌+◌, IfOk, length};
ghost use Rattle.std.specs.List.{AllByRecursion};
ghost use Rattle.iolb_model.specs.declared.limits.TheConstants.{VARIABLES};
ghost use Rattle.projective_bounds.specs.Outline.{nest_below};

use affine_form::{Form, Memory};
use projective::forms::{one_less, zero};
use std::alloc::Global;

/// The bounds of a nest's variables, with so many variables around the first, which run from 0 to below these parameters.
pub(crate) fn nest_below(
    alloc: Global,
    vars: usize,
    parameters: &[usize],
) -> Result<Vec<(Form, Form)>, Memory>
    requires few { vars + length parameters.now ≤ VARIABLES }
    requires there { AllByRecursion (λ parameter. parameter < vars) parameters.now }
    ensures { IfOk result (λ nest. nest.items ≡ nest_below vars parameters.now) }
{
    let Some((first, others)) = parameters.split_first() else {
        return Ok(Vec::new(alloc));
    };
    let mut nest = nest_below(alloc, vars + 1, others)?;
    let bounds = (zero(alloc, vars)?, one_less(alloc, vars, *first)?);
    nest.insert(0, bounds)?;
    Ok(nest)
}
