//! Multipliers that take one row, or none.

ghost use Rattle.std.specs.Prelude.{◌≡◌, ◌≤◌, ◌+◌, IfOk};
ghost use Rattle.projective_bounds.specs.Multipliers.{labels_agree, rows_taken};
ghost use Rattle.iolb_model.specs.declared.limits.TheConstants.{NEST_VARIABLES, ROWS};

use affine_form::{Memory, Multipliers};
use std::alloc::Global;

/// Those which show that two labels of so many forms are the same.
pub(crate) fn labels_agree(alloc: Global, size: usize) -> Result<Vec<Multipliers>, Memory>
    requires { size ≤ NEST_VARIABLES }
    ensures { IfOk result (λ all. all.items ≡ labels_agree size) }
{
    let mut all = Vec::new(alloc);
    for _member in 0..2 * size {
        all.push(Multipliers::new(1, 0, Vec::new(alloc)))?;
    }
    Ok(all)
}

/// Those that take one of so many rows each, from one on.
pub(crate) fn rows_taken(
    alloc: Global,
    first: usize,
    count: usize,
) -> Result<Vec<Multipliers>, Memory>
    requires { first + count ≤ ROWS }
    ensures { IfOk result (λ all. all.items ≡ rows_taken first count) }
{
    let mut all = Vec::new(alloc);
    for number in first..first + count {
        let weights = vec![in alloc; (number as u8, 1)]?;
        all.push(Multipliers::new(1, 0, weights))?;
    }
    Ok(all)
}
