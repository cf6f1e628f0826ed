//! Identity matrices.

ghost use Rattle.std.specs.Prelude.{◌≡◌, ◌≤◌, ◌++◌, IfOk};
ghost use Rattle.projective_bounds.specs.Whole.{identity_matrix, identity_row};
ghost use Rattle.iolb_model.specs.declared.limits.TheConstants.{NEST_VARIABLES};

use affine_form::{Matrix, Memory};
use std::alloc::Global;

/// Cells with those of one more row.
fn with_row(cells: Vec<i32>, size: usize, row: usize) -> Result<Vec<i32>, Memory>
    requires { size ≤ NEST_VARIABLES }
    ensures { IfOk result (λ all. all.items ≡ cells.items ++ identity_row size row) }
{
    let mut all = cells;
    for column in 0..size {
        if row == column {
            all.push(1)?;
        } else {
            all.push(0)?;
        }
    }
    Ok(all)
}

/// The identity matrix of a size.
pub fn identity(alloc: Global, size: usize) -> Result<Matrix, Memory>
    requires { size ≤ NEST_VARIABLES }
    ensures { IfOk result (λ matrix. matrix ≡ identity_matrix size) }
{
    let mut cells = Vec::new(alloc);
    for row in 0..size {
        cells = with_row(cells, size, row)?;
    }
    Ok(Matrix::new(size, size, cells))
}
