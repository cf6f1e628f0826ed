//! Systems of rows that are given together.

ghost use Rattle.std.specs.Prelude.{◌≡◌, ◌≤◌, length, IfOk};
ghost use Rattle.affine_form.specs.System.{AllOver};
ghost use Rattle.iolb_model.specs.declared.limits.TheConstants.{ROWS, VARIABLES};

use crate::{Form, Memory, System};
use std::alloc::Global;

/// The system of these rows, over so many variables.
pub fn system_of(alloc: Global, vars: usize, rows: &[Form]) -> Result<System, Memory>
    requires few { vars ≤ VARIABLES }
    requires few_rows { length rows.now ≤ ROWS }
    requires over { AllOver vars rows.now }
    ensures { IfOk result (λ system. system ≡ record { vars = vars; rows = rows.now }) }
{
    let mut system = System::new(alloc, vars);
    for row in rows {
        system.push(row.try_clone(alloc)?)?;
    }
    Ok(system)
}
