//! Whether the ranges of a nest's variables are shown to be whole.

ghost use Rattle.std.specs.Prelude.{◌≡◌, ◌+◌, ◌<◌, ◌≤◌, ◌↔◌, length, map, IfOk, IsTrue};
ghost use Rattle.affine_form.specs.System.{AllOver};
ghost use Rattle.affine_form.specs.Rows.{BoundsFit, IsSmallOver, widened};
ghost use Rattle.affine_program.specs.Parts.{meaning};
ghost use Rattle.claims.specs.Claims.{Decides, numbered};
ghost use Rattle.domain_count.specs.Count.{ShowsRange, rows_before};
ghost use Rattle.domain_count.specs.CountClaims.{member_place, range_claim};
ghost use Rattle.iolb_model.specs.declared.limits.TheConstants.{VARIABLES, NEST_VARIABLES};

use affine_form::{
    Form, Memory, Multipliers, System, difference, entails, system_of, variables_from, widened,
    within_rows,
};
use affine_program::Program;
use claims::{ObjectKey, Place, Refused, Step, refusal};
use std::alloc::Global;

/// Whether each variable's multipliers show that its range is whole: that its upper form is at least its lower form less 1.
pub(crate) fn ranges_shown(
    alloc: Global,
    program: &Program,
    bounds: &[(Form, Form)],
    shown: &[Multipliers],
    place: &Place,
) -> Result<(), Refused>
    requires few { length bounds.now ≤ NEST_VARIABLES }
    requires fit { BoundsFit (length program.now.params) bounds.now }
    requires one_each { length shown.now ≡ length bounds.now }
    ensures { Decides (numbered (range_claim (meaning program.now) bounds.now shown.now place.now) 0 bounds.now) result }
{
    for k in 0..bounds.len() {
        if !is_shown(alloc, program, &bounds[..k], &bounds[k], &shown[k])? {
            let place = member_place(alloc, place, ObjectKey("shown"), k)?;
            return Err(refusal(alloc, 8, &place));
        }
    }
    Ok(())
}

/// Whether the multipliers of a variable behind others show that its range is whole.
fn is_shown(
    alloc: Global,
    program: &Program,
    before: &[(Form, Form)],
    bounds: &(Form, Form),
    shown: &Multipliers,
) -> Result<bool, Memory>
    requires few { length before.now < NEST_VARIABLES }
    requires fit { BoundsFit (length program.now.params) before.now }
    requires lower { IsSmallOver (length program.now.params + length before.now) bounds.now.0 }
    requires upper { IsSmallOver (length program.now.params + length before.now) bounds.now.1 }
    ensures { IfOk result (λ yes. IsTrue yes ↔ ShowsRange (meaning program.now) before.now bounds.now shown.now) }
{
    let vars = program.params().len() + before.len();
    let system = rows_before(alloc, program, before)?;
    let goal = difference(alloc, vars, &bounds.1, &bounds.0, 1)?;
    // Its reader says that the scale is at least 1.
    let _scale = shown.c();
    Ok(entails(&system, &goal, shown))
}

/// The assumptions and the rows of the variables before, over the parameters and these variables.
pub fn rows_before(
    alloc: Global,
    program: &Program,
    before: &[(Form, Form)],
) -> Result<System, Memory>
    requires few { length before.now ≤ NEST_VARIABLES }
    requires fit { BoundsFit (length program.now.params) before.now }
    ensures { IfOk result (λ system. system ≡ rows_before (meaning program.now) before.now) }
{
    let params = program.params().len();
    let vars = params + before.len();
    let mut rows = widened_rows(alloc, vars, program.assumed())?;
    let first = variables_from(alloc, vars, 0, params)?;
    let values = variables_from(alloc, vars, params, before.len())?;
    let mut ranges = within_rows(alloc, vars, before, first.as_slice(), values.as_slice())?;
    rows.append(&mut ranges)?;
    Ok(system_of(alloc, vars, rows.as_slice())?)
}

/// The rows of a system read over more variables.
fn widened_rows(alloc: Global, vars: usize, system: &System) -> Result<Vec<Form>, Memory>
    requires few { vars ≤ VARIABLES }
    requires more { system.now.vars ≤ vars }
    ensures rows { IfOk result (λ wide. wide.items ≡ map (widened vars) system.now.rows) }
    ensures over { IfOk result (λ wide. AllOver vars wide.items) }
{
    let mut wide = Vec::new(alloc);
    for row in system.rows() {
        let longer = widened(alloc, vars, row)?;
        wide.push(longer)?;
    }
    Ok(wide)
}

/// The place of a variable's claim under a key.
pub(crate) fn member_place(
    alloc: Global,
    place: &Place,
    key: ObjectKey,
    variable: usize,
) -> Result<Place, Memory>
    ensures { IfOk result (λ inner. inner ≡ member_place place.now key variable) }
{
    place
        .within(alloc, Step::Key(key))?
        .within(alloc, Step::Index(variable as u64))
}
