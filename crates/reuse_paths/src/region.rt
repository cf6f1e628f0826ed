//! Rows of regions.

ghost use Rattle.std.specs.Prelude.{◌≡◌, ◌+◌, ◌<◌, ◌≤◌, length, map, IfOk};
ghost use Rattle.std.specs.List.{AllByRecursion};
ghost use Rattle.affine_form.specs.Form.{variables, IsSmallForm};
ghost use Rattle.affine_form.specs.Rows.{equality_rows, widened, IsSmallOver};
ghost use Rattle.affine_form.specs.System.{AllOver};
ghost use Rattle.affine_program.specs.Domain.{depth_of};
ghost use Rattle.dep_quast.specs.OpenLeaves.{form_at};
ghost use Rattle.reuse_paths.specs.WalkFits.{NestFits};
ghost use Rattle.reuse_paths.specs.WalkSettings.{forms_behind, reading_point, region_context, region_variables, spot_variables};
ghost use Rattle.reuse_paths.specs.WalkViews.{walk_of, EndsFit, OriginFits};
ghost use Rattle.iolb_model.specs.declared.limits.TheConstants.{LOOPS, NEST_VARIABLES, PARAMETERS, PUT_SIZE, VARIABLES};

use crate::walking::{Walking, reading_point, region_values, region_variables, spot_variables};
use affine_form::{Form, Memory, put, variables_from, widened};
use claims::lists::{all_widened, equal_rows, followed_by};
use dep_quast::point_rows::domain_rows;
use domain_count::rows_before;
use std::alloc::Global;

/// The rows of a region with these rows of its own: the assumptions and the bounds of the nest, the domain of the
/// statement, and its own.
pub fn region_context(
    alloc: Global,
    walking: &Walking,
    statement: u16,
    rows: &[Form],
) -> Result<Vec<Form>, Memory>
    requires nest { NestFits (walk_of walking.now).program (walk_of walking.now).nest }
    requires there { statement < length (walk_of walking.now).program.statements }
    requires rows_over { AllOver (region_variables (walk_of walking.now) statement) rows.now }
    ensures rows { IfOk result (λ all. all.items ≡ region_context (walk_of walking.now) statement rows.now) }
    ensures over { IfOk result (λ all. AllOver (region_variables (walk_of walking.now) statement) all.items) }
{
    let vars = region_variables(walking, statement);
    let before = rows_before(alloc, walking.program, walking.nest.bounds())?;
    let nest = all_widened(alloc, vars, before.rows())?;
    let values = region_values(alloc, walking, statement)?;
    let domain = domain_rows(alloc, walking.program, vars, statement, values.as_slice())?;
    let inside = followed_by(alloc, nest, domain.as_slice())?;
    followed_by(alloc, inside, rows)
}

/// Forms at an instance: with the forms of a point put in for their variables, and read over so many variables.
pub(crate) fn forms_at(
    alloc: Global,
    vars: usize,
    forms: &[Form],
    point: &[Form],
) -> Result<Vec<Form>, Memory>
    requires few { vars ≤ VARIABLES }
    requires few_forms { length point.now ≤ VARIABLES }
    requires over { AllByRecursion (IsSmallOver (length point.now)) forms.now }
    requires point_over { AllByRecursion (IsSmallOver vars) point.now }
    ensures forms { IfOk result (λ all. all.items ≡ map (form_at vars point.now) forms.now) }
{
    let mut all = Vec::new(alloc);
    for form in forms {
        all.push(form_at(alloc, vars, form, point)?)?;
    }
    Ok(all)
}

/// A form at an instance.
fn form_at(alloc: Global, vars: usize, form: &Form, point: &[Form]) -> Result<Form, Memory>
    requires few { vars ≤ VARIABLES }
    requires few_forms { length point.now ≤ VARIABLES }
    requires over { IsSmallOver (length point.now) form.now }
    requires point_over { AllByRecursion (IsSmallOver vars) point.now }
    ensures { IfOk result (λ at. at ≡ form_at vars point.now form.now) }
{
    let put = put(alloc, vars, form, point)?;
    widened(alloc, vars, &put)
}

/// Forms over the parameters, the nest's variables and some values, with forms put in for the values.
pub(crate) fn forms_behind(
    alloc: Global,
    walking: &Walking,
    vars: usize,
    values: &[Form],
    forms: &[Form],
) -> Result<Vec<Form>, Memory>
    requires nest { NestFits (walk_of walking.now).program (walk_of walking.now).nest }
    requires room { spot_variables (walk_of walking.now) ≤ vars }
    requires few { vars ≤ VARIABLES }
    requires few_values { length values.now ≤ LOOPS }
    requires over { AllByRecursion (IsSmallOver (spot_variables (walk_of walking.now) + length values.now)) forms.now }
    requires values_over { AllByRecursion (IsSmallOver vars) values.now }
    ensures { IfOk result (λ all. all.items ≡ forms_behind (walk_of walking.now) vars values.now forms.now) }
{
    let first = variables_from(alloc, vars, 0, spot_variables(walking))?;
    let point = followed_by(alloc, first, values)?;
    forms_at(alloc, vars, forms, point.as_slice())
}

/// The loop values of an instance that wrote a word, at the instance of a region's statement that reads it.
pub(crate) fn written_values(
    alloc: Global,
    walking: &Walking,
    statement: u16,
    values: &[Form],
) -> Result<Vec<Form>, Memory>
    requires nest { NestFits (walk_of walking.now).program (walk_of walking.now).nest }
    requires there { statement < length (walk_of walking.now).program.statements }
    requires over { AllByRecursion (IsSmallOver (length (walk_of walking.now).program.parameters + depth_of (walk_of walking.now).program statement)) values.now }
    ensures values { IfOk result (λ all. all.items ≡ map (form_at (region_variables (walk_of walking.now) statement) (reading_point (walk_of walking.now) statement)) values.now) }
    ensures over { IfOk result (λ all. AllByRecursion (IsSmallOver (region_variables (walk_of walking.now) statement)) all.items) }
{
    let vars = region_variables(walking, statement);
    let point = reading_point(alloc, walking, statement)?;
    forms_at(alloc, vars, values, point.as_slice())
}

/// The rows which say that forms are equal pair by pair.
pub(crate) fn equality_rows(
    alloc: Global,
    vars: usize,
    left: &[Form],
    right: &[Form],
) -> Result<Vec<Form>, Memory>
    requires few { vars ≤ VARIABLES }
    requires one_each { length left.now ≡ length right.now }
    requires left_over { AllByRecursion (IsSmallOver vars) left.now }
    requires right_over { AllByRecursion (IsSmallOver vars) right.now }
    ensures rows { IfOk result (λ rows. rows.items ≡ equality_rows vars left.now right.now) }
{
    equal_rows(alloc, vars, left, right)
}
