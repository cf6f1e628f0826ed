//! Whether a word is shown to be written in a credited nest.
#![tactic(auto, using(claims::proofs::Found::in_a_row))]

ghost use Rattle.std.specs.Prelude.{◌≡◌, ◌+◌, ◌*◌, ◌≤◌, ◌++◌, ◌∷◌, [], length, map, slice_get, None, Some, IsSomeAnd, MatchOption, codes};
ghost use Rattle.std.specs.List.{AllByRecursion};
ghost use Rattle.affine_form.specs.Rows.{within_rows, BoundsFit, IsSmallOver};
ghost use Rattle.affine_form.specs.System.{AllOver};
ghost use Rattle.affine_program.specs.Domain.{depth_of};
ghost use Rattle.claims.specs.Claims.{Decides};
ghost use Rattle.claims.specs.declared.place.Step.TheVariants.{Key};
ghost use Rattle.claims.specs.Shown.{follow_claims, IsFew};
ghost use Rattle.dep_quast.specs.Context.{parameter_point};
ghost use Rattle.reuse_paths.specs.EntryClaims.{credit_goals, IsOfCredit};
ghost use Rattle.reuse_paths.specs.Families.{credit_of};
ghost use Rattle.dep_quast.specs.OpenLeaves.{form_at, origin_of, written};
ghost use Rattle.reuse_paths.specs.WalkSettings.{keeps, reading_point, region_variables};
ghost use Rattle.reuse_paths.specs.WalkViews.{kept_of, walk_of, OriginFits, ReadingFits};
ghost use Rattle.iolb_model.specs.declared.limits.TheConstants.{LOOPS};

use crate::family::Credit;
use crate::region::written_values;
use crate::walking::{Kept, Walking, region_variables};
use affine_form::{Form, Multipliers, system_of, variables_from, within_rows};
use claims::shown::goals_shown;
use claims::{ObjectKey, Place, Refused, Step, refusal};
use dep_quast::open_leaves::Origin;
use domain_count::Nest;
use std::alloc::Global;

/// Whether an instance with these loop values is shown to be in a nest, in a system of the region of a statement with these
/// rows.
fn nest_shown(
    alloc: Global,
    walking: &Walking,
    place: &Place,
    statement: u16,
    rows: &[Form],
    nest: &Nest,
    values: &[Form],
    shown: &[Multipliers],
) -> Result<(), Refused>
    requires fits { ReadingFits (walk_of walking.now) statement }
    requires rows_over { AllOver (region_variables (walk_of walking.now) statement) rows.now }
    requires few { IsFew (length rows.now) }
    requires few_values { length values.now ≤ LOOPS }
    requires bounds_fit { BoundsFit (length (walk_of walking.now).program.parameters) nest.now }
    requires one_each { length values.now ≡ length nest.now }
    requires values_over { AllByRecursion (IsSmallOver (length (walk_of walking.now).program.parameters + depth_of (walk_of walking.now).program statement)) values.now }
    requires enough { length shown.now ≡ 2 * length nest.now }
    ensures { Decides (follow_claims walking.now.condition (place.now ++ Key (codes "rows") ∷ []) (record { vars = region_variables (walk_of walking.now) statement; rows = rows.now }) 0
        (within_rows (region_variables (walk_of walking.now) statement) nest.now (parameter_point (walk_of walking.now).program (region_variables (walk_of walking.now) statement))
        (map (form_at (region_variables (walk_of walking.now) statement) (reading_point (walk_of walking.now) statement)) values.now)) shown.now) result }
{
    let vars = region_variables(walking, statement);
    let params = variables_from(alloc, vars, 0, walking.program.params().len())?;
    let here = written_values(alloc, walking, statement, values)?;
    let bounds = nest.bounds();
    let goals = within_rows(alloc, vars, bounds, params.as_slice(), here.as_slice())?;
    let system = system_of(alloc, vars, rows)?;
    let list = place.within(alloc, Step::Key(ObjectKey("rows")))?;
    goals_shown(
        alloc,
        walking.condition,
        &list,
        &system,
        goals.as_slice(),
        shown,
    )
}

/// The credit with this number, where there is one.
fn credit_at(credits: &[Credit], number: u8) -> Option<&Credit>
    ensures { MatchOption result (slice_get (map credit_of credits.now) number ≡ None) (λ credit. slice_get (map credit_of credits.now) number ≡ Some (credit_of credit.now)) }
{
    credits.get(usize::from(number))
}

/// Whether a word is shown to have been written in the credited nest with this number, in a system with these rows.
pub(crate) fn credit_shown(
    alloc: Global,
    walking: &Walking,
    kept: Kept,
    place: &Place,
    statement: u16,
    rows: &[Form],
    origin: &Origin,
    number: u8,
    shown: &[Multipliers],
) -> Result<(), Refused>
    requires fits { ReadingFits (walk_of walking.now) statement }
    requires aim { (walk_of walking.now).aim ≡ keeps (kept_of kept) }
    requires rows_over { AllOver (region_variables (walk_of walking.now) statement) rows.now }
    requires few { IsFew (length rows.now) }
    requires origin { OriginFits (walk_of walking.now).program (length (walk_of walking.now).program.parameters + depth_of (walk_of walking.now).program statement) (origin_of origin.now) }
    requires enough { IsSomeAnd (slice_get (kept_of kept).credits number) (λ nest. length shown.now ≡ 2 * length nest.nest) }
    ensures { Decides (record { condition = walking.now.condition; place = place.now; statement = IsOfCredit (kept_of kept.entry).credits number (origin_of origin.now) }
        ∷ follow_claims walking.now.condition (place.now ++ Key (codes "rows") ∷ []) (record { vars = region_variables (walk_of walking.now) statement; rows = rows.now }) 0
        (credit_goals (walk_of walking.now).program (kept_of kept.entry).credits (region_variables (walk_of walking.now) statement) (reading_point (walk_of walking.now) statement) number (origin_of origin.now)) shown.now) result }
{
    let _params = walking.program.params();
    let Some(credit) = credit_at(kept.credits, number) else {
        return Err(refusal(alloc, walking.condition, place));
    };
    let Origin::Written {
        statement: writer,
        point,
    } = origin
    else {
        return Err(refusal(alloc, walking.condition, place));
    };
    if *writer != credit.statement {
        return Err(refusal(alloc, walking.condition, place));
    }
    nest_shown(
        alloc,
        walking,
        place,
        statement,
        rows,
        &credit.nest,
        point.as_slice(),
        shown,
    )?;
    Ok(())
}
