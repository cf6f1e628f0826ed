//! Whether what a walk that is to arrive claims at a leaf is shown, and what walks of both kinds claim.
#![tactic(auto, using(claims::proofs::Found::in_a_row))]

ghost use Rattle.std.specs.Prelude.{◌≡◌, ◌+◌, ◌*◌, ◌<◌, ◌≤◌, ◌++◌, ◌∷◌, [], length, map, IfOk, codes};
ghost use Rattle.std.specs.List.{AllByRecursion};
ghost use Rattle.affine_form.specs.Rows.{IsSmallOver};
ghost use Rattle.affine_form.specs.System.{AllOver};
ghost use Rattle.affine_program.specs.Domain.{depth_of};
ghost use Rattle.claims.specs.Claims.{Decides};
ghost use Rattle.claims.specs.declared.place.Step.TheVariants.{Key};
ghost use Rattle.claims.specs.Shown.{follow_claims, IsFew, IsPointless};
ghost use Rattle.dep_quast.specs.Views.{read_of};
ghost use Rattle.reuse_paths.specs.EntryClaims.{arriving_claims, arriving_goals, entry_place, first_place, going_goals, going_place, IsInRegion};
ghost use Rattle.reuse_paths.specs.LeafClaims.{arrives, claim_of};
ghost use Rattle.dep_quast.specs.OpenLeaves.{form_at, origin_of, written};
ghost use Rattle.reuse_paths.specs.WalkFits.{ArrivingFits, NestFits, SpotFits};
ghost use Rattle.reuse_paths.specs.Walks.{region_of, spot_of};
ghost use Rattle.reuse_paths.specs.WalkSettings.{forms_behind, reading_point, region_variables, spot_variables};
ghost use Rattle.reuse_paths.specs.WalkViews.{walk_of, OriginFits, ReadingFits};
ghost use Rattle.iolb_model.specs.declared.limits.TheConstants.{LOOPS};

use crate::region::{equality_rows, forms_behind, written_values};
use crate::walking::{Walking, region_at, region_variables};
use crate::{Leaf, Region, Spot};
use affine_form::{Form, Memory, Multipliers, system_of};
use claims::lists::all_widened;
use claims::shown::{goals_shown, system_shown};
use claims::{ObjectKey, Place, Refused, Step, refusal};
use dep_quast::open_leaves::Origin;
use dep_quast::reader::Reader;
use std::alloc::Global;

/// The place of the first of multipliers in a list under a key, and this place where there is none.
fn first_place(
    alloc: Global,
    place: &Place,
    key: ObjectKey,
    shown: &[Multipliers],
) -> Result<Place, Memory>
    ensures { IfOk result (λ first. first ≡ first_place place.now key shown.now) }
{
    if shown.is_empty() {
        return place.try_clone(alloc);
    }
    let list = place.within(alloc, Step::Key(key))?;
    list.within(alloc, Step::Index(0))
}

/// The place of the first of an entry's multipliers, its rows before its label, and this place where there is none.
fn going_place(
    alloc: Global,
    place: &Place,
    rows: &[Multipliers],
    label: &[Multipliers],
) -> Result<Place, Memory>
    ensures { IfOk result (λ first. first ≡ going_place place.now rows.now label.now) }
{
    if rows.is_empty() {
        return first_place(alloc, place, ObjectKey("label"), label);
    }
    first_place(alloc, place, ObjectKey("rows"), rows)
}

/// The place of the first multipliers of an entry at this place, and this place where it has none.
pub(crate) fn entry_place(alloc: Global, place: &Place, entry: &Leaf) -> Result<Place, Memory>
    ensures { IfOk result (λ first. first ≡ entry_place place.now (claim_of entry.now)) }
{
    match entry {
        Leaf::Empty(_) => place.within(alloc, Step::Key(ObjectKey("empty"))),
        Leaf::Stop { label } => first_place(alloc, place, ObjectKey("stop"), label.as_slice()),
        Leaf::Credit { rows, label, .. } | Leaf::Go { rows, label } => {
            going_place(alloc, place, rows.as_slice(), label.as_slice())
        }
        Leaf::Arrive { equal } => first_place(alloc, place, ObjectKey("arrive"), equal.as_slice()),
    }
}

/// Whether an instance of the target's statement with these loop values is shown to be the target, in a system of the region
/// of a statement with these rows.
fn target_shown(
    alloc: Global,
    walking: &Walking,
    target: &Spot,
    place: &Place,
    statement: u16,
    rows: &[Form],
    values: &[Form],
    equal: &[Multipliers],
) -> Result<(), Refused>
    requires fits { ReadingFits (walk_of walking.now) statement }
    requires target_fits { SpotFits (walk_of walking.now).program (spot_variables (walk_of walking.now)) (spot_of target.now) }
    requires rows_over { AllOver (region_variables (walk_of walking.now) statement) rows.now }
    requires few { IsFew (length rows.now) }
    requires origin { OriginFits (walk_of walking.now).program (length (walk_of walking.now).program.parameters + depth_of (walk_of walking.now).program statement) (written target.now.statement values.now) }
    requires enough { length equal.now ≡ 2 * depth_of (walk_of walking.now).program target.now.statement }
    ensures { Decides (follow_claims walking.now.condition (place.now ++ Key (codes "arrive") ∷ []) (record { vars = region_variables (walk_of walking.now) statement; rows = rows.now }) 0
        (arriving_goals (spot_of target.now) (region_variables (walk_of walking.now) statement) (reading_point (walk_of walking.now) statement) (written target.now.statement values.now)) equal.now) result }
{
    let vars = region_variables(walking, statement);
    let here = written_values(alloc, walking, statement, values)?;
    let there = all_widened(alloc, vars, target.point.as_slice())?;
    let goals = equality_rows(alloc, vars, here.as_slice(), there.as_slice())?;
    let system = system_of(alloc, vars, rows)?;
    let list = place.within(alloc, Step::Key(ObjectKey("arrive")))?;
    goals_shown(
        alloc,
        walking.condition,
        &list,
        &system,
        goals.as_slice(),
        equal,
    )
}

/// Whether a walk is shown to arrive at a leaf, in a system with these rows.
fn arrival_shown(
    alloc: Global,
    walking: &Walking,
    target: &Spot,
    place: &Place,
    statement: u16,
    rows: &[Form],
    origin: &Origin,
    equal: &[Multipliers],
) -> Result<(), Refused>
    requires fits { ReadingFits (walk_of walking.now) statement }
    requires target_fits { SpotFits (walk_of walking.now).program (spot_variables (walk_of walking.now)) (spot_of target.now) }
    requires rows_over { AllOver (region_variables (walk_of walking.now) statement) rows.now }
    requires few { IsFew (length rows.now) }
    requires origin { OriginFits (walk_of walking.now).program (length (walk_of walking.now).program.parameters + depth_of (walk_of walking.now).program statement) (origin_of origin.now) }
    requires enough { length equal.now ≡ 2 * depth_of (walk_of walking.now).program target.now.statement }
    ensures { Decides (arriving_claims walking.now.condition (walk_of walking.now) (spot_of target.now) place.now
        (record { vars = region_variables (walk_of walking.now) statement; rows = rows.now }) (reading_point (walk_of walking.now) statement) (origin_of origin.now) (arrives equal.now)) result }
{
    match origin {
        Origin::Written {
            statement: writer,
            point,
        } if *writer == target.statement => target_shown(
            alloc,
            walking,
            target,
            place,
            statement,
            rows,
            point.as_slice(),
            equal,
        ),
        _ => Err(refusal(alloc, walking.condition, place)),
    }
}

/// Whether an instance of a statement with these loop values is shown to be in its region, in a system of the region of
/// another statement with these rows.
fn region_shown(
    alloc: Global,
    walking: &Walking,
    place: &Place,
    statement: u16,
    rows: &[Form],
    region: &Region,
    values: &[Form],
    shown: &[Multipliers],
) -> Result<(), Refused>
    requires fits { ReadingFits (walk_of walking.now) statement }
    requires rows_over { AllOver (region_variables (walk_of walking.now) statement) rows.now }
    requires few { IsFew (length rows.now) }
    requires few_values { length values.now ≤ LOOPS }
    requires region_over { AllByRecursion (IsSmallOver (spot_variables (walk_of walking.now) + length values.now)) region.now.rows.items }
    requires values_over { AllByRecursion (IsSmallOver (length (walk_of walking.now).program.parameters + depth_of (walk_of walking.now).program statement)) values.now }
    requires enough { length shown.now ≡ length region.now.rows.items }
    ensures { Decides (follow_claims walking.now.condition (place.now ++ Key (codes "rows") ∷ []) (record { vars = region_variables (walk_of walking.now) statement; rows = rows.now }) 0
        (forms_behind (walk_of walking.now) (region_variables (walk_of walking.now) statement)
        (map (form_at (region_variables (walk_of walking.now) statement) (reading_point (walk_of walking.now) statement)) values.now) region.now.rows.items) shown.now) result }
{
    let vars = region_variables(walking, statement);
    let here = written_values(alloc, walking, statement, values)?;
    let own = region.rows.as_slice();
    let goals = forms_behind(alloc, walking, vars, here.as_slice(), own)?;
    let system = system_of(alloc, vars, rows)?;
    let list = place.within(alloc, Step::Key(ObjectKey("rows")))?;
    goals_shown(
        alloc,
        walking.condition,
        &list,
        &system,
        goals.as_slice(),
        shown,
    )
}

/// Whether a walk is shown to go on at a leaf, in a system with these rows: the word was written by an instance of a
/// statement with a region, which is in it.
pub(crate) fn going_shown(
    alloc: Global,
    walking: &Walking,
    place: &Place,
    statement: u16,
    rows: &[Form],
    origin: &Origin,
    shown: &[Multipliers],
) -> Result<(), Refused>
    requires fits { ReadingFits (walk_of walking.now) statement }
    requires rows_over { AllOver (region_variables (walk_of walking.now) statement) rows.now }
    requires few { IsFew (length rows.now) }
    requires origin { OriginFits (walk_of walking.now).program (length (walk_of walking.now).program.parameters + depth_of (walk_of walking.now).program statement) (origin_of origin.now) }
    requires enough { length shown.now ≡ length (going_goals (walk_of walking.now) (region_variables (walk_of walking.now) statement) (reading_point (walk_of walking.now) statement) (origin_of origin.now)) }
    ensures { Decides (record { condition = walking.now.condition; place = place.now; statement = IsInRegion (walk_of walking.now) (origin_of origin.now) }
        ∷ follow_claims walking.now.condition (place.now ++ Key (codes "rows") ∷ []) (record { vars = region_variables (walk_of walking.now) statement; rows = rows.now }) 0
        (going_goals (walk_of walking.now) (region_variables (walk_of walking.now) statement) (reading_point (walk_of walking.now) statement) (origin_of origin.now)) shown.now) result }
{
    let _params = walking.program.params();
    let Origin::Written {
        statement: writer,
        point,
    } = origin
    else {
        return Err(refusal(alloc, walking.condition, place));
    };
    let Some(region) = region_at(walking, *writer) else {
        return Err(refusal(alloc, walking.condition, place));
    };
    region_shown(
        alloc,
        walking,
        place,
        statement,
        rows,
        region,
        point.as_slice(),
        shown,
    )
}

/// Whether no point is shown to come to a leaf, in a system with these rows.
pub(crate) fn empty_shown(
    alloc: Global,
    walking: &Walking,
    place: &Place,
    statement: u16,
    rows: &[Form],
    shown: &Multipliers,
) -> Result<(), Refused>
    requires nest { NestFits (walk_of walking.now).program (walk_of walking.now).nest }
    requires there { statement < length (walk_of walking.now).program.statements }
    requires rows_over { AllOver (region_variables (walk_of walking.now) statement) rows.now }
    requires few { IsFew (length rows.now) }
    ensures { Decides (record {
      condition = walking.now.condition;
      place = place.now ++ Key (codes "empty") ∷ [];
      statement = IsPointless (record { vars = region_variables (walk_of walking.now) statement; rows = rows.now }) shown.now;
    } ∷ []) result }
{
    let vars = region_variables(walking, statement);
    let empty = place.within(alloc, Step::Key(ObjectKey("empty")))?;
    system_shown(alloc, walking.condition, &empty, vars, rows, shown)
}

/// Whether what an entry of a walk that is to arrive claims at a leaf is shown, in the system of the region of a
/// statement with these rows, those of the leaf's tests among them.
pub(crate) fn arriving_shown(
    alloc: Global,
    walking: &Walking,
    target: &Spot,
    place: &Place,
    reader: Reader,
    rows: &[Form],
    origin: &Origin,
    entry: &Leaf,
) -> Result<(), Refused>
    requires fits { ReadingFits (walk_of walking.now) reader.statement }
    requires target_fits { SpotFits (walk_of walking.now).program (spot_variables (walk_of walking.now)) (spot_of target.now) }
    requires rows_over { AllOver (region_variables (walk_of walking.now) reader.statement) rows.now }
    requires few { IsFew (length rows.now) }
    requires origin { OriginFits (walk_of walking.now).program (length (walk_of walking.now).program.parameters + depth_of (walk_of walking.now).program reader.statement) (origin_of origin.now) }
    requires entry_fits { ArrivingFits (walk_of walking.now) (spot_of target.now) (read_of reader) (origin_of origin.now) (claim_of entry.now) }
    ensures { Decides (arriving_claims walking.now.condition (walk_of walking.now) (spot_of target.now) place.now
        (record { vars = region_variables (walk_of walking.now) reader.statement; rows = rows.now }) (reading_point (walk_of walking.now) reader.statement) (origin_of origin.now) (claim_of entry.now)) result }
{
    let statement = reader.statement;
    match entry {
        Leaf::Empty(shown) => empty_shown(alloc, walking, place, statement, rows, shown),
        Leaf::Arrive { equal } => arrival_shown(
            alloc,
            walking,
            target,
            place,
            statement,
            rows,
            origin,
            equal.as_slice(),
        ),
        Leaf::Go { rows: shown, .. } => going_shown(
            alloc,
            walking,
            place,
            statement,
            rows,
            origin,
            shown.as_slice(),
        ),
        Leaf::Stop { .. } | Leaf::Credit { .. } => Err(refusal(alloc, walking.condition, place)),
    }
}
