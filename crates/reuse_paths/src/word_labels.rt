//! Labels of words, and whether they are shown to be those of their readers.
#![tactic(auto, using(claims::proofs::Found::in_a_row))]

ghost use Rattle.std.specs.Prelude.{◌≡◌, ◌+◌, ◌*◌, ◌≤◌, ◌++◌, ◌∷◌, [], length, map, Some, IfOk};
ghost use Rattle.std.specs.List.{AllByRecursion};
ghost use Rattle.affine_form.specs.Form.{variables, IsSmallForm};
ghost use Rattle.affine_form.specs.Rows.{equality_rows, IsSmallOver};
ghost use Rattle.affine_form.specs.System.{AllOver};
ghost use Rattle.affine_program.specs.Domain.{depth_of};
ghost use Rattle.claims.specs.Claims.{Decides};
ghost use Rattle.claims.specs.declared.place.Step.TheVariants.{Key};
ghost use Rattle.claims.specs.Shown.{follow_claims, IsFew};
ghost use Rattle.dep_quast.specs.Truth.{ReadFits};
ghost use Rattle.dep_quast.specs.Views.{read_of};
ghost use Rattle.reuse_paths.specs.EntryClaims.{label_claims, word_label};
ghost use Rattle.dep_quast.specs.OpenLeaves.{as_input, form_at, origin_of, written};
ghost use Rattle.reuse_paths.specs.WalkSettings.{forms_behind, keeps, reading_point, region_variables, spot_variables};
ghost use Rattle.reuse_paths.specs.WalkViews.{kept_of, walk_of, OriginFits, ReadingFits};
ghost use Rattle.iolb_model.specs.declared.limits.TheConstants.{LOOPS, PUT_SIZE};

use crate::family::{instance_label, label_in};
use crate::region::{forms_behind, written_values};
use crate::walking::{Kept, Walking, region_variables};
use affine_form::{Form, Memory, Multipliers, system_of};
use claims::lists::equal_rows;
use claims::shown::goals_shown;
use claims::{ObjectKey, Place, Refused, Step, refusal};
use dep_quast::open_leaves::Origin;
use dep_quast::reader::{Reader, reference};
use std::alloc::Global;

/// A label with the loop values or subscripts of a word put in, at the instance of a region's statement that reads it.
fn word_label(
    alloc: Global,
    walking: &Walking,
    statement: u16,
    label: &[Form],
    values: &[Form],
) -> Result<Vec<Form>, Memory>
    requires fits { ReadingFits (walk_of walking.now) statement }
    requires few_values { length values.now ≤ LOOPS }
    requires label_over { AllByRecursion (IsSmallOver (spot_variables (walk_of walking.now) + length values.now)) label.now }
    requires values_over { AllByRecursion (IsSmallOver (length (walk_of walking.now).program.parameters + depth_of (walk_of walking.now).program statement)) values.now }
    ensures word { IfOk result (λ word. word.items ≡ forms_behind (walk_of walking.now) (region_variables (walk_of walking.now) statement)
        (map (form_at (region_variables (walk_of walking.now) statement) (reading_point (walk_of walking.now) statement)) values.now) label.now) }
    ensures within { IfOk result (λ word. AllByRecursion (λ form. variables form ≤ region_variables (walk_of walking.now) statement) word.items) }
    ensures small { IfOk result (λ word. AllByRecursion (IsSmallForm PUT_SIZE) word.items) }
{
    let _params = walking.program.params();
    let vars = region_variables(walking, statement);
    let here = written_values(alloc, walking, statement, values)?;
    forms_behind(alloc, walking, vars, here.as_slice(), label)
}

/// Whether a label with these values put in is shown to be the reader's, by multipliers under a key, in a system of the
/// region of a statement with these rows.
fn same_shown(
    alloc: Global,
    walking: &Walking,
    place: &Place,
    key: ObjectKey,
    statement: u16,
    rows: &[Form],
    label: &[Form],
    values: &[Form],
    own: &[Form],
    shown: &[Multipliers],
) -> Result<(), Refused>
    requires fits { ReadingFits (walk_of walking.now) statement }
    requires rows_over { AllOver (region_variables (walk_of walking.now) statement) rows.now }
    requires few { IsFew (length rows.now) }
    requires few_values { length values.now ≤ LOOPS }
    requires label_over { AllByRecursion (IsSmallOver (spot_variables (walk_of walking.now) + length values.now)) label.now }
    requires values_over { AllByRecursion (IsSmallOver (length (walk_of walking.now).program.parameters + depth_of (walk_of walking.now).program statement)) values.now }
    requires own_over { AllOver (region_variables (walk_of walking.now) statement) own.now }
    requires own_small { AllByRecursion (IsSmallForm PUT_SIZE) own.now }
    requires one_each { length label.now ≡ length own.now }
    requires enough { length shown.now ≡ 2 * length own.now }
    ensures { Decides (follow_claims 14 (place.now ++ Key key ∷ []) (record { vars = region_variables (walk_of walking.now) statement; rows = rows.now }) 0
        (equality_rows (region_variables (walk_of walking.now) statement) (forms_behind (walk_of walking.now) (region_variables (walk_of walking.now) statement)
        (map (form_at (region_variables (walk_of walking.now) statement) (reading_point (walk_of walking.now) statement)) values.now) label.now) own.now) shown.now) result }
{
    let vars = region_variables(walking, statement);
    let word = word_label(alloc, walking, statement, label, values)?;
    let goals = equal_rows(alloc, vars, word.as_slice(), own)?;
    let system = system_of(alloc, vars, rows)?;
    let list = place.within(alloc, Step::Key(key))?;
    goals_shown(alloc, 14, &list, &system, goals.as_slice(), shown)
}

/// Whether a word that an instance of a statement with these loop values wrote is shown to have the reader's label.
fn written_shown(
    alloc: Global,
    walking: &Walking,
    kept: Kept,
    place: &Place,
    key: ObjectKey,
    reader: Reader,
    rows: &[Form],
    writer: u16,
    values: &[Form],
    shown: &[Multipliers],
) -> Result<(), Refused>
    requires fits { ReadingFits (walk_of walking.now) reader.statement }
    requires aim { (walk_of walking.now).aim ≡ keeps (kept_of kept) }
    requires rows_over { AllOver (region_variables (walk_of walking.now) reader.statement) rows.now }
    requires few { IsFew (length rows.now) }
    requires origin { OriginFits (walk_of walking.now).program (length (walk_of walking.now).program.parameters + depth_of (walk_of walking.now).program reader.statement) (written writer values.now) }
    requires enough { length shown.now ≡ 2 * length (kept_of kept).reader }
    ensures { Decides (label_claims (kept_of kept.entry).reader place.now key (record { vars = region_variables (walk_of walking.now) reader.statement; rows = rows.now })
        (word_label (walk_of walking.now) (kept_of kept.entry) (read_of reader) (region_variables (walk_of walking.now) reader.statement) (reading_point (walk_of walking.now) reader.statement) (written writer values.now)) shown.now) result }
{
    let _params = walking.program.params();
    let Some(label) = instance_label(kept.nodes, writer) else {
        return Err(refusal(alloc, 14, place));
    };
    same_shown(
        alloc,
        walking,
        place,
        key,
        reader.statement,
        rows,
        label,
        values,
        kept.reader,
        shown,
    )?;
    Ok(())
}

/// Whether a word that is an input is shown to have the reader's label.
pub(crate) fn input_shown(
    alloc: Global,
    walking: &Walking,
    kept: Kept,
    place: &Place,
    key: ObjectKey,
    reader: Reader,
    rows: &[Form],
    shown: &[Multipliers],
) -> Result<(), Refused>
    requires fits { ReadingFits (walk_of walking.now) reader.statement }
    requires aim { (walk_of walking.now).aim ≡ keeps (kept_of kept) }
    requires read_fits { ReadFits (walk_of walking.now).program (read_of reader) }
    requires rows_over { AllOver (region_variables (walk_of walking.now) reader.statement) rows.now }
    requires few { IsFew (length rows.now) }
    requires enough { length shown.now ≡ 2 * length (kept_of kept).reader }
    ensures { Decides (label_claims (kept_of kept.entry).reader place.now key (record { vars = region_variables (walk_of walking.now) reader.statement; rows = rows.now })
        (word_label (walk_of walking.now) (kept_of kept.entry) (read_of reader) (region_variables (walk_of walking.now) reader.statement) (reading_point (walk_of walking.now) reader.statement) as_input) shown.now) result }
{
    let _params = walking.program.params();
    let cell = reference(walking.program, reader);
    let Some(label) = label_in(kept.inputs, cell.array) else {
        return Err(refusal(alloc, 14, place));
    };
    same_shown(
        alloc,
        walking,
        place,
        key,
        reader.statement,
        rows,
        label,
        cell.subs.as_slice(),
        kept.reader,
        shown,
    )?;
    Ok(())
}

/// Whether a word is shown to have the reader's label, by multipliers under a key, in a system with these rows.
pub(crate) fn label_shown(
    alloc: Global,
    walking: &Walking,
    kept: Kept,
    place: &Place,
    key: ObjectKey,
    reader: Reader,
    rows: &[Form],
    origin: &Origin,
    shown: &[Multipliers],
) -> Result<(), Refused>
    requires fits { ReadingFits (walk_of walking.now) reader.statement }
    requires aim { (walk_of walking.now).aim ≡ keeps (kept_of kept) }
    requires read_fits { ReadFits (walk_of walking.now).program (read_of reader) }
    requires rows_over { AllOver (region_variables (walk_of walking.now) reader.statement) rows.now }
    requires few { IsFew (length rows.now) }
    requires origin { OriginFits (walk_of walking.now).program (length (walk_of walking.now).program.parameters + depth_of (walk_of walking.now).program reader.statement) (origin_of origin.now) }
    requires enough { length shown.now ≡ 2 * length (kept_of kept).reader }
    ensures { Decides (label_claims (kept_of kept.entry).reader place.now key (record { vars = region_variables (walk_of walking.now) reader.statement; rows = rows.now })
        (word_label (walk_of walking.now) (kept_of kept.entry) (read_of reader) (region_variables (walk_of walking.now) reader.statement) (reading_point (walk_of walking.now) reader.statement) (origin_of origin.now)) shown.now) result }
{
    match origin {
        Origin::Written { statement, point } => written_shown(
            alloc,
            walking,
            kept,
            place,
            key,
            reader,
            rows,
            *statement,
            point.as_slice(),
            shown,
        ),
        Origin::Input => input_shown(alloc, walking, kept, place, key, reader, rows, shown),
        Origin::Unknown => Err(refusal(alloc, 14, place)),
    }
}
