//! Whether what a walk that keeps labels claims at a leaf is shown.
#![tactic(auto, using(claims::proofs::Found::in_a_row))]

ghost use Rattle.std.specs.Prelude.{◌≡◌, ◌+◌, ◌*◌, length};
ghost use Rattle.affine_form.specs.System.{AllOver};
ghost use Rattle.affine_program.specs.Domain.{depth_of};
ghost use Rattle.claims.specs.Claims.{Decides};
ghost use Rattle.claims.specs.Shown.{IsFew};
ghost use Rattle.dep_quast.specs.Truth.{ReadFits};
ghost use Rattle.dep_quast.specs.Views.{read_of};
ghost use Rattle.reuse_paths.specs.EntryClaims.{keeping_claims};
ghost use Rattle.reuse_paths.specs.LeafClaims.{claim_of, goes_on, is_credited, stops};
ghost use Rattle.dep_quast.specs.OpenLeaves.{origin_of};
ghost use Rattle.reuse_paths.specs.WalkFits.{KeepingFits};
ghost use Rattle.reuse_paths.specs.WalkSettings.{keeps, reading_point, region_variables};
ghost use Rattle.reuse_paths.specs.WalkViews.{kept_of, walk_of, OriginFits, ReadingFits};

use crate::Leaf;
use crate::credited::credit_shown;
use crate::entry_shown::{empty_shown, going_shown};
use crate::walking::{Kept, Walking, region_variables};
use crate::word_labels::{input_shown, label_shown};
use affine_form::{Form, Multipliers};
use claims::{ObjectKey, Place, Refused, refusal};
use dep_quast::open_leaves::Origin;
use dep_quast::reader::Reader;
use std::alloc::Global;

/// Whether a walk is shown to stop at a leaf, at an input with the reader's label.
fn stop_shown(
    alloc: Global,
    walking: &Walking,
    kept: Kept,
    place: &Place,
    reader: Reader,
    rows: &[Form],
    origin: &Origin,
    label: &[Multipliers],
) -> Result<(), Refused>
    requires fits { ReadingFits (walk_of walking.now) reader.statement }
    requires aim { (walk_of walking.now).aim ≡ keeps (kept_of kept) }
    requires read_fits { ReadFits (walk_of walking.now).program (read_of reader) }
    requires rows_over { AllOver (region_variables (walk_of walking.now) reader.statement) rows.now }
    requires few { IsFew (length rows.now) }
    requires enough { length label.now ≡ 2 * length (kept_of kept).reader }
    ensures { Decides (keeping_claims walking.now.condition (walk_of walking.now) (kept_of kept.entry) (read_of reader) place.now
        (record { vars = region_variables (walk_of walking.now) reader.statement; rows = rows.now }) (reading_point (walk_of walking.now) reader.statement) (origin_of origin.now) (stops label.now)) result }
{
    match origin {
        Origin::Input => input_shown(
            alloc,
            walking,
            kept,
            place,
            ObjectKey("stop"),
            reader,
            rows,
            label,
        ),
        _ => Err(refusal(alloc, walking.condition, place)),
    }
}

/// Whether a walk is shown to stop at a leaf in a credited nest, at a word with the reader's label.
fn credited_shown(
    alloc: Global,
    walking: &Walking,
    kept: Kept,
    place: &Place,
    reader: Reader,
    rows: &[Form],
    origin: &Origin,
    number: u8,
    shown: &[Multipliers],
    label: &[Multipliers],
) -> Result<(), Refused>
    requires fits { ReadingFits (walk_of walking.now) reader.statement }
    requires aim { (walk_of walking.now).aim ≡ keeps (kept_of kept) }
    requires read_fits { ReadFits (walk_of walking.now).program (read_of reader) }
    requires rows_over { AllOver (region_variables (walk_of walking.now) reader.statement) rows.now }
    requires few { IsFew (length rows.now) }
    requires origin { OriginFits (walk_of walking.now).program (length (walk_of walking.now).program.parameters + depth_of (walk_of walking.now).program reader.statement) (origin_of origin.now) }
    requires entry_fits { KeepingFits (walk_of walking.now) (kept_of kept) (read_of reader) (origin_of origin.now) (is_credited number shown.now label.now) }
    ensures { Decides (keeping_claims walking.now.condition (walk_of walking.now) (kept_of kept.entry) (read_of reader) place.now
        (record { vars = region_variables (walk_of walking.now) reader.statement; rows = rows.now }) (reading_point (walk_of walking.now) reader.statement) (origin_of origin.now)
        (is_credited number shown.now label.now)) result }
{
    let statement = reader.statement;
    credit_shown(
        alloc, walking, kept, place, statement, rows, origin, number, shown,
    )?;
    label_shown(
        alloc,
        walking,
        kept,
        place,
        ObjectKey("label"),
        reader,
        rows,
        origin,
        label,
    )?;
    Ok(())
}

/// Whether a walk is shown to go on at a leaf, at a word with the reader's label.
fn onward_shown(
    alloc: Global,
    walking: &Walking,
    kept: Kept,
    place: &Place,
    reader: Reader,
    rows: &[Form],
    origin: &Origin,
    shown: &[Multipliers],
    label: &[Multipliers],
) -> Result<(), Refused>
    requires fits { ReadingFits (walk_of walking.now) reader.statement }
    requires aim { (walk_of walking.now).aim ≡ keeps (kept_of kept) }
    requires read_fits { ReadFits (walk_of walking.now).program (read_of reader) }
    requires rows_over { AllOver (region_variables (walk_of walking.now) reader.statement) rows.now }
    requires few { IsFew (length rows.now) }
    requires origin { OriginFits (walk_of walking.now).program (length (walk_of walking.now).program.parameters + depth_of (walk_of walking.now).program reader.statement) (origin_of origin.now) }
    requires entry_fits { KeepingFits (walk_of walking.now) (kept_of kept) (read_of reader) (origin_of origin.now) (goes_on shown.now label.now) }
    ensures { Decides (keeping_claims walking.now.condition (walk_of walking.now) (kept_of kept.entry) (read_of reader) place.now
        (record { vars = region_variables (walk_of walking.now) reader.statement; rows = rows.now }) (reading_point (walk_of walking.now) reader.statement) (origin_of origin.now)
        (goes_on shown.now label.now)) result }
{
    let statement = reader.statement;
    going_shown(alloc, walking, place, statement, rows, origin, shown)?;
    label_shown(
        alloc,
        walking,
        kept,
        place,
        ObjectKey("label"),
        reader,
        rows,
        origin,
        label,
    )?;
    Ok(())
}

/// Whether what an entry of a walk that keeps labels claims at a leaf is shown, in the system of the region of a
/// statement with these rows, those of the leaf's tests among them.
pub(crate) fn keeping_shown(
    alloc: Global,
    walking: &Walking,
    kept: Kept,
    place: &Place,
    reader: Reader,
    rows: &[Form],
    origin: &Origin,
    entry: &Leaf,
) -> Result<(), Refused>
    requires fits { ReadingFits (walk_of walking.now) reader.statement }
    requires aim { (walk_of walking.now).aim ≡ keeps (kept_of kept) }
    requires read_fits { ReadFits (walk_of walking.now).program (read_of reader) }
    requires rows_over { AllOver (region_variables (walk_of walking.now) reader.statement) rows.now }
    requires few { IsFew (length rows.now) }
    requires origin { OriginFits (walk_of walking.now).program (length (walk_of walking.now).program.parameters + depth_of (walk_of walking.now).program reader.statement) (origin_of origin.now) }
    requires entry_fits { KeepingFits (walk_of walking.now) (kept_of kept) (read_of reader) (origin_of origin.now) (claim_of entry.now) }
    ensures { Decides (keeping_claims walking.now.condition (walk_of walking.now) (kept_of kept.entry) (read_of reader) place.now
        (record { vars = region_variables (walk_of walking.now) reader.statement; rows = rows.now }) (reading_point (walk_of walking.now) reader.statement) (origin_of origin.now) (claim_of entry.now)) result }
{
    match entry {
        Leaf::Empty(shown) => empty_shown(alloc, walking, place, reader.statement, rows, shown),
        Leaf::Stop { label } => {
            let shown = label.as_slice();
            stop_shown(alloc, walking, kept, place, reader, rows, origin, shown)
        }
        Leaf::Credit {
            credit,
            rows: shown,
            label,
        } => credited_shown(
            alloc,
            walking,
            kept,
            place,
            reader,
            rows,
            origin,
            *credit,
            shown.as_slice(),
            label.as_slice(),
        ),
        Leaf::Go { rows: shown, label } => onward_shown(
            alloc,
            walking,
            kept,
            place,
            reader,
            rows,
            origin,
            shown.as_slice(),
            label.as_slice(),
        ),
        Leaf::Arrive { .. } => Err(refusal(alloc, walking.condition, place)),
    }
}
