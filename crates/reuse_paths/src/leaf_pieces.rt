//! The pieces of the words that walks take at leaves.

ghost use Rattle.std.specs.Prelude.{◌≡◌, ◌<◌, ◌+◌, ◌++◌, ◌∷◌, [], length, map, IfErr, OnOk, codes};
ghost use Rattle.std.specs.List.{AllByRecursion};
ghost use Rattle.affine_form.specs.Rows.{IsSmallOver};
ghost use Rattle.affine_form.specs.System.{AllOver};
ghost use Rattle.affine_program.specs.Domain.{depth_of};
ghost use Rattle.claims.specs.Claims.{AllHold, IsRefusal};
ghost use Rattle.claims.specs.declared.place.Step.TheVariants.{Key};
ghost use Rattle.claims.specs.Shown.{IsFew};
ghost use Rattle.dep_quast.specs.Truth.{ReadFits};
ghost use Rattle.dep_quast.specs.Views.{read_of};
ghost use Rattle.reuse_paths.specs.FewContexts.{few_claim, few_leaves, ReadersFit, TakenFits};
ghost use Rattle.reuse_paths.specs.LeafClaims.{claim_of};
ghost use Rattle.dep_quast.specs.OpenLeaves.{form_at, origin_of};
ghost use Rattle.footprint_pieces.specs.Pieces.{pieces_of};
ghost use Rattle.reuse_paths.specs.WalkClaims.{leaves_at};
ghost use Rattle.reuse_paths.specs.WalkPieces.{entry_pieces, leaves_pieces, word_pieces};
ghost use Rattle.reuse_paths.specs.WalkSettings.{reading_point, region_variables as variables_of};
ghost use Rattle.reuse_paths.specs.WalkViews.{walk_of, OpenLeafFits, OriginFits};

use crate::entry_shown::entry_place;
use crate::leaf::Leaf;
use crate::region::written_values;
use crate::walk_shown::leaves_of;
use crate::walking::{Walking, region_variables};
use affine_form::{Form, Memory, system_of};
use claims::lists::followed_by;
use claims::{FailedCondition, ObjectKey, Place, Refused, Step};
use dep_quast::open_leaves::{OpenLeaf, Origin};
use dep_quast::reader::{Reader, depth, reference};
use footprint_pieces::{Piece, Target};
use iolb_model::limits;
use std::alloc::Global;

/// The vertices of a target at these forms, of readers that meet these rows, appended.
fn push_piece(
    alloc: Global,
    pieces: &mut Vec<Piece>,
    walking: &Walking,
    statement: u16,
    rows: &[Form],
    target: Target,
    forms: &[Form],
) -> Result<(), Memory>
    requires readers { ReadersFit (walk_of walking.now) statement }
    requires rows_over { AllOver (variables_of (walk_of walking.now) statement) rows.now }
    requires few { IsFew (length rows.now) }
    requires over { AllByRecursion (IsSmallOver (length (walk_of walking.now).program.parameters + depth_of (walk_of walking.now).program statement)) forms.now }
    ensures { OnOk result (pieces_of pieces.new ≡ pieces_of pieces.old ++ record {
      target = target;
      vars = depth_of (walk_of walking.now).program statement;
      rows = rows.now;
      point = map (form_at (variables_of (walk_of walking.now) statement) (reading_point (walk_of walking.now) statement)) forms.now;
    } ∷ []) }
{
    let vars = region_variables(walking, statement);
    let piece = Piece {
        target,
        vars: depth(walking.program, statement) as u8,
        rows: system_of(alloc, vars, rows)?,
        point: written_values(alloc, walking, statement, forms)?,
    };
    pieces.push(piece)?;
    Ok(())
}

/// The vertices of a word of readers that meet these rows, appended: of the instances that wrote it, or of the input cells;
/// none where the leaf doesn't say.
fn push_word(
    alloc: Global,
    pieces: &mut Vec<Piece>,
    walking: &Walking,
    reader: Reader,
    rows: &[Form],
    origin: &Origin,
) -> Result<(), Memory>
    requires readers { ReadersFit (walk_of walking.now) reader.statement }
    requires read_fits { ReadFits (walk_of walking.now).program (read_of reader) }
    requires rows_over { AllOver (variables_of (walk_of walking.now) reader.statement) rows.now }
    requires few { IsFew (length rows.now) }
    requires origin { OriginFits (walk_of walking.now).program (length (walk_of walking.now).program.parameters + depth_of (walk_of walking.now).program reader.statement) (origin_of origin.now) }
    ensures { OnOk result (pieces_of pieces.new ≡ pieces_of pieces.old ++ word_pieces (walk_of walking.now) (read_of reader) rows.now (origin_of origin.now)) }
{
    let _params = walking.program.params();
    let statement = reader.statement;
    match origin {
        Origin::Written {
            statement: writer,
            point,
        } => {
            let target = Target::Instance(*writer);
            push_piece(
                alloc,
                pieces,
                walking,
                statement,
                rows,
                target,
                point.as_slice(),
            )
        }
        Origin::Input => {
            let cell = reference(walking.program, reader);
            let target = Target::Cell(cell.array);
            push_piece(
                alloc,
                pieces,
                walking,
                statement,
                rows,
                target,
                cell.subs.as_slice(),
            )
        }
        Origin::Unknown => Ok(()),
    }
}

/// The vertices of the word at an open leaf with its entry, of readers that meet these rows and the leaf's tests, appended;
/// none where no point comes to the leaf.
fn push_leaf(
    alloc: Global,
    pieces: &mut Vec<Piece>,
    walking: &Walking,
    place: &Place,
    reader: Reader,
    rows: &[Form],
    leaf: &OpenLeaf,
    entry: &Leaf,
) -> Result<(), Refused>
    requires readers { ReadersFit (walk_of walking.now) reader.statement }
    requires read_fits { ReadFits (walk_of walking.now).program (read_of reader) }
    requires rows_over { AllOver (variables_of (walk_of walking.now) reader.statement) rows.now }
    requires leaf_fits { OpenLeafFits (walk_of walking.now) reader.statement leaf.now }
    ensures pieces { OnOk result (pieces_of pieces.new ≡ pieces_of pieces.old ++ entry_pieces (walk_of walking.now) (read_of reader) (rows.now ++ leaf.now.tests) leaf.now.origin (claim_of entry.now)) }
    ensures few { OnOk result (IsFew (length (rows.now ++ leaf.now.tests))) }
    ensures refused { IfErr result (IsRefusal (few_claim place.now rows.now leaf.now (claim_of entry.now) ∷ [])) }
{
    let front = followed_by(alloc, Vec::new(alloc), rows)?;
    let all = followed_by(alloc, front, leaf.tests.as_slice())?;
    if all.as_slice().len() > limits::ROWS {
        let place = entry_place(alloc, place, entry)?;
        return Err(Refused::Failed(FailedCondition {
            condition: 2,
            place,
        }));
    }
    if let Leaf::Empty(_) = entry {
        return Ok(());
    }
    push_word(alloc, pieces, walking, reader, all.as_slice(), &leaf.origin)?;
    Ok(())
}

/// Those at open leaves, each with its entry in the list at this place, appended.
fn push_leaves(
    alloc: Global,
    pieces: &mut Vec<Piece>,
    walking: &Walking,
    list: &Place,
    reader: Reader,
    rows: &[Form],
    leaves: &[OpenLeaf],
    entries: &[Leaf],
) -> Result<(), Refused>
    requires readers { ReadersFit (walk_of walking.now) reader.statement }
    requires read_fits { ReadFits (walk_of walking.now).program (read_of reader) }
    requires rows_over { AllOver (variables_of (walk_of walking.now) reader.statement) rows.now }
    requires leaves_fit { AllByRecursion (OpenLeafFits (walk_of walking.now) reader.statement) leaves.now }
    requires one_each { length entries.now ≡ length leaves.now }
    ensures pieces { OnOk result (pieces_of pieces.new ≡ pieces_of pieces.old ++ leaves_pieces (walk_of walking.now) (read_of reader) rows.now leaves.now (map claim_of entries.now)) }
    ensures few { OnOk result (AllHold (few_leaves list.now rows.now 0 leaves.now (map claim_of entries.now))) }
    ensures refused { IfErr result (IsRefusal (few_leaves list.now rows.now 0 leaves.now (map claim_of entries.now))) }
{
    for i in 0..leaves.len() {
        let place = list.within(alloc, Step::Index(i as u64))?;
        push_leaf(
            alloc,
            pieces,
            walking,
            &place,
            reader,
            rows,
            &leaves[i],
            &entries[i],
        )?;
    }
    Ok(())
}

/// Those at the open leaves of the source tree of a read, each with its entry, at `leaves` behind this
/// place, appended.
pub(crate) fn push_taken(
    alloc: Global,
    pieces: &mut Vec<Piece>,
    walking: &Walking,
    place: &Place,
    reader: Reader,
    rows: &[Form],
    entries: &[Leaf],
) -> Result<(), Refused>
    requires readers { ReadersFit (walk_of walking.now) reader.statement }
    requires rows_over { AllOver (variables_of (walk_of walking.now) reader.statement) rows.now }
    requires taken { TakenFits (walk_of walking.now) reader.statement reader.read (map claim_of entries.now) }
    ensures pieces { OnOk result (pieces_of pieces.new ≡ pieces_of pieces.old ++ leaves_pieces (walk_of walking.now) (read_of reader) rows.now (leaves_at (walk_of walking.now) (read_of reader)) (map claim_of entries.now)) }
    ensures few { OnOk result (AllHold (few_leaves (place.now ++ Key (codes "leaves") ∷ []) rows.now 0 (leaves_at (walk_of walking.now) (read_of reader)) (map claim_of entries.now))) }
    ensures refused { IfErr result (IsRefusal (few_leaves (place.now ++ Key (codes "leaves") ∷ []) rows.now 0 (leaves_at (walk_of walking.now) (read_of reader)) (map claim_of entries.now))) }
{
    let list = place.within(alloc, Step::Key(ObjectKey("leaves")))?;
    let leaves = leaves_of(alloc, walking, reader)?;
    push_leaves(
        alloc,
        pieces,
        walking,
        &list,
        reader,
        rows,
        leaves.as_slice(),
        entries,
    )
}
