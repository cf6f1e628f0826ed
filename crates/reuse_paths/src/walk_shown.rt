//! Whether what a walk claims in its regions is shown.
#![tactic(auto, using(claims::proofs::Found::in_a_row))]

ghost use Rattle.std.specs.Prelude.{◌≡◌, ◌≤◌, ◌<◌, ◌++◌, ◌+◌, ◌∷◌, [], ℕ, length, map, option_map, Some, IfOk};
ghost use Rattle.std.specs.List.{AllByRecursion};
ghost use Rattle.affine_form.specs.Rows.{IsSmallOver};
ghost use Rattle.affine_form.specs.System.{AllOver};
ghost use Rattle.claims.specs.Claims.{Decides, numbered};
ghost use Rattle.claims.specs.Shown.{IsFew};
ghost use Rattle.dep_quast.specs.Context.{no_row};
ghost use Rattle.dep_quast.specs.Truth.{ReadFits};
ghost use Rattle.dep_quast.specs.Views.{read_of};
ghost use Rattle.affine_program.specs.Domain.{depth_of};
ghost use Rattle.dep_quast.specs.OpenLeaves.{origin_of};
ghost use Rattle.reuse_paths.specs.EntryClaims.{aimed_claims, leaf_claims};
ghost use Rattle.reuse_paths.specs.LeafClaims.{claim_of};
ghost use Rattle.dep_quast.specs.Quasts.{tree_at, tree_for};
ghost use Rattle.reuse_paths.specs.ReachClaims.{region_claims};
ghost use Rattle.reuse_paths.specs.WalkClaims.{leaves_at, leaves_claims, walk_claims};
ghost use Rattle.reuse_paths.specs.WalkFits.{EntriesFit, EntryFits, ReaderFits, RegionFits, RegionsFit, TakeFits, WalkFits};
ghost use Rattle.reuse_paths.specs.Walks.{boxed_region, tree_of_walk};
ghost use Rattle.reuse_paths.specs.WalkSettings.{reading_point, region_variables};
ghost use Rattle.reuse_paths.specs.WalkViews.{walk_of, OpenLeafFits, OriginFits, ReadingFits, SettingFits};
ghost use Rattle.iolb_model.specs.declared.limits.TheConstants.{VARIABLES};

use crate::entry_shown::{arriving_shown, entry_place};
use crate::kept_shown::keeping_shown;
use crate::region::region_context;
use crate::walking::{Aim, Walking, reading_point, region_variables};
use crate::{Leaf, Region, Walk};
use affine_form::{Form, Memory};
use claims::lists::{followed_by, with_form};
use claims::{ObjectKey, Place, Refused, Step, refusal};
use dep_quast::open_leaves::{OpenLeaf, Origin, opposite, push_open_leaves};
use dep_quast::reader::Reader;
use iolb_model::limits;
use std::alloc::Global;

/// Whether what an entry claims at a leaf is shown, by what is asked of the walk, in the system of the region of a
/// statement with these rows, those of the leaf's tests among them.
fn aimed_shown(
    alloc: Global,
    walking: &Walking,
    place: &Place,
    reader: Reader,
    rows: &[Form],
    origin: &Origin,
    entry: &Leaf,
) -> Result<(), Refused>
    requires fits { ReadingFits (walk_of walking.now) reader.statement }
    requires read_fits { ReadFits (walk_of walking.now).program (read_of reader) }
    requires rows_over { AllOver (region_variables (walk_of walking.now) reader.statement) rows.now }
    requires few { IsFew (length rows.now) }
    requires origin { OriginFits (walk_of walking.now).program (length (walk_of walking.now).program.parameters + depth_of (walk_of walking.now).program reader.statement) (origin_of origin.now) }
    requires entry_fits { EntryFits (walk_of walking.now) (read_of reader) (origin_of origin.now) (claim_of entry.now) }
    ensures { Decides (aimed_claims walking.now.condition (walk_of walking.now) (walk_of walking.now).aim (read_of reader) place.now
        (record { vars = region_variables (walk_of walking.now) reader.statement; rows = rows.now }) (reading_point (walk_of walking.now) reader.statement) (origin_of origin.now) (claim_of entry.now)) result }
{
    match walking.aim {
        Aim::Arrive { target, .. } => arriving_shown(
            alloc, walking, target, place, reader, rows, origin, entry,
        ),
        Aim::Keep(kept) => keeping_shown(alloc, walking, kept, place, reader, rows, origin, entry),
    }
}

/// Whether what an entry claims at an open leaf is shown, in the system of the region of a statement with these rows and the
/// leaf's tests.
fn leaf_shown(
    alloc: Global,
    walking: &Walking,
    place: &Place,
    reader: Reader,
    rows: &[Form],
    leaf: &OpenLeaf,
    entry: &Leaf,
) -> Result<(), Refused>
    requires fits { ReadingFits (walk_of walking.now) reader.statement }
    requires read_fits { ReadFits (walk_of walking.now).program (read_of reader) }
    requires rows_over { AllOver (region_variables (walk_of walking.now) reader.statement) rows.now }
    requires leaf_fits { OpenLeafFits (walk_of walking.now) reader.statement leaf.now }
    requires entry_fits { EntryFits (walk_of walking.now) (read_of reader) leaf.now.origin (claim_of entry.now) }
    ensures { Decides (leaf_claims walking.now.condition (walk_of walking.now) (read_of reader) place.now rows.now leaf.now (claim_of entry.now)) result }
{
    let front = followed_by(alloc, Vec::new(alloc), rows)?;
    let all = followed_by(alloc, front, leaf.tests.as_slice())?;
    if all.as_slice().len() > limits::ROWS {
        let first = entry_place(alloc, place, entry)?;
        return Err(refusal(alloc, 2, &first));
    }
    aimed_shown(
        alloc,
        walking,
        place,
        reader,
        all.as_slice(),
        &leaf.origin,
        entry,
    )?;
    Ok(())
}

/// Whether what entries claim at open leaves is shown, one for each, in the system of the region of a statement with these
/// rows: the first that isn't, by its place in the list at this place.
fn leaves_shown(
    alloc: Global,
    walking: &Walking,
    list: &Place,
    reader: Reader,
    rows: &[Form],
    leaves: &[OpenLeaf],
    entries: &[Leaf],
) -> Result<(), Refused>
    requires fits { ReadingFits (walk_of walking.now) reader.statement }
    requires read_fits { ReadFits (walk_of walking.now).program (read_of reader) }
    requires rows_over { AllOver (region_variables (walk_of walking.now) reader.statement) rows.now }
    requires leaves_fit { AllByRecursion (OpenLeafFits (walk_of walking.now) reader.statement) leaves.now }
    requires entries_fit { EntriesFit (walk_of walking.now) (read_of reader) leaves.now (map claim_of entries.now) }
    ensures { Decides (leaves_claims walking.now.condition (walk_of walking.now) (read_of reader) list.now rows.now 0 leaves.now (map claim_of entries.now)) result }
{
    for (i, leaf) in leaves.iter().enumerate() {
        let place = list.within(alloc, Step::Index(i as u64))?;
        leaf_shown(alloc, walking, &place, reader, rows, leaf, &entries[i])?;
    }
    Ok(())
}

/// The open leaves of the source tree of a read of a region's statement.
pub(crate) fn leaves_of(
    alloc: Global,
    walking: &Walking,
    reader: Reader,
) -> Result<Vec<OpenLeaf>, Memory>
    requires fits { SettingFits (walk_of walking.now) }
    requires read_fits { ReadFits (walk_of walking.now).program (read_of reader) }
    requires there { tree_at (walk_of walking.now).trees reader.statement reader.read ≡ Some (tree_for (walk_of walking.now).trees (read_of reader)) }
    ensures leaves { IfOk result (λ leaves. leaves.items ≡ leaves_at (walk_of walking.now) (read_of reader)) }
    ensures fit { IfOk result (λ leaves. AllByRecursion (OpenLeafFits (walk_of walking.now) reader.statement) leaves.items) }
{
    let Some(quast) = walking.quasts.tree(reader.statement, reader.read) else {
        unreachable!();
    };
    let vars = region_variables(walking, reader.statement);
    let point = reading_point(alloc, walking, reader.statement)?;
    let mut leaves = Vec::new(alloc);
    push_open_leaves(alloc, &mut leaves, vars, point.as_slice(), &[], quast)?;
    Ok(leaves)
}

/// Whether what entries claim at the open leaves of the source tree of a read is shown, by the entries' places in the list
/// at this place.
fn take_shown(
    alloc: Global,
    walking: &Walking,
    list: &Place,
    reader: Reader,
    rows: &[Form],
    entries: &[Leaf],
) -> Result<(), Refused>
    requires fits { ReadingFits (walk_of walking.now) reader.statement }
    requires rows_over { AllOver (region_variables (walk_of walking.now) reader.statement) rows.now }
    requires take_fits { TakeFits (walk_of walking.now) reader.statement reader.read (map claim_of entries.now) }
    ensures { Decides (leaves_claims walking.now.condition (walk_of walking.now) (read_of reader) list.now rows.now 0 (leaves_at (walk_of walking.now) (read_of reader))
        (map claim_of entries.now)) result }
{
    let leaves = leaves_of(alloc, walking, reader)?;
    leaves_shown(
        alloc,
        walking,
        list,
        reader,
        rows,
        leaves.as_slice(),
        entries,
    )
}

/// Rows, and that a form is at most -1.
pub fn rows_of_no(
    alloc: Global,
    vars: usize,
    rows: &[Form],
    form: &Form,
) -> Result<Vec<Form>, Memory>
    requires few { vars ≤ VARIABLES }
    requires rows_over { AllOver vars rows.now }
    requires form_over { IsSmallOver vars form.now }
    ensures rows { IfOk result (λ all. all.items ≡ rows.now ++ no_row vars form.now ∷ []) }
    ensures over { IfOk result (λ all. AllOver vars all.items) }
{
    with_form(alloc, rows, opposite(alloc, vars, form)?)
}

/// Whether what a walk claims from the instances of a statement that meet these rows is shown, `yes` before `no`.
pub fn walk_shown(
    alloc: Global,
    walking: &Walking,
    place: &Place,
    statement: u16,
    rows: &[Form],
    tree: &Walk,
) -> Result<(), Refused>
    requires fits { ReadingFits (walk_of walking.now) statement }
    requires rows_over { AllOver (region_variables (walk_of walking.now) statement) rows.now }
    requires walk_fits { WalkFits (walk_of walking.now) statement (tree_of_walk tree.now) }
    ensures { Decides (walk_claims walking.now.condition (walk_of walking.now) statement place.now rows.now (tree_of_walk tree.now)) result }
{
    match tree {
        Walk::Test { form, yes, no } => {
            let vars = region_variables(walking, statement);
            let above = with_form(alloc, rows, form.try_clone(alloc)?)?;
            let side = place.within(alloc, Step::Key(ObjectKey("yes")))?;
            walk_shown(alloc, walking, &side, statement, above.as_slice(), yes)?;
            let below = rows_of_no(alloc, vars, rows, form)?;
            let side = place.within(alloc, Step::Key(ObjectKey("no")))?;
            walk_shown(alloc, walking, &side, statement, below.as_slice(), no)?;
            Ok(())
        }
        Walk::Take {
            read,
            leaves: entries,
        } => {
            let list = place.within(alloc, Step::Key(ObjectKey("leaves")))?;
            let reader = Reader {
                statement,
                read: *read,
            };
            take_shown(alloc, walking, &list, reader, rows, entries.as_slice())
        }
    }
}

/// Whether what a walk claims in the region of a statement is shown, where it has one.
fn region_shown(
    alloc: Global,
    walking: &Walking,
    list: &Place,
    statement: u16,
    node: &Option<Box<Region>>,
) -> Result<(), Refused>
    requires fits { ReadingFits (walk_of walking.now) statement }
    requires region_fits { RegionFits (walk_of walking.now) statement (option_map boxed_region node.now) }
    ensures { Decides (region_claims walking.now.condition (walk_of walking.now) list.now statement (option_map boxed_region node.now)) result }
{
    let Some(region) = node else {
        return Ok(());
    };
    let rows = region_context(alloc, walking, statement, region.rows.as_slice())?;
    let node = list.within(alloc, Step::Index(u64::from(statement)))?;
    let place = node.within(alloc, Step::Key(ObjectKey("tree")))?;
    walk_shown(
        alloc,
        walking,
        &place,
        statement,
        rows.as_slice(),
        &region.tree,
    )
}

/// Whether what a walk claims in these regions, one or none for each statement, is shown, in the order of statements, each
/// at its index in the list at this place.
pub(crate) fn regions_shown(
    alloc: Global,
    walking: &Walking,
    list: &Place,
    nodes: &[Option<Box<Region>>],
) -> Result<(), Refused>
    requires fits { SettingFits (walk_of walking.now) }
    requires readers { (statement : ℕ) → ReaderFits (walk_of walking.now) statement (walk_of walking.now).aim }
    requires each { length nodes.now ≡ length (walk_of walking.now).program.statements }
    requires regions_fit { RegionsFit (walk_of walking.now) 0 (map (option_map boxed_region) nodes.now) }
    ensures { Decides (numbered (region_claims walking.now.condition (walk_of walking.now) list.now) 0 (map (option_map boxed_region) nodes.now)) result }
{
    let _params = walking.program.params();
    for i in 0..nodes.len() {
        region_shown(alloc, walking, list, i as u16, &nodes[i])?;
    }
    Ok(())
}
