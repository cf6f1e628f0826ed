//! Whether entries for leaves fit.
#![tactic(auto, using(claims::proofs::Found::in_a_row))]

ghost use Rattle.claims.specs.Claims.{Decides};
ghost use Rattle.std.specs.Prelude.{length, ◌*◌, ◌≡◌, ◌++◌, ◌∷◌, [], Some, IfOk, map, slice_get, slice_index_or};
ghost use Rattle.claims.specs.declared.place.Step.TheVariants.{Index, Key};
ghost use Rattle.certificate_fit.specs.EntryFit.{aimed_entries_fit, aimed_fit, entries_fit, nest_variables};
ghost use Rattle.certificate_fit.specs.EntryViews.{aim_of};
ghost use Rattle.certificate_fit.specs.FitClaims.{so_many};
ghost use Rattle.reuse_paths.specs.Families.{credit_of};
ghost use Rattle.reuse_paths.specs.LeafClaims.{claim_of, goes_on, is_credited};

use crate::counts::is_twice;
use crate::lists::{member_at, misfit};
use affine_form::Multipliers;
use claims::{ObjectKey, Place, Refused, Step};
use reuse_paths::{Credit, Leaf};
use std::alloc::Global;

/// What gives the lists of entries their lengths: how many loops are around the target of walks, how many forms a label has,
/// and the nests in which walks may stop.
#[derive(Clone, Copy)]
pub(crate) struct Aimed<'a> {
    pub loops: usize,
    pub label: usize,
    pub credits: &'a [Credit],
}

/// How many variables a credited nest has: none if it isn't there.
fn nest_variables(credits: &[Credit], number: u8) -> usize
    ensures { result ≡ nest_variables (slice_get (map credit_of credits.now) number) }
{
    match credits.get(usize::from(number)) {
        Some(credit) => credit.nest.bounds().len(),
        None => 0,
    }
}

/// Whether the lists of an entry for a walk that goes on are as long as called for.
fn going_fits(
    alloc: Global,
    place: &Place,
    aimed: Aimed,
    called: usize,
    rows: &[Multipliers],
    label: &[Multipliers],
) -> Result<(), Refused>
    ensures { Decides (aimed_fit (aim_of aimed.entry) called (goes_on rows.now label.now) place.now) result }
{
    if !is_twice(label.len(), aimed.label) {
        return Err(misfit(alloc, place, Step::Key(ObjectKey("label"))));
    }
    if rows.len() != called {
        return Err(misfit(alloc, place, Step::Key(ObjectKey("rows"))));
    }
    Ok(())
}

/// Whether the lists of an entry for a walk that stops in a credited nest are as long as called for, and it names a credit.
fn credited_fits(
    alloc: Global,
    place: &Place,
    aimed: Aimed,
    called: usize,
    credit: u8,
    rows: &[Multipliers],
    label: &[Multipliers],
) -> Result<(), Refused>
    ensures { Decides (aimed_fit (aim_of aimed.entry) called (is_credited credit rows.now label.now) place.now) result }
{
    if usize::from(credit) >= aimed.credits.len() {
        return Err(misfit(alloc, place, Step::Key(ObjectKey("credit"))));
    }
    if !is_twice(label.len(), aimed.label) {
        return Err(misfit(alloc, place, Step::Key(ObjectKey("label"))));
    }
    if !is_twice(rows.len(), nest_variables(aimed.credits, credit)) {
        return Err(misfit(alloc, place, Step::Key(ObjectKey("rows"))));
    }
    Ok(())
}

/// Whether a list of an entry is twice as long as called for.
fn twice_fits(
    alloc: Global,
    place: &Place,
    key: ObjectKey,
    shown: &[Multipliers],
    called: usize,
) -> Result<(), Refused>
    ensures { Decides (so_many (place.now ++ Key key ∷ []) (length shown.now) (2 * called) ∷ []) result }
{
    if !is_twice(shown.len(), called) {
        return Err(misfit(alloc, place, Step::Key(key)));
    }
    Ok(())
}

/// Whether the lists of an entry at this place are as long as called for, and the credit that it names is there: where so
/// many rows say that a walk may go on.
fn entry_fits(
    alloc: Global,
    place: &Place,
    aimed: Aimed,
    called: usize,
    entry: &Leaf,
) -> Result<(), Refused>
    ensures { Decides (aimed_fit (aim_of aimed.entry) called (claim_of entry.now) place.now) result }
{
    match entry {
        Leaf::Empty(_) => Ok(()),
        Leaf::Stop { label } => twice_fits(
            alloc,
            place,
            ObjectKey("stop"),
            label.as_slice(),
            aimed.label,
        ),
        Leaf::Credit {
            credit,
            rows,
            label,
        } => {
            let (rows, label) = (rows.as_slice(), label.as_slice());
            credited_fits(alloc, place, aimed, called, *credit, rows, label)
        }
        Leaf::Go { rows, label } => {
            going_fits(
                alloc,
                place,
                aimed,
                called,
                rows.as_slice(),
                label.as_slice(),
            )
        }
        Leaf::Arrive { equal } => twice_fits(
            alloc,
            place,
            ObjectKey("arrive"),
            equal.as_slice(),
            aimed.loops,
        ),
    }
}

/// The number in a list at an index, or 0 behind the list's end.
fn called_at(called: &[usize], index: usize) -> usize
    ensures { result ≡ slice_index_or called.now index 0 }
{
    match called.get(index) {
        Some(number) => *number,
        None => 0,
    }
}

/// Whether what is said fits of entries, in the list with this key: where so many rows say that a walk may go on
/// behind each, or none behind the list's end.
pub(crate) fn all_aimed_entries_fit(
    alloc: Global,
    place: &Place,
    key: ObjectKey,
    aimed: Aimed,
    called: &[usize],
    entries: &[Leaf],
) -> Result<(), Refused>
    ensures { Decides (aimed_entries_fit (aim_of aimed.entry) called.now (place.now ++ Key key ∷ []) (map claim_of entries.now)) result }
{
    for (index, entry) in entries.iter().enumerate() {
        let at = member_at(alloc, place, Step::Key(key.same()), index)?;
        entry_fits(alloc, &at, aimed, called_at(called, index), entry)?;
    }
    Ok(())
}

/// The same where there are no labels and no credits, for so many loops around the target.
pub fn all_entries_fit(
    alloc: Global,
    place: &Place,
    key: ObjectKey,
    loops: usize,
    called: &[usize],
    entries: &[Leaf],
) -> Result<(), Refused>
    ensures { Decides (entries_fit loops called.now (place.now ++ Key key ∷ []) (map claim_of entries.now)) result }
{
    let aimed = Aimed {
        loops,
        label: 0,
        credits: &[],
    };
    all_aimed_entries_fit(alloc, place, key, aimed, called, entries)
}
