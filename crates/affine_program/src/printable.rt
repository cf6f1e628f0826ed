//! Whether some text means a program, so that the text that prints it can be read again.

ghost use Rattle.std.specs.Prelude.{◌≡◌, ◌↔◌, ◌∷◌, [], ◌<◌, ◌≤◌, IsTrue, ℕ, List, map, length, Option, IfOk};
ghost use Rattle.iolb_model.specs.Program.{AffineProgram};
ghost use Rattle.affine_program.specs.Draft.{parts_of};
ghost use Rattle.affine_program.specs.Parts.{access_of, meaning, statement_of};
ghost use Rattle.affine_program.specs.Printable.{IsOrdered, IsPrintable, IsPrintableGuard, IsPrintableHeader, IsPrintableItem, IsPrintableRow, access_numbers, statement_numbers};
ghost use Rattle.affine_program.specs.Seen.{seen_behind};
ghost use Rattle.affine_program.specs.Tree.{item_of, row_of};
ghost use Rattle.iolb_model.specs.declared.limits.TheConstants.{GUARDS};

use crate::draft::Draft;
use crate::item::Item;
use crate::limits::{are_small_forms, is_small_form};
use crate::names::{
    are_arrays_named, are_different, are_different_arrays, are_names, is_among, is_array, with_name,
};
use crate::reference::Reference;
use crate::statement::Statement;
use affine_form::{Form, Memory, Name};
use c_tokens::is_name;
use iolb_model::limits::{GUARDS, LOOPS};
use std::alloc::Global;

/// How many arrays were seen behind one of this number, where it is that of one of them or of the next.
fn seen_after(seen: usize, number: u16) -> Option<usize>
    ensures { result ≡ seen_behind seen (number ∷ []) }
{
    let number = usize::from(number);
    if number < seen {
        Some(seen)
    } else if number == seen {
        Some(number + 1)
    } else {
        None
    }
}

/// How many arrays were seen behind references, where each is to one of them or to the next.
fn seen_after_reads(seen: usize, reads: &[Reference]) -> Option<usize>
    ensures { result ≡ seen_behind seen (access_numbers (map access_of reads.now)) }
{
    match reads.split_first() {
        Some((first, rest)) => match seen_after(seen, first.array) {
            Some(more) => seen_after_reads(more, rest),
            None => None,
        },
        None => Some(seen),
    }
}

/// How many arrays were seen behind a statement.
fn seen_after_statement(seen: usize, statement: &Statement) -> Option<usize>
    ensures { result ≡ seen_behind seen (statement_numbers (statement_of statement.now ∷ [])) }
{
    match seen_after(seen, statement.writes.array) {
        Some(more) => seen_after_reads(more, statement.reads.as_slice()),
        None => None,
    }
}

/// How many arrays were seen behind statements.
fn seen_after_all(seen: usize, statements: &[Statement]) -> Option<usize>
    ensures { result ≡ seen_behind seen (statement_numbers (map statement_of statements.now)) }
{
    match statements.split_first() {
        Some((first, rest)) => match seen_after_statement(seen, first) {
            Some(more) => seen_after_all(more, rest),
            None => None,
        },
        None => Some(seen),
    }
}

/// Whether arrays are numbered in the order in which their references stand.
fn are_ordered(statements: &[Statement], arrays: usize) -> bool
    ensures { IsTrue result ↔ IsOrdered 0 (statement_numbers (map statement_of statements.now)) arrays }
{
    seen_after_all(0, statements) == Some(arrays)
}

/// Whether the header of a loop inside loops of these names is that of a text.
fn is_header_printable(
    draft: &Draft,
    around: &[Name],
    name: &Name,
    lower: &Form,
    upper: &Form,
) -> bool
    ensures { IsTrue result ↔ IsPrintableHeader (meaning (parts_of draft.now)) around.now name.now lower.now upper.now }
{
    around.len() < LOOPS
        && is_name(name.bytes())
        && !is_among(draft.params.as_slice(), name)
        && !is_array(draft.arrays.as_slice(), name)
        && !is_among(around, name)
        && is_small_form(lower)
        && is_small_form(upper)
}

/// Whether the rows of a guard inside guards of so many rows are those of a text.
fn is_guard_printable(guards: usize, rows: &[Form]) -> bool
    requires { guards ≤ GUARDS }
    ensures { IsTrue result ↔ IsPrintableGuard guards rows.now }
{
    !rows.is_empty() && guards + rows.len() <= GUARDS && are_small_forms(rows)
}

/// Whether the loops and guards of an item inside loops of these names and guards of so many rows are those of a text.
#[cycle(printable)]
fn is_item_printable(
    alloc: Global,
    draft: &Draft,
    around: &[Name],
    guards: usize,
    item: &Item,
) -> Result<bool, Memory>
    requires { guards ≤ GUARDS }
    ensures { IfOk result (λ yes. IsTrue yes ↔ IsPrintableItem (meaning (parts_of draft.now)) around.now guards (item_of item.now)) }
{
    match item {
        Item::Loop {
            name,
            lower,
            upper,
            body,
            ..
        } => {
            if !is_header_printable(draft, around, name, lower, upper) {
                return Ok(false);
            }
            let inner = with_name(alloc, around, name)?;
            is_row_printable(alloc, draft, inner.as_slice(), guards, body)
        }
        Item::Guard { rows, body } => {
            if !is_guard_printable(guards, rows) {
                return Ok(false);
            }
            is_row_printable(alloc, draft, around, guards + rows.len(), body)
        }
        Item::Assign(_) => Ok(true),
    }
}

/// Whether the loops and guards of a row of items inside loops of these names and guards of so many rows are those of a text.
#[cycle(printable)]
fn is_row_printable(
    alloc: Global,
    draft: &Draft,
    around: &[Name],
    guards: usize,
    items: &[Item],
) -> Result<bool, Memory>
    requires { guards ≤ GUARDS }
    ensures { IfOk result (λ yes. IsTrue yes ↔ IsPrintableRow (meaning (parts_of draft.now)) around.now guards (row_of items.now)) }
{
    for item in items {
        if !is_item_printable(alloc, draft, around, guards, item)? {
            return Ok(false);
        }
    }
    Ok(true)
}

/// Whether something is assumed where there is a parameter.
fn is_assumed(draft: &Draft) -> bool
    ensures { IsTrue result ↔ (0 < length (meaning (parts_of draft.now)).parameters → 0 < length (meaning (parts_of draft.now)).assumptions) }
{
    draft.params.as_slice().is_empty() || !draft.assumed.rows().is_empty()
}

/// Whether some text means a program.
pub(crate) fn is_printable(alloc: Global, draft: &Draft) -> Result<bool, Memory>
    ensures { IfOk result (λ yes. IsTrue yes ↔ IsPrintable (meaning (parts_of draft.now))) }
{
    let names = draft.params.as_slice();
    let arrays = draft.arrays.as_slice();
    let loops = is_row_printable(alloc, draft, &[], 0, draft.tree.as_slice())?;
    Ok(
        loops
            && are_names(names)
            && are_different(names)
            && are_arrays_named(names, arrays)
            && are_different_arrays(arrays)
            && is_assumed(draft)
            && are_ordered(draft.statements.as_slice(), arrays.len()),
    )
}
