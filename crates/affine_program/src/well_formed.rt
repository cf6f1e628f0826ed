//! Whether parts make a well-formed program.

ghost use Rattle.std.specs.Prelude.{◌≡◌, ◌↔◌, IsTrue, IsSomeAnd, ℕ, map, take, ◌++◌, length, OnOk, IfOk, ◌≤◌};
ghost use Rattle.std.specs.List.{AllByRecursion, enumerate_from, range_with_len};
ghost use Rattle.iolb_model.specs.Order.{row_common};
ghost use Rattle.iolb_model.specs.Path.{row_path};
ghost use Rattle.iolb_model.specs.Program.{IsOver, AccessFits, StatementFits, ItemFits, RowFits, item_statements, row_statements, IsWellFormed};
ghost use Rattle.affine_program.specs.Draft.{parts_of};
ghost use Rattle.affine_form.specs.Rows.{direction_of, widened};
ghost use Rattle.affine_program.specs.Parts.{meaning, access_of, StandOn, HasItsWay, IsProgram};
ghost use Rattle.affine_program.specs.Limits.{IsStatementWithinLimits, IsWithinLimits};
ghost use Rattle.affine_program.specs.Tree.{item_of, row_of};
ghost use Rattle.affine_program.specs.declared.statement.Statement.{Statement};
ghost use Rattle.iolb_model.specs.declared.limits.TheConstants.{PARAMETERS, STATEMENTS};

use crate::domain::has;
use crate::draft::Draft;
use crate::item::Item;
use crate::limits::are_parts_within_limits;
use crate::printable::is_printable;
use crate::reference::Reference;
use crate::statement::Statement;
use affine_form::{Form, Memory};
use std::alloc::Global;

/// Whether forms are over so many variables.
fn are_over(variables: usize, forms: &[Form]) -> bool
    ensures { IsTrue result ↔ AllByRecursion (IsOver variables) forms.now }
{
    for form in forms {
        if form.coef().len() != variables {
            return false;
        }
    }
    true
}

/// Whether a reference is to an array that is there, with as many subscripts as it has, each over so many variables.
fn access_fits(draft: &Draft, variables: usize, reference: &Reference) -> bool
    ensures { IsTrue result ↔ AccessFits (meaning (parts_of draft.now)) variables (access_of reference.now) }
{
    let arrays = draft.arrays.as_slice();
    let array = usize::from(reference.array);
    let subs = reference.subs.as_slice();
    array < arrays.len() && subs.len() == usize::from(arrays[array].1) && are_over(variables, subs)
}

/// Whether references fit, over so many variables.
fn all_accesses_fit(draft: &Draft, variables: usize, references: &[Reference]) -> bool
    ensures { IsTrue result ↔ AllByRecursion (AccessFits (meaning (parts_of draft.now)) variables) (map access_of references.now) }
{
    for reference in references {
        if !access_fits(draft, variables, reference) {
            return false;
        }
    }
    true
}

/// Whether a statement is there, and its references fit, over so many variables.
fn statement_fits(draft: &Draft, variables: usize, number: u16) -> bool
    ensures { IsTrue result ↔ StatementFits (meaning (parts_of draft.now)) variables number }
{
    let statements = draft.statements.as_slice();
    let at = usize::from(number);
    at < statements.len()
        && access_fits(draft, variables, &statements[at].writes)
        && all_accesses_fit(draft, variables, statements[at].reads.as_slice())
}

/// Whether the forms of an item are over the variables around them, so many at the item.
#[cycle(fitting)]
fn item_fits(draft: &Draft, variables: usize, item: &Item) -> bool
    ensures { IsTrue result ↔ ItemFits (meaning (parts_of draft.now)) variables (item_of item.now) }
{
    match item {
        Item::Loop {
            lower,
            upper,
            body,
            ..
        } => {
            lower.coef().len() == variables
                && upper.coef().len() == variables
                && row_fits(draft, variables + 1, body)
        }
        Item::Guard { rows, body } => {
            are_over(variables, rows) && row_fits(draft, variables, body)
        }
        Item::Assign(number) => statement_fits(draft, variables, *number),
    }
}

/// Whether the forms of a row of items are over the variables around them, so many at the row.
#[cycle(fitting)]
fn row_fits(draft: &Draft, variables: usize, items: &[Item]) -> bool
    ensures { IsTrue result ↔ RowFits (meaning (parts_of draft.now)) variables (row_of items.now) }
{
    for item in items {
        if !item_fits(draft, variables, item) {
            return false;
        }
    }
    true
}

/// Puts the numbers of the statements of an item at the end, in the order of the text.
#[cycle(numbering)]
fn push_item_numbers(item: &Item, numbers: &mut Vec<u16>) -> Result<(), Memory>
    ensures { OnOk result (numbers.new.items ≡ numbers.old.items ++ item_statements (item_of item.now)) }
{
    match item {
        Item::Assign(number) => numbers.push(*number)?,
        Item::Loop { body, .. } | Item::Guard { body, .. } => push_numbers(body, numbers)?,
    }
    Ok(())
}

/// Puts the numbers of the statements of a row of items at the end, in the order of the text.
#[cycle(numbering)]
fn push_numbers(items: &[Item], numbers: &mut Vec<u16>) -> Result<(), Memory>
    ensures { OnOk result (numbers.new.items ≡ numbers.old.items ++ row_statements (row_of items.now)) }
{
    for item in items {
        push_item_numbers(item, numbers)?;
    }
    Ok(())
}

/// Whether numbers count up from 0.
fn are_counted(numbers: &[u16]) -> bool
    ensures { IsTrue result ↔ (numbers.now ≡ range_with_len 0 (length numbers.now)) }
{
    for (i, number) in numbers.iter().enumerate() {
        if usize::from(*number) != i {
            return false;
        }
    }
    true
}

/// Whether numbers count up from 0 to below a number.
fn count_up_to(numbers: &[u16], many: usize) -> bool
    ensures { IsTrue result ↔ (numbers.now ≡ range_with_len 0 many) }
{
    numbers.len() == many && are_counted(numbers)
}

/// Whether forms, read over so many variables, are the first of others.
fn are_first(vars: usize, forms: &[Form], others: &[Form]) -> bool
    ensures { IsTrue result ↔ (map (widened vars) forms.now ≡ take (length forms.now) others.now) }
{
    if others.len() < forms.len() {
        return false;
    }
    for (i, form) in forms.iter().enumerate() {
        if !form.is_widened(vars, &others[i]) {
            return false;
        }
    }
    true
}

/// Whether the bounds of the loops around a statement in a row of items are these, and the rows of the guards these, read over
/// so many variables, outermost first.
fn stands(
    items: &[Item],
    number: u16,
    vars: usize,
    bounds: &[(Form, Form)],
    guards: &[Form],
) -> bool
    ensures { IsTrue result ↔ IsSomeAnd (row_path (row_of items.now) number) (StandOn vars bounds.now guards.now) }
{
    for item in items {
        if has(item, number) {
            return match item {
                Item::Loop {
                    lower,
                    upper,
                    body,
                    ..
                } => {
                    !bounds.is_empty()
                        && lower.is_same(&bounds[0].0)
                        && upper.is_same(&bounds[0].1)
                        && stands(body, number, vars, &bounds[1..], guards)
                }
                Item::Guard { rows, body } => {
                    are_first(vars, rows, guards)
                        && stands(body, number, vars, bounds, &guards[rows.len()..])
                }
                Item::Assign(_) => bounds.is_empty() && guards.is_empty(),
            };
        }
    }
    false
}

/// Whether a statement has the bounds of the loops around it, and the rows of the guards.
fn has_its_way(draft: &Draft, number: u16, statement: &Statement) -> bool
    requires few { length draft.now.params.items ≤ PARAMETERS }
    requires within { IsStatementWithinLimits statement.now }
    ensures { IsTrue result ↔ HasItsWay (length draft.now.params.items) draft.now.tree.items (number, statement.now) }
{
    let bounds = statement.bounds.as_slice();
    let vars = draft.params.as_slice().len() + bounds.len();
    stands(
        draft.tree.as_slice(),
        number,
        vars,
        bounds,
        statement.guards.as_slice(),
    )
}

/// Whether each statement has the bounds of the loops around it, and the rows of the guards.
fn have_their_ways(draft: &Draft) -> bool
    requires { IsWithinLimits (parts_of draft.now).params (parts_of draft.now).assumed (parts_of draft.now).arrays (parts_of draft.now).statements }
    ensures { IsTrue result ↔ AllByRecursion (HasItsWay (length draft.now.params.items) draft.now.tree.items) (enumerate_from 0 draft.now.statements.items) }
{
    for (number, statement) in draft.statements.as_slice().iter().enumerate() {
        if !has_its_way(draft, number as u16, statement) {
            return false;
        }
    }
    true
}

/// Whether these of the loops around a statement in a row of items run downward, outermost first.
fn runs(items: &[Item], number: u16, down: &[bool]) -> bool
    ensures { IsTrue result ↔ (row_common (row_of items.now) number number ≡ map direction_of down.now) }
{
    for item in items {
        if has(item, number) {
            return match item {
                Item::Loop {
                    down: falls,
                    body,
                    ..
                } => !down.is_empty() && *falls == down[0] && runs(body, number, &down[1..]),
                Item::Guard { body, .. } => runs(body, number, down),
                Item::Assign(_) => down.is_empty(),
            };
        }
    }
    down.is_empty()
}

/// Whether each statement has the directions of the loops around it.
fn all_run(draft: &Draft) -> bool
    requires { length draft.now.statements.items ≤ STATEMENTS }
    ensures { IsTrue result ↔ AllByRecursion (λ (placed : ℕ × Statement). row_common (row_of draft.now.tree.items) placed.0 placed.0 ≡ map direction_of placed.1.down.items) (enumerate_from 0 draft.now.statements.items) }
{
    let tree = draft.tree.as_slice();
    for (number, statement) in draft.statements.as_slice().iter().enumerate() {
        if !runs(tree, number as u16, statement.down.as_slice()) {
            return false;
        }
    }
    true
}

/// Whether the statements are numbered in the order of the text, and each stands in the tree once.
fn are_numbered(alloc: Global, draft: &Draft) -> Result<bool, Memory>
    ensures { IfOk result (λ yes. IsTrue yes ↔ (row_statements (row_of draft.now.tree.items) ≡ range_with_len 0 (length draft.now.statements.items))) }
{
    let mut numbers = Vec::new(alloc);
    push_numbers(draft.tree.as_slice(), &mut numbers)?;
    Ok(count_up_to(numbers.as_slice(), draft.statements.as_slice().len()))
}

/// Whether the parts make a well-formed program.
fn is_well_formed(alloc: Global, draft: &Draft) -> Result<bool, Memory>
    ensures { IfOk result (λ yes. IsTrue yes ↔ IsWellFormed (meaning (parts_of draft.now))) }
{
    let params = draft.params.as_slice().len();
    let numbered = are_numbered(alloc, draft)?;
    Ok(
        numbered
            && are_over(params, draft.assumed.rows())
            && row_fits(draft, params, draft.tree.as_slice()),
    )
}

/// Whether the parts make a program: they are within their limits and well formed, the assumptions are over the
/// parameters, each statement has the bounds and the directions of the loops around it and the rows of the guards, and some
/// text means it.
pub(crate) fn is_program(alloc: Global, draft: &Draft) -> Result<bool, Memory>
    ensures { IfOk result (λ yes. IsTrue yes ↔ IsProgram (parts_of draft.now)) }
{
    let well = is_well_formed(alloc, draft)?;
    let printable = is_printable(alloc, draft)?;
    Ok(
        well && printable
            && draft.assumed.vars() == draft.params.as_slice().len()
            && are_parts_within_limits(draft)
            && have_their_ways(draft)
            && all_run(draft),
    )
}
