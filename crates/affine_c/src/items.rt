//! Items, printed.

ghost use Rattle.std.specs.Prelude.{◌≡◌, ◌++◌, codes, flat_map, length, OnOk};
ghost use Rattle.std.specs.List.{AllByRecursion, join_by};
ghost use Rattle.iolb_model.specs.Printed.{form_text};
ghost use Rattle.iolb_model.specs.Program.{IsOver, ItemFits, RowFits};
ghost use Rattle.affine_form.specs.Rows.{direction_of};
ghost use Rattle.affine_program.specs.Parts.{meaning};
ghost use Rattle.affine_program.specs.Tree.{item_of, row_of};
ghost use Rattle.affine_c.specs.Text.{condition_text, guard_text, header_text, item_text, row_text};

use crate::references::push_statement;
use affine_form::{Form, Memory, Name};
use affine_program::{Item, Program, with_name};
use std::alloc::Global;

/// Items in a row, written at the end.
#[cycle(printing)]
pub(crate) fn push_items(
    alloc: Global,
    text: &mut Vec<u8>,
    program: &Program,
    names: &[Name],
    items: &[Item],
) -> Result<(), Memory>
    requires { RowFits (meaning program.now) (length names.now) (row_of items.now) }
    ensures { OnOk result (text.new.items ≡ text.old.items ++ row_text (meaning program.now) names.now (row_of items.now)) }
{
    for item in items {
        push_item(alloc, text, program, names, item)?;
    }
    Ok(())
}

/// An item, written at the end.
#[cycle(printing)]
fn push_item(
    alloc: Global,
    text: &mut Vec<u8>,
    program: &Program,
    names: &[Name],
    item: &Item,
) -> Result<(), Memory>
    requires { ItemFits (meaning program.now) (length names.now) (item_of item.now) }
    ensures { OnOk result (text.new.items ≡ text.old.items ++ item_text (meaning program.now) names.now (item_of item.now)) }
{
    match item {
        Item::Assign(number) => push_statement(alloc, text, program, names, *number),
        Item::Loop {
            name,
            lower,
            upper,
            down,
            body,
        } => {
            push_header(alloc, text, names, name, *down, lower, upper)?;
            let inner = with_name(alloc, names, name)?;
            push_items(alloc, text, program, inner.as_slice(), body)?;
            text.extend_from_slice(b"}\n")?;
            Ok(())
        }
        Item::Guard { rows, body } => {
            push_guard(alloc, text, names, rows)?;
            push_items(alloc, text, program, names, body)?;
            text.extend_from_slice(b"}\n")?;
            Ok(())
        }
    }
}

/// The header of a loop that runs downward or not, with its lower and its upper bound, written on a line at the end.
fn push_header(
    alloc: Global,
    text: &mut Vec<u8>,
    names: &[Name],
    name: &Name,
    down: bool,
    lower: &Form,
    upper: &Form,
) -> Result<(), Memory>
    requires lower_over { IsOver (length names.now) lower.now }
    requires upper_over { IsOver (length names.now) upper.now }
    ensures { OnOk result (text.new.items ≡ text.old.items ++ header_text names.now name.now (direction_of down) lower.now upper.now) }
{
    if down {
        push_bound(alloc, text, b"for (", names, name, b" = ", upper)?;
        push_bound(alloc, text, b"; ", names, name, b" >= ", lower)?;
        push_step(text, name, b"--) {\n")
    } else {
        push_bound(alloc, text, b"for (", names, name, b" = ", lower)?;
        push_bound(alloc, text, b"; ", names, name, b" <= ", upper)?;
        push_step(text, name, b"++) {\n")
    }
}

/// A loop's name and its step behind a header's bounds, written at the end.
fn push_step(text: &mut Vec<u8>, name: &Name, step: &[u8]) -> Result<(), Memory>
    ensures { OnOk result (text.new.items ≡ text.old.items ++ codes "; " ++ name.now ++ step.now) }
{
    text.extend_from_slice(b"; ")?;
    text.extend_from_slice(name.bytes())?;
    text.extend_from_slice(step)?;
    Ok(())
}

/// A loop's name between two pieces, and then a form, written at the end.
fn push_bound(
    alloc: Global,
    text: &mut Vec<u8>,
    before: &[u8],
    names: &[Name],
    name: &Name,
    sign: &[u8],
    form: &Form,
) -> Result<(), Memory>
    requires { IsOver (length names.now) form.now }
    ensures { OnOk result (text.new.items ≡ text.old.items ++ before.now ++ name.now ++ sign.now ++ form_text names.now form.now) }
{
    text.extend_from_slice(before)?;
    text.extend_from_slice(name.bytes())?;
    text.extend_from_slice(sign)?;
    text.extend_from_slice(form.text(alloc, names)?.as_slice())?;
    Ok(())
}

/// What a guard of these rows begins with, written on a line at the end.
fn push_guard(
    alloc: Global,
    text: &mut Vec<u8>,
    names: &[Name],
    rows: &[Form],
) -> Result<(), Memory>
    requires { AllByRecursion (IsOver (length names.now)) rows.now }
    ensures { OnOk result (text.new.items ≡ text.old.items ++ guard_text names.now rows.now) }
{
    text.extend_from_slice(b"if (")?;
    push_conditions(alloc, text, names, rows)?;
    text.extend_from_slice(b") {\n")?;
    Ok(())
}

/// The rows of a guard, written at the end.
fn push_conditions(
    alloc: Global,
    text: &mut Vec<u8>,
    names: &[Name],
    rows: &[Form],
) -> Result<(), Memory>
    requires { AllByRecursion (IsOver (length names.now)) rows.now }
    ensures { OnOk result (text.new.items ≡ text.old.items ++ join_by (condition_text names.now) (codes " && ") rows.now) }
{
    let Some((first, others)) = rows.split_first() else {
        return Ok(());
    };
    push_condition(alloc, text, names, first)?;
    push_other_conditions(alloc, text, names, others)
}

/// Rows of a guard behind its first one, written at the end.
fn push_other_conditions(
    alloc: Global,
    text: &mut Vec<u8>,
    names: &[Name],
    rows: &[Form],
) -> Result<(), Memory>
    requires { AllByRecursion (IsOver (length names.now)) rows.now }
    ensures { OnOk result (text.new.items ≡ text.old.items ++ flat_map (λ row. codes " && " ++ condition_text names.now row) rows.now) }
{
    for row in rows {
        text.extend_from_slice(b" && ")?;
        push_condition(alloc, text, names, row)?;
    }
    Ok(())
}

/// A row of a guard, written at the end.
fn push_condition(
    alloc: Global,
    text: &mut Vec<u8>,
    names: &[Name],
    row: &Form,
) -> Result<(), Memory>
    requires { IsOver (length names.now) row.now }
    ensures { OnOk result (text.new.items ≡ text.old.items ++ condition_text names.now row.now) }
{
    text.extend_from_slice(row.text(alloc, names)?.as_slice())?;
    text.extend_from_slice(b" >= 0")?;
    Ok(())
}
