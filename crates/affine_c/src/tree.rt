//! The tree of a text's items.

ghost use Rattle.std.specs.Prelude.{◌≡◌, ◌≤◌, ◌+◌, length, map, IfOk, OnOk};
ghost use Rattle.iolb_model.specs.Program.{loop, guard};
ghost use Rattle.affine_form.specs.Rows.{direction_of};
ghost use Rattle.iolb_model.specs.declared.limits.TheConstants.{LOOPS, PARAMETERS, STATEMENTS};
ghost use Rattle.affine_program.specs.Tree.{item_of, row_of};
ghost use Rattle.c_reading.specs.Tree as read;
ghost use Rattle.c_grammar.specs.Well.{item_count, statement_count, parameters_of};
ghost use Rattle.c_grammar.specs.Program.{item_meant, items_meant};
ghost use Rattle.affine_c.specs.Built.{IsItemInside, AreItemsInside};

use crate::forms::{form_of, forms_of};
use affine_form::{Form, Memory, Name};
use affine_program::Item;
use c_reading::{Item as ReadItem, Reading};
use std::alloc::Global;

/// A loop around a row of items.
fn loop_item(name: Name, lower: Form, upper: Form, down: bool, body: Vec<Item>) -> Item
    ensures { item_of result ≡ loop name (direction_of down) lower upper (row_of body.items) }
{
    Item::Loop {
        name,
        lower,
        upper,
        down,
        body,
    }
}

/// A guard around a row of items.
fn guard_item(rows: Vec<Form>, body: Vec<Item>) -> Item
    ensures { item_of result ≡ guard rows.items (row_of body.items) }
{
    Item::Guard { rows, body }
}

/// The item of a program that an item means inside so many loops, where the next statement has this number, which then is
/// that of the next one behind it.
#[cycle(meaning)]
fn item_in(
    alloc: Global,
    reading: &Reading,
    parameters: usize,
    depth: usize,
    number: &mut u16,
    item: &ReadItem,
) -> Result<Item, Memory>
    requires few { parameters ≤ PARAMETERS }
    requires parameters { parameters ≡ length (parameters_of reading.now) }
    requires inner { depth ≤ LOOPS }
    requires fits { IsItemInside reading.now depth (read.item_of item.now) }
    requires room { number.old + item_count (read.item_of item.now) ≤ STATEMENTS }
    ensures item { IfOk result (λ made. item_of made ≡ item_meant reading.now.names parameters depth number.old (read.item_of item.now)) }
    ensures number { OnOk result (number.new ≡ number.old + item_count (read.item_of item.now)) }
{
    match item {
        ReadItem::Assign(_) => {
            let here = *number;
            *number += 1;
            Ok(Item::Assign(here))
        }
        ReadItem::Loop(header, body) => {
            let name = reading.names()[header.name].try_clone(alloc)?;
            let lower = form_of(alloc, &header.lower, parameters, depth)?;
            let upper = form_of(alloc, &header.upper, parameters, depth)?;
            let body = items_in(
                alloc,
                reading,
                parameters,
                depth + 1,
                number,
                body.as_slice(),
            )?;
            Ok(loop_item(name, lower, upper, header.down, body))
        }
        ReadItem::Guard(rows, body) => {
            let rows = forms_of(alloc, rows.as_slice(), parameters, depth)?;
            let body = items_in(alloc, reading, parameters, depth, number, body.as_slice())?;
            Ok(guard_item(rows, body))
        }
    }
}

/// The items of a program that items mean.
#[cycle(meaning)]
fn items_in(
    alloc: Global,
    reading: &Reading,
    parameters: usize,
    depth: usize,
    number: &mut u16,
    items: &[ReadItem],
) -> Result<Vec<Item>, Memory>
    requires few { parameters ≤ PARAMETERS }
    requires parameters { parameters ≡ length (parameters_of reading.now) }
    requires inner { depth ≤ LOOPS }
    requires fits { AreItemsInside reading.now depth (read.items_of items.now) }
    requires room { number.old + statement_count (read.items_of items.now) ≤ STATEMENTS }
    ensures items { IfOk result (λ made. map item_of made.items ≡ items_meant reading.now.names parameters depth number.old (read.items_of items.now)) }
    ensures number { OnOk result (number.new ≡ number.old + statement_count (read.items_of items.now)) }
{
    let mut made = Vec::new(alloc);
    for item in items {
        made.push(item_in(alloc, reading, parameters, depth, number, item)?)?;
    }
    Ok(made)
}

/// The tree that a reading's items mean.
pub(crate) fn tree_of(
    alloc: Global,
    reading: &Reading,
    parameters: usize,
) -> Result<Vec<Item>, Memory>
    requires few { parameters ≤ PARAMETERS }
    requires parameters { parameters ≡ length (parameters_of reading.now) }
    requires fits { AreItemsInside reading.now 0 reading.now.items }
    requires room { statement_count reading.now.items ≤ STATEMENTS }
    ensures { IfOk result (λ tree. map item_of tree.items ≡ items_meant reading.now.names parameters 0 0 reading.now.items) }
{
    let mut number = 0;
    items_in(alloc, reading, parameters, 0, &mut number, reading.items())
}
