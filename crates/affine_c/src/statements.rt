//! The statements of a text's items.

ghost use Rattle.std.specs.Prelude.{◌≡◌, ◌≤◌, ◌+◌, ◌++◌, length, map, IfOk, OnOk, IsSomeAnd};
ghost use Rattle.std.specs.List.{AllByRecursion};
ghost use Rattle.iolb_model.specs.Order.{row_common};
ghost use Rattle.iolb_model.specs.Path.{row_path};
ghost use Rattle.c_reading.specs.Tree as read;
ghost use Rattle.c_grammar.specs.Well.{IsRowOver, item_count, statement_count};
ghost use Rattle.affine_program.specs.Limits.{IsSmallReference, IsStatementWithinLimits};
ghost use Rattle.affine_form.specs.Form.{variables};
ghost use Rattle.affine_form.specs.Rows.{direction_of, widened};
ghost use Rattle.affine_program.specs.Parts.{StandOn, access_of, statement_of};
ghost use Rattle.affine_program.specs.Tree.{row_of};
ghost use Rattle.c_grammar.specs.Program.{narrowed_access, narrowed_statement, statements_in_item, statements_in};
ghost use Rattle.affine_c.specs.Built.{AreRowsOver, IsItemInside, AreItemsInside, IsShortWay, IsTreeOf, ArePlaced};
ghost use Rattle.iolb_model.specs.declared.limits.TheConstants.{LOOPS, PARAMETERS, READS, VARIABLES};

use crate::forms::forms_of;
use crate::ways::{Way, way_in};
use affine_form::{Form, Memory, widened};
use affine_program::{Item, Reference, Statement};
use c_reading::{Access, Item as ReadItem, Reading, Statement as ReadStatement};
use std::alloc::Global;

/// The reference that was read.
fn reference_of(
    alloc: Global,
    access: &Access,
    parameters: usize,
    depth: usize,
) -> Result<Reference, Memory>
    requires few { parameters ≤ PARAMETERS }
    requires inner { depth ≤ LOOPS }
    requires over { AllByRecursion (IsRowOver parameters depth) access.now.subscripts }
    ensures reference { IfOk result (λ reference. access_of reference ≡ narrowed_access parameters depth access.now) }
    ensures small { IfOk result IsSmallReference }
{
    let subs = forms_of(alloc, access.subscripts(), parameters, depth)?;
    Ok(Reference {
        array: access.array(),
        subs,
    })
}

/// The references that were read.
fn references_of(
    alloc: Global,
    accesses: &[Access],
    parameters: usize,
    depth: usize,
) -> Result<Vec<Reference>, Memory>
    requires few { parameters ≤ PARAMETERS }
    requires inner { depth ≤ LOOPS }
    requires over { AllByRecursion (AreRowsOver parameters depth) accesses.now }
    ensures references { IfOk result (λ references. map access_of references.items ≡ map (narrowed_access parameters depth) accesses.now) }
    ensures small { IfOk result (λ references. AllByRecursion IsSmallReference references.items) }
{
    let mut references = Vec::new(alloc);
    for access in accesses {
        references.push(reference_of(alloc, access, parameters, depth)?)?;
    }
    Ok(references)
}

/// Forms read over so many variables.
fn all_widened(alloc: Global, vars: usize, forms: &[Form]) -> Result<Vec<Form>, Memory>
    requires few { vars ≤ VARIABLES }
    requires room { AllByRecursion (λ form. variables form ≤ vars) forms.now }
    ensures { IfOk result (λ wide. wide.items ≡ map (widened vars) forms.now) }
{
    let mut wide = Vec::new(alloc);
    for form in forms {
        wide.push(widened(alloc, vars, form)?)?;
    }
    Ok(wide)
}

/// The statement of this number that was read, with the bounds and the directions of the loops and the rows of the
/// guards around it in the tree.
fn statement_at(
    alloc: Global,
    statement: &ReadStatement,
    parameters: usize,
    depth: usize,
    tree: &[Item],
    number: u16,
) -> Result<Statement, Memory>
    requires few { parameters ≤ PARAMETERS }
    requires inner { depth ≤ LOOPS }
    requires writes { AreRowsOver parameters depth statement.now.writes }
    requires few_reads { length statement.now.reads ≤ READS }
    requires reads { AllByRecursion (AreRowsOver parameters depth) statement.now.reads }
    requires short { IsSomeAnd (row_path (row_of tree.now) number) (IsShortWay parameters) }
    ensures statement { IfOk result (λ made. statement_of made ≡ narrowed_statement parameters depth statement.now) }
    ensures way { IfOk result (λ made. IsSomeAnd (row_path (row_of tree.now) number) (StandOn (parameters + length made.bounds.items) made.bounds.items made.guards.items)) }
    ensures directions { IfOk result (λ made. row_common (row_of tree.now) number number ≡ map direction_of made.down.items) }
    ensures limits { IfOk result IsStatementWithinLimits }
{
    let writes = reference_of(alloc, statement.writes(), parameters, depth)?;
    let reads = references_of(alloc, statement.reads(), parameters, depth)?;
    let Some(way) = way_in(alloc, tree, number)? else {
        unreachable!();
    };
    let Way {
        bounds,
        down,
        guards,
    } = way;
    let vars = parameters + bounds.as_slice().len();
    let guards = all_widened(alloc, vars, guards.as_slice())?;
    Ok(Statement {
        bounds,
        down,
        guards,
        writes,
        reads,
    })
}

/// The statements of an item inside so many loops, put at the end, each with the bounds and the directions of the loops
/// and the rows of the guards around it in the tree.
#[cycle(placing)]
fn place_item(
    alloc: Global,
    reading: &Reading,
    parameters: usize,
    depth: usize,
    item: &ReadItem,
    tree: &[Item],
    statements: &mut Vec<Statement>,
) -> Result<(), Memory>
    requires tree { IsTreeOf reading.now parameters (row_of tree.now) }
    requires inner { depth ≤ LOOPS }
    requires fits { IsItemInside reading.now depth (read.item_of item.now) }
    requires room { length statements.old.items + item_count (read.item_of item.now) ≤ statement_count reading.now.items }
    requires placed { ArePlaced parameters (row_of tree.now) statements.old.items }
    ensures statements { OnOk result (map statement_of statements.new.items ≡ map statement_of statements.old.items ++ statements_in_item parameters depth (read.item_of item.now)) }
    ensures count { OnOk result (length statements.new.items ≡ length statements.old.items + item_count (read.item_of item.now)) }
    ensures placed { OnOk result (ArePlaced parameters (row_of tree.now) statements.new.items) }
{
    match item {
        ReadItem::Assign(statement) => {
            let number = statements.as_slice().len() as u16;
            statements.push(statement_at(alloc, statement, parameters, depth, tree, number)?)?;
            Ok(())
        }
        ReadItem::Loop(_, body) => {
            let inner = depth + 1;
            place_items(
                alloc,
                reading,
                parameters,
                inner,
                body.as_slice(),
                tree,
                statements,
            )
        }
        ReadItem::Guard(_, body) => place_items(
            alloc,
            reading,
            parameters,
            depth,
            body.as_slice(),
            tree,
            statements,
        ),
    }
}

/// The same of items in a row.
#[cycle(placing)]
fn place_items(
    alloc: Global,
    reading: &Reading,
    parameters: usize,
    depth: usize,
    items: &[ReadItem],
    tree: &[Item],
    statements: &mut Vec<Statement>,
) -> Result<(), Memory>
    requires tree { IsTreeOf reading.now parameters (row_of tree.now) }
    requires inner { depth ≤ LOOPS }
    requires fits { AreItemsInside reading.now depth (read.items_of items.now) }
    requires room { length statements.old.items + statement_count (read.items_of items.now) ≤ statement_count reading.now.items }
    requires placed { ArePlaced parameters (row_of tree.now) statements.old.items }
    ensures statements { OnOk result (map statement_of statements.new.items ≡ map statement_of statements.old.items ++ statements_in parameters depth (read.items_of items.now)) }
    ensures count { OnOk result (length statements.new.items ≡ length statements.old.items + statement_count (read.items_of items.now)) }
    ensures placed { OnOk result (ArePlaced parameters (row_of tree.now) statements.new.items) }
{
    for item in items {
        place_item(alloc, reading, parameters, depth, item, tree, statements)?;
    }
    Ok(())
}

/// The statements of a reading, in the order of the text, with the bounds and the directions of the loops and the rows
/// of the guards around them in the tree.
pub(crate) fn statements_of(
    alloc: Global,
    reading: &Reading,
    parameters: usize,
    tree: &[Item],
) -> Result<Vec<Statement>, Memory>
    requires tree { IsTreeOf reading.now parameters (row_of tree.now) }
    requires fits { AreItemsInside reading.now 0 reading.now.items }
    ensures statements { IfOk result (λ statements. map statement_of statements.items ≡ statements_in parameters 0 reading.now.items) }
    ensures placed { IfOk result (λ statements. ArePlaced parameters (row_of tree.now) statements.items) }
{
    let mut statements = Vec::new(alloc);
    place_items(
        alloc,
        reading,
        parameters,
        0,
        reading.items(),
        tree,
        &mut statements,
    )?;
    Ok(statements)
}
