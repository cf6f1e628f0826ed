//! Names of the variables around a statement.

ghost use Rattle.std.specs.Prelude.{◌≡◌, IfOk};

use affine_form::{Memory, Name};
use affine_program::{Item, Program, with_name};
use std::alloc::Global;

/// The names of what is around a statement, where items in a row have it and these names are around them.
#[cycle(walk)]
fn names_in(
    alloc: Global,
    items: &[Item],
    statement: u16,
    names: &[Name],
) -> Result<Option<Vec<Name>>, Memory> {
    for item in items {
        let found = names_of(alloc, item, statement, names)?;
        if found.is_some() {
            return Ok(found);
        }
    }
    Ok(None)
}

/// The same where an item has it.
#[cycle(walk)]
fn names_of(
    alloc: Global,
    item: &Item,
    statement: u16,
    names: &[Name],
) -> Result<Option<Vec<Name>>, Memory> {
    match item {
        Item::Assign(number) => {
            if *number == statement {
                Ok(Some(copies(alloc, names)?))
            } else {
                Ok(None)
            }
        }
        Item::Loop { name, body, .. } => {
            let inner = with_name(alloc, names, name)?;
            names_in(alloc, body, statement, inner.as_slice())
        }
        Item::Guard { body, .. } => names_in(alloc, body, statement, names),
    }
}

/// Copies of names.
fn copies(alloc: Global, names: &[Name]) -> Result<Vec<Name>, Memory>
    ensures { IfOk result (λ all. all.items ≡ names.now) }
{
    let mut all = Vec::new(alloc);
    for name in names {
        all.push(name.try_clone(alloc)?)?;
    }
    Ok(all)
}

/// The names of a program's parameters and then of the loops around a statement, from the outermost on; of the parameters alone, where
/// the program doesn't have it.
pub fn names_at(alloc: Global, program: &Program, statement: u16) -> Result<Vec<Name>, Memory> {
    let params = program.params();
    match names_in(alloc, program.tree(), statement, params)? {
        Some(names) => Ok(names),
        None => copies(alloc, params),
    }
}
