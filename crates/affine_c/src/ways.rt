//! The loops and the guards around a statement.

ghost use Rattle.std.specs.Prelude.{◌≡◌, ◌∷◌, ◌++◌, map, IfOk, IfSome, OnOk, option_map};
ghost use Rattle.iolb_model.specs.Order.{item_common, row_common};
ghost use Rattle.iolb_model.specs.Path.{item_path, row_path};
ghost use Rattle.affine_form.specs.Rows.{direction_of};
ghost use Rattle.affine_program.specs.Tree.{item_of, row_of};
ghost use Rattle.affine_c.specs.Built.{gathered};

use affine_form::{Form, Memory};
use affine_program::Item;
use std::alloc::Global;

/// The bounds of the loops around a statement, outermost first, whether each runs downward, and the rows of the guards
/// around it, outermost first.
#[derive(Drop)]
pub(crate) struct Way {
    pub(crate) bounds: Vec<(Form, Form)>,
    pub(crate) down: Vec<bool>,
    pub(crate) guards: Vec<Form>,
}

/// The way through one loop more, outermost first.
fn with_loop(
    alloc: Global,
    lower: &Form,
    upper: &Form,
    down: bool,
    inner: &mut Way,
) -> Result<(), Memory>
    ensures bounds { OnOk result (inner.new.bounds.items ≡ (lower.now, upper.now) ∷ inner.old.bounds.items) }
    ensures down { OnOk result (inner.new.down.items ≡ down ∷ inner.old.down.items) }
    ensures guards { OnOk result (inner.new.guards.items ≡ inner.old.guards.items) }
{
    let lower = lower.try_clone(alloc)?;
    let upper = upper.try_clone(alloc)?;
    inner.bounds.insert(0, (lower, upper))?;
    inner.down.insert(0, down)?;
    Ok(())
}

/// Puts copies of forms at the end.
fn push_copies(alloc: Global, forms: &mut Vec<Form>, more: &[Form]) -> Result<(), Memory>
    ensures { OnOk result (forms.new.items ≡ forms.old.items ++ more.now) }
{
    for form in more {
        forms.push(form.try_clone(alloc)?)?;
    }
    Ok(())
}

/// The way through one guard more, outermost first.
fn with_guard(alloc: Global, rows: &[Form], inner: Way) -> Result<Way, Memory>
    ensures bounds { IfOk result (λ way. way.bounds.items ≡ inner.bounds.items) }
    ensures down { IfOk result (λ way. way.down.items ≡ inner.down.items) }
    ensures guards { IfOk result (λ way. way.guards.items ≡ rows.now ++ inner.guards.items) }
{
    let Way {
        bounds,
        down,
        guards: others,
    } = inner;
    let mut guards = Vec::new(alloc);
    push_copies(alloc, &mut guards, rows)?;
    push_copies(alloc, &mut guards, others.as_slice())?;
    Ok(Way {
        bounds,
        down,
        guards,
    })
}

/// The way to a statement from an item, where it stands there.
#[cycle(way)]
#[tactic(auto, using(crate::proofs::Gathered::through_loop, crate::proofs::Gathered::through_guard))]
fn way_within(alloc: Global, item: &Item, number: u16) -> Result<Option<Way>, Memory>
    ensures gathered { IfOk result (λ found. option_map (λ way. (way.bounds.items, way.guards.items)) found ≡ option_map gathered (item_path (item_of item.now) number)) }
    ensures down { IfOk result (λ found. IfSome found (λ way. map direction_of way.down.items ≡ item_common (item_of item.now) number number)) }
{
    match item {
        Item::Assign(other) => {
            if *other == number {
                Ok(Some(Way {
                    bounds: Vec::new(alloc),
                    down: Vec::new(alloc),
                    guards: Vec::new(alloc),
                }))
            } else {
                Ok(None)
            }
        }
        Item::Loop {
            lower,
            upper,
            down,
            body,
            ..
        } => match way_in(alloc, body.as_slice(), number)? {
            None => Ok(None),
            Some(mut way) => {
                with_loop(alloc, lower, upper, *down, &mut way)?;
                Ok(Some(way))
            }
        },
        Item::Guard { rows, body } => match way_in(alloc, body.as_slice(), number)? {
            None => Ok(None),
            Some(way) => Ok(Some(with_guard(alloc, rows.as_slice(), way)?)),
        },
    }
}

/// The way to a statement from a row of items, where it stands there.
#[cycle(way)]
#[tactic(auto, using(crate::proofs::Gathered::no_way, crate::proofs::Gathered::first_way))]
pub(crate) fn way_in(alloc: Global, items: &[Item], number: u16) -> Result<Option<Way>, Memory>
    ensures gathered { IfOk result (λ found. option_map (λ way. (way.bounds.items, way.guards.items)) found ≡ option_map gathered (row_path (row_of items.now) number)) }
    ensures down { IfOk result (λ found. IfSome found (λ way. map direction_of way.down.items ≡ row_common (row_of items.now) number number)) }
{
    for item in items {
        if let Some(way) = way_within(alloc, item, number)? {
            return Ok(Some(way));
        }
    }
    Ok(None)
}
