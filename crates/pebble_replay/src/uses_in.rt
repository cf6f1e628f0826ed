//! The uses of all vertices in an order.

ghost use Rattle.std.specs.Prelude.{◌≡◌, ◌<◌, ◌∷◌, [], ℕ, nat_eq, if◌then◌else◌, length, slice_index_or, IfOk, OnOk};
ghost use Rattle.std.specs.List.{AllByRecursion, IsDistinct};
ghost use Rattle.iolb_model.specs.Game.{stands_in};
ghost use Rattle.pebble_replay.specs.Order.{HoldsEachOnce};
ghost use Rattle.pebble_replay.specs.Uses.{AreUses};

use crate::uses::Uses;
use pebble_game::{Graph, Memory};
use std::alloc::Global;

/// Puts a use before those of each of some different vertices.
fn push_uses(uses: &mut Uses, us: &[u32], left: u32) -> Result<(), Memory>
    requires there { AllByRecursion (λ u. u < length uses.old) us.now }
    requires once { IsDistinct nat_eq us.now }
    ensures lists { OnOk result (length uses.new ≡ length uses.old) }
    ensures each { OnOk result ((w : ℕ) → slice_index_or uses.new w [] ≡ (if stands_in us.now w then left ∷ slice_index_or uses.old w [] else slice_index_or uses.old w [])) }
{
    for u in us {
        uses.push(*u, left)?;
    }
    Ok(())
}

/// The uses of all vertices in an order.
pub(crate) fn uses_in(alloc: Global, graph: &Graph, order: &[u32]) -> Result<Uses, Memory>
    requires { HoldsEachOnce graph.now order.now }
    ensures { IfOk result (λ uses. AreUses graph.now order.now uses) }
{
    let vertices = graph.instances() as usize + graph.inputs() as usize;
    let mut uses = Uses::new(alloc, vertices)?;
    for place in (0..order.len()).rev() {
        let left = (order.len() - place) as u32;
        push_uses(&mut uses, graph.preds_of(order[place]), left)?;
    }
    Ok(uses)
}
