//! What keeps an order from being played.

ghost use Rattle.std.specs.Prelude.{◌≡◌, ◌<◌, ◌≤◌, ◌&&◌, nat_lt, not, find, length, IfOk};
ghost use Rattle.iolb_model.specs.Game.{marked, predecessors_at};
ghost use Rattle.pebble_replay.specs.Order.{HoldsEachOnce, order_fault, size_fault};

use crate::fault::ReplayFault;
use pebble_game::{Graph, Memory};
use std::alloc::Global;

/// The first predecessor of an instance that is an instance and not done.
fn first_missing(graph: &Graph, done: &[bool], v: u32) -> Option<u32>
    requires there { v < graph.now.instances }
    requires wide { length done.now ≡ graph.now.instances }
    ensures { result ≡ find (λ u. nat_lt u graph.now.instances && not (marked done.now u)) (predecessors_at graph.now v) }
{
    for u in graph.preds_of(v) {
        if *u < graph.instances() && !done[*u as usize] {
            return Some(*u);
        }
    }
    None
}

/// The first instance of an order with a source that comes later in it, with the first such source.
pub(crate) fn order_fault(
    alloc: Global,
    graph: &Graph,
    order: &[u32],
) -> Result<Option<ReplayFault>, Memory>
    requires { HoldsEachOnce graph.now order.now }
    ensures { IfOk result (λ fault. fault ≡ order_fault graph.now order.now) }
{
    let mut done = vec![in alloc; false; graph.instances() as usize]?;
    for v in order {
        if let Some(u) = first_missing(graph, done.as_slice(), *v) {
            return Ok(Some(ReplayFault::OutOfOrder {
                vertex: *v,
                source: u,
            }));
        }
        done[*v as usize] = true;
    }
    Ok(None)
}

/// The first instance of an order that needs more than `s` red pebbles.
pub(crate) fn size_fault(graph: &Graph, order: &[u32], s: u64) -> Option<ReplayFault>
    requires { HoldsEachOnce graph.now order.now }
    ensures { result ≡ size_fault graph.now s order.now }
{
    for v in order {
        let need = graph.preds_of(*v).len() as u64 + 1;
        if s < need {
            return Some(ReplayFault::TooSmall { vertex: *v, need });
        }
    }
    None
}
