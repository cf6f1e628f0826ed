//! The order of the program.

ghost use Rattle.std.specs.Prelude.{◌≡◌, IfOk};
ghost use Rattle.std.specs.List.{range_with_len};
ghost use Rattle.pebble_replay.specs.Order.{HoldsEachOnce};

use pebble_game::{Graph, Memory};
use std::alloc::Global;

/// The instances of a graph in the order of the program.
///
/// # Errors
///
/// Want of memory alone.
pub fn program_order(alloc: Global, graph: &Graph) -> Result<Vec<u32>, Memory>
    ensures rising { IfOk result (λ order. order.items ≡ range_with_len 0 graph.now.instances) }
    ensures each { IfOk result (λ order. HoldsEachOnce graph.now order.items) }
{
    let mut order = Vec::new(alloc);
    for v in 0..graph.instances() {
        order.push(v)?;
    }
    Ok(order)
}
