//! Replays whose moves are known.

ghost use Rattle.std.specs.Prelude.{◌≤◌, IfOk};
ghost use Rattle.pebble_replay.specs.Order.{HoldsEachOnce};

use crate::texts::{COPIED_ROW, PRODUCT};
use affine_c::read_program;
use pebble_game::{Graph, Memory, Move};
use pebble_replay::{ReplayFault, replay};
use plain_graph::graphs::graph;
use plain_graph::orders::program_order;
use std::alloc::Global;
use std::test::Fail;

/// The instances in the opposite order.
fn opposite_order(alloc: Global, graph: &Graph) -> Result<Vec<u32>, Memory>
    ensures { IfOk result (λ order. HoldsEachOnce graph.now order.items) }
{
    let mut order = Vec::new(alloc);
    for v in 0..graph.instances() {
        order.insert(0, v)?;
    }
    Ok(order)
}

/// The graph of a program at a size.
fn graph_at(alloc: Global, text: &[u8], size: i128) -> Result<Graph, Fail> {
    let program = read_program(alloc, text)?;
    Ok(graph(alloc, program.statements(), program.tree(), &[size])?)
}

#[test]
fn a_row_is_copied(rt: HostRuntime) -> Result<(), Fail> {
    let alloc = rt.alloc();
    let graph = graph_at(alloc, COPIED_ROW, 3)?;
    let order = program_order(alloc, &graph)?;
    let played = replay(alloc, &graph, order.as_slice(), 2)?;
    let moves = [
        Move::Load(3),
        Move::Compute(0),
        Move::Store(0),
        Move::Drop(0),
        Move::Load(4),
        Move::Drop(3),
        Move::Compute(1),
        Move::Store(1),
        Move::Drop(1),
        Move::Load(5),
        Move::Drop(4),
        Move::Compute(2),
        Move::Store(2),
    ];
    assert!(rt; played.moves.as_slice() == moves.as_slice());
    assert_eq!(rt; (played.loads, played.stores, played.computes), (3, 3, 3));
    Ok(())
}

#[test]
fn a_row_is_copied_from_its_end(rt: HostRuntime) -> Result<(), Fail> {
    let alloc = rt.alloc();
    let graph = graph_at(alloc, COPIED_ROW, 3)?;
    let order = opposite_order(alloc, &graph)?;
    let played = replay(alloc, &graph, order.as_slice(), 2)?;
    let first = [
        Move::Load(5),
        Move::Compute(2),
        Move::Store(2),
        Move::Drop(2),
    ];
    assert!(rt; played.moves.as_slice().starts_with(first.as_slice()));
    Ok(())
}

#[test]
fn a_product_is_played(rt: HostRuntime) -> Result<(), Fail> {
    let alloc = rt.alloc();
    let graph = graph_at(alloc, PRODUCT, 2)?;
    let order = program_order(alloc, &graph)?;
    let played = replay(alloc, &graph, order.as_slice(), 100)?;
    assert_eq!(rt; (played.loads, played.stores, played.computes), (12, 4, 8));
    Ok(())
}

/// What keeps an order from being played.
fn refusal(alloc: Global, graph: &Graph, order: &[u32], s: u64) -> Option<ReplayFault>
    requires each { HoldsEachOnce graph.now order.now }
    requires some { 1 ≤ s }
{
    replay(alloc, graph, order, s).err()
}

#[test]
fn orders_are_refused(rt: HostRuntime) -> Result<(), Fail> {
    let alloc = rt.alloc();
    let row = graph_at(alloc, COPIED_ROW, 3)?;
    let order = program_order(alloc, &row)?;
    let small = ReplayFault::TooSmall { vertex: 0, need: 2 };
    assert_eq!(rt; refusal(alloc, &row, order.as_slice(), 1), Some(small));
    let product = graph_at(alloc, PRODUCT, 2)?;
    let opposite = opposite_order(alloc, &product)?;
    let late = ReplayFault::OutOfOrder {
        vertex: 7,
        source: 6,
    };
    assert_eq!(rt;
        refusal(alloc, &product, opposite.as_slice(), 1),
        Some(late)
    );
    Ok(())
}
