//! A board of a small graph, and each refusal.

ghost use Rattle.std.specs.Prelude.{◌≡◌, IfOk};
ghost use Rattle.iolb_model.specs.Game.{vertices};

use crate::texts::COPIED_ROW;
use affine_c::read_program;
use loop_graph::build;
use pebble_game::{Board, Graph, Illegal, Move};
use std::alloc::Global;
use std::test::Fail;

/// The graph of a copied row of three: the instances 0 to 2 read the inputs 3 to 5.
fn copied_row(alloc: Global) -> Result<Graph, Fail>
    ensures { IfOk result (λ graph. vertices graph ≡ 6) }
{
    let program = read_program(alloc, COPIED_ROW)?;
    if program.params().len() != 1 {
        return Err(Fail::new("its parameter is the row's length"));
    }
    let graph = build(alloc, &program, &[3])?;
    if graph.instances() != 3 || graph.inputs() != 3 {
        return Err(Fail::new("it has three instances and three inputs"));
    }
    Ok(graph)
}

#[test]
fn moves_are_refused_in_order(rt: HostRuntime) -> Result<(), Fail> {
    let graph = copied_row(rt.alloc())?;
    let mut board = Board::new(rt.alloc(), &graph, 1)?;
    assert_eq!(rt;
        board.apply(&graph, Move::Compute(0)),
        Err(Illegal::NeedsRed(3))
    );
    assert_eq!(rt; board.apply(&graph, Move::Load(0)), Err(Illegal::NoBlue));
    assert_eq!(rt; board.apply(&graph, Move::Load(3)), Ok(()));
    assert_eq!(rt; board.apply(&graph, Move::Load(3)), Ok(()));
    assert_eq!(rt; board.apply(&graph, Move::Load(4)), Err(Illegal::Full));
    assert_eq!(rt; board.apply(&graph, Move::Compute(0)), Err(Illegal::Full));
    assert_eq!(rt;
        board.apply(&graph, Move::Compute(3)),
        Err(Illegal::InputVertex)
    );
    assert_eq!(rt; board.apply(&graph, Move::Drop(4)), Err(Illegal::NoRed));
    Ok(())
}

#[test]
fn a_pebbling_with_two(rt: HostRuntime) -> Result<(), Fail> {
    let graph = copied_row(rt.alloc())?;
    let mut board = Board::new(rt.alloc(), &graph, 2)?;
    assert_eq!(rt; board.apply(&graph, Move::Load(3)), Ok(()));
    assert_eq!(rt; board.apply(&graph, Move::Compute(0)), Ok(()));
    assert_eq!(rt; board.apply(&graph, Move::Store(0)), Ok(()));
    assert_eq!(rt; board.apply(&graph, Move::Drop(0)), Ok(()));
    assert_eq!(rt;
        board.apply(&graph, Move::Compute(0)),
        Err(Illegal::Computed)
    );
    assert_eq!(rt; board.apply(&graph, Move::Store(0)), Err(Illegal::NoRed));
    assert_eq!(rt; board.apply(&graph, Move::Erase(0)), Ok(()));
    assert_eq!(rt; board.apply(&graph, Move::Erase(0)), Err(Illegal::NoBlue));
    Ok(())
}
