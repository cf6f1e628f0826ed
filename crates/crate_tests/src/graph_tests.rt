//! Computation graphs that are known, and sizes at which there is none.

use crate::texts::{COPIED_ROW, PRODUCT};
use affine_c::read_program;
use loop_graph::{GraphFault, build};
use pebble_game::Graph;
use std::alloc::Global;
use std::test::Fail;

/// Two words of a row that are copied, as far on as the parameter says.
const FAR_ROW: &[u8] = b"#pragma scop\nfor (i = N; i < N + 2; i++) A[i] = B[i];\n#pragma endscop\n";

/// Turns without instances.
const IDLE: &[u8] =
    b"#pragma scop\nfor (i = 0; i < N; i++) for (j = i; j < i; j++) A[j] = B[j];\n#pragma endscop\n";

/// The inner words of a row, which are copied.
const INNER_ROW: &[u8] =
    b"#pragma scop\nfor (i = 0; i < N; i++) if (i > 0 && i < N - 1) A[i] = B[i];\n#pragma endscop\n";

/// Turns that a guard leaves empty.
const GUARDED: &[u8] =
    b"#pragma scop\nfor (i = 0; i < N; i++) if (i < 0) A[i] = B[i];\n#pragma endscop\n";

/// A row whose length is assumed to be at least 5.
const LONG_ROW: &[u8] =
    b"#pragma iolb assume N >= 0 && N >= 5\n#pragma scop\nfor (i = 0; i < N; i++) A[i] = B[i];\n#pragma endscop\n";

/// The sum of the squares of a row.
const SQUARES: &[u8] =
    b"#pragma scop\nfor (i = 0; i < N; i++) S[0] = S[0] + A[i] * A[i];\n#pragma endscop\n";

/// The graph of a program of one parameter at a size.
fn graph_at(alloc: Global, text: &[u8], size: i64) -> Result<Result<Graph, GraphFault>, Fail> {
    let program = read_program(alloc, text)?;
    if program.params().len() != 1 || size.unsigned_abs() >= 1 << 40 {
        return Ok(Err(GraphFault::Memory));
    }
    Ok(build(alloc, &program, &[size]))
}

/// How many instances and input cells it has.
fn counts_at(
    alloc: Global,
    text: &[u8],
    size: i64,
) -> Result<Result<(u32, u32), GraphFault>, Fail> {
    match graph_at(alloc, text, size)? {
        Ok(graph) => Ok(Ok((graph.instances(), graph.inputs()))),
        Err(fault) => Ok(Err(fault)),
    }
}

#[test]
fn graphs_are_counted(rt: HostRuntime) -> Result<(), Fail> {
    let alloc = rt.alloc();
    assert_eq!(rt; counts_at(alloc, COPIED_ROW, 3)?, Ok((3, 3)));
    assert_eq!(rt; counts_at(alloc, PRODUCT, 2)?, Ok((8, 12)));
    assert_eq!(rt; counts_at(alloc, FAR_ROW, (1 << 40) - 2)?, Ok((2, 2)));
    assert_eq!(rt; counts_at(alloc, LONG_ROW, 5)?, Ok((5, 5)));
    assert_eq!(rt; counts_at(alloc, INNER_ROW, 5)?, Ok((3, 3)));
    assert_eq!(rt; counts_at(alloc, GUARDED, 5)?, Ok((0, 0)));
    Ok(())
}

#[test]
fn what_is_too_much(rt: HostRuntime) -> Result<(), Fail> {
    let alloc = rt.alloc();
    let too_many = Err(GraphFault::TooMany);
    assert_eq!(rt; counts_at(alloc, COPIED_ROW, 1 << 30)?, too_many);
    assert_eq!(rt; counts_at(alloc, FAR_ROW, (1 << 40) - 1)?, too_many);
    assert_eq!(rt; counts_at(alloc, IDLE, (1 << 24) + 1)?, too_many);
    assert_eq!(rt; counts_at(alloc, GUARDED, (1 << 24) + 1)?, too_many);
    Ok(())
}

#[test]
fn assumptions_are_tested_first(rt: HostRuntime) -> Result<(), Fail> {
    let alloc = rt.alloc();
    let first = Err(GraphFault::OutsideAssumption(0));
    let second = Err(GraphFault::OutsideAssumption(1));
    assert_eq!(rt; counts_at(alloc, COPIED_ROW, 0)?, first);
    assert_eq!(rt; counts_at(alloc, LONG_ROW, -1)?, first);
    assert_eq!(rt; counts_at(alloc, LONG_ROW, 4)?, second);
    Ok(())
}

#[test]
fn sources_and_last_writers(rt: HostRuntime) -> Result<(), Fail> {
    let Ok(graph) = graph_at(rt.alloc(), SQUARES, 3)? else {
        assert!(rt; false);
        return Ok(());
    };
    assert_eq!(rt; (graph.instances(), graph.inputs()), (3, 4));
    let wanted = [[3, 4], [0, 5], [1, 6]];
    for (preds, sources) in graph.preds().iter().zip(wanted.iter()) {
        assert!(rt; preds.as_slice() == sources.as_slice());
    }
    assert!(rt; graph.last() == [false, false, true].as_slice());
    Ok(())
}
