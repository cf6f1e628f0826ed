//! Computation graphs of programs at small sizes.

use affine_program::Program;
use plain_graph::graphs::graph;
use plain_graph::runs::{Instance, runs_of_row};
use std::alloc::{AllocError, Global};

/// Two lists of sizes; a program takes as many of each as it has parameters.
const SIZES: [[i128; 6]; 2] = [[2, 4, 3, 2, 1, 1], [3, 1, 2, 2, 1, 1]];

/// Writes whole numbers, each behind a blank.
fn write_values(alloc: Global, values: &[i128], page: &mut Vec<u8>) -> Result<(), AllocError> {
    for value in values {
        page.extend_from_slice(format!(in alloc; " {value}")?.as_bytes())?;
    }
    Ok(())
}

/// Writes vertices, each behind a blank.
fn write_vertices(alloc: Global, vertices: &[u32], page: &mut Vec<u8>) -> Result<(), AllocError> {
    for vertex in vertices {
        page.extend_from_slice(format!(in alloc; " {vertex}")?.as_bytes())?;
    }
    Ok(())
}

/// Writes an instance: its place, its statement and the values of its loops, its predecessors, and whether it writes a cell
/// last.
fn write_instance(
    alloc: Global,
    place: usize,
    instance: &Instance,
    preds: &[u32],
    last: bool,
    page: &mut Vec<u8>,
) -> Result<(), AllocError> {
    let statement = instance.statement;
    page.extend_from_slice(format!(in alloc; "{place}: statement {statement} at")?.as_bytes())?;
    write_values(alloc, instance.values.as_slice(), page)?;
    page.extend_from_slice(b" from")?;
    write_vertices(alloc, preds, page)?;
    page.extend_from_slice(if last { b" last\n" } else { b"\n" })
}

/// Writes the graph of a program at sizes.
fn write_at(
    alloc: Global,
    program: &Program,
    sizes: &[i128],
    page: &mut Vec<u8>,
) -> Result<(), AllocError> {
    page.extend_from_slice(b"at")?;
    write_values(alloc, sizes, page)?;
    let (Ok(runs), Ok(graph)) = (
        runs_of_row(alloc, program.tree(), sizes),
        graph(alloc, program.statements(), program.tree(), sizes),
    ) else {
        return page.extend_from_slice(b": no graph\n");
    };
    let (instances, inputs) = (graph.instances(), graph.inputs());
    let line = format!(in alloc; ": {instances} instances, {inputs} inputs\n")?;
    page.extend_from_slice(line.as_bytes())?;
    for (place, ((instance, preds), last)) in runs
        .iter()
        .zip(graph.preds())
        .zip(graph.last())
        .enumerate()
    {
        write_instance(alloc, place, instance, preds.as_slice(), *last, page)?;
    }
    Ok(())
}

/// Writes the graphs of a program at two lists of sizes; one graph, where it has no parameter.
pub(crate) fn write(
    alloc: Global,
    program: &Program,
    page: &mut Vec<u8>,
) -> Result<(), AllocError> {
    let count = program.params().len();
    for sizes in SIZES {
        if count <= sizes.len() {
            write_at(alloc, program, &sizes[..count], page)?;
        }
        if count == 0 {
            return Ok(());
        }
    }
    Ok(())
}
