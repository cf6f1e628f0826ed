//! Computation graphs.

ghost use Rattle.std.specs.Prelude.{◌≡◌, ◌<◌, ◌≤◌, drop, [], ◌∷◌, ◌++◌, length, map, not, filter, slice_index_or, IfOk, nat_eq, filter_map, flat_map};
ghost use Rattle.std.specs.List.{list_any, position_or_len};
ghost use Rattle.iolb_model.specs.Source.{same_cell, sources_of, written_cell};
ghost use Rattle.iolb_model.specs.Graph.{distinct, input_cell, placed, vertex_of, predecessors_of, is_last_writer, computation_graph};
ghost use Rattle.pebble_game.specs.Graphs.{graph_with};
ghost use Rattle.plain_graph.specs.Views.{cell_view, instance_of, source_view, program_with, no_instance};

use crate::cells::{Cell, cell_written_by};
use crate::runs::{Instance, runs_of_row};
use crate::sources::{Source, cells_of_inputs, distinct_cells, sources_at};
use crate::stopped::Stopped;
use affine_program::{Item, Statement};
use pebble_game::Graph;
use std::alloc::Global;

/// The sources of all reads, in the order of execution.
fn all_sources(
    alloc: Global,
    statements: &[Statement],
    parameters: &[i128],
    runs: &[Instance],
) -> Result<Vec<Source>, Stopped>
    ensures { IfOk result (λ sources. map source_view sources.items ≡ flat_map (sources_of (program_with statements.now []) parameters.now (map instance_of runs.now)) (placed (map instance_of runs.now))) }
{
    let mut all = Vec::new(alloc);
    for place in 0..runs.len() {
        let mut sources = sources_at(alloc, statements, parameters, runs, place)?;
        all.append(&mut sources)?;
    }
    Ok(all)
}

/// The place of a cell among cells, or their number where it isn't there.
fn place_of_cell(cell: &Cell, cells: &[Cell]) -> usize
    ensures { result ≡ position_or_len (same_cell (cell_view cell.now)) (map cell_view cells.now) }
{
    for (i, other) in cells.iter().enumerate() {
        if cell.same(other) {
            return i;
        }
    }
    cells.len()
}

/// The vertex of a source, where there are so many instances and these input cells.
fn vertex(source: &Source, instances: usize, cells: &[Cell]) -> Result<u32, Stopped>
    ensures { IfOk result (λ vertex. vertex ≡ vertex_of instances (map cell_view cells.now) (source_view source.now)) }
{
    let vertex = match source {
        Source::Written(place) => *place,
        Source::Input(cell) => instances
            .checked_add(place_of_cell(cell, cells))
            .ok_or(Stopped::OutOfReach)?,
    };
    u32::try_from(vertex).map_err(|_| Stopped::OutOfReach)
}

/// The vertices that aren't this one.
fn vertices_apart(alloc: Global, vertex: u32, vertices: &[u32]) -> Result<Vec<u32>, Stopped>
    ensures { IfOk result (λ apart. apart.items ≡ filter (λ other. not (nat_eq vertex other)) vertices.now) }
{
    let mut apart = Vec::new(alloc);
    for other in vertices {
        if vertex != *other {
            apart.push(*other)?;
        }
    }
    Ok(apart)
}

/// Each vertex once, where it first stands.
fn distinct_vertices(alloc: Global, vertices: &[u32]) -> Result<Vec<u32>, Stopped>
    ensures { IfOk result (λ found. found.items ≡ distinct nat_eq vertices.now) }
{
    let mut found = Vec::new(alloc);
    for k in (0..vertices.len()).rev() {
        let mut rest = vertices_apart(alloc, vertices[k], found.as_slice())?;
        rest.insert(0, vertices[k])?;
        found = rest;
    }
    Ok(found)
}

/// The vertices of sources.
fn vertices_of(
    alloc: Global,
    sources: &[Source],
    instances: usize,
    cells: &[Cell],
) -> Result<Vec<u32>, Stopped>
    ensures { IfOk result (λ vertices. vertices.items ≡ map (vertex_of instances (map cell_view cells.now)) (map source_view sources.now)) }
{
    let mut vertices = Vec::new(alloc);
    for source in sources {
        vertices.push(vertex(source, instances, cells)?)?;
    }
    Ok(vertices)
}

/// The predecessors of the instance at this place.
fn predecessors_at(
    alloc: Global,
    statements: &[Statement],
    parameters: &[i128],
    runs: &[Instance],
    cells: &[Cell],
    place: usize,
) -> Result<Vec<u32>, Stopped>
    requires { place < length runs.now }
    ensures { IfOk result (λ vertices. vertices.items ≡ predecessors_of (program_with statements.now []) parameters.now (map instance_of runs.now) (map cell_view cells.now) (place, slice_index_or (map instance_of runs.now) place no_instance)) }
{
    let sources = sources_at(alloc, statements, parameters, runs, place)?;
    let vertices = vertices_of(alloc, sources.as_slice(), runs.len(), cells)?;
    distinct_vertices(alloc, vertices.as_slice())
}

/// Whether some of the instances from this place on writes the cell.
fn some_writes(
    alloc: Global,
    statements: &[Statement],
    parameters: &[i128],
    runs: &[Instance],
    first: usize,
    cell: &Cell,
) -> Result<bool, Stopped>
    requires { first ≤ length runs.now }
    ensures { IfOk result (λ some. some ≡ list_any (λ later. same_cell (written_cell (program_with statements.now []) parameters.now later) (cell_view cell.now)) (map instance_of (drop first runs.now))) }
{
    for k in first..runs.len() {
        let written = cell_written_by(alloc, statements, parameters, &runs[k])?;
        if written.same(cell) {
            return Ok(true);
        }
    }
    Ok(false)
}

/// Whether no later instance writes the cell that the instance at this place writes.
fn is_last(
    alloc: Global,
    statements: &[Statement],
    parameters: &[i128],
    runs: &[Instance],
    place: usize,
) -> Result<bool, Stopped>
    requires { place < length runs.now }
    ensures { IfOk result (λ last. last ≡ is_last_writer (program_with statements.now []) parameters.now (map instance_of runs.now) (place, slice_index_or (map instance_of runs.now) place no_instance)) }
{
    let cell = cell_written_by(alloc, statements, parameters, &runs[place])?;
    let rewritten = some_writes(alloc, statements, parameters, runs, place + 1, &cell)?;
    Ok(!rewritten)
}

/// The predecessors of each instance.
fn all_predecessors(
    alloc: Global,
    statements: &[Statement],
    parameters: &[i128],
    runs: &[Instance],
    cells: &[Cell],
) -> Result<Vec<Vec<u32>>, Stopped>
    ensures { IfOk result (λ all. map (λ vertices. vertices.items) all.items ≡ map (predecessors_of (program_with statements.now []) parameters.now (map instance_of runs.now) (map cell_view cells.now)) (placed (map instance_of runs.now))) }
{
    let mut all = Vec::new(alloc);
    for place in 0..runs.len() {
        all.push(predecessors_at(alloc, statements, parameters, runs, cells, place)?)?;
    }
    Ok(all)
}

/// For each instance whether it is a last writer.
fn last_writers(
    alloc: Global,
    statements: &[Statement],
    parameters: &[i128],
    runs: &[Instance],
) -> Result<Vec<bool>, Stopped>
    ensures { IfOk result (λ all. all.items ≡ map (is_last_writer (program_with statements.now []) parameters.now (map instance_of runs.now)) (placed (map instance_of runs.now))) }
{
    let mut all = Vec::new(alloc);
    for place in 0..runs.len() {
        all.push(is_last(alloc, statements, parameters, runs, place)?)?;
    }
    Ok(all)
}

/// A number that has 32 bits.
fn small_number(number: usize) -> Result<u32, Stopped>
    ensures { IfOk result (λ small. small ≡ number) }
{
    u32::try_from(number).map_err(|_| Stopped::OutOfReach)
}

/// The numbers of instances and of inputs, the predecessors, and the marks of last writers of a computation graph.
type Parts = (u32, u32, Vec<Vec<u32>>, Vec<bool>);

/// The parts of the computation graph of the program of these statements and this tree, at these parameter values.
fn parts(
    alloc: Global,
    statements: &[Statement],
    tree: &[Item],
    parameters: &[i128],
) -> Result<Parts, Stopped>
    ensures { IfOk result (λ found. graph_with found.0 found.1 found.2.items found.3.items ≡ computation_graph (program_with statements.now tree.now) parameters.now) }
{
    let runs = runs_of_row(alloc, tree, parameters)?;
    let sources = all_sources(alloc, statements, parameters, runs.as_slice())?;
    let cells = cells_of_inputs(alloc, sources.as_slice())?;
    let cells = distinct_cells(alloc, cells.as_slice())?;
    let preds = all_predecessors(
        alloc,
        statements,
        parameters,
        runs.as_slice(),
        cells.as_slice(),
    )?;
    let last = last_writers(alloc, statements, parameters, runs.as_slice())?;
    let instances = small_number(runs.as_slice().len())?;
    let inputs = small_number(cells.as_slice().len())?;
    Ok((instances, inputs, preds, last))
}

/// The computation graph of the program of these statements and this tree, at these parameter values.
pub fn graph(
    alloc: Global,
    statements: &[Statement],
    tree: &[Item],
    parameters: &[i128],
) -> Result<Graph, Stopped>
    ensures { IfOk result (λ graph. graph ≡ computation_graph (program_with statements.now tree.now) parameters.now) }
{
    let (instances, inputs, preds, last) = parts(alloc, statements, tree, parameters)?;
    if instances.checked_add(inputs).is_none() {
        return Err(Stopped::OutOfReach);
    }
    Ok(Graph::new(instances, inputs, preds, last))
}
