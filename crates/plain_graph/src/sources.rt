//! Sources of reads.

ghost use Rattle.std.specs.Prelude.{◌≡◌, ◌<◌, ◌≤◌, [], length, map, not, filter, slice_index_or, IfOk, nat_eq, filter_map, flat_map, drop};
ghost use Rattle.std.specs.List.{enumerate_from};
ghost use Rattle.iolb_model.specs.Source.{same_cell, last_write_before, source_of, sources_of};
ghost use Rattle.iolb_model.specs.Graph.{distinct, input_cell};
ghost use Rattle.plain_graph.specs.Views.{cell_view, instance_of, source_view, program_with, no_instance};

use crate::cells::{Cell, cell_written_by, cells_read_by};
use crate::runs::Instance;
use crate::stopped::Stopped;
use affine_program::Statement;
use std::alloc::Global;

/// Where the word of a read comes from.
#[derive(Debug, Drop)]
pub enum Source {
    /// The instance at this place wrote it.
    Written(usize),
    /// It stood in this cell before the program.
    Input(Cell),
}

/// The greatest place below this one whose instance writes the cell.
fn last_writer_before(
    alloc: Global,
    statements: &[Statement],
    parameters: &[i128],
    runs: &[Instance],
    cell: &Cell,
    place: usize,
) -> Result<Option<usize>, Stopped>
    requires { place ≤ length runs.now }
    ensures { IfOk result (λ last. last ≡ last_write_before (program_with statements.now []) parameters.now (map instance_of runs.now) (cell_view cell.now) place) }
{
    for k in (0..place).rev() {
        let written = cell_written_by(alloc, statements, parameters, &runs[k])?;
        if written.same(cell) {
            return Ok(Some(k));
        }
    }
    Ok(None)
}

/// The sources of the reads of the instance at this place, in the order of the reads.
pub fn sources_at(
    alloc: Global,
    statements: &[Statement],
    parameters: &[i128],
    runs: &[Instance],
    place: usize,
) -> Result<Vec<Source>, Stopped>
    requires { place < length runs.now }
    ensures { IfOk result (λ sources. map source_view sources.items ≡ sources_of (program_with statements.now []) parameters.now (map instance_of runs.now) (place, slice_index_or (map instance_of runs.now) place no_instance)) }
{
    let cells = cells_read_by(alloc, statements, parameters, &runs[place])?;
    let mut sources = Vec::new(alloc);
    for cell in cells.as_slice() {
        let source = match last_writer_before(alloc, statements, parameters, runs, cell, place)? {
            Some(writer) => Source::Written(writer),
            None => Source::Input(cell.try_clone(alloc)?),
        };
        sources.push(source)?;
    }
    Ok(sources)
}

/// The cells of the sources that are inputs.
pub(crate) fn cells_of_inputs(alloc: Global, sources: &[Source]) -> Result<Vec<Cell>, Stopped>
    ensures { IfOk result (λ cells. map cell_view cells.items ≡ filter_map input_cell (map source_view sources.now)) }
{
    let mut cells = Vec::new(alloc);
    for source in sources {
        match source {
            Source::Written(_) => {}
            Source::Input(cell) => cells.push(cell.try_clone(alloc)?)?,
        }
    }
    Ok(cells)
}

/// The cells that aren't this one.
fn cells_apart(alloc: Global, cell: &Cell, cells: &[Cell]) -> Result<Vec<Cell>, Stopped>
    ensures { IfOk result (λ apart. map cell_view apart.items ≡ filter (λ other. not (same_cell (cell_view cell.now) other)) (map cell_view cells.now)) }
{
    let mut apart = Vec::new(alloc);
    for other in cells {
        if !cell.same(other) {
            apart.push(other.try_clone(alloc)?)?;
        }
    }
    Ok(apart)
}

/// Each cell once, where it first stands.
pub(crate) fn distinct_cells(alloc: Global, cells: &[Cell]) -> Result<Vec<Cell>, Stopped>
    ensures { IfOk result (λ found. map cell_view found.items ≡ distinct same_cell (map cell_view cells.now)) }
{
    let mut found = Vec::new(alloc);
    for k in (0..cells.len()).rev() {
        let mut rest = cells_apart(alloc, &cells[k], found.as_slice())?;
        rest.insert(0, cells[k].try_clone(alloc)?)?;
        found = rest;
    }
    Ok(found)
}
