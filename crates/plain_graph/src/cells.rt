//! Cells.

ghost use Rattle.std.specs.Prelude.{◌≡◌, ◌++◌, [], map, IfOk};
ghost use Rattle.iolb_model.specs.Program.{statement_at};
ghost use Rattle.iolb_model.specs.Source.{cell_of, same_cell, written_cell, read_cells};
ghost use Rattle.affine_program.specs.Parts.{access_of, statement_of};
ghost use Rattle.plain_graph.specs.Views.{cell_view, instance_of, program_with};

use crate::runs::{Instance, value_at};
use crate::stopped::Stopped;
use affine_program::{Reference, Statement};
use std::alloc::Global;

/// A cell of an array: the array's number, and a whole number for each subscript.
#[derive(Debug, Drop)]
pub struct Cell {
    pub array: u16,
    pub subscripts: Vec<i128>,
}

impl Cell {
    /// Whether two cells are one.
    pub fn same(&self, other: &Cell) -> bool
        ensures { result ≡ same_cell (cell_view self.now) (cell_view other.now) }
    {
        self.array == other.array && self.subscripts.as_slice() == other.subscripts.as_slice()
    }

    /// A copy.
    pub fn try_clone(&self, alloc: Global) -> Result<Cell, Stopped>
        ensures { IfOk result (λ copy. cell_view copy ≡ cell_view self.now) }
    {
        let subscripts = Vec::from_slice(alloc, self.subscripts.as_slice())?;
        Ok(Cell {
            array: self.array,
            subscripts,
        })
    }
}

/// The cell of a reference at a point.
fn cell_at(alloc: Global, reference: &Reference, point: &[i128]) -> Result<Cell, Stopped>
    ensures { IfOk result (λ cell. cell_view cell ≡ cell_of (access_of reference.now) point.now) }
{
    let mut subscripts = Vec::new(alloc);
    for form in reference.subs.as_slice() {
        subscripts.push(value_at(form, point)?)?;
    }
    Ok(Cell {
        array: reference.array,
        subscripts,
    })
}

/// The parameters' values, then those of an instance's loops.
fn point_of(alloc: Global, parameters: &[i128], instance: &Instance) -> Result<Vec<i128>, Stopped>
    ensures { IfOk result (λ point. point.items ≡ parameters.now ++ instance.now.values.items) }
{
    let mut point = Vec::from_slice(alloc, parameters)?;
    point.extend_from_slice(instance.values.as_slice())?;
    Ok(point)
}

/// The statement of an instance.
fn statement_of_instance<'a>(
    statements: &'a [Statement],
    instance: &Instance,
) -> Result<&'a Statement, Stopped>
    ensures { IfOk result (λ statement. statement_of statement.now ≡ statement_at (program_with statements.now []) instance.now.statement) }
{
    statements
        .get(instance.statement as usize)
        .ok_or(Stopped::OutOfReach)
}

/// The cell that an instance writes.
pub(crate) fn cell_written_by(
    alloc: Global,
    statements: &[Statement],
    parameters: &[i128],
    instance: &Instance,
) -> Result<Cell, Stopped>
    ensures { IfOk result (λ cell. cell_view cell ≡ written_cell (program_with statements.now []) parameters.now (instance_of instance.now)) }
{
    let statement = statement_of_instance(statements, instance)?;
    let point = point_of(alloc, parameters, instance)?;
    cell_at(alloc, &statement.writes, point.as_slice())
}

/// The cells that an instance reads, in the order of its reads.
pub(crate) fn cells_read_by(
    alloc: Global,
    statements: &[Statement],
    parameters: &[i128],
    instance: &Instance,
) -> Result<Vec<Cell>, Stopped>
    ensures { IfOk result (λ cells. map cell_view cells.items ≡ read_cells (program_with statements.now []) parameters.now (instance_of instance.now)) }
{
    let statement = statement_of_instance(statements, instance)?;
    let point = point_of(alloc, parameters, instance)?;
    let mut cells = Vec::new(alloc);
    for reference in statement.reads.as_slice() {
        cells.push(cell_at(alloc, reference, point.as_slice())?)?;
    }
    Ok(cells)
}
