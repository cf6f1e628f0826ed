//! What a vertex is.

ghost use Rattle.std.specs.Prelude.{◌≡◌, drop, length, IfOk};
ghost use Rattle.named_vertices.specs.Instances.{IsVertex};

use crate::cells::{Cell, Cells, cell_at, cell_of};
use crate::fault::Unnamed;
use crate::instances::vertex_place;
use affine_form::Memory;
use affine_program::{Program, Reference};
use loop_graph::Run;
use std::alloc::Global;

/// A vertex: the instance of a statement at the values of the loops round it, or the input in a cell of an array.
#[derive(Debug, Drop)]
pub enum Named {
    Instance { statement: u16, loops: Vec<i128> },
    Input { array: u16, subscripts: Vec<i128> },
}

/// The input that is looked for: by its number among the inputs, or by its cell.
#[derive(Clone, Copy)]
enum Wanted<'a> {
    Number(usize),
    Input(&'a Cell),
}

impl Wanted<'_> {
    /// Whether it is the input of this number in this cell.
    fn is(self, number: usize, cell: &Cell) -> bool {
        match self {
            Wanted::Number(wanted) => wanted == number,
            Wanted::Input(wanted) => *wanted == *cell,
        }
    }
}

/// Goes on through the cells of references at a point, which are read, up to the input that is looked for: its number and its cell.
fn find_among(
    cells: &mut Cells,
    references: &[Reference],
    point: &[i128],
    wanted: Wanted<'_>,
) -> Result<Option<(usize, Cell)>, Memory> {
    for reference in references {
        if let Some(number) = cells.read(cell_at(reference, point))? {
            let cell = cell_at(reference, point);
            if wanted.is(number, &cell) {
                return Ok(Some((number, cell)));
            }
        }
    }
    Ok(None)
}

/// The input that is looked for, where the instances have it: its number among the inputs and its cell.
fn find_input(
    alloc: Global,
    program: &Program,
    all: &[Run],
    wanted: Wanted<'_>,
) -> Result<Option<(usize, Cell)>, Memory> {
    let mut cells = Cells::new(alloc);
    for run in all {
        if let Some(statement) = program.statements().get(usize::from(run.statement)) {
            let point = run.point.as_slice();
            let found = find_among(&mut cells, statement.reads.as_slice(), point, wanted)?;
            if found.is_some() {
                return Ok(found);
            }
            cells.write(cell_at(&statement.writes, point))?;
        }
    }
    Ok(None)
}

/// The values of the loops around a run, behind so many parameters.
fn loops_of(alloc: Global, run: &Run, params: usize) -> Result<Vec<i128>, Memory>
    ensures { IfOk result (λ loops. loops.items ≡ drop params run.now.point.items) }
{
    match run.point.as_slice().get(params..) {
        Some(loops) => Ok(Vec::from_slice(alloc, loops)?),
        None => Ok(Vec::new(alloc)),
    }
}

/// What the vertex of this number is, among these instances of a program and their inputs.
pub fn named_at(
    alloc: Global,
    program: &Program,
    all: &[Run],
    number: usize,
) -> Result<Named, Unnamed>
    ensures { IfOk result (IsVertex all.now (length program.now.params) number) }
{
    if let Some(run) = all.get(number) {
        let loops = loops_of(alloc, run, program.params().len())?;
        let statement = run.statement;
        return Ok(Named::Instance { statement, loops });
    }
    let input = number.saturating_sub(all.len());
    match find_input(alloc, program, all, Wanted::Number(input))? {
        Some((_, (array, cell))) => match Vec::from_slice(alloc, cell.as_slice()) {
            Ok(subscripts) => Ok(Named::Input { array, subscripts }),
            Err(_) => Err(Unnamed::Memory),
        },
        None => Err(Unnamed::Absent),
    }
}

/// The number of a vertex, among these instances of a program and their inputs.
pub fn number_of(
    alloc: Global,
    program: &Program,
    all: &[Run],
    named: &Named,
) -> Result<usize, Unnamed>
    ensures { IfOk result (λ number. IsVertex all.now (length program.now.params) number named.now) }
{
    let found = match named {
        Named::Instance { statement, loops } => {
            vertex_place(all, program.params().len(), *statement, loops.as_slice())
        }
        Named::Input { array, subscripts } => {
            let cell = cell_of(*array, subscripts.as_slice());
            match find_input(alloc, program, all, Wanted::Input(&cell))? {
                Some((number, _)) => Some(all.len().saturating_add(number)),
                None => None,
            }
        }
    };
    match found {
        Some(number) => Ok(number),
        None => Err(Unnamed::Absent),
    }
}
