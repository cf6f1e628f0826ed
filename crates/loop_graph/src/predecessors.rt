//! The predecessors of instances, and which of them are last writers.

ghost use Rattle.std.specs.Prelude.{◌≡◌, ◌+◌, ◌<◌, ◌≤◌, ◌^◌, List, Option, ℕ, ℤ, length, map, IfOk, OnOk};
ghost use Rattle.std.specs.List.{AllByRecursion};
ghost use Rattle.iolb_model.specs.Graph.{computation_graph};
ghost use Rattle.iolb_model.specs.Source.{Cell as ModelCell};
ghost use Rattle.affine_program.specs.Parts.{meaning};
ghost use Rattle.loop_graph.specs.Runs.{run_of, IsRun};
ghost use Rattle.loop_graph.specs.Cells.{cells_read};
ghost use Rattle.loop_graph.specs.Known.{AreKnown, ArePreceded, source_by};
ghost use Rattle.loop_graph.specs.Found.{unmarked, AreFound, AreListed};
ghost use Rattle.iolb_model.specs.declared.limits.TheConstants.{READS};
ghost use Rattle.loop_graph.specs.declared.limits.TheConstants.{VERTICES};

use crate::cells::written_by;
use crate::known::Known;
use crate::limits;
use crate::listed::Run;
use affine_form::Memory;
use affine_program::Program;
use std::alloc::Global;

/// The predecessors of a run: the vertices of the cells that it reads, each once, in the order of the reads.
fn predecessors_of(
    alloc: Global,
    program: &Program,
    run: &Run,
    known: &mut Known,
    instances: u32,
) -> Result<Vec<u32>, Memory>
    requires run { IsRun (meaning program.now) run.now }
    requires few { instances + known.old.inputs + READS < 2 ^ 31 }
    ensures preceded { (writer : ModelCell → Option ℕ) (before : List ModelCell) → AreKnown instances writer before known.old
        → IfOk result (λ preds. ArePreceded instances writer before (map (source_by writer) (cells_read (meaning program.now) (run_of run.now))) known.new preds.items) }
    ensures grows { OnOk result (known.new.inputs ≤ known.old.inputs + READS) }
{
    let statement = &program.statements()[usize::from(run.statement)];
    known.read_all(
        alloc,
        statement.reads.as_slice(),
        run.point.as_slice(),
        instances,
    )
}

/// What is found of a graph: how many input cells are read, the predecessors of each instance, and a mark for each, which is
/// true for last writers.
#[derive(Drop)]
pub(crate) struct Found {
    pub(crate) inputs: u32,
    pub(crate) preds: Vec<Vec<u32>>,
    pub(crate) last: Vec<bool>,
}

/// Takes the mark off a vertex, if there is one and it is an instance.
fn unmark(last: &mut Vec<bool>, vertex: Option<u32>)
    ensures { last.new.items ≡ unmarked last.old.items vertex }
{
    if let Some(vertex) = vertex {
        if (vertex as usize) < last.len() {
            last[vertex as usize] = false;
        }
    }
}

/// How many input cells are read, the predecessors of each run, and whether it is a last writer, where the runs are all
/// instances of a program in the order of execution; and none where there are more than 2^21 vertices. A run that writes
/// takes the mark off the one whose word stood in the cell.
pub(crate) fn gathered(
    alloc: Global,
    program: &Program,
    runs: &[Run],
) -> Result<Option<Found>, Memory>
    requires each { AllByRecursion (IsRun (meaning program.now)) runs.now }
    requires few { length runs.now ≤ VERTICES }
    ensures { (parameters : List ℤ) → AreListed (meaning program.now) parameters runs.now → IfOk result (AreFound (computation_graph (meaning program.now) parameters)) }
{
    let instances = runs.len() as u32;
    let mut known = Known::new(alloc);
    let mut preds = Vec::new(alloc);
    let mut last = vec![in alloc; true; runs.len()]?;
    for (place, run) in runs.iter().enumerate() {
        preds.push(predecessors_of(alloc, program, run, &mut known, instances)?)?;
        if instances + known.inputs > limits::VERTICES {
            return Ok(None);
        }
        let before = known.write(written_by(program, run), place as u32)?;
        unmark(&mut last, before);
    }
    Ok(Some(Found {
        inputs: known.inputs,
        preds,
        last,
    }))
}
