//! The cells that instances write and read.

ghost use Rattle.std.specs.Prelude.{◌≡◌, ◌≤◌, length};
ghost use Rattle.std.specs.List.{AllByRecursion};
ghost use Rattle.iolb_model.specs.Program.{IsOver};
ghost use Rattle.iolb_model.specs.Source.{cell_of};
ghost use Rattle.affine_form.specs.Form.{IsSmall};
ghost use Rattle.affine_program.specs.Parts.{access_of, meaning};
ghost use Rattle.loop_graph.specs.Runs.{run_of, IsRun};
ghost use Rattle.loop_graph.specs.Cells.{cell_view, cell_written};
ghost use Rattle.iolb_model.specs.declared.limits.TheConstants.{SUBSCRIPTS, VALUE_SIZE};

use crate::listed::Run;
use affine_program::{Program, Reference};
use arrayvec::ArrayVec;

/// A cell of an array: the array's number, and a whole number for each subscript, at most 4, which lie in the value itself.
pub(crate) type Cell = (u16, ArrayVec<i128, 4>);

/// The cell of a reference at a point. A form of at most 24 variables with numbers of size below 2^62 has a value that 128
/// bits hold where the variables' values are of size below 2^40.
pub(crate) fn cell_at(reference: &Reference, point: &[i128]) -> Cell
    requires over { AllByRecursion (IsOver (length point.now)) reference.now.subs.items }
    requires few { length reference.now.subs.items ≤ SUBSCRIPTS }
    requires small { AllByRecursion (IsSmall VALUE_SIZE) point.now }
    ensures { cell_view result ≡ cell_of (access_of reference.now) point.now }
{
    let mut subscripts = ArrayVec::new();
    for form in reference.subs.as_slice() {
        subscripts.push(form.value(point));
    }
    (reference.array, subscripts)
}

/// The cell that a run writes.
pub(crate) fn written_by(program: &Program, run: &Run) -> Cell
    requires { IsRun (meaning program.now) run.now }
    ensures { cell_view result ≡ cell_written (meaning program.now) (run_of run.now) }
{
    let statement = &program.statements()[usize::from(run.statement)];
    cell_at(&statement.writes, run.point.as_slice())
}
