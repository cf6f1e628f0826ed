//! The loops that the subscripts of a read are, and the parameters below which loops run.

ghost use Rattle.std.specs.Prelude.{IfOk};
ghost use Rattle.affine_program.specs.Parts.{meaning};
ghost use Rattle.dep_quast.specs.Truth.{ReadFits};
ghost use Rattle.projective.specs.Projective.{IsProjective};
ghost use Rattle.projective.specs.SourceTrees.{read_number};
ghost use Rattle.projective_bounds.specs.Loops.{AreLoopsOf, RunLoops};

use affine_form::Memory;
use affine_program::Program;
use dep_quast::reader::{Reader, reference};
use projective::parameters::{parameters_from, variable_of};
use std::alloc::Global;

/// The loops that are the subscripts of a read, in their order.
pub(crate) fn loops_of(alloc: Global, program: &Program, read: u16) -> Result<Vec<usize>, Memory>
    requires projective { IsProjective (meaning program.now) }
    requires read { ReadFits (meaning program.now) (read_number read) }
    ensures { IfOk result (λ loops. AreLoopsOf (meaning program.now) read loops.items) }
{
    let params = program.params().len();
    let mut loops = Vec::new(alloc);
    for subscript in &reference(program, Reader { statement: 0, read }).subs {
        loops.push(variable_of(subscript) - params)?;
    }
    Ok(loops)
}

/// The parameters below which the loops run, from the outermost loop.
pub(crate) fn loop_parameters(alloc: Global, program: &Program) -> Result<Vec<usize>, Memory>
    requires { IsProjective (meaning program.now) }
    ensures { IfOk result (λ below. RunLoops (meaning program.now) below.items) }
{
    let params = program.params().len();
    let bounds = program.statements()[0].bounds.as_slice();
    parameters_from(alloc, program, params, bounds)
}
