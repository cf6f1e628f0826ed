//! The outlines of cold terms.

ghost use Rattle.std.specs.Prelude.{◌≡◌, ◌<◌, length, IfOk};
ghost use Rattle.std.specs.List.{AllByRecursion};
ghost use Rattle.affine_program.specs.Parts.{meaning};
ghost use Rattle.cold_terms.specs.Outline.{OutlineFits, outline_of};
ghost use Rattle.dep_quast.specs.Truth.{ReadFits};
ghost use Rattle.projective.specs.Projective.{IsProjective};
ghost use Rattle.projective.specs.SourceTrees.{read_number};
ghost use Rattle.projective_bounds.specs.Loops.{AreLoopsOf, RunLoops, parameters_of};
ghost use Rattle.projective_bounds.specs.Outline.{IsReadOutline};

use crate::loops::{loop_parameters, loops_of};
use crate::matrices::identity;
use crate::nest::nest_below;
use crate::values::values;
use affine_form::Memory;
use affine_program::Program;
use cold_terms::Outline;
use dep_quast::reader::depth;
use domain_count::Nest;
use std::alloc::Global;
use wavefront::Inverse;

/// The parameters of these loops, where all loops run below those.
fn parameters_of(alloc: Global, below: &[usize], loops: &[usize]) -> Result<Vec<usize>, Memory>
    requires { AllByRecursion (λ level. level < length below.now) loops.now }
    ensures { IfOk result (λ parameters. parameters.items ≡ parameters_of below.now loops.now) }
{
    let mut parameters = Vec::new(alloc);
    for level in loops {
        parameters.push(below[*level])?;
    }
    Ok(parameters)
}

/// The outline of a read's cold term.
pub(crate) fn outline(alloc: Global, program: &Program, read: u16) -> Result<Outline, Memory>
    requires projective { IsProjective (meaning program.now) }
    requires read { ReadFits (meaning program.now) (read_number read) }
    ensures { IfOk result (λ outline. IsReadOutline (meaning program.now) read (outline_of outline)) }
{
    let params = program.params().len();
    let loops = loops_of(alloc, program, read)?;
    let below = loop_parameters(alloc, program)?;
    let parameters = parameters_of(alloc, below.as_slice(), loops.as_slice())?;
    let nest = nest_below(alloc, params, parameters.as_slice())?;
    let point = values(alloc, params, depth(program, 0), loops.as_slice())?;
    let matrix = identity(alloc, loops.len())?;
    Ok(Outline {
        statement: 0,
        read,
        nest: Nest::new(nest),
        point,
        inverse: Inverse { matrix, scale: 1 },
    })
}
