//! The loops that the subscripts of a read name.

ghost use Rattle.std.specs.Prelude.{IfOk};
ghost use Rattle.affine_program.specs.Parts.{meaning};
ghost use Rattle.dep_quast.specs.Truth.{ReadFits};
ghost use Rattle.dep_quast.specs.Views.{read_of};
ghost use Rattle.find_terms.specs.Found.{FindsLoop, FindsLoops};

use affine_form::{Form, Memory, variable};
use affine_program::Program;
use dep_quast::reader::{Reader, depth, reference, variables};
use std::alloc::Global;

/// The loop around a read's statement whose variable a form is.
fn loop_named(
    alloc: Global,
    program: &Program,
    reader: Reader,
    form: &Form,
) -> Result<Option<u8>, Memory>
    requires { ReadFits (meaning program.now) (read_of reader) }
    ensures { IfOk result (λ found. FindsLoop (meaning program.now) (read_of reader) form.now found) }
{
    let vars = variables(program, reader);
    for level in 0..depth(program, reader.statement) {
        let name = variable(alloc, vars, program.params().len() + level)?;
        if form.is_same(&name) {
            return Ok(Some(level as u8));
        }
    }
    Ok(None)
}

/// The loops whose variables a read's subscripts are, in the order of the subscripts. None exactly where some subscript is
/// no loop's variable, or two are one loop's.
pub(crate) fn loops_named(
    alloc: Global,
    program: &Program,
    reader: Reader,
) -> Result<Option<Vec<u8>>, Memory>
    requires { ReadFits (meaning program.now) (read_of reader) }
    ensures { IfOk result (λ found. FindsLoops (meaning program.now) (read_of reader) found) }
{
    let mut loops = Vec::new(alloc);
    let subscripts = reference(program, reader).subs.as_slice();
    for subscript in subscripts {
        let Some(level) = loop_named(alloc, program, reader, subscript)? else {
            return Ok(None);
        };
        if loops.as_slice().contains(&level) {
            return Ok(None);
        }
        loops.push(level)?;
    }
    Ok(Some(loops))
}
