//! The outlines of opening terms.

ghost use Rattle.std.specs.Prelude.{◌≡◌, ◌≤◌, ◌++◌, length, map, IfOk};
ghost use Rattle.affine_program.specs.Parts.{meaning};
ghost use Rattle.affine_program.specs.Domain.{depth_of};
ghost use Rattle.dep_quast.specs.Truth.{ReadFits};
ghost use Rattle.dep_quast.specs.Views.{read_of};
ghost use Rattle.find_terms.specs.Found.{FindsOutline};
ghost use Rattle.find_terms.specs.Openings.{AreNamed, same_loop, undoing};
ghost use Rattle.iolb_model.specs.declared.limits.TheConstants.{NEST_VARIABLES};

use crate::named::loops_named;
use crate::nests::named_nest;
use affine_form::{Matrix, Memory};
use affine_program::Program;
use cold_terms::Outline;
use dep_quast::reader::{Reader, depth};
use domain_count::Nest;
use std::alloc::Global;
use wavefront::Inverse;

/// Rows of a matrix, and then that of a loop: 1 in the column of the subscript that names it.
fn with_row(rows: Vec<i32>, level: u8, loops: &[u8]) -> Result<Vec<i32>, Memory>
    ensures { IfOk result (λ cells. cells.items ≡ rows.items ++ map (same_loop level) loops.now) }
{
    let mut cells = rows;
    for named in loops {
        cells.push(if level == *named { 1 } else { 0 })?;
    }
    Ok(cells)
}

/// The matrix that undoes the order of the subscripts.
fn undoing(alloc: Global, program: &Program, reader: Reader, loops: &[u8]) -> Result<Matrix, Memory>
    requires read { ReadFits (meaning program.now) (read_of reader) }
    requires named { AreNamed (meaning program.now) (read_of reader) loops.now }
    ensures { IfOk result (λ matrix. matrix ≡ undoing (meaning program.now) (read_of reader) loops.now) }
{
    let mut rows = 0;
    let mut cells = Vec::new(alloc);
    for level in 0..depth(program, reader.statement) {
        if loops.contains(&(level as u8)) {
            rows += 1;
            cells = with_row(cells, level as u8, loops)?;
        }
    }
    Ok(Matrix::new(rows, loops.len(), cells))
}

/// The outline of a read's opening term. None only where its subscripts don't name different loops, or the forms of the
/// outline aren't small.
pub(crate) fn opening_outline(
    alloc: Global,
    program: &Program,
    reader: Reader,
) -> Result<Option<Outline>, Memory>
    requires { ReadFits (meaning program.now) (read_of reader) }
    ensures { IfOk result (λ found. FindsOutline (meaning program.now) (read_of reader) found) }
{
    let _params = program.params();
    let Some(loops) = loops_named(alloc, program, reader)? else {
        return Ok(None);
    };
    let Some(far) = named_nest(alloc, program, reader, loops.as_slice())? else {
        return Ok(None);
    };
    let matrix = undoing(alloc, program, reader, loops.as_slice())?;
    Ok(Some(Outline {
        statement: reader.statement,
        read: reader.read,
        nest: Nest::new(far.nest),
        point: far.values,
        inverse: Inverse { matrix, scale: 1 },
    }))
}
