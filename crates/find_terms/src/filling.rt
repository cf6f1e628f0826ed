//! Cold terms, filled.

ghost use Rattle.std.specs.Prelude.{IfOk};
ghost use Rattle.affine_program.specs.Parts.{meaning};
ghost use Rattle.dep_quast.specs.Context.{variables_at};
ghost use Rattle.dep_quast.specs.Tree.{tree_of};
ghost use Rattle.dep_quast.specs.OpenLeaves.{TestsFit};
ghost use Rattle.cold_terms.specs.Outline.{OutlineFits, outline_of};
ghost use Rattle.find_terms.specs.Shown.{FindsCold};

use crate::counted::counted;
use affine_form::Memory;
use affine_program::Program;
use cold_terms::Outline;
use cold_terms::outlined::{cells_undone, inside_answered, leaves_closed};
use dep_quast::Quast;
use flow_deps::Wanted;
use std::alloc::Global;
use wavefront::Cold;

/// The cold term of an outline over the source tree of its read, with all that shows it: its polynomials are those of the
/// summation, it stops at inputs alone, and its multipliers are as short as is wanted. It fits, all that it claims holds,
/// and it is within the limits of certificates. None only where no short lists show one.
///
/// # Errors
///
/// Want of memory alone.
pub fn filled(
    alloc: Global,
    wanted: Wanted,
    program: &Program,
    quast: &Quast,
    outline: Outline,
) -> Result<Option<Cold>, Memory>
    requires fits { OutlineFits (meaning program.now) (outline_of outline) }
    requires tests { TestsFit (variables_at (meaning program.now) (outline_of outline).reader) (tree_of quast.now) }
    ensures { IfOk result (λ found. FindsCold wanted (meaning program.now) (tree_of quast.now) (outline_of outline) found) }
{
    let undone = cells_undone(alloc, program, &outline)?;
    if !undone {
        return Ok(None);
    }
    let Some(inside) = inside_answered(alloc, wanted, program, &outline)? else {
        return Ok(None);
    };
    let Some(leaves) = leaves_closed(alloc, wanted, program, quast, &outline)? else {
        return Ok(None);
    };
    let Some(sums) = counted(alloc, wanted, program, &outline.nest)? else {
        return Ok(None);
    };
    Ok(Some(Cold {
        statement: outline.statement,
        read: outline.read,
        nest: outline.nest,
        sums,
        point: outline.point,
        inside,
        inverse: outline.inverse,
        leaves,
    }))
}
