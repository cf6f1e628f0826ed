//! The cold terms of arrays.

ghost use Rattle.std.specs.Prelude.{◌≡◌, ◌≤◌, nat_eq, IfOk, length, map};
ghost use Rattle.std.specs.List.{AllByRecursion, IsDistinct};
ghost use Rattle.affine_program.specs.Parts.{meaning};
ghost use Rattle.projective_bounds.specs.HeldColds.{IsHeldCold, IsPlaced, array_read as array_of_cold};
ghost use Rattle.dep_quast.specs.Tree.{tree_of};
ghost use Rattle.dep_quast.specs.Truth.{ReadFits};
ghost use Rattle.projective.specs.Projective.{IsProjective};
ghost use Rattle.iolb_model.specs.declared.limits.TheConstants.{TERMS};
ghost use Rattle.projective.specs.SourceTrees.{AreSourceTrees, IsSourceTree, read_number};
ghost use Rattle.dep_quast.specs.Quasts.{trees_of};
ghost use Rattle.projective_bounds.specs.Colds.{AreArrayColds, IsReadCold, is_first_read};

use crate::families::array_read;
use crate::outline::outline;
use affine_form::Memory;
use affine_program::Program;
use cold_terms::outlined::{inside_answered, leaves_closed};
use dep_quast::Quast;
use dep_quast::reader::{Reader, reference};
use flow_deps::Wanted;
use projective::product_sums;
use reuse_paths::Quasts;
use std::alloc::Global;
use wavefront::Cold;

/// The cold term of a read over its source tree.
fn read_cold(alloc: Global, program: &Program, quast: &Quast, read: u16) -> Result<Cold, Memory>
    requires projective { IsProjective (meaning program.now) }
    requires read { ReadFits (meaning program.now) (read_number read) }
    requires tree { IsSourceTree (meaning program.now) read (tree_of quast.now) }
    ensures is { IfOk result (IsReadCold (meaning program.now) read) }
    ensures held { IfOk result (IsHeldCold (meaning program.now) (tree_of quast.now)) }
{
    let _params = program.params();
    let outline = outline(alloc, program, read)?;
    let Some(inside) = inside_answered(alloc, Wanted::Short, program, &outline)? else {
        unreachable!()
    };
    let Some(leaves) = leaves_closed(alloc, Wanted::Short, program, quast, &outline)? else {
        unreachable!()
    };
    let sums = product_sums(alloc, program, outline.nest.bounds())?;
    Ok(Cold {
        statement: outline.statement,
        read: outline.read,
        nest: outline.nest,
        sums,
        point: outline.point,
        inside,
        inverse: outline.inverse,
        leaves,
    })
}

/// Whether a read is the first of its array.
fn is_first_read(program: &Program, read: u16) -> bool
    requires read { ReadFits (meaning program.now) (read_number read) }
    ensures { result ≡ is_first_read (meaning program.now) read }
{
    let array = reference(program, Reader { statement: 0, read }).array;
    array_read(program, array) == read
}

/// The cold term of a read over the source trees of a program's reads.
fn placed_cold(alloc: Global, program: &Program, quasts: &Quasts, read: u16) -> Result<Cold, Memory>
    requires projective { IsProjective (meaning program.now) }
    requires trees { AreSourceTrees (meaning program.now) (trees_of quasts.now) }
    requires read { ReadFits (meaning program.now) (read_number read) }
    ensures is { IfOk result (IsReadCold (meaning program.now) read) }
    ensures placed { IfOk result (IsPlaced (meaning program.now) (trees_of quasts.now)) }
{
    let _params = program.params();
    match quasts.tree(0, read) {
        Some(quast) => read_cold(alloc, program, quast, read),
        None => unreachable!(),
    }
}

/// The cold terms of a projective program over its source trees: for each array that is read, in the order of first read,
/// that of its first read. Each holds, and their arrays differ, so that they make a branch without multipliers.
///
/// # Errors
///
/// Want of memory alone.
pub fn cold_terms(alloc: Global, program: &Program, quasts: &Quasts) -> Result<Vec<Cold>, Memory>
    requires projective { IsProjective (meaning program.now) }
    requires trees { AreSourceTrees (meaning program.now) (trees_of quasts.now) }
    ensures terms { IfOk result (λ colds. AreArrayColds (meaning program.now) colds.items) }
    ensures placed { IfOk result (λ colds. AllByRecursion (IsPlaced (meaning program.now) (trees_of quasts.now)) colds.items) }
    ensures different { IfOk result (λ colds. IsDistinct nat_eq (map (array_of_cold (meaning program.now)) colds.items)) }
    ensures few { IfOk result (λ colds. length colds.items ≤ TERMS) }
{
    let _params = program.params();
    let reads = program.statements()[0].reads.as_slice().len();
    let mut colds = Vec::new(alloc);
    for read in 0..reads {
        let read = read as u16;
        if is_first_read(program, read) {
            colds.push(placed_cold(alloc, program, quasts, read)?)?;
        }
    }
    Ok(colds)
}
