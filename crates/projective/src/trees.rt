//! The source trees of projective programs.

ghost use Rattle.std.specs.Prelude.{◌≡◌, ◌≤◌, ◌<◌, [], ℕ, length, IfOk, map};
ghost use Rattle.iolb_model.specs.Program.{statement_at};
ghost use Rattle.affine_program.specs.Domain.{depth_of};
ghost use Rattle.affine_program.specs.Parts.{meaning};
ghost use Rattle.flow_deps.specs.declared.wanted.Wanted.TheVariants.{Short};
ghost use Rattle.dep_quast.specs.Context.{reference_of};
ghost use Rattle.dep_quast.specs.Tree.{tree_of};
ghost use Rattle.dep_quast.specs.Truth.{ReadFits};
ghost use Rattle.projective.specs.Projective.{IsProjective};
ghost use Rattle.projective.specs.FirstTurns.{AreFirstTurns};
ghost use Rattle.projective.specs.SourceTrees.{read_number, turns_shape, AreFromRead, AreSourceTrees, IsSourceTree};
ghost use Rattle.flow_deps.specs.Shown.{IsShown};
ghost use Rattle.dep_quast.specs.Quasts.{trees_of};

use crate::turn_leaves::{first_leaf, turn_leaf, unwritten_leaf};
use crate::turns::{is_kept, later_turn};
use affine_form::{Form, Memory};
use affine_program::Program;
use dep_quast::Quast;
use dep_quast::context::{tests_of_no, tests_of_yes};
use dep_quast::reader::{Reader, depth, reference, written};
use reuse_paths::Quasts;
use std::alloc::Global;

/// The tree for the first so many loops, where those behind that don't stand in the reference are tested to be in their first
/// turns: it tests them, the innermost first, over the writes one turn before.
fn turns(
    alloc: Global,
    program: &Program,
    read: u16,
    loops: u8,
    tests: &[Form],
) -> Result<Quast, Memory>
    requires projective { IsProjective (meaning program.now) }
    requires read { ReadFits (meaning program.now) (read_number read) }
    requires written { (reference_of (meaning program.now) (read_number read)).array ≡ (statement_at (meaning program.now) 0).writes.array }
    requires there { loops ≤ depth_of (meaning program.now) 0 }
    requires first { AreFirstTurns (meaning program.now) loops tests.now }
    ensures { IfOk result (λ quast. (nested : ℕ) → loops ≤ nested → IsShown Short (meaning program.now) (read_number read) tests.now nested
        (turns_shape (meaning program.now) loops) (tree_of quast)) }
{
    let _params = program.params();
    if loops == 0 {
        return first_leaf(alloc, program, read, tests);
    }
    let level = loops - 1;
    if is_kept(program, usize::from(level)) {
        return turns(alloc, program, read, level, tests);
    }
    let form = later_turn(alloc, program, usize::from(level))?;
    let above = tests_of_yes(alloc, tests, &form)?;
    let yes = turn_leaf(alloc, program, read, tests, above.as_slice(), level)?;
    let reader = Reader { statement: 0, read };
    let below = tests_of_no(alloc, program, reader, tests, &form)?;
    let no = turns(alloc, program, read, level, below.as_slice())?;
    let yes = Box::new(alloc, yes)?;
    let no = Box::new(alloc, no)?;
    Ok(Quast::Test { form, yes, no })
}

/// The source tree of a read.
fn source_tree(alloc: Global, program: &Program, read: u16) -> Result<Quast, Memory>
    requires projective { IsProjective (meaning program.now) }
    requires read { ReadFits (meaning program.now) (read_number read) }
    ensures { IfOk result (λ quast. IsSourceTree (meaning program.now) read (tree_of quast)) }
{
    let _params = program.params();
    let reader = Reader { statement: 0, read };
    if reference(program, reader).array != written(program, 0).array {
        return unwritten_leaf(alloc, program, read);
    }
    turns(alloc, program, read, depth(program, 0) as u8, &[])
}

/// The source trees of a projective program, with the multipliers that show them (`specs/SourceTrees.antt`): that of a read of
/// an array that isn't written says that no write is earlier; that of a read of the array that is written tests the loops that
/// don't stand in the reference, the innermost first, and where one isn't in its first turn, the source is the write one turn
/// before. Want of memory is the only error.
pub fn source_trees(alloc: Global, program: &Program) -> Result<Quasts, Memory>
    requires { IsProjective (meaning program.now) }
    ensures { IfOk result (λ quasts. AreSourceTrees (meaning program.now) (trees_of quasts)) }
{
    let _params = program.params();
    let count = program.statements()[0].reads.len();
    let mut row = Vec::new(alloc);
    for read in 0..count {
        row.push(source_tree(alloc, program, read as u16)?)?;
    }
    let mut rows = Vec::new(alloc);
    rows.push(row)?;
    Ok(Quasts::new(rows))
}
