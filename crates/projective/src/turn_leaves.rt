//! The leaves of a projective program's source trees.

ghost use Rattle.std.specs.Prelude.{◌≡◌, ◌<◌, ◌++◌, ◌∷◌, [], ℕ, suc, length, false, IfOk};
ghost use Rattle.iolb_model.specs.Program.{statement_at};
ghost use Rattle.affine_program.specs.Domain.{depth_of};
ghost use Rattle.affine_program.specs.Parts.{meaning};
ghost use Rattle.flow_deps.specs.declared.wanted.Wanted.TheVariants.{Short};
ghost use Rattle.dep_quast.specs.Context.{reference_of};
ghost use Rattle.dep_quast.specs.Tree.{tree_of};
ghost use Rattle.dep_quast.specs.Truth.{ReadFits};
ghost use Rattle.projective.specs.Projective.{IsProjective};
ghost use Rattle.projective.specs.FirstTurns.{AreFirstTurns};
ghost use Rattle.projective.specs.SourceTrees.{read_number};
ghost use Rattle.projective.specs.Turns.{is_kept, later_turn, turn_before};
ghost use Rattle.flow_deps.specs.Shapes.{no_write, last_write};
ghost use Rattle.flow_deps.specs.Shown.{IsShown};

use crate::turns::turn_before;
use affine_form::{Form, Memory};
use affine_program::Program;
use dep_quast::Quast;
use dep_quast::reader::Reader;
use flow_deps::Wanted;
use flow_deps::leaves::{input_leaf, source_leaf, unshown};
use std::alloc::Global;

/// The leaf that says no write is earlier, of a read of an array that isn't written.
pub(crate) fn unwritten_leaf(alloc: Global, program: &Program, read: u16) -> Result<Quast, Memory>
    requires projective { IsProjective (meaning program.now) }
    requires read { ReadFits (meaning program.now) (read_number read) }
    requires unwritten { ¬ ((reference_of (meaning program.now) (read_number read)).array ≡ (statement_at (meaning program.now) 0).writes.array) }
    ensures { IfOk result (λ quast. (nested : ℕ) → IsShown Short (meaning program.now) (read_number read) [] nested no_write (tree_of quast)) }
{
    let _params = program.params();
    let reader = Reader { statement: 0, read };
    match input_leaf(alloc, Wanted::Short, program, reader, &[])? {
        Some(leaf) => Ok(leaf),
        None => unreachable!(),
    }
}

/// The leaf that says no write is earlier, where all loops that don't stand in the reference are in their first turns.
pub(crate) fn first_leaf(
    alloc: Global,
    program: &Program,
    read: u16,
    tests: &[Form],
) -> Result<Quast, Memory>
    requires projective { IsProjective (meaning program.now) }
    requires read { ReadFits (meaning program.now) (read_number read) }
    requires written { (reference_of (meaning program.now) (read_number read)).array ≡ (statement_at (meaning program.now) 0).writes.array }
    requires first { AreFirstTurns (meaning program.now) 0 tests.now }
    ensures { IfOk result (λ quast. (nested : ℕ) → IsShown Short (meaning program.now) (read_number read) tests.now nested no_write (tree_of quast)) }
{
    let _params = program.params();
    let reader = Reader { statement: 0, read };
    match input_leaf(alloc, Wanted::Short, program, reader, tests)? {
        Some(leaf) => Ok(leaf),
        None => unreachable!(),
    }
}

/// The leaf that names the write one turn of a loop before, where the loops behind it that don't stand in the reference are in
/// their first turns, and it isn't.
pub(crate) fn turn_leaf(
    alloc: Global,
    program: &Program,
    read: u16,
    tests: &[Form],
    above: &[Form],
    level: u8,
) -> Result<Quast, Memory>
    requires projective { IsProjective (meaning program.now) }
    requires read { ReadFits (meaning program.now) (read_number read) }
    requires written { (reference_of (meaning program.now) (read_number read)).array ≡ (statement_at (meaning program.now) 0).writes.array }
    requires there { level < depth_of (meaning program.now) 0 }
    requires free { is_kept (meaning program.now) level ≡ false }
    requires first { AreFirstTurns (meaning program.now) (suc level) tests.now }
    requires above { above.now ≡ tests.now ++ later_turn (meaning program.now) level ∷ [] }
    ensures { IfOk result (λ quast. (nested : ℕ) → IsShown Short (meaning program.now) (read_number read) above.now nested
        (last_write 0 level (turn_before (meaning program.now) level)) (tree_of quast)) }
{
    let _params = program.params();
    let reader = Reader { statement: 0, read };
    let point = turn_before(alloc, program, usize::from(level))?;
    let claimed = unshown(0, level, point.as_slice());
    match source_leaf(alloc, Wanted::Short, program, reader, above, &claimed)? {
        Some(leaf) => Ok(leaf),
        None => unreachable!(),
    }
}
