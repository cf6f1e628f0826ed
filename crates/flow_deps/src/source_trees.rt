//! Source trees of reads.

ghost use Rattle.std.specs.Prelude.{◌≤◌, [], IfOk};
ghost use Rattle.affine_program.specs.Parts.{meaning};
ghost use Rattle.dep_quast.specs.Tree.{SelectionTree, leaf_count, tree_of};
ghost use Rattle.dep_quast.specs.Truth.{ReadFits};
ghost use Rattle.flow_deps.specs.Plain.{IsPlain};
ghost use Rattle.flow_deps.specs.Shown.{Stands};
ghost use Rattle.iolb_model.specs.declared.limits.TheConstants.{TREE_TESTS, TREE_LEAVES};

use crate::growth::grown;
use crate::origins::origins;
use crate::plain_trees::plain;
use affine_form::Memory;
use affine_program::Program;
use dep_quast::Quast;
use dep_quast::reader::Reader;
use iolb_model::limits;
use std::alloc::Global;

/// A source tree of a read: its plain tree where it has one; else one that splits on the statements and levels from which
/// the last write may come (Feautrier 1991), each with a point that is solved from the cell, as far as multipliers are
/// found. Where they aren't, a leaf claims nothing.
pub fn quast(alloc: Global, program: &Program, statement: u16, read: u16) -> Result<Quast, Memory>
    requires { ReadFits (meaning program.now) (record { statement = statement; read = read }) }
    ensures stands { IfOk result (λ quast. Stands (meaning program.now) (record { statement = statement; read = read }) [] TREE_TESTS (tree_of quast)) }
    ensures few { IfOk result (λ quast. leaf_count (tree_of quast) ≤ TREE_LEAVES) }
    ensures plain { IfOk result (λ quast. (tree : SelectionTree) → IsPlain (meaning program.now) (record { statement = statement; read = read }) tree
        → IsPlain (meaning program.now) (record { statement = statement; read = read }) (tree_of quast)) }
{
    if let Some(tree) = plain(alloc, program, statement, read)? {
        return Ok(tree);
    }
    let reader = Reader { statement, read };
    let all = origins(alloc, program, reader)?;
    grown(
        alloc,
        program,
        reader,
        &[],
        all.as_slice(),
        limits::TREE_TESTS,
        usize::from(limits::TREE_LEAVES),
    )
}
