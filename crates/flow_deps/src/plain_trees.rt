//! Plain source trees.

ghost use Rattle.std.specs.Prelude.{map, IfOk, MatchOption};
ghost use Rattle.std.specs.List.{AllByRecursion};
ghost use Rattle.affine_program.specs.Parts.{meaning};
ghost use Rattle.dep_quast.specs.Tree.{SelectionTree, tree_of};
ghost use Rattle.dep_quast.specs.Truth.{ReadFits};
ghost use Rattle.dep_quast.specs.Views.{read_of};
ghost use Rattle.flow_deps.specs.Candidates.{candidate_shape, CandidateFits};
ghost use Rattle.flow_deps.specs.Plain.{IsFirstShown, IsPlain};

use crate::candidate::Candidate;
use crate::candidates::candidates;
use crate::planted::planted;
use affine_form::Memory;
use affine_program::Program;
use dep_quast::Quast;
use dep_quast::reader::Reader;
use std::alloc::Global;

/// The plain tree of a read: of the candidates that say no write is earlier, name one writer in the same turn of the loops
/// around both, or one turn of a loop before, the first that short lists of multipliers show. None exactly where short
/// lists show none of them.
pub fn plain(
    alloc: Global,
    program: &Program,
    statement: u16,
    read: u16,
) -> Result<Option<Quast>, Memory>
    requires { ReadFits (meaning program.now) (record { statement = statement; read = read }) }
    ensures { IfOk result (λ found. MatchOption found ((tree : SelectionTree) → ¬ IsPlain (meaning program.now) (record { statement = statement; read = read }) tree)
        (λ quast. IsPlain (meaning program.now) (record { statement = statement; read = read }) (tree_of quast))) }
{
    let reader = Reader { statement, read };
    let all = candidates(alloc, program, reader)?;
    first_planted(alloc, program, reader, all.as_slice())
}

/// The tree of the first candidate that short lists show. None only where they show none.
fn first_planted(
    alloc: Global,
    program: &Program,
    reader: Reader,
    all: &[Candidate],
) -> Result<Option<Quast>, Memory>
    requires read { ReadFits (meaning program.now) (read_of reader) }
    requires fit { AllByRecursion (CandidateFits (meaning program.now) (read_of reader)) all.now }
    ensures { IfOk result (λ found. let shapes = map (candidate_shape (meaning program.now) (read_of reader)) all.now in
        MatchOption found ((tree : SelectionTree) → ¬ IsFirstShown (meaning program.now) (read_of reader) shapes tree)
        (λ quast. IsFirstShown (meaning program.now) (read_of reader) shapes (tree_of quast))) }
{
    for candidate in all {
        if let Some(quast) = planted(alloc, program, reader, *candidate)? {
            return Ok(Some(quast));
        }
    }
    Ok(None)
}
