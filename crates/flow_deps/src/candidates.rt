//! The candidates of a read, in their order.

ghost use Rattle.std.specs.Prelude.{◌≡◌, ◌<◌, ◌++◌, [], ◌∷◌, length, flat_map, IfOk};
ghost use Rattle.std.specs.List.{AllByRecursion};
ghost use Rattle.affine_program.specs.Domain.{depth_of};
ghost use Rattle.affine_program.specs.Parts.{meaning};
ghost use Rattle.dep_quast.specs.Context.{reference_of};
ghost use Rattle.dep_quast.specs.Levels.{IsWriter};
ghost use Rattle.dep_quast.specs.Truth.{ReadFits};
ghost use Rattle.dep_quast.specs.Views.{read_of};
ghost use Rattle.flow_deps.specs.Candidates.{same_turn, turn_of, candidates, CandidateFits};

use crate::candidate::Candidate;
use affine_form::Memory;
use affine_program::Program;
use dep_quast::levels::writers;
use dep_quast::reader::{Reader, depth, reference};
use std::alloc::Global;

/// Candidates, and then those of the writers before the reader.
fn with_same_turns(
    found: Vec<Candidate>,
    reader: Reader,
    writers: &[u16],
) -> Result<Vec<Candidate>, Memory>
    ensures { IfOk result (λ all. all.items ≡ found.items ++ flat_map (same_turn (read_of reader)) writers.now) }
{
    let mut all = found;
    for writer in writers {
        if *writer < reader.statement {
            all.push(Candidate::SameTurn { writer: *writer })?;
        }
    }
    Ok(all)
}

/// Candidates, and then those of the writers inside a loop of the reader.
fn with_turns_of(
    found: Vec<Candidate>,
    program: &Program,
    reader: Reader,
    level: u8,
    writers: &[u16],
) -> Result<Vec<Candidate>, Memory>
    requires read { reader.statement < length program.now.statements }
    requires writers { AllByRecursion (λ writer. writer < length program.now.statements) writers.now }
    ensures { IfOk result (λ all. all.items ≡ found.items ++ flat_map (turn_of (meaning program.now) (read_of reader) level) writers.now) }
{
    let mut all = found;
    for writer in writers {
        if usize::from(level) < program.common(*writer, reader.statement) {
            let writer = *writer;
            all.push(Candidate::TurnBefore { level, writer })?;
        }
    }
    Ok(all)
}

/// The candidates of a read: no write; the writers before the reader, ascending; for each loop of the reader, outermost
/// first, the writers inside it, ascending.
pub(crate) fn candidates(
    alloc: Global,
    program: &Program,
    reader: Reader,
) -> Result<Vec<Candidate>, Memory>
    requires { ReadFits (meaning program.now) (read_of reader) }
    ensures candidates { IfOk result (λ all. all.items ≡ candidates (meaning program.now) (read_of reader)) }
    ensures each { IfOk result (λ all. AllByRecursion (CandidateFits (meaning program.now) (read_of reader)) all.items) }
{
    let found = writers(alloc, program, reference(program, reader).array)?;
    let mut all = Vec::new(alloc);
    all.push(Candidate::NoWrite)?;
    all = with_same_turns(all, reader, found.as_slice())?;
    for level in 0..depth(program, reader.statement) {
        all = with_turns_of(all, program, reader, level as u8, found.as_slice())?;
    }
    Ok(all)
}
