//! Where the last write may come from.

ghost use Rattle.std.specs.Prelude.{IfOk};
ghost use Rattle.std.specs.List.{AllByRecursion};
ghost use Rattle.affine_program.specs.Parts.{meaning};
ghost use Rattle.dep_quast.specs.Context.{reference_of};
ghost use Rattle.dep_quast.specs.Levels.{IsWriter};
ghost use Rattle.dep_quast.specs.Truth.{ReadFits};
ghost use Rattle.dep_quast.specs.Views.{read_of};
ghost use Rattle.flow_deps.specs.Origins.{OriginFits};

use affine_form::Memory;
use affine_program::Program;
use dep_quast::levels::writers;
use dep_quast::reader::{Reader, depth, reference};
use std::alloc::Global;

/// A statement, and the level at which it comes before the reader.
#[derive(Clone, Copy, Debug)]
pub struct Origin {
    pub writer: u16,
    pub level: u8,
}

/// Origins, and then those of the writers inside the loop behind a level, in an earlier turn of it: the last in the text
/// first.
fn with_turns(
    found: Vec<Origin>,
    program: &Program,
    reader: Reader,
    level: u8,
    writers: &[u16],
) -> Result<Vec<Origin>, Memory>
    requires read { ReadFits (meaning program.now) (read_of reader) }
    requires writers { AllByRecursion (IsWriter (meaning program.now) (reference_of (meaning program.now) (read_of reader)).array) writers.now }
    requires found { AllByRecursion (OriginFits (meaning program.now) (read_of reader)) found.items }
    ensures { IfOk result (λ all. AllByRecursion (OriginFits (meaning program.now) (read_of reader)) all.items) }
{
    let mut all = found;
    for i in 0..writers.len() {
        let writer = writers[writers.len() - 1 - i];
        if usize::from(level) < program.common(writer, reader.statement) {
            all.push(Origin { writer, level })?;
        }
    }
    Ok(all)
}

/// Origins, and then those of the writers before the reader that have no more loops in common with it than a level says:
/// the last in the text first.
fn with_earlier(
    found: Vec<Origin>,
    program: &Program,
    reader: Reader,
    level: u8,
    writers: &[u16],
) -> Result<Vec<Origin>, Memory>
    requires read { ReadFits (meaning program.now) (read_of reader) }
    requires writers { AllByRecursion (IsWriter (meaning program.now) (reference_of (meaning program.now) (read_of reader)).array) writers.now }
    requires found { AllByRecursion (OriginFits (meaning program.now) (read_of reader)) found.items }
    ensures { IfOk result (λ all. AllByRecursion (OriginFits (meaning program.now) (read_of reader)) all.items) }
{
    let mut all = found;
    for i in 0..writers.len() {
        let writer = writers[writers.len() - 1 - i];
        if writer < reader.statement
            && usize::from(level) == program.common(writer, reader.statement)
        {
            all.push(Origin { writer, level })?;
        }
    }
    Ok(all)
}

/// The origins of a read, the latest first: by levels, from the innermost on.
pub(crate) fn origins(
    alloc: Global,
    program: &Program,
    reader: Reader,
) -> Result<Vec<Origin>, Memory>
    requires { ReadFits (meaning program.now) (read_of reader) }
    ensures { IfOk result (λ all. AllByRecursion (OriginFits (meaning program.now) (read_of reader)) all.items) }
{
    let found = writers(alloc, program, reference(program, reader).array)?;
    let depth = depth(program, reader.statement);
    let mut all = Vec::new(alloc);
    for i in 0..depth + 1 {
        let level = (depth - i) as u8;
        all = with_turns(all, program, reader, level, found.as_slice())?;
        all = with_earlier(all, program, reader, level, found.as_slice())?;
    }
    Ok(all)
}
