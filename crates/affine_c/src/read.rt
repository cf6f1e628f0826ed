//! The program of a C text.

ghost use Rattle.std.specs.Prelude.{IfOk, IfErr};
ghost use Rattle.affine_program.specs.Parts.{meaning};
ghost use Rattle.c_grammar.specs.Program.{Means};
ghost use Rattle.affine_c.specs.Meaning.{IfFault};

use crate::fault::{ProgramError, ProgramFault};
use crate::parts::program_of;
use affine_program::Program;
use c_grammar::{accepted_texts_spell, readings_are_well_read};
use c_reading::{ReadError, read_text};
use std::alloc::Global;

/// Reads a C text: the affine program that it means, or its first fault, with its number and its place. The lines before
/// the opening one may name parameters and assume; between the opening and the closing line stand loops with affine
/// bounds, which step by one up or down, guards of affine comparisons, blocks, and assignments to cells with affine
/// subscripts.
pub fn read_program(alloc: Global, bytes: &[u8]) -> Result<Program, ProgramError>
    ensures program { IfOk result (λ program. Means bytes.now (meaning program)) }
    ensures fault { IfErr result (λ error. IfFault bytes.now error) }
{
    accepted_texts_spell();
    readings_are_well_read();
    match read_text(alloc, bytes) {
        Ok(reading) => Ok(program_of(alloc, &reading)?),
        Err(ReadError::Fault(fault)) => Err(ProgramError::Fault(ProgramFault {
            number: fault.number,
            place: fault.place as u64,
        })),
        Err(ReadError::Memory) => Err(ProgramError::Memory),
    }
}
