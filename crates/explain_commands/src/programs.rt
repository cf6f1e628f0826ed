//! Programs, explained.

ghost use Rattle.std.specs.Prelude.{IfOk};
ghost use Rattle.affine_program.specs.Parts.{meaning};
ghost use Rattle.c_grammar.specs.Program.{Means};

use crate::stop::Stop;
use affine_c::{ProgramError, ProgramFault, read_program};
use affine_program::Program;
use bound_warnings::{write_loop_warnings, write_name_warnings};
use plain_pages::Page;
use program_messages::fault_message;
use program_pages::{find_places, write_program};
use std::alloc::Global;

/// The stop where the text of a program, which the file of this name has, has a fault.
fn fault_stop(alloc: Global, file: &str, text: &[u8], fault: ProgramFault) -> Stop {
    let mut page = Page::new(alloc);
    let place = usize::try_from(fault.place).unwrap_or(text.len());
    match fault_message(&mut page, file, text, fault.number, place) {
        Ok(()) => Stop::Wrong(page),
        Err(_) => Stop::Memory,
    }
}

/// The program that the file of this name has as its text.
pub(crate) fn program_in(alloc: Global, file: &str, text: &[u8]) -> Result<Program, Stop>
    ensures { IfOk result (λ program. Means text.now (meaning program)) }
{
    match read_program(alloc, text) {
        Ok(program) => Ok(program),
        Err(ProgramError::Fault(fault)) => Err(fault_stop(alloc, file, text, fault)),
        Err(ProgramError::Memory) => Err(Stop::Memory),
    }
}

/// The page about the text of a program, which the file of this name has.
pub(crate) fn program_answer(alloc: Global, file: &str, text: &[u8]) -> Result<Page, Stop> {
    let program = program_in(alloc, file, text)?;
    let mut page = Page::new(alloc);
    let places = find_places(alloc, text, program.arrays())?;
    write_program(&mut page, file, text, &program, &places)?;
    write_name_warnings(&mut page, file, &program)?;
    write_loop_warnings(&mut page, file, text, &program, &places)?;
    Ok(page)
}
