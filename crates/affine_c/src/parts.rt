//! The program that a reading says.

ghost use Rattle.std.specs.Prelude.{◌≡◌, ◌≤◌, ℕ, List, length, map, IfOk};
ghost use Rattle.std.specs.List.{AllByRecursion};
ghost use Rattle.c_grammar.specs.Well.{IsRowOver, IsWellRead, parameters_of};
ghost use Rattle.affine_program.specs.Parts.{meaning, array_of};
ghost use Rattle.c_grammar.specs.Program.{narrowed, program_of};
ghost use Rattle.iolb_model.specs.declared.limits.TheConstants.{PARAMETERS, SUBSCRIPTS, ASSUMPTIONS};

use crate::forms::form_of;
use crate::statements::statements_of;
use crate::tree::tree_of;
use affine_form::{Memory, Name, System};
use affine_program::Program;
use c_reading::{Reading, Row};
use std::alloc::Global;

/// The system of the rows that are assumed.
fn assumed_of(alloc: Global, rows: &[Row], parameters: usize) -> Result<System, Memory>
    requires few { parameters ≤ PARAMETERS }
    requires few_rows { length rows.now ≤ ASSUMPTIONS }
    requires over { AllByRecursion (IsRowOver parameters 0) rows.now }
    ensures { IfOk result (λ system. system ≡ record { vars = parameters; rows = map (narrowed parameters 0) rows.now }) }
{
    let mut system = System::new(alloc, parameters);
    for row in rows {
        system.push(form_of(alloc, row, parameters, 0)?)?;
    }
    Ok(system)
}

/// The arrays, each with its number of subscripts as a byte.
fn arrays_of(alloc: Global, arrays: &[(Name, usize)]) -> Result<Vec<(Name, u8)>, Memory>
    requires { AllByRecursion (λ (array : List ℕ × ℕ). array.1 ≤ SUBSCRIPTS) arrays.now }
    ensures arrays { IfOk result (λ made. made.items ≡ arrays.now) }
{
    let mut made = Vec::new(alloc);
    for (name, rank) in arrays {
        made.push((name.try_clone(alloc)?, *rank as u8))?;
    }
    Ok(made)
}

/// The program that a reading says.
pub(crate) fn program_of(alloc: Global, reading: &Reading) -> Result<Program, Memory>
    requires { IsWellRead reading.now }
    ensures { IfOk result (λ program. meaning program ≡ program_of reading.now) }
{
    let names = reading.parameters(alloc)?;
    let parameters = names.as_slice().len();
    let assumed = assumed_of(alloc, reading.assumptions(), parameters)?;
    let arrays = reading.arrays(alloc)?;
    let arrays = arrays_of(alloc, arrays.as_slice())?;
    let tree = tree_of(alloc, reading, parameters)?;
    let statements = statements_of(alloc, reading, parameters, tree.as_slice())?;
    Ok(Program::from_parts(names, assumed, arrays, statements, tree))
}
