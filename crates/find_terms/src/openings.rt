//! The branch of opening terms.

ghost use Rattle.std.specs.Prelude.{◌<◌, ◌+◌, length, IfOk};
ghost use Rattle.affine_program.specs.Parts.{meaning};
ghost use Rattle.dep_quast.specs.Truth.{ReadFits};
ghost use Rattle.dep_quast.specs.Views.{read_of};
ghost use Rattle.find_terms.specs.Found.{FindsFirst, FindsRead, FindsTerm, HasNoEarlier};
ghost use Rattle.find_terms.specs.Openings.{AreOpenings, FindsOpening};

use crate::filling::filled;
use crate::outlines::opening_outline;
use affine_form::Memory;
use affine_program::Program;
use dep_quast::reader::{Reader, reference};
use flow_deps::{Wanted, plain};
use iolb_check::Branch;
use iolb_model::limits;
use projective_bounds::cold_branch;
use std::alloc::Global;
use wavefront::Cold;

/// The opening term of a read. None only where the read isn't plain.
fn opening_term(alloc: Global, program: &Program, reader: Reader) -> Result<Option<Cold>, Memory>
    requires { ReadFits (meaning program.now) (read_of reader) }
    ensures { IfOk result (λ found. FindsTerm (meaning program.now) (read_of reader) found) }
{
    let Some(outline) = opening_outline(alloc, program, reader)? else {
        return Ok(None);
    };
    let Some(quast) = plain(alloc, program, reader.statement, reader.read)? else {
        return Ok(None);
    };
    filled(alloc, Wanted::Short, program, &quast, outline)
}

/// The opening term of a read, where it reads an array. None only where it isn't a plain read of the array.
fn term_of_array(
    alloc: Global,
    program: &Program,
    array: usize,
    reader: Reader,
) -> Result<Option<Cold>, Memory>
    requires { ReadFits (meaning program.now) (read_of reader) }
    ensures { IfOk result (λ found. FindsRead (meaning program.now) array (read_of reader) found) }
{
    if usize::from(reference(program, reader).array) != array {
        return Ok(None);
    }
    opening_term(alloc, program, reader)
}

/// The opening term of the first plain read of an array among those of a statement, where no statement before has one.
fn first_in(
    alloc: Global,
    program: &Program,
    array: usize,
    statement: u16,
) -> Result<Option<Cold>, Memory>
    requires there { statement < length program.now.statements }
    requires none_before { HasNoEarlier (meaning program.now) array (record { statement = statement; read = 0 }) }
    ensures { IfOk result (λ found. FindsFirst (meaning program.now) array (record { statement = statement + 1; read = 0 }) found) }
{
    let reads = program.statements()[usize::from(statement)]
        .reads
        .as_slice();
    for read in 0..reads.len() {
        let read = read as u16;
        if let Some(cold) = term_of_array(alloc, program, array, Reader { statement, read })? {
            return Ok(Some(cold));
        }
    }
    Ok(None)
}

/// The opening term of an array's first plain read. None only where it has none.
pub(crate) fn first_of(
    alloc: Global,
    program: &Program,
    array: usize,
) -> Result<Option<Cold>, Memory>
    ensures { IfOk result (λ found. FindsFirst (meaning program.now) array (record { statement = length program.now.statements; read = 0 }) found) }
{
    for statement in 0..program.statements().len() {
        if let Some(cold) = first_in(alloc, program, array, statement as u16)? {
            return Ok(Some(cold));
        }
    }
    Ok(None)
}

/// The opening terms of a program.
fn opening_terms(alloc: Global, program: &Program) -> Result<Vec<Cold>, Memory>
    ensures { IfOk result (λ colds. AreOpenings (meaning program.now) colds.items) }
{
    let most = limits::OPENING_TERMS;
    let mut colds = Vec::new(alloc);
    for array in 0..program.arrays().len() {
        if colds.len() < most {
            if let Some(cold) = first_of(alloc, program, array)? {
                colds.push(cold)?;
            }
        }
    }
    Ok(colds)
}

/// The branch of opening terms: for each of the first 16 arrays, in their order, that have a plain read, the opening term
/// of the first one, by statement and then by read. None only where no read is plain.
///
/// A read is plain where it has a plain source tree, its subscripts are different loops' names, and short lists of
/// multipliers show all that its opening term claims, whose polynomials are those of the summation. That term's nest has
/// the loops that are named; each other loop is in its first turn.
///
/// # Errors
///
/// Want of memory alone.
pub fn opening(alloc: Global, program: &Program) -> Result<Option<Branch>, Memory>
    ensures { IfOk result (λ found. FindsOpening (meaning program.now) found) }
{
    let colds = opening_terms(alloc, program)?;
    if colds.len() == 0 {
        return Ok(None);
    }
    Ok(Some(cold_branch(alloc, colds)?))
}
