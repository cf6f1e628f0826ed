//! Opening terms of programs, with the counts that the checker gives.

use crate::lines::{program_of, write_said};
use affine_form::Memory;
use affine_program::Program;
use dep_quast::Quast;
use find_terms::opening;
use flow_deps::quast;
use iolb_check::{Bound, Branch, Certificate, Term, Value, check};
use reuse_paths::Quasts;
use std::alloc::{AllocError, Global};

/// The source trees of a statement's reads.
fn row(alloc: Global, program: &Program, statement: u16) -> Result<Vec<Quast>, Memory> {
    let mut row = Vec::new(alloc);
    if let Some(reader) = program.statements().get(usize::from(statement)) {
        for read in 0..32u16 {
            if usize::from(read) < reader.reads.as_slice().len() {
                row.push(quast(alloc, program, statement, read)?)?;
            }
        }
    }
    Ok(row)
}

/// The source trees of a program's reads.
fn trees(alloc: Global, program: &Program) -> Result<Quasts, Memory> {
    let mut rows = Vec::new(alloc);
    for statement in 0..32u16 {
        if usize::from(statement) < program.statements().len() {
            rows.push(row(alloc, program, statement)?)?;
        }
    }
    Ok(Quasts::new(rows))
}

/// The bound of a program's source trees and the opening branch, where the checker accepts them.
fn bound_of(alloc: Global, program: &Program, branch: Branch) -> Option<Bound> {
    let mut branches = Vec::new(alloc);
    branches.push(branch).ok()?;
    let trees = trees(alloc, program).ok()?;
    let certificate = Certificate::new(trees, branches)?;
    check(alloc, program, &certificate).ok()
}

/// Writes the count of a bound's term.
fn write_count(
    alloc: Global,
    program: &Program,
    bound: &Bound,
    term: usize,
    text: &mut Vec<u8>,
) -> Result<(), AllocError> {
    if bound.branches() == 1 && term < bound.terms(0).len() {
        if let Value::Cold(count) = &bound.terms(0)[term] {
            if count.uses_below(program.params().len()) {
                if let Ok(count) = count.text(alloc, program.params()) {
                    text.extend_from_slice(count.as_slice())?;
                }
            }
        }
    }
    text.push(b'\n')?;
    Ok(())
}

/// The statement and the read of a cold term.
fn read_of(term: &Term) -> Option<(u16, u16)> {
    match term {
        Term::Cold(cold) => Some((cold.statement, cold.read)),
        _ => None,
    }
}

/// The statements and reads of cold terms.
fn reads_of(alloc: Global, terms: &[Term]) -> Result<Vec<(u16, u16)>, AllocError> {
    let mut reads = Vec::new(alloc);
    for read in terms.iter().filter_map(read_of) {
        reads.push(read)?;
    }
    Ok(reads)
}

/// Of each opening term of a program its statement, its read, and the count that the checker gives; `none` where there are
/// none.
fn said_of(alloc: Global, line: &str) -> Result<Option<Vec<u8>>, AllocError> {
    let Some(program) = program_of(alloc, line)? else {
        return Ok(None);
    };
    let mut said = Vec::new(alloc);
    let branch = match opening(alloc, &program) {
        Ok(Some(branch)) => branch,
        Ok(None) => {
            said.extend_from_slice(b"  none\n")?;
            return Ok(Some(said));
        }
        Err(_) => return Ok(None),
    };
    let reads = reads_of(alloc, branch.terms.as_slice())?;
    let Some(bound) = bound_of(alloc, &program, branch) else {
        return Ok(None);
    };
    for (term, (statement, read)) in reads.iter().enumerate() {
        said.extend_from_slice(format!(in alloc; "  {statement}/{read} ")?.as_bytes())?;
        write_count(alloc, &program, &bound, term, &mut said)?;
    }
    Ok(Some(said))
}

/// Writes of each line's program its opening terms.
pub(crate) fn write(alloc: Global, bytes: &[u8], page: &mut Vec<u8>) -> Result<(), AllocError> {
    let text = str::from_utf8(bytes).unwrap_or("");
    for line in text.lines() {
        let said = said_of(alloc, line)?;
        write_said(line, said, page)?;
    }
    Ok(())
}
