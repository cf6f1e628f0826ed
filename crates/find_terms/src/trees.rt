//! Source trees of all reads of a program.

ghost use Rattle.std.specs.Prelude.{◌≡◌, ◌==◌, ◌<◌, length, map, IfOk};
ghost use Rattle.std.specs.List.{list_any};
ghost use Rattle.affine_program.specs.Parts.{meaning};
ghost use Rattle.find_terms.specs.Trees.{HasRow, HasTrees, IsSourceTree, is_of_read, is_sought, is_written};
ghost use Rattle.dep_quast.specs.Tree.{tree_of};
ghost use Rattle.dep_quast.specs.Truth.{ReadFits};
ghost use Rattle.dep_quast.specs.Views.{read_of};
ghost use Rattle.dep_quast.specs.Quasts.{trees_of};

use affine_form::Memory;
use affine_program::Program;
use dep_quast::Quast;
use dep_quast::reader::{Reader, reference};
use flow_deps::quast;
use iolb_check::Term;
use reuse_paths::Quasts;
use std::alloc::Global;

/// Of which reads the source trees are looked for; the trees of the others are blank.
#[derive(Clone, Copy)]
pub(crate) enum Scope<'a> {
    /// Of all.
    All,
    /// Of those of arrays that no statement writes, and of those that cold terms name.
    Few(&'a [Term]),
}

/// Whether a statement writes an array.
fn is_written(program: &Program, array: u16) -> bool
    ensures { result ≡ is_written (meaning program.now) array }
{
    for statement in program.statements() {
        if statement.writes.array == array {
            return true;
        }
    }
    false
}

/// Whether a term is a cold term of a read.
fn is_of(term: &Term, reader: Reader) -> bool
    ensures { result ≡ is_of_read (read_of reader) term.now }
{
    match term {
        Term::Cold(cold) => cold.statement == reader.statement && cold.read == reader.read,
        Term::Partition(_) | Term::Wavefront(_) | Term::Joint(_) => false,
    }
}

/// Whether one of the terms is a cold term of a read.
fn are_of(terms: &[Term], reader: Reader) -> bool
    ensures { result ≡ list_any (is_of_read (read_of reader)) terms.now }
{
    for term in terms {
        if is_of(term, reader) {
            return true;
        }
    }
    false
}

/// Whether the source tree of a read is looked for.
fn is_sought(program: &Program, reader: Reader, scope: Scope<'_>) -> bool
    requires { ReadFits (meaning program.now) (read_of reader) }
    ensures { result ≡ is_sought (meaning program.now) scope.entry (read_of reader) }
{
    match scope {
        Scope::All => true,
        Scope::Few(terms) => {
            are_of(terms, reader) || !is_written(program, reference(program, reader).array)
        }
    }
}

/// The source tree of a read.
fn tree(alloc: Global, program: &Program, reader: Reader, scope: Scope<'_>) -> Result<Quast, Memory>
    requires { ReadFits (meaning program.now) (read_of reader) }
    ensures { IfOk result (λ quast. IsSourceTree (meaning program.now) scope.entry (read_of reader) (tree_of quast)) }
{
    let _params = program.params();
    if is_sought(program, reader, scope) {
        quast(alloc, program, reader.statement, reader.read)
    } else {
        Ok(Quast::Blank)
    }
}

/// The source trees of a statement's reads.
fn row(
    alloc: Global,
    program: &Program,
    statement: usize,
    scope: Scope<'_>,
) -> Result<Vec<Quast>, Memory>
    requires { statement < length program.now.statements }
    ensures { IfOk result (λ row. HasRow (meaning program.now) scope.entry statement (map tree_of row.items)) }
{
    let count = program.statements()[statement].reads.len();
    let mut row = Vec::new(alloc);
    for read in 0..count {
        let reader = Reader {
            statement: statement as u16,
            read: read as u16,
        };
        row.push(tree(alloc, program, reader, scope)?)?;
    }
    Ok(row)
}

/// The source trees of all reads.
pub(crate) fn source_trees(
    alloc: Global,
    program: &Program,
    scope: Scope<'_>,
) -> Result<Quasts, Memory>
    ensures { IfOk result (λ quasts. HasTrees (meaning program.now) scope.entry (trees_of quasts)) }
{
    let mut rows = Vec::new(alloc);
    for statement in 0..program.statements().len() {
        rows.push(row(alloc, program, statement, scope)?)?;
    }
    Ok(Quasts::new(rows))
}
