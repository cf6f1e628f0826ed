//! Numbers that a program calls for, also of statements and reads that aren't there.

ghost use Rattle.std.specs.Prelude.{◌≡◌, ◌<◌, ◌≤◌, ◌↔◌, ◌+◌, ◌*◌, IsTrue, MatchOption, length};
ghost use Rattle.affine_program.specs.Domain.{depth_of, domain_size};
ghost use Rattle.affine_program.specs.Parts.{meaning};
ghost use Rattle.certificate_fit.specs.EntryFit.{leaf_names, names_in};
ghost use Rattle.certificate_fit.specs.TreeFit.{order_rows_at};
ghost use Rattle.dep_quast.specs.Context.{reference_of};
ghost use Rattle.dep_quast.specs.Levels.{level_count, levels_between, writers};
ghost use Rattle.dep_quast.specs.Tree.{tree_of};
ghost use Rattle.dep_quast.specs.Truth.{ReadFits};
ghost use Rattle.dep_quast.specs.Views.{read_of};
ghost use Rattle.iolb_model.specs.Program.{statement_at};
ghost use Rattle.iolb_model.specs.declared.limits.TheConstants.{GUARDS, LOOPS};
ghost use Rattle.dep_quast.specs.Quasts.{trees_of};

use affine_program::Program;
use dep_quast::Quast;
use dep_quast::fitting::{between_count, rows_of_level};
use dep_quast::levels::level_count;
use dep_quast::reader::{Reader, depth, reference};
use reuse_paths::Quasts;

/// Whether a list is twice as long as something is.
pub fn is_twice(found: usize, half: usize) -> bool
    ensures { IsTrue result ↔ (found ≡ 2 * half) }
{
    found % 2 == 0 && found / 2 == half
}

/// How many loops are around a statement: none around one that isn't there.
pub fn loops_around(program: &Program, statement: u16) -> usize
    ensures depth { result ≡ depth_of (meaning program.now) statement }
    ensures few { result ≤ LOOPS }
{
    if usize::from(statement) < program.statements().len() {
        depth(program, statement)
    } else {
        0
    }
}

/// How many rows say that values are in a statement's domain: none for one that isn't there.
pub fn domain_size(program: &Program, statement: u16) -> usize
    ensures size { result ≡ domain_size (meaning program.now) statement }
    ensures few { result ≤ 2 * LOOPS + GUARDS }
{
    if usize::from(statement) < program.statements().len() {
        program.domain_size(statement)
    } else {
        0
    }
}

/// At how many levels an instance of t may come before one of s: at none where t isn't there.
pub fn levels(program: &Program, t: u16, s: u16) -> usize
    requires { s < length program.now.statements }
    ensures { result ≡ level_count (meaning program.now) t s }
{
    if usize::from(t) < program.statements().len() {
        level_count(program, t, s)
    } else {
        0
    }
}

/// How many rows say that an instance of t comes before one of s at a level: none at one that doesn't exist.
pub fn order_rows(program: &Program, t: u16, s: u16, level: u8) -> usize
    requires { s < length program.now.statements }
    ensures { result ≡ order_rows_at (meaning program.now) t s level }
{
    if usize::from(t) >= program.statements().len() {
        return 0;
    }
    if usize::from(level) >= level_count(program, t, s) {
        return 0;
    }
    rows_of_level(program, t, s, level)
}

/// At how many pairs of levels a write may come after the source and before the reader: at none where the source isn't
/// there.
pub fn pairs_between(program: &Program, reader: Reader, source: u16) -> usize
    requires { ReadFits (meaning program.now) (read_of reader) }
    ensures { result ≡ length (levels_between (meaning program.now) source (writers (meaning program.now) (reference_of (meaning program.now) (read_of reader)).array) reader.statement) }
{
    if usize::from(source) < program.statements().len() {
        between_count(program, reader, source)
    } else {
        0
    }
}

/// How many reads a statement has: none if it isn't there.
pub fn read_count(program: &Program, statement: u16) -> usize
    ensures { result ≡ length (statement_at (meaning program.now) statement).reads }
{
    match program.statements().get(usize::from(statement)) {
        Some(there) => there.reads.as_slice().len(),
        None => 0,
    }
}

/// How many subscripts a read has: none if it isn't there.
pub fn subscript_count(program: &Program, reader: Reader) -> usize
    ensures { result ≡ length (reference_of (meaning program.now) (read_of reader)).subscripts }
{
    if usize::from(reader.read) < read_count(program, reader.statement) {
        reference(program, reader).subs.as_slice().len()
    } else {
        0
    }
}

/// How many of so many entries are left where each leaf that isn't empty takes one, if there are enough.
fn entries_left(quast: &Quast, entries: usize) -> Option<usize>
    ensures { MatchOption result (entries < length (names_in (tree_of quast.now))) (λ left. left + length (names_in (tree_of quast.now)) ≡ entries) }
{
    match quast {
        Quast::Test { yes, no, .. } => entries_left(no, entries_left(yes, entries)?),
        Quast::Empty { .. } => Some(entries),
        Quast::Source { .. } | Quast::Input { .. } | Quast::Blank => entries.checked_sub(1),
    }
}

/// Whether there are as many entries as leaves of a read's tree that aren't empty. A read that isn't there has no leaves,
/// nor has one without a tree.
pub fn has_entry_each(program: &Program, quasts: &Quasts, reader: Reader, entries: usize) -> bool
    ensures { IsTrue result ↔ (entries ≡ length (leaf_names (meaning program.now) (trees_of quasts.now) (read_of reader))) }
{
    if usize::from(reader.read) >= read_count(program, reader.statement) {
        return entries == 0;
    }
    match quasts.tree(reader.statement, reader.read) {
        Some(quast) => entries_left(quast, entries) == Some(0),
        None => entries == 0,
    }
}
