//! How many levels and pairs of levels the lists of a source tree's claims go through.

ghost use Rattle.std.specs.Prelude.{◌≡◌, ◌<◌, ◌≤◌, ◌*◌, ◌==◌, if◌then◌else◌, length, suc};
ghost use Rattle.iolb_model.specs.Program.{statement_at};
ghost use Rattle.iolb_model.specs.Order.{common_loops};
ghost use Rattle.affine_program.specs.Parts.{meaning};
ghost use Rattle.dep_quast.specs.Context.{reference_of};
ghost use Rattle.dep_quast.specs.Levels.{level_count, writers, levels_before, levels_between, order_count};
ghost use Rattle.dep_quast.specs.Truth.{ReadFits};
ghost use Rattle.dep_quast.specs.Views.{read_of};
ghost use Rattle.iolb_model.specs.declared.limits.TheConstants.{LOOPS};

use crate::levels::level_count;
use crate::reader::{Reader, reference, written};
use affine_program::Program;

/// How many rows say that one instance comes before another at a level.
pub fn rows_of_level(program: &Program, t: u16, s: u16, level: u8) -> usize
    requires t_there { t < length program.now.statements }
    requires s_there { s < length program.now.statements }
    ensures { result ≡ order_count (length (common_loops (meaning program.now) t s)) level }
{
    let level = usize::from(level);
    if level < program.common(t, s) {
        2 * level + 1
    } else {
        2 * level
    }
}

/// At how many levels a statement may come before the reader, if it writes the array that is read, and else 0.
fn levels_of(program: &Program, reader: Reader, writer: u16) -> usize
    requires read { ReadFits (meaning program.now) (read_of reader) }
    requires writer { writer < length program.now.statements }
    ensures count { result ≡ (if (statement_at (meaning program.now) writer).writes.array == (reference_of (meaning program.now) (read_of reader)).array
        then level_count (meaning program.now) writer reader.statement else 0) }
    ensures few { result ≤ suc LOOPS }
{
    if written(program, writer).array == reference(program, reader).array {
        level_count(program, writer, reader.statement)
    } else {
        0
    }
}

/// At how many pairs of levels a statement may come after the source and before the reader, if it writes the array that is
/// read, and else 0.
fn pairs_of(program: &Program, reader: Reader, source: u16, writer: u16) -> usize
    requires read { ReadFits (meaning program.now) (read_of reader) }
    requires source { source < length program.now.statements }
    requires writer { writer < length program.now.statements }
    ensures count { result ≡ (if (statement_at (meaning program.now) writer).writes.array == (reference_of (meaning program.now) (read_of reader)).array
        then level_count (meaning program.now) source writer * level_count (meaning program.now) writer reader.statement else 0) }
    ensures few { result ≤ suc LOOPS * suc LOOPS }
{
    let before = levels_of(program, reader, writer);
    let after = level_count(program, source, writer);
    after * before
}

/// At how many levels writers of the array may come before the reader.
pub fn earlier_count(program: &Program, reader: Reader) -> usize
    requires read { ReadFits (meaning program.now) (read_of reader) }
    ensures { result ≡ length (levels_before (meaning program.now) (writers (meaning program.now) (reference_of (meaning program.now) (read_of reader)).array) reader.statement) }
{
    let mut total = 0;
    for writer in 0..program.statements().len() {
        total += levels_of(program, reader, writer as u16);
    }
    total
}

/// At how many pairs of levels writers of the array may come after the source and before the reader.
pub fn between_count(program: &Program, reader: Reader, source: u16) -> usize
    requires read { ReadFits (meaning program.now) (read_of reader) }
    requires source { source < length program.now.statements }
    ensures { result ≡ length (levels_between (meaning program.now) source (writers (meaning program.now) (reference_of (meaning program.now) (read_of reader)).array) reader.statement) }
{
    let mut total = 0;
    for writer in 0..program.statements().len() {
        total += pairs_of(program, reader, source, writer as u16);
    }
    total
}
