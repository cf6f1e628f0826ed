//! Whether writes of the cell that is read are shown not to be.
#![tactic(auto, using(claims::proofs::Found::in_a_row))]

ghost use Rattle.std.specs.Prelude.{◌≡◌, ◌<◌, ◌≤◌, ◌+◌, ◌*◌, length, map, flat_map, drop, suc};
ghost use Rattle.std.specs.List.{AllByRecursion};
ghost use Rattle.affine_form.specs.System.{AllOver};
ghost use Rattle.affine_form.specs.Rows.{IsSmallOver};
ghost use Rattle.affine_program.specs.Domain.{depth_of};
ghost use Rattle.affine_program.specs.Parts.{meaning};
ghost use Rattle.claims.specs.Shown.{pointless_claims};
ghost use Rattle.dep_quast.specs.Context.{reference_of, variables_at, variables_with, before_reader, after_source, earlier_writes, writes_between};
ghost use Rattle.claims.specs.Claims.{Decides};
ghost use Rattle.dep_quast.specs.Levels.{levels, level_count};
ghost use Rattle.dep_quast.specs.Truth.{ReadFits};
ghost use Rattle.dep_quast.specs.Views.{read_of, claim_of};
ghost use Rattle.iolb_model.specs.declared.limits.TheConstants.{LOOPS};

use crate::claimed::Claimed;
use crate::levels::{level_count, writers};
use crate::reader::{Reader, reference};
use crate::writes::{rows_after_source, rows_before_reader, rows_of_write, variables_beside};
use affine_form::{Form, Multipliers};
use affine_program::Program;
use claims::shown::system_shown;
use claims::{Place, Refused, Step};
use std::alloc::Global;

/// Whether the systems of rows about a writer at each level before the reader are shown to have no point, by the
/// multipliers of the list at this place from the first on.
fn levels_shown(
    alloc: Global,
    program: &Program,
    reader: Reader,
    place: &Place,
    writer: u16,
    rows: &[Form],
    shown: &[Multipliers],
    first: usize,
) -> Result<(), Refused>
    requires read { reader.statement < length program.now.statements }
    requires writer { writer < length program.now.statements }
    requires rows_over { AllOver (variables_with (meaning program.now) (read_of reader) writer) rows.now }
    requires enough { first + level_count (meaning program.now) writer reader.statement ≤ length shown.now }
    ensures { Decides (pointless_claims 6 place.now first
        (map (before_reader (meaning program.now) (read_of reader) writer rows.now) (levels (meaning program.now) writer reader.statement)) (drop first shown.now)) result }
{
    let vars = variables_beside(program, reader, writer);
    for level in 0..level_count(program, writer, reader.statement) {
        let at = first + level;
        let system = rows_before_reader(alloc, program, reader, writer, rows, level)?;
        let member = place.within(alloc, Step::Index(at as u64))?;
        system_shown(alloc, 6, &member, vars, system.as_slice(), &shown[at])?;
    }
    Ok(())
}

/// Whether the systems of rows about a writer at each level after the source and each before the reader are shown to have
/// no point, by the multipliers of the list at this place from the first on.
fn levels_between_shown(
    alloc: Global,
    program: &Program,
    reader: Reader,
    place: &Place,
    writer: u16,
    rows: &[Form],
    claimed: &Claimed,
    first: usize,
) -> Result<(), Refused>
    requires read { reader.statement < length program.now.statements }
    requires writer { writer < length program.now.statements }
    requires source { claimed.now.statement < length program.now.statements }
    requires point { length claimed.now.point.now ≡ depth_of (meaning program.now) claimed.now.statement }
    requires forms { AllByRecursion (IsSmallOver (variables_at (meaning program.now) (read_of reader))) claimed.now.point.now }
    requires rows_over { AllOver (variables_with (meaning program.now) (read_of reader) writer) rows.now }
    requires enough { first + level_count (meaning program.now) claimed.now.statement writer * level_count (meaning program.now) writer reader.statement ≤ length claimed.now.between.now }
    ensures { Decides (pointless_claims 6 place.now first
        (flat_map (λ after. map (before_reader (meaning program.now) (read_of reader) writer (after_source (meaning program.now) (read_of reader) writer rows.now (claim_of claimed.now) after))
        (levels (meaning program.now) writer reader.statement)) (levels (meaning program.now) claimed.now.statement writer)) (drop first claimed.now.between.now)) result }
{
    let many = level_count(program, writer, reader.statement);
    let mut at = first;
    for after in 0..level_count(program, claimed.statement, writer) {
        let rows = rows_after_source(alloc, program, reader, writer, rows, claimed, after)?;
        levels_shown(
            alloc,
            program,
            reader,
            place,
            writer,
            rows.as_slice(),
            claimed.between,
            at,
        )?;
        at += many;
    }
    Ok(())
}

/// Whether no write of the cell is shown to be earlier, by the multipliers of the list at this place.
pub(crate) fn earlier_shown(
    alloc: Global,
    program: &Program,
    reader: Reader,
    place: &Place,
    rows: &[Form],
    shown: &[Multipliers],
) -> Result<(), Refused>
    requires read { ReadFits (meaning program.now) (read_of reader) }
    requires rows_over { AllOver (variables_at (meaning program.now) (read_of reader)) rows.now }
    requires each { length shown.now ≡ length (earlier_writes (meaning program.now) (read_of reader) rows.now) }
    ensures { Decides (pointless_claims 6 place.now 0 (earlier_writes (meaning program.now) (read_of reader) rows.now) shown.now) result }
{
    let array = reference(program, reader).array;
    let all = writers(alloc, program, array)?;
    let mut at = 0;
    for writer in all.as_slice() {
        let written = rows_of_write(alloc, program, reader, rows, *writer)?;
        levels_shown(
            alloc,
            program,
            reader,
            place,
            *writer,
            written.as_slice(),
            shown,
            at,
        )?;
        at += level_count(program, *writer, reader.statement);
    }
    Ok(())
}

/// Whether no write of the cell is shown to lie between the source and the reader, by the source's multipliers.
pub(crate) fn between_shown(
    alloc: Global,
    program: &Program,
    reader: Reader,
    place: &Place,
    rows: &[Form],
    claimed: &Claimed,
) -> Result<(), Refused>
    requires read { ReadFits (meaning program.now) (read_of reader) }
    requires source { claimed.now.statement < length program.now.statements }
    requires point { length claimed.now.point.now ≡ depth_of (meaning program.now) claimed.now.statement }
    requires forms { AllByRecursion (IsSmallOver (variables_at (meaning program.now) (read_of reader))) claimed.now.point.now }
    requires rows_over { AllOver (variables_at (meaning program.now) (read_of reader)) rows.now }
    requires each { length claimed.now.between.now ≡ length (writes_between (meaning program.now) (read_of reader) rows.now (claim_of claimed.now)) }
    ensures { Decides (pointless_claims 6 place.now 0 (writes_between (meaning program.now) (read_of reader) rows.now (claim_of claimed.now)) claimed.now.between.now) result }
{
    let array = reference(program, reader).array;
    let all = writers(alloc, program, array)?;
    let mut at = 0;
    for writer in all.as_slice() {
        let written = rows_of_write(alloc, program, reader, rows, *writer)?;
        levels_between_shown(
            alloc,
            program,
            reader,
            place,
            *writer,
            written.as_slice(),
            claimed,
            at,
        )?;
        at += levels_between(program, claimed.statement, *writer, reader.statement);
    }
    Ok(())
}

/// At how many pairs of levels a writer may come after the source and before the reader.
fn levels_between(program: &Program, source: u16, writer: u16, reader: u16) -> usize
    requires source { source < length program.now.statements }
    requires writer { writer < length program.now.statements }
    requires reader { reader < length program.now.statements }
    ensures many { result ≡ level_count (meaning program.now) source writer * level_count (meaning program.now) writer reader }
    ensures few { result ≤ suc LOOPS * suc LOOPS }
{
    let after = level_count(program, source, writer);
    let before = level_count(program, writer, reader);
    after * before
}
