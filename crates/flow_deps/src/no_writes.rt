//! Multipliers which show that writes of the cell that is read are not there.

ghost use Rattle.std.specs.Prelude.{◌≡◌, ◌<◌, ◌≤◌, length, map, flat_map, IfOk, MatchOption};
ghost use Rattle.std.specs.List.{AllByRecursion};
ghost use Rattle.affine_form.specs.System.{AllOver};
ghost use Rattle.affine_form.specs.Rows.{IsSmallOver};
ghost use Rattle.affine_program.specs.Domain.{depth_of};
ghost use Rattle.affine_program.specs.Parts.{meaning};
ghost use Rattle.dep_quast.specs.Context.{reference_of, variables_at, variables_with, before_reader, after_source, earlier_writes, writes_between};
ghost use Rattle.dep_quast.specs.Levels.{levels};
ghost use Rattle.dep_quast.specs.Truth.{ReadFits};
ghost use Rattle.dep_quast.specs.Views.{read_of, claim_of};
ghost use Rattle.flow_deps.specs.Answers.{HasNoShort, Answers, pointless};

use crate::answers::{system_answered, with_answers};
use crate::wanted::Wanted;
use affine_form::{Form, Memory, Multipliers};
use affine_program::Program;
use dep_quast::claimed::Claimed;
use dep_quast::levels::{level_count, writers};
use dep_quast::reader::{Reader, reference};
use dep_quast::writes::{rows_after_source, rows_before_reader, rows_of_write, variables_beside};
use std::alloc::Global;

/// Multipliers which show for each level that a writer doesn't come before the reader there.
fn levels_answered(
    alloc: Global,
    wanted: Wanted,
    program: &Program,
    reader: Reader,
    writer: u16,
    rows: &[Form],
) -> Result<Option<Vec<Multipliers>>, Memory>
    requires read { reader.statement < length program.now.statements }
    requires writer { writer < length program.now.statements }
    requires rows_over { AllOver (variables_with (meaning program.now) (read_of reader) writer) rows.now }
    ensures { IfOk result (λ found. let systems = map (before_reader (meaning program.now) (read_of reader) writer rows.now) (levels (meaning program.now) writer reader.statement) in
        MatchOption found (HasNoShort (map pointless systems)) (λ all. Answers wanted (map pointless systems) all.items)) }
{
    let vars = variables_beside(program, reader, writer);
    let mut all = Vec::new(alloc);
    for level in 0..level_count(program, writer, reader.statement) {
        let system = rows_before_reader(alloc, program, reader, writer, rows, level)?;
        let Some(shown) = system_answered(alloc, wanted, vars, system.as_slice())? else {
            return Ok(None);
        };
        all.push(shown)?;
    }
    Ok(Some(all))
}

/// Multipliers which show for each level after the source and each before the reader that a writer isn't there.
fn levels_between_answered(
    alloc: Global,
    wanted: Wanted,
    program: &Program,
    reader: Reader,
    writer: u16,
    rows: &[Form],
    claimed: &Claimed,
) -> Result<Option<Vec<Multipliers>>, Memory>
    requires read { reader.statement < length program.now.statements }
    requires writer { writer < length program.now.statements }
    requires source { claimed.now.statement < length program.now.statements }
    requires point { length claimed.now.point.now ≡ depth_of (meaning program.now) claimed.now.statement }
    requires forms { AllByRecursion (IsSmallOver (variables_at (meaning program.now) (read_of reader))) claimed.now.point.now }
    requires rows_over { AllOver (variables_with (meaning program.now) (read_of reader) writer) rows.now }
    ensures { IfOk result (λ found.
        let systems = flat_map (λ after. map (before_reader (meaning program.now) (read_of reader) writer (after_source (meaning program.now) (read_of reader) writer rows.now (claim_of claimed.now) after))
        (levels (meaning program.now) writer reader.statement)) (levels (meaning program.now) claimed.now.statement writer) in
        MatchOption found (HasNoShort (map pointless systems)) (λ all. Answers wanted (map pointless systems) all.items)) }
{
    let mut all = Vec::new(alloc);
    for after in 0..level_count(program, claimed.statement, writer) {
        let later = rows_after_source(alloc, program, reader, writer, rows, claimed, after)?;
        let Some(more) = levels_answered(alloc, wanted, program, reader, writer, later.as_slice())?
        else {
            return Ok(None);
        };
        all = with_answers(all, more)?;
    }
    Ok(Some(all))
}

/// Multipliers which show that no write of the cell is earlier.
pub(crate) fn earlier_answered(
    alloc: Global,
    wanted: Wanted,
    program: &Program,
    reader: Reader,
    rows: &[Form],
) -> Result<Option<Vec<Multipliers>>, Memory>
    requires read { ReadFits (meaning program.now) (read_of reader) }
    requires rows_over { AllOver (variables_at (meaning program.now) (read_of reader)) rows.now }
    ensures { IfOk result (λ found. let systems = earlier_writes (meaning program.now) (read_of reader) rows.now in
        MatchOption found (HasNoShort (map pointless systems)) (λ all. Answers wanted (map pointless systems) all.items)) }
{
    let array = reference(program, reader).array;
    let found = writers(alloc, program, array)?;
    let mut all = Vec::new(alloc);
    for writer in found.as_slice() {
        let written = rows_of_write(alloc, program, reader, rows, *writer)?;
        let Some(more) = levels_answered(
            alloc,
            wanted,
            program,
            reader,
            *writer,
            written.as_slice(),
        )?
        else {
            return Ok(None);
        };
        all = with_answers(all, more)?;
    }
    Ok(Some(all))
}

/// Multipliers which show that no write of the cell lies between the source and the reader.
pub(crate) fn between_answered(
    alloc: Global,
    wanted: Wanted,
    program: &Program,
    reader: Reader,
    rows: &[Form],
    claimed: &Claimed,
) -> Result<Option<Vec<Multipliers>>, Memory>
    requires read { ReadFits (meaning program.now) (read_of reader) }
    requires source { claimed.now.statement < length program.now.statements }
    requires point { length claimed.now.point.now ≡ depth_of (meaning program.now) claimed.now.statement }
    requires forms { AllByRecursion (IsSmallOver (variables_at (meaning program.now) (read_of reader))) claimed.now.point.now }
    requires rows_over { AllOver (variables_at (meaning program.now) (read_of reader)) rows.now }
    ensures { IfOk result (λ found. let systems = writes_between (meaning program.now) (read_of reader) rows.now (claim_of claimed.now) in
        MatchOption found (HasNoShort (map pointless systems)) (λ all. Answers wanted (map pointless systems) all.items)) }
{
    let array = reference(program, reader).array;
    let found = writers(alloc, program, array)?;
    let mut all = Vec::new(alloc);
    for writer in found.as_slice() {
        let written = rows_of_write(alloc, program, reader, rows, *writer)?;
        let Some(more) = levels_between_answered(
            alloc,
            wanted,
            program,
            reader,
            *writer,
            written.as_slice(),
            claimed,
        )?
        else {
            return Ok(None);
        };
        all = with_answers(all, more)?;
    }
    Ok(Some(all))
}
