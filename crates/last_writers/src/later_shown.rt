//! Whether no later instance is shown to write an output's cell.
#![tactic(auto, using(claims::proofs::Found::in_a_row))]

ghost use Rattle.std.specs.Prelude.{◌≡◌, ◌<◌, ◌≤◌, ◌+◌, [], length, map, drop};
ghost use Rattle.affine_form.specs.System.{AllOver};
ghost use Rattle.affine_program.specs.Parts.{meaning};
ghost use Rattle.claims.specs.Claims.{Decides};
ghost use Rattle.claims.specs.Shown.{pointless_claims};
ghost use Rattle.dep_quast.specs.Levels.{level_count, levels};
ghost use Rattle.last_writers.specs.OutputClaims.{later_write, later_writes, output_later, variables_with, write_rows};
ghost use Rattle.last_writers.specs.Fitting.{OutputFits};
ghost use Rattle.store_terms.specs.Claims.{claim_of_output};

use crate::later_rows::{rows_later, rows_of_write, variables_beside};
use affine_form::Form;
use affine_program::Program;
use claims::shown::system_shown;
use claims::{ObjectKey, Place, Refused, Step};
use dep_quast::levels::{level_count, writers};
use dep_quast::reader::written;
use std::alloc::Global;
use store_terms::Output;

/// Whether a writer is shown not to write the cell later at any level, by the multipliers of the list at this place from the
/// first on.
fn levels_shown(
    alloc: Global,
    program: &Program,
    output: &Output,
    place: &Place,
    writer: u16,
    rows: &[Form],
    first: usize,
) -> Result<(), Refused>
    requires fits { OutputFits (meaning program.now) (claim_of_output output.now) }
    requires writer { writer < length program.now.statements }
    requires write { rows.now ≡ write_rows (meaning program.now) (claim_of_output output.now) writer }
    requires rows_over { AllOver (variables_with (meaning program.now) (claim_of_output output.now) writer) rows.now }
    requires enough { first + level_count (meaning program.now) output.now.statement writer ≤ length output.now.later.items }
    ensures { Decides (pointless_claims 24 place.now first
        (map (later_write (meaning program.now) (claim_of_output output.now) writer) (levels (meaning program.now) output.now.statement writer)) (drop first output.now.later.items)) result }
{
    let vars = variables_beside(program, output, writer);
    let shown = output.later.as_slice();
    for level in 0..level_count(program, output.statement, writer) {
        let at = first + level;
        let system = rows_later(alloc, program, output, writer, rows, level)?;
        let member = place.within(alloc, Step::Index(at as u64))?;
        system_shown(alloc, 24, &member, vars, system.as_slice(), &shown[at])?;
    }
    Ok(())
}

/// Whether no later instance is shown to write the cell, by the multipliers of the list at this place.
fn writers_shown(
    alloc: Global,
    program: &Program,
    output: &Output,
    place: &Place,
) -> Result<(), Refused>
    requires { OutputFits (meaning program.now) (claim_of_output output.now) }
    ensures { Decides (pointless_claims 24 place.now 0 (later_writes (meaning program.now) (claim_of_output output.now)) output.now.later.items) result }
{
    let array = written(program, output.statement).array;
    let all = writers(alloc, program, array)?;
    let mut at = 0;
    for writer in all.as_slice() {
        let rows = rows_of_write(alloc, program, output, *writer)?;
        levels_shown(alloc, program, output, place, *writer, rows.as_slice(), at)?;
        at += level_count(program, output.statement, *writer);
    }
    Ok(())
}

/// Whether no later instance is shown to write an output's cell.
pub(crate) fn later_shown(
    alloc: Global,
    program: &Program,
    output: &Output,
    place: &Place,
) -> Result<(), Refused>
    requires { OutputFits (meaning program.now) (claim_of_output output.now) }
    ensures { Decides (output_later (meaning program.now) place.now (claim_of_output output.now)) result }
{
    let list = place.within(alloc, Step::Key(ObjectKey("later")))?;
    writers_shown(alloc, program, output, &list)?;
    Ok(())
}
