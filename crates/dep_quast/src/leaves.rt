//! Whether what a leaf claims is shown.
#![tactic(auto, using(claims::proofs::Found::in_a_row))]

ghost use Rattle.affine_form.specs.System.{AllOver};
ghost use Rattle.affine_program.specs.Parts.{meaning};
ghost use Rattle.dep_quast.specs.Claims.{leaf_claims};
ghost use Rattle.dep_quast.specs.Context.{variables_at};
ghost use Rattle.claims.specs.Claims.{Decides};
ghost use Rattle.dep_quast.specs.Tree.{source, input, empty, blank};
ghost use Rattle.dep_quast.specs.Truth.{ReadFits, LeafFits};
ghost use Rattle.dep_quast.specs.Views.{read_of, claim_of};

use crate::claimed::Claimed;
use crate::context::context_rows;
use crate::reader::{Reader, variables};
use crate::source_claims::{place_of_first, point_shown};
use crate::writes_shown::{between_shown, earlier_shown};
use affine_form::{Form, Multipliers, system_of};
use affine_program::Program;
use claims::shown::system_shown;
use claims::{ObjectKey, Place, Refused, Step, refusal};
use iolb_model::limits;
use std::alloc::Global;

/// Whether what is claimed is shown of a leaf that names a source.
pub(crate) fn source_shown(
    alloc: Global,
    program: &Program,
    reader: Reader,
    tests: &[Form],
    place: &Place,
    claimed: &Claimed,
) -> Result<(), Refused>
    requires read { ReadFits (meaning program.now) (read_of reader) }
    requires tests_over { AllOver (variables_at (meaning program.now) (read_of reader)) tests.now }
    requires fits { LeafFits (meaning program.now) (read_of reader) tests.now (source (claim_of claimed.now)) }
    ensures { Decides (leaf_claims (meaning program.now) (read_of reader) tests.now place.now (source (claim_of claimed.now))) result }
{
    let rows = context_rows(alloc, program, reader, tests)?;
    if rows.len() > limits::ROWS {
        let first = place_of_first(alloc, place, claimed.domain, claimed.cell, claimed.before)?;
        return Err(refusal(alloc, 2, &first));
    }
    let system = system_of(alloc, variables(program, reader), rows.as_slice())?;
    point_shown(alloc, program, reader, place, &system, claimed)?;
    let list = place.within(alloc, Step::Key(ObjectKey("between")))?;
    between_shown(alloc, program, reader, &list, rows.as_slice(), claimed)?;
    Ok(())
}

/// Whether what is claimed is shown of a leaf that says there is no earlier write.
pub(crate) fn input_shown(
    alloc: Global,
    program: &Program,
    reader: Reader,
    tests: &[Form],
    place: &Place,
    shown: &[Multipliers],
) -> Result<(), Refused>
    requires read { ReadFits (meaning program.now) (read_of reader) }
    requires tests_over { AllOver (variables_at (meaning program.now) (read_of reader)) tests.now }
    requires fits { LeafFits (meaning program.now) (read_of reader) tests.now (input shown.now) }
    ensures { Decides (leaf_claims (meaning program.now) (read_of reader) tests.now place.now (input shown.now)) result }
{
    let rows = context_rows(alloc, program, reader, tests)?;
    if rows.len() > limits::ROWS {
        return Err(refusal(alloc, 2, place));
    }
    let list = place.within(alloc, Step::Key(ObjectKey("input")))?;
    earlier_shown(alloc, program, reader, &list, rows.as_slice(), shown)?;
    Ok(())
}

/// Whether what is claimed is shown of a leaf that says no point comes there.
pub(crate) fn empty_shown(
    alloc: Global,
    program: &Program,
    reader: Reader,
    tests: &[Form],
    place: &Place,
    shown: &Multipliers,
) -> Result<(), Refused>
    requires read { ReadFits (meaning program.now) (read_of reader) }
    requires tests_over { AllOver (variables_at (meaning program.now) (read_of reader)) tests.now }
    ensures { Decides (leaf_claims (meaning program.now) (read_of reader) tests.now place.now (empty shown.now)) result }
{
    let rows = context_rows(alloc, program, reader, tests)?;
    let member = place.within(alloc, Step::Key(ObjectKey("empty")))?;
    let vars = variables(program, reader);
    system_shown(alloc, 7, &member, vars, rows.as_slice(), shown)
}

/// Whether what is claimed is shown of a leaf that claims nothing.
pub(crate) fn blank_shown(
    alloc: Global,
    program: &Program,
    reader: Reader,
    tests: &[Form],
    place: &Place,
) -> Result<(), Refused>
    requires read { ReadFits (meaning program.now) (read_of reader) }
    requires tests_over { AllOver (variables_at (meaning program.now) (read_of reader)) tests.now }
    ensures { Decides (leaf_claims (meaning program.now) (read_of reader) tests.now place.now blank) result }
{
    let rows = context_rows(alloc, program, reader, tests)?;
    if rows.len() > limits::ROWS {
        return Err(refusal(alloc, 2, place));
    }
    Ok(())
}
