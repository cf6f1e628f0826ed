//! Whether what a leaf claims of a source fits.
#![tactic(auto, using(claims::proofs::Found::in_a_row))]

ghost use Rattle.claims.specs.Claims.{Decides};
ghost use Rattle.std.specs.Prelude.{◌≡◌};
ghost use Rattle.affine_program.specs.Parts.{meaning};
ghost use Rattle.certificate_fit.specs.TreeFit.{source_fit, source_lists_fit};
ghost use Rattle.dep_quast.specs.Truth.{ReadFits};
ghost use Rattle.dep_quast.specs.Views.{claim_of, read_of};

use crate::counts::{
    domain_size, is_twice, levels, loops_around, order_rows, pairs_between, subscript_count,
};
use crate::lists::{all_forms_fit, misfit};
use affine_program::Program;
use claims::{ObjectKey, Place, Refused, Step};
use dep_quast::claimed::Claimed;
use dep_quast::reader::{Reader, variables};
use std::alloc::Global;

/// Whether a source's lists are as long as called for, its level exists, and its point has as many loop values as the
/// statement.
fn lists_fit(
    alloc: Global,
    program: &Program,
    reader: Reader,
    place: &Place,
    claimed: &Claimed,
) -> Result<(), Refused>
    requires { ReadFits (meaning program.now) (read_of reader) }
    ensures { Decides (source_lists_fit (meaning program.now) (read_of reader) (claim_of claimed.now) place.now) result }
{
    let t = claimed.statement;
    let s = reader.statement;
    let depth = loops_around(program, t);
    if claimed.before.len() != order_rows(program, t, s, claimed.level) {
        return Err(misfit(alloc, place, Step::Key(ObjectKey("before"))));
    }
    if claimed.between.len() != pairs_between(program, reader, t) {
        return Err(misfit(alloc, place, Step::Key(ObjectKey("between"))));
    }
    if !is_twice(claimed.cell.len(), subscript_count(program, reader)) {
        return Err(misfit(alloc, place, Step::Key(ObjectKey("cell"))));
    }
    if claimed.domain.len() != domain_size(program, t) {
        return Err(misfit(alloc, place, Step::Key(ObjectKey("domain"))));
    }
    if usize::from(claimed.level) >= levels(program, t, s) {
        return Err(misfit(alloc, place, Step::Key(ObjectKey("level"))));
    }
    if claimed.point.len() != depth {
        return Err(misfit(alloc, place, Step::Key(ObjectKey("point"))));
    }
    Ok(())
}

/// Whether what is said fits of a source, which is claimed at this place.
pub fn source_fits(
    alloc: Global,
    program: &Program,
    reader: Reader,
    place: &Place,
    claimed: &Claimed,
) -> Result<(), Refused>
    requires { ReadFits (meaning program.now) (read_of reader) }
    ensures { Decides (source_fit (meaning program.now) (read_of reader) place.now (claim_of claimed.now)) result }
{
    lists_fit(alloc, program, reader, place, claimed)?;
    let vars = variables(program, reader) as u128;
    all_forms_fit(alloc, place, ObjectKey("point"), vars, claimed.point)?;
    if usize::from(claimed.statement) >= program.statements().len() {
        return Err(misfit(alloc, place, Step::Key(ObjectKey("statement"))));
    }
    Ok(())
}
