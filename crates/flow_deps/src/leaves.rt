//! Leaves of source trees, with the multipliers that show them.

ghost use Rattle.std.specs.Prelude.{◌≡◌, ℕ, IfOk, IfSome, IsTrue, MatchOption};
ghost use Rattle.affine_form.specs.Shown.{HasNoPoint};
ghost use Rattle.affine_form.specs.System.{AllOver};
ghost use Rattle.affine_program.specs.Parts.{meaning};
ghost use Rattle.dep_quast.specs.Context.{reference_of, variables_at};
ghost use Rattle.dep_quast.specs.Levels.{IsWriter};
ghost use Rattle.dep_quast.specs.Tree.{tree_of};
ghost use Rattle.dep_quast.specs.Truth.{ReadFits, IsThere};
ghost use Rattle.dep_quast.specs.Views.{read_of, claim_of};
ghost use Rattle.dep_quast.specs.Claims.{inside_goals, cell_goals, before_goals, context_system};
ghost use Rattle.flow_deps.specs.Answers.{HasNoShort, HasShortAnswer, Answers, IsAnswered, IsAsShort, following, pointless};
ghost use Rattle.flow_deps.specs.Shapes.{last_write, no_write};
ghost use Rattle.flow_deps.specs.Shown.{IsLeafUnder, FindsTree};

use crate::answers::{goals_answered, system_answered};
use crate::no_writes::{between_answered, earlier_answered};
use crate::wanted::Wanted;
use affine_form::{Form, Memory, Multipliers, System, system_of};
use affine_program::Program;
use claims::lists::followed_by;
use dep_quast::Quast;
use dep_quast::claimed::Claimed;
use dep_quast::context::context_rows;
use dep_quast::point_rows::{domain_rows, precedence_rows, written_rows};
use dep_quast::reader::{Reader, variables};
use dep_quast::writes::values_of_reader;
use iolb_model::limits;
use std::alloc::Global;

/// A leaf that says no write is earlier, under these tests.
pub fn input_leaf(
    alloc: Global,
    wanted: Wanted,
    program: &Program,
    reader: Reader,
    tests: &[Form],
) -> Result<Option<Quast>, Memory>
    requires read { ReadFits (meaning program.now) (read_of reader) }
    requires tests_over { AllOver (variables_at (meaning program.now) (read_of reader)) tests.now }
    ensures { IfOk result (λ found. (nested : ℕ) → FindsTree wanted (meaning program.now) (read_of reader) tests.now nested no_write found) }
{
    let rows = context_rows(alloc, program, reader, tests)?;
    if rows.len() > limits::ROWS {
        return Ok(None);
    }
    let Some(earlier) = earlier_answered(alloc, wanted, program, reader, rows.as_slice())? else {
        return Ok(None);
    };
    Ok(Some(Quast::Input { earlier }))
}

/// Multipliers that show that no point comes to a leaf under these tests. None only where no short list does, or the rows are
/// too many.
fn pointless_answered(
    alloc: Global,
    program: &Program,
    reader: Reader,
    tests: &[Form],
) -> Result<Option<Multipliers>, Memory>
    requires read { ReadFits (meaning program.now) (read_of reader) }
    requires tests_over { AllOver (variables_at (meaning program.now) (read_of reader)) tests.now }
    ensures { IfOk result (λ found. let question = pointless (context_system (meaning program.now) (read_of reader) tests.now) in
        MatchOption found (¬ HasShortAnswer question) (λ shown. IsAnswered question shown × IsAsShort Wanted.Any shown)) }
{
    let rows = context_rows(alloc, program, reader, tests)?;
    let vars = variables(program, reader);
    system_answered(alloc, Wanted::Any, vars, rows.as_slice())
}

/// A leaf that says no point comes to it under these tests. None where that isn't found to be shown.
fn empty_leaf(
    alloc: Global,
    program: &Program,
    reader: Reader,
    tests: &[Form],
) -> Result<Option<Quast>, Memory>
    requires read { ReadFits (meaning program.now) (read_of reader) }
    requires tests_over { AllOver (variables_at (meaning program.now) (read_of reader)) tests.now }
    ensures { IfOk result (λ found. IfSome found (λ quast. IsLeafUnder (meaning program.now) (read_of reader) tests.now (tree_of quast))) }
{
    let Some(shown) = pointless_answered(alloc, program, reader, tests)? else {
        return Ok(None);
    };
    Ok(Some(Quast::Empty { shown }))
}

/// Whether it is found that no point comes to a leaf under these tests. Where a short list shows it, it is found.
pub fn has_no_point(
    alloc: Global,
    program: &Program,
    reader: Reader,
    tests: &[Form],
) -> Result<bool, Memory>
    requires read { ReadFits (meaning program.now) (read_of reader) }
    requires tests_over { AllOver (variables_at (meaning program.now) (read_of reader)) tests.now }
    ensures none { IfOk result (λ yes. IsTrue yes → HasNoPoint (context_system (meaning program.now) (read_of reader) tests.now)) }
    ensures short { IfOk result (λ yes. HasShortAnswer (pointless (context_system (meaning program.now) (read_of reader) tests.now)) → IsTrue yes) }
{
    match pointless_answered(alloc, program, reader, tests)? {
        Some(_) => Ok(true),
        None => Ok(false),
    }
}

/// A leaf that names no source: no point comes to it, or no write is earlier. None where neither is found to be shown.
pub fn sure_leaf(
    alloc: Global,
    program: &Program,
    reader: Reader,
    tests: &[Form],
) -> Result<Option<Quast>, Memory>
    requires read { ReadFits (meaning program.now) (read_of reader) }
    requires tests_over { AllOver (variables_at (meaning program.now) (read_of reader)) tests.now }
    ensures { IfOk result (λ found. IfSome found (λ quast. IsLeafUnder (meaning program.now) (read_of reader) tests.now (tree_of quast))) }
{
    if let Some(leaf) = empty_leaf(alloc, program, reader, tests)? {
        return Ok(Some(leaf));
    }
    input_leaf(alloc, Wanted::Any, program, reader, tests)
}

/// Multipliers which show that a source is in its statement's domain.
fn domain_answered(
    alloc: Global,
    wanted: Wanted,
    program: &Program,
    reader: Reader,
    system: &System,
    claimed: &Claimed,
) -> Result<Option<Vec<Multipliers>>, Memory>
    requires read { ReadFits (meaning program.now) (read_of reader) }
    requires vars { system.now.vars ≡ variables_at (meaning program.now) (read_of reader) }
    requires there { IsThere (meaning program.now) (read_of reader) (claim_of claimed.now) }
    ensures { IfOk result (λ found. let questions = following system.now (inside_goals (meaning program.now) (read_of reader) (claim_of claimed.now)) in
        MatchOption found (HasNoShort questions) (λ all. Answers wanted questions all.items)) }
{
    let vars = variables(program, reader);
    let goals = domain_rows(alloc, program, vars, claimed.statement, claimed.point)?;
    goals_answered(alloc, wanted, system, goals.as_slice())
}

/// Multipliers which show that a source writes the cell that is read.
fn cell_answered(
    alloc: Global,
    wanted: Wanted,
    program: &Program,
    reader: Reader,
    system: &System,
    claimed: &Claimed,
) -> Result<Option<Vec<Multipliers>>, Memory>
    requires read { ReadFits (meaning program.now) (read_of reader) }
    requires vars { system.now.vars ≡ variables_at (meaning program.now) (read_of reader) }
    requires there { IsThere (meaning program.now) (read_of reader) (claim_of claimed.now) }
    requires writes { IsWriter (meaning program.now) (reference_of (meaning program.now) (read_of reader)).array claimed.now.statement }
    ensures { IfOk result (λ found. let questions = following system.now (cell_goals (meaning program.now) (read_of reader) (claim_of claimed.now)) in
        MatchOption found (HasNoShort questions) (λ all. Answers wanted questions all.items)) }
{
    let vars = variables(program, reader);
    let goals = written_rows(
        alloc,
        program,
        reader,
        vars,
        claimed.statement,
        claimed.point,
    )?;
    goals_answered(alloc, wanted, system, goals.as_slice())
}

/// Multipliers which show that a source comes before the reader at its level.
fn before_answered(
    alloc: Global,
    wanted: Wanted,
    program: &Program,
    reader: Reader,
    system: &System,
    claimed: &Claimed,
) -> Result<Option<Vec<Multipliers>>, Memory>
    requires read { ReadFits (meaning program.now) (read_of reader) }
    requires vars { system.now.vars ≡ variables_at (meaning program.now) (read_of reader) }
    requires there { IsThere (meaning program.now) (read_of reader) (claim_of claimed.now) }
    ensures { IfOk result (λ found. let questions = following system.now (before_goals (meaning program.now) (read_of reader) (claim_of claimed.now)) in
        MatchOption found (HasNoShort questions) (λ all. Answers wanted questions all.items)) }
{
    let vars = variables(program, reader);
    let xs = values_of_reader(alloc, program, reader, vars)?;
    let goals = precedence_rows(
        alloc,
        program,
        vars,
        usize::from(claimed.level),
        claimed.statement,
        claimed.point,
        reader.statement,
        xs.as_slice(),
    )?;
    goals_answered(alloc, wanted, system, goals.as_slice())
}

/// What a leaf is to claim of a source, yet without multipliers.
pub fn unshown(statement: u16, level: u8, point: &[Form]) -> Claimed<'_>
    ensures { (result.statement ≡ statement) × (result.level ≡ level) × (result.point.now ≡ point.now) }
{
    Claimed {
        statement,
        level,
        point,
        domain: &[],
        cell: &[],
        before: &[],
        between: &[],
    }
}

/// A leaf that names a source by its statement, level and point, under these tests.
pub fn source_leaf(
    alloc: Global,
    wanted: Wanted,
    program: &Program,
    reader: Reader,
    tests: &[Form],
    claimed: &Claimed,
) -> Result<Option<Quast>, Memory>
    requires read { ReadFits (meaning program.now) (read_of reader) }
    requires tests_over { AllOver (variables_at (meaning program.now) (read_of reader)) tests.now }
    requires there { IsThere (meaning program.now) (read_of reader) (claim_of claimed.now) }
    requires writes { IsWriter (meaning program.now) (reference_of (meaning program.now) (read_of reader)).array claimed.now.statement }
    ensures { IfOk result (λ found. (nested : ℕ) → FindsTree wanted (meaning program.now) (read_of reader) tests.now nested
        (last_write claimed.now.statement claimed.now.level claimed.now.point.now) found) }
{
    let _params = program.params();
    let rows = context_rows(alloc, program, reader, tests)?;
    if rows.len() > limits::ROWS {
        return Ok(None);
    }
    let system = system_of(alloc, variables(program, reader), rows.as_slice())?;
    let Some(domain) = domain_answered(alloc, wanted, program, reader, &system, claimed)? else {
        return Ok(None);
    };
    let Some(cell) = cell_answered(alloc, wanted, program, reader, &system, claimed)? else {
        return Ok(None);
    };
    let Some(before) = before_answered(alloc, wanted, program, reader, &system, claimed)? else {
        return Ok(None);
    };
    let Some(between) = between_answered(alloc, wanted, program, reader, rows.as_slice(), claimed)?
    else {
        return Ok(None);
    };
    let point = followed_by(alloc, Vec::new(alloc), claimed.point)?;
    Ok(Some(Quast::Source {
        statement: claimed.statement,
        level: claimed.level,
        point,
        domain,
        cell,
        before,
        between,
    }))
}
