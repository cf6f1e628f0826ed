//! Trees of candidates, with the multipliers that show them.

ghost use Rattle.std.specs.Prelude.{◌≡◌, ◌≤◌, ◌<◌, [], ◌∷◌, ◌++◌, length, IfOk};
ghost use Rattle.std.specs.List.{AllByRecursion};
ghost use Rattle.iolb_model.specs.Order.{common_loops};
ghost use Rattle.affine_form.specs.Form.{variables};
ghost use Rattle.affine_form.specs.Rows.{IsSmallOver};
ghost use Rattle.affine_program.specs.Domain.{depth_of};
ghost use Rattle.affine_program.specs.Parts.{meaning};
ghost use Rattle.dep_quast.specs.Context.{reference_of, variables_at};
ghost use Rattle.dep_quast.specs.Levels.{IsWriter};
ghost use Rattle.dep_quast.specs.Truth.{ReadFits, IsThere};
ghost use Rattle.dep_quast.specs.Views.{claim_of, read_of};
ghost use Rattle.flow_deps.specs.declared.wanted.Wanted.TheVariants.{Short};
ghost use Rattle.flow_deps.specs.Shapes.{last_write, no_write, split};
ghost use Rattle.flow_deps.specs.Candidates.{first_values, turn_before, later_turn, candidate_shape, CandidateFits, FindsPoint};
ghost use Rattle.flow_deps.specs.Shown.{FindsTree};
ghost use Rattle.iolb_model.specs.declared.limits.TheConstants.{TREE_TESTS};

use crate::candidate::Candidate;
use crate::leaves::{input_leaf, source_leaf, unshown};
use crate::points::{bounds_at, point_from, runs_down};
use crate::wanted::Wanted;
use affine_form::{Form, Memory, difference, variable, variables_from};
use affine_program::{Program, is_small_form};
use dep_quast::Quast;
use dep_quast::claimed::Claimed;
use dep_quast::context::{tests_of_no, tests_of_yes};
use dep_quast::reader::{Reader, variables};
use std::alloc::Global;

/// The reader's values of its first loops.
pub(crate) fn first_values(
    alloc: Global,
    program: &Program,
    reader: Reader,
    count: usize,
) -> Result<Vec<Form>, Memory>
    requires read { reader.statement < length program.now.statements }
    requires few { count ≤ depth_of (meaning program.now) reader.statement }
    ensures values { IfOk result (λ values. values.items ≡ first_values (meaning program.now) (read_of reader) count) }
    ensures many { IfOk result (λ values. length values.items ≡ count) }
    ensures over { IfOk result (λ values. AllByRecursion (IsSmallOver (variables_at (meaning program.now) (read_of reader))) values.items) }
{
    let vars = variables(program, reader);
    variables_from(alloc, vars, program.params().len(), count)
}

/// The value of a loop of the reader one turn before.
pub(crate) fn turn_before(
    alloc: Global,
    program: &Program,
    reader: Reader,
    level: usize,
) -> Result<Form, Memory>
    requires read { reader.statement < length program.now.statements }
    requires there { level < depth_of (meaning program.now) reader.statement }
    ensures value { IfOk result (λ value. value ≡ turn_before (meaning program.now) (read_of reader) level) }
    ensures over { IfOk result (λ value. IsSmallOver (variables_at (meaning program.now) (read_of reader)) value) }
{
    let vars = variables(program, reader);
    let now = variable(alloc, vars, program.params().len() + level)?;
    let zero = Form::new(Vec::new(alloc), 0);
    if runs_down(program, reader.statement, level) {
        difference(alloc, vars, &now, &zero, 1)
    } else {
        difference(alloc, vars, &now, &zero, -1)
    }
}

/// The form that is at least 0 where a loop of the reader isn't in its first turn.
fn later_turn(
    alloc: Global,
    program: &Program,
    reader: Reader,
    level: usize,
) -> Result<Form, Memory>
    requires read { reader.statement < length program.now.statements }
    requires there { level < depth_of (meaning program.now) reader.statement }
    ensures form { IfOk result (λ form. form ≡ later_turn (meaning program.now) (read_of reader) level) }
    ensures over { IfOk result (λ form. variables form ≡ variables_at (meaning program.now) (read_of reader)) }
{
    let vars = variables(program, reader);
    let now = variable(alloc, vars, program.params().len() + level)?;
    let (lower, upper) = bounds_at(program, reader.statement, level);
    if runs_down(program, reader.statement, level) {
        difference(alloc, vars, upper, &now, -1)
    } else {
        difference(alloc, vars, &now, lower, -1)
    }
}

/// The point of a writer in the same turn of all loops around it and the reader. None only where some value is too large.
fn same_turn_point(
    alloc: Global,
    program: &Program,
    reader: Reader,
    writer: u16,
) -> Result<Option<Vec<Form>>, Memory>
    requires read { ReadFits (meaning program.now) (read_of reader) }
    requires writer { writer < length program.now.statements }
    ensures { IfOk result (λ found. let program = meaning program.now in
        FindsPoint program (read_of reader) writer (first_values program (read_of reader) (length (common_loops program writer reader.statement))) found) }
{
    let _params = program.params();
    let level = program.common(writer, reader.statement);
    let given = first_values(alloc, program, reader, level)?;
    point_from(alloc, program, reader, writer, given)
}

/// The point of a writer one turn of a loop before the reader's. None only where some value is too large.
fn turn_before_point(
    alloc: Global,
    program: &Program,
    reader: Reader,
    level: usize,
    writer: u16,
) -> Result<Option<Vec<Form>>, Memory>
    requires read { ReadFits (meaning program.now) (read_of reader) }
    requires writer { writer < length program.now.statements }
    requires inside { level < length (common_loops (meaning program.now) writer reader.statement) }
    ensures { IfOk result (λ found. let program = meaning program.now in
        FindsPoint program (read_of reader) writer (first_values program (read_of reader) level ++ turn_before program (read_of reader) level ∷ []) found) }
{
    let _params = program.params();
    let mut given = first_values(alloc, program, reader, level)?;
    given.push(turn_before(alloc, program, reader, level)?)?;
    point_from(alloc, program, reader, writer, given)
}

/// The tree that names the last write by a statement in the same turn of all loops around both.
fn same_turn_tree(
    alloc: Global,
    program: &Program,
    reader: Reader,
    writer: u16,
) -> Result<Option<Quast>, Memory>
    requires read { ReadFits (meaning program.now) (read_of reader) }
    requires fits { CandidateFits (meaning program.now) (read_of reader) (Candidate.SameTurn writer) }
    ensures { IfOk result (λ found. FindsTree Short (meaning program.now) (read_of reader) [] TREE_TESTS (candidate_shape (meaning program.now) (read_of reader) (Candidate.SameTurn writer)) found) }
{
    let _params = program.params();
    let Some(point) = same_turn_point(alloc, program, reader, writer)? else {
        return Ok(None);
    };
    let level = program.common(writer, reader.statement);
    let claimed = unshown(writer, level as u8, point.as_slice());
    source_leaf(alloc, Wanted::Short, program, reader, &[], &claimed)
}

/// The tree that names a source where a form is at least 0, and no write where it is less.
fn split_tree(
    alloc: Global,
    program: &Program,
    reader: Reader,
    form: Form,
    claimed: &Claimed,
) -> Result<Option<Quast>, Memory>
    requires read { ReadFits (meaning program.now) (read_of reader) }
    requires form { IsSmallOver (variables_at (meaning program.now) (read_of reader)) form }
    requires there { IsThere (meaning program.now) (read_of reader) (claim_of claimed.now) }
    requires writes { IsWriter (meaning program.now) (reference_of (meaning program.now) (read_of reader)).array claimed.now.statement }
    ensures { IfOk result (λ found. FindsTree Short (meaning program.now) (read_of reader) [] TREE_TESTS
        (split form (last_write claimed.now.statement claimed.now.level claimed.now.point.now) no_write) found) }
{
    let above = tests_of_yes(alloc, &[], &form)?;
    let Some(yes) = source_leaf(
        alloc,
        Wanted::Short,
        program,
        reader,
        above.as_slice(),
        claimed,
    )?
    else {
        return Ok(None);
    };
    let below = tests_of_no(alloc, program, reader, &[], &form)?;
    let Some(no) = input_leaf(alloc, Wanted::Short, program, reader, below.as_slice())? else {
        return Ok(None);
    };
    let yes = Box::new(alloc, yes)?;
    let no = Box::new(alloc, no)?;
    Ok(Some(Quast::Test { form, yes, no }))
}

/// The tree that names the last write by a statement one turn of a loop before, and no write in the loop's first turn.
fn turn_before_tree(
    alloc: Global,
    program: &Program,
    reader: Reader,
    level: u8,
    writer: u16,
) -> Result<Option<Quast>, Memory>
    requires read { ReadFits (meaning program.now) (read_of reader) }
    requires fits { CandidateFits (meaning program.now) (read_of reader) (Candidate.TurnBefore level writer) }
    ensures { IfOk result (λ found. FindsTree Short (meaning program.now) (read_of reader) [] TREE_TESTS (candidate_shape (meaning program.now) (read_of reader) (Candidate.TurnBefore level writer)) found) }
{
    let _params = program.params();
    let form = later_turn(alloc, program, reader, usize::from(level))?;
    if !is_small_form(&form) {
        return Ok(None);
    }
    let Some(point) = turn_before_point(alloc, program, reader, usize::from(level), writer)? else {
        return Ok(None);
    };
    let claimed = unshown(writer, level, point.as_slice());
    split_tree(alloc, program, reader, form, &claimed)
}

/// The tree of a candidate, shown by short lists alone. None only where no short lists show one.
pub(crate) fn planted(
    alloc: Global,
    program: &Program,
    reader: Reader,
    candidate: Candidate,
) -> Result<Option<Quast>, Memory>
    requires read { ReadFits (meaning program.now) (read_of reader) }
    requires fits { CandidateFits (meaning program.now) (read_of reader) candidate }
    ensures { IfOk result (λ found. FindsTree Short (meaning program.now) (read_of reader) [] TREE_TESTS (candidate_shape (meaning program.now) (read_of reader) candidate) found) }
{
    match candidate {
        Candidate::NoWrite => input_leaf(alloc, Wanted::Short, program, reader, &[]),
        Candidate::SameTurn { writer } => same_turn_tree(alloc, program, reader, writer),
        Candidate::TurnBefore { level, writer } => {
            turn_before_tree(alloc, program, reader, level, writer)
        }
    }
}
