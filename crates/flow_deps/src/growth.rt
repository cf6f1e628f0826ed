//! Trees that split on the origins of the last write.

ghost use Rattle.std.specs.Prelude.{◌≡◌, ◌≤◌, ◌<◌, ◌+◌, ◌++◌, ℕ, length, IfOk, IfSome};
ghost use Rattle.std.specs.List.{AllByRecursion};
ghost use Rattle.affine_form.specs.Form.{variables};
ghost use Rattle.affine_form.specs.Rows.{IsSmallOver};
ghost use Rattle.affine_form.specs.System.{AllOver};
ghost use Rattle.affine_program.specs.Parts.{meaning};
ghost use Rattle.dep_quast.specs.Context.{reference_of, variables_at};
ghost use Rattle.dep_quast.specs.Levels.{IsWriter};
ghost use Rattle.dep_quast.specs.Tree.{leaf_count, tree_of};
ghost use Rattle.dep_quast.specs.Truth.{ReadFits, IsThere};
ghost use Rattle.dep_quast.specs.Views.{claim_of, read_of};
ghost use Rattle.flow_deps.specs.Origins.{OriginFits};
ghost use Rattle.flow_deps.specs.Growth.{IsGuarded};
ghost use Rattle.flow_deps.specs.Shown.{IsLeafUnder, Stands};
ghost use Rattle.iolb_model.specs.declared.limits.TheConstants.{TREE_TESTS, TREE_LEAVES};

use crate::answers::is_answered;
use crate::leaves::{has_no_point, source_leaf, sure_leaf, unshown};
use crate::origins::Origin;
use crate::solved::solved_point;
use crate::wanted::Wanted;
use affine_form::{Form, Memory, system_of};
use affine_program::{Program, is_small_form};
use claims::lists::followed_by;
use dep_quast::Quast;
use dep_quast::claimed::Claimed;
use dep_quast::context::{context_rows, tests_of_no, tests_of_yes};
use dep_quast::point_rows::{domain_rows, precedence_rows, written_rows};
use dep_quast::reader::{Reader, variables};
use dep_quast::writes::values_of_reader;
use iolb_model::limits;
use std::alloc::Global;

/// What a source claims of its point: that it is in its statement's domain, comes before the reader and writes the cell.
fn goals_of(
    alloc: Global,
    program: &Program,
    reader: Reader,
    claimed: &Claimed,
) -> Result<Vec<Form>, Memory>
    requires read { ReadFits (meaning program.now) (read_of reader) }
    requires there { IsThere (meaning program.now) (read_of reader) (claim_of claimed.now) }
    requires writes { IsWriter (meaning program.now) (reference_of (meaning program.now) (read_of reader)).array claimed.now.statement }
    ensures { IfOk result (λ goals. AllOver (variables_at (meaning program.now) (read_of reader)) goals.items) }
{
    let vars = variables(program, reader);
    let xs = values_of_reader(alloc, program, reader, vars)?;
    let inside = domain_rows(alloc, program, vars, claimed.statement, claimed.point)?;
    let cell = written_rows(
        alloc,
        program,
        reader,
        vars,
        claimed.statement,
        claimed.point,
    )?;
    let before = precedence_rows(
        alloc,
        program,
        vars,
        usize::from(claimed.level),
        claimed.statement,
        claimed.point,
        reader.statement,
        xs.as_slice(),
    )?;
    let most = followed_by(alloc, cell, before.as_slice())?;
    followed_by(alloc, most, inside.as_slice())
}

/// Whether a form is a number below 0.
fn is_never(form: &Form) -> bool {
    form.constant() < 0 && form.coef().iter().all(|coefficient| *coefficient == 0)
}

/// Whether a goal is found to follow under these tests.
fn is_shown(
    alloc: Global,
    program: &Program,
    reader: Reader,
    tests: &[Form],
    goal: &Form,
) -> Result<bool, Memory>
    requires read { ReadFits (meaning program.now) (read_of reader) }
    requires tests_over { AllOver (variables_at (meaning program.now) (read_of reader)) tests.now }
    requires goal { variables goal.now ≡ variables_at (meaning program.now) (read_of reader) }
{
    let rows = context_rows(alloc, program, reader, tests)?;
    if rows.len() > limits::ROWS {
        return Ok(false);
    }
    let system = system_of(alloc, variables(program, reader), rows.as_slice())?;
    is_answered(alloc, &system, goal)
}

/// Tests, and then guards.
fn tests_with(
    alloc: Global,
    program: &Program,
    reader: Reader,
    tests: &[Form],
    guards: &[Form],
) -> Result<Vec<Form>, Memory>
    requires tests_over { AllOver (variables_at (meaning program.now) (read_of reader)) tests.now }
    requires guards { AllByRecursion (IsSmallOver (variables_at (meaning program.now) (read_of reader))) guards.now }
    ensures all { IfOk result (λ all. all.items ≡ tests.now ++ guards.now) }
    ensures over { IfOk result (λ all. AllOver (variables_at (meaning program.now) (read_of reader)) all.items) }
{
    let first = followed_by(alloc, Vec::new(alloc), tests)?;
    followed_by(alloc, first, guards)
}

/// What a source claims of its point and isn't found to follow under the tests and the guards before: at most so many
/// guards. None where there are more, or where a guard is too large or never holds.
fn guards_of(
    alloc: Global,
    program: &Program,
    reader: Reader,
    tests: &[Form],
    claimed: &Claimed,
    room: usize,
) -> Result<Option<Vec<Form>>, Memory>
    requires read { ReadFits (meaning program.now) (read_of reader) }
    requires tests_over { AllOver (variables_at (meaning program.now) (read_of reader)) tests.now }
    requires there { IsThere (meaning program.now) (read_of reader) (claim_of claimed.now) }
    requires writes { IsWriter (meaning program.now) (reference_of (meaning program.now) (read_of reader)).array claimed.now.statement }
    ensures { IfOk result (λ found. IfSome found (λ guards. (length guards.items ≤ room)
        × AllByRecursion (IsSmallOver (variables_at (meaning program.now) (read_of reader))) guards.items)) }
{
    let goals = goals_of(alloc, program, reader, claimed)?;
    let mut guards = Vec::new(alloc);
    for goal in goals.as_slice() {
        if is_never(goal) {
            return Ok(None);
        }
        let under = tests_with(alloc, program, reader, tests, guards.as_slice())?;
        if is_shown(alloc, program, reader, under.as_slice(), goal)? {
            continue;
        }
        if guards.len() >= room || !is_small_form(goal) {
            return Ok(None);
        }
        guards.push(goal.try_clone(alloc)?)?;
    }
    Ok(Some(guards))
}

/// A leaf, and the guards under which it is shown.
struct Guarded {
    guards: Vec<Form>,
    leaf: Quast,
}

/// The leaf of an origin, under at most so many guards. None where no such leaf is found to be shown, or where no point
/// comes to it.
fn guarded_leaf(
    alloc: Global,
    program: &Program,
    reader: Reader,
    tests: &[Form],
    origin: Origin,
    room: usize,
) -> Result<Option<Guarded>, Memory>
    requires read { ReadFits (meaning program.now) (read_of reader) }
    requires tests_over { AllOver (variables_at (meaning program.now) (read_of reader)) tests.now }
    requires origin { OriginFits (meaning program.now) (read_of reader) origin }
    ensures { IfOk result (λ found. IfSome found (IsGuarded (meaning program.now) (read_of reader) tests.now room)) }
{
    let Some(point) = solved_point(alloc, program, reader, origin)? else {
        return Ok(None);
    };
    let claimed = unshown(origin.writer, origin.level, point.as_slice());
    let Some(guards) = guards_of(alloc, program, reader, tests, &claimed, room)? else {
        return Ok(None);
    };
    let under = tests_with(alloc, program, reader, tests, guards.as_slice())?;
    if has_no_point(alloc, program, reader, under.as_slice())? {
        return Ok(None);
    }
    let Some(leaf) = source_leaf(
        alloc,
        Wanted::Any,
        program,
        reader,
        under.as_slice(),
        &claimed,
    )?
    else {
        return Ok(None);
    };
    Ok(Some(Guarded { guards, leaf }))
}

/// How many leaves a tree has.
fn leaves_of(quast: &Quast) -> usize
    requires { leaf_count (tree_of quast.now) ≤ TREE_LEAVES }
    ensures { result ≡ leaf_count (tree_of quast.now) }
{
    match quast {
        Quast::Test { yes, no, .. } => leaves_of(yes) + leaves_of(no),
        _ => 1,
    }
}

/// A tree that tests the guards of a leaf one by one, and goes on with these origins where one doesn't hold.
#[cycle(growth)]
fn split(
    alloc: Global,
    program: &Program,
    reader: Reader,
    tests: &[Form],
    guards: &[Form],
    leaf: Quast,
    origins: &[Origin],
    nested: u8,
    leaves: usize,
) -> Result<Quast, Memory>
    requires read { ReadFits (meaning program.now) (read_of reader) }
    requires tests_over { AllOver (variables_at (meaning program.now) (read_of reader)) tests.now }
    requires room { length tests.now + nested ≤ TREE_TESTS }
    requires guards { AllByRecursion (IsSmallOver (variables_at (meaning program.now) (read_of reader))) guards.now }
    requires few_guards { length guards.now ≤ nested }
    requires leaf { IsLeafUnder (meaning program.now) (read_of reader) (tests.now ++ guards.now) (tree_of leaf) }
    requires origins { AllByRecursion (OriginFits (meaning program.now) (read_of reader)) origins.now }
    requires some_leaves { length guards.now < leaves }
    requires few_leaves { leaves ≤ TREE_LEAVES }
    ensures stands { IfOk result (λ quast. Stands (meaning program.now) (read_of reader) tests.now nested (tree_of quast)) }
    ensures few { IfOk result (λ quast. leaf_count (tree_of quast) ≤ leaves) }
{
    let Some((form, others)) = guards.split_first() else {
        return Ok(leaf);
    };
    let below = tests_of_no(alloc, program, reader, tests, form)?;
    let no = grown(
        alloc,
        program,
        reader,
        below.as_slice(),
        origins,
        nested - 1,
        leaves - guards.len(),
    )?;
    let above = tests_of_yes(alloc, tests, form)?;
    let left = leaves - leaves_of(&no);
    let yes = split(
        alloc,
        program,
        reader,
        above.as_slice(),
        others,
        leaf,
        origins,
        nested - 1,
        left,
    )?;
    Ok(Quast::Test {
        form: form.try_clone(alloc)?,
        yes: Box::new(alloc, yes)?,
        no: Box::new(alloc, no)?,
    })
}

/// A tree under these tests, with at most so many more tests nested and so many leaves: an empty leaf, or one that says no
/// write is earlier, or a split on the first of the origins that has a leaf, or a leaf that claims nothing.
#[cycle(growth)]
pub(crate) fn grown(
    alloc: Global,
    program: &Program,
    reader: Reader,
    tests: &[Form],
    origins: &[Origin],
    nested: u8,
    leaves: usize,
) -> Result<Quast, Memory>
    requires read { ReadFits (meaning program.now) (read_of reader) }
    requires tests_over { AllOver (variables_at (meaning program.now) (read_of reader)) tests.now }
    requires room { length tests.now + nested ≤ TREE_TESTS }
    requires origins { AllByRecursion (OriginFits (meaning program.now) (read_of reader)) origins.now }
    requires some_leaves { 0 < leaves }
    requires few_leaves { leaves ≤ TREE_LEAVES }
    ensures stands { IfOk result (λ quast. Stands (meaning program.now) (read_of reader) tests.now nested (tree_of quast)) }
    ensures few { IfOk result (λ quast. leaf_count (tree_of quast) ≤ leaves) }
{
    let _params = program.params();
    if let Some(leaf) = sure_leaf(alloc, program, reader, tests)? {
        return Ok(leaf);
    }
    let room = (leaves - 1).min(usize::from(nested));
    for origin in origins {
        let Some(found) = guarded_leaf(alloc, program, reader, tests, *origin, room)? else {
            continue;
        };
        let Guarded { guards, leaf } = found;
        let guards = guards.as_slice();
        return split(
            alloc, program, reader, tests, guards, leaf, origins, nested, leaves,
        );
    }
    Ok(Quast::Blank)
}
