//! What is shown of the instances of an outline.

ghost use Rattle.std.specs.Prelude.{◌≡◌, ◌≤◌, ◌+◌, length, IfOk, OnOk, MatchOption, IsTrue, ◌↔◌};
ghost use Rattle.std.specs.List.{AllByRecursion};
ghost use Rattle.affine_form.specs.Form.{variables};
ghost use Rattle.affine_form.specs.Rows.{IsSmallOver};
ghost use Rattle.affine_program.specs.Parts.{meaning, IsProgram};
ghost use Rattle.flow_deps.specs.Answers.{Answers, HasNoShort, following};
ghost use Rattle.claims.specs.Shown.{IsFew};
ghost use Rattle.dep_quast.specs.Context.{variables_at};
ghost use Rattle.dep_quast.specs.Tree.{tree_of};
ghost use Rattle.dep_quast.specs.OpenLeaves.{TestsFit};
ghost use Rattle.wavefront.specs.ColdPieces.{leaves_of};
ghost use Rattle.wavefront.specs.Inverse.{AreUndone};
ghost use Rattle.wavefront.specs.Term.{cell_forms, inside_goals, instance_point, nest_system, nest_variables};
ghost use Rattle.cold_terms.specs.Entries.{FindsEntries};
ghost use Rattle.cold_terms.specs.Outline.{OutlineFits, bare, outline_of};
ghost use Rattle.iolb_model.specs.declared.limits.TheConstants.{PARAMETERS, NEST_VARIABLES};

use crate::entries::entries_at;
use crate::outline::Outline;
use crate::undone::is_undone;
use affine_form::{Form, Memory, Multipliers, put_all, variables_from};
use affine_program::Program;
use claims::lists::followed_by;
use dep_quast::Quast;
use dep_quast::open_leaves::push_open_leaves;
use dep_quast::point_rows::domain_rows;
use dep_quast::reader::{Reader, reference};
use domain_count::rows_before;
use flow_deps::{Wanted, goals_answered};
use reuse_paths::Leaf;
use std::alloc::Global;

/// How many variables there are: the parameters and the nest's.
fn variables(program: &Program, outline: &Outline) -> usize
    requires { OutlineFits (meaning program.now) (outline_of outline.now) }
    ensures variables { result ≡ nest_variables (meaning program.now) (bare (outline_of outline.now)) }
    ensures few { result ≤ PARAMETERS + NEST_VARIABLES }
    ensures kept { IsProgram program.now }
{
    program.params().len() + outline.nest.bounds().len()
}

/// The parameters and the loop values of the reading instance.
fn instance_of(alloc: Global, program: &Program, outline: &Outline) -> Result<Vec<Form>, Memory>
    requires { OutlineFits (meaning program.now) (outline_of outline.now) }
    ensures point { IfOk result (λ point. point.items ≡ instance_point (meaning program.now) (bare (outline_of outline.now))) }
    ensures many { IfOk result (λ point. length point.items ≡ variables_at (meaning program.now) (outline_of outline.now).reader) }
    ensures over { IfOk result (λ point. AllByRecursion (IsSmallOver (nest_variables (meaning program.now) (bare (outline_of outline.now)))) point.items) }
{
    let vars = variables(program, outline);
    let first = variables_from(alloc, vars, 0, program.params().len())?;
    followed_by(alloc, first, outline.point.as_slice())
}

/// The cell that the instance reads, by its subscripts.
fn cell_of(alloc: Global, program: &Program, outline: &Outline) -> Result<Vec<Form>, Memory>
    requires { OutlineFits (meaning program.now) (outline_of outline.now) }
    ensures { IfOk result (λ forms. forms.items ≡ cell_forms (meaning program.now) (bare (outline_of outline.now))) }
{
    let vars = variables(program, outline);
    let point = instance_of(alloc, program, outline)?;
    let reader = Reader {
        statement: outline.statement,
        read: outline.read,
    };
    let subscripts = reference(program, reader).subs.as_slice();
    put_all(alloc, vars, subscripts, point.as_slice())
}

/// Whether the matrix undoes the subscripts of the cell that the instance reads.
pub fn cells_undone(alloc: Global, program: &Program, outline: &Outline) -> Result<bool, Memory>
    requires { OutlineFits (meaning program.now) (outline_of outline.now) }
    ensures { IfOk result (λ yes. let outline = outline_of outline.now in
        IsTrue yes ↔ AreUndone outline.matrix outline.scale (length program.now.params) (length outline.nest) (cell_forms (meaning program.now) (bare outline))) }
{
    let cell = cell_of(alloc, program, outline)?;
    let params = program.params().len();
    let size = outline.nest.bounds().len();
    Ok(is_undone(&outline.inverse, cell.as_slice(), params, size))
}

/// Multipliers which show that the instances are in their statement's domain.
pub fn inside_answered(
    alloc: Global,
    wanted: Wanted,
    program: &Program,
    outline: &Outline,
) -> Result<Option<Vec<Multipliers>>, Memory>
    requires { OutlineFits (meaning program.now) (outline_of outline.now) }
    ensures few { OnOk result (IsFew (length (nest_system (meaning program.now) (bare (outline_of outline.now))).rows)) }
    ensures answers { IfOk result (λ found. let term = bare (outline_of outline.now) in
        let questions = following (nest_system (meaning program.now) term) (inside_goals (meaning program.now) term) in
        MatchOption found (HasNoShort questions) (λ shown. Answers wanted questions shown.items)) }
{
    let vars = variables(program, outline);
    let system = rows_before(alloc, program, outline.nest.bounds())?;
    let _rows = system.rows();
    let goals = domain_rows(
        alloc,
        program,
        vars,
        outline.statement,
        outline.point.as_slice(),
    )?;
    goals_answered(alloc, wanted, &system, goals.as_slice())
}

/// Entries which close the leaves of the read's source tree.
pub fn leaves_closed(
    alloc: Global,
    wanted: Wanted,
    program: &Program,
    quast: &Quast,
    outline: &Outline,
) -> Result<Option<Vec<Leaf>>, Memory>
    requires fits { OutlineFits (meaning program.now) (outline_of outline.now) }
    requires tests { TestsFit (variables_at (meaning program.now) (outline_of outline.now).reader) (tree_of quast.now) }
    ensures { IfOk result (λ found. let term = bare (outline_of outline.now) in
        FindsEntries wanted (nest_variables (meaning program.now) term) (nest_system (meaning program.now) term).rows (leaves_of (meaning program.now) (tree_of quast.now) term) found) }
{
    let vars = variables(program, outline);
    let system = rows_before(alloc, program, outline.nest.bounds())?;
    let point = instance_of(alloc, program, outline)?;
    let mut leaves = Vec::new(alloc);
    push_open_leaves(alloc, &mut leaves, vars, point.as_slice(), &[], quast)?;
    entries_at(alloc, wanted, vars, system.rows(), leaves.as_slice())
}
