//! Projective programs are recognised.

ghost use Rattle.std.specs.Prelude.{◌↔◌, ◌≡◌, ◌∷◌, [], ◌+◌, ◌≤◌, IsTrue, IfOk, MatchOption, length, map};
ghost use Rattle.iolb_model.specs.declared.limits.TheConstants.{VARIABLES};
ghost use Rattle.affine_program.specs.Parts.{access_of, meaning};
ghost use Rattle.projective.specs.Projective.{AreProjections, AreProjectiveLoops, IsProjective, sets_of};
ghost use Rattle.projective.specs.Shape.{IsShapeOf};

use crate::loops::{all_run, is_nest};
use crate::projective::Projective;
use crate::references::{all_project, are_first, is_among};
use crate::standing::{all_stand, set_of};
use affine_form::{Form, Memory};
use affine_program::{Program, Reference, Statement};
use cover_lp::CoordSet;
use std::alloc::Global;

/// The most arrays of a projective program: as many as a partition term may have families.
pub(crate) const MOST_ARRAYS: usize = 6;

/// Whether a program is a nest of loops with these bounds, at least one, which run upward from 0 to below parameters.
fn are_loops_projective(
    alloc: Global,
    program: &Program,
    bounds: &[(Form, Form)],
) -> Result<bool, Memory>
    requires few { length program.now.params + length bounds.now ≤ VARIABLES }
    ensures { IfOk result (λ yes. IsTrue yes ↔ AreProjectiveLoops (meaning program.now) bounds.now) }
{
    if bounds.is_empty() {
        return Ok(false);
    }
    if !is_nest(program.tree()) {
        return Ok(false);
    }
    all_run(alloc, program, program.params().len(), bounds)
}

/// Whether the references of a statement are projections of the loops around it.
fn are_projections(
    alloc: Global,
    params: usize,
    arrays: usize,
    depth: usize,
    writes: &Reference,
    reads: &[Reference],
) -> Result<bool, Memory>
    requires few { params + depth ≤ VARIABLES }
    ensures { IfOk result (λ yes. IsTrue yes ↔ AreProjections params arrays depth (record { writes = access_of writes.now; reads = map access_of reads.now })) }
{
    if arrays > MOST_ARRAYS {
        return Ok(false);
    }
    if !is_among(writes, reads) {
        return Ok(false);
    }
    if !are_first(reads, reads) {
        return Ok(false);
    }
    if !all_project(alloc, params, depth, reads)? {
        return Ok(false);
    }
    Ok(all_stand(params, depth, reads))
}

/// For each of so many arrays, in their order, the loops that stand in the first reference to it.
fn sets_of(
    alloc: Global,
    params: usize,
    arrays: u16,
    depth: u8,
    reads: &[Reference],
) -> Result<Vec<CoordSet>, Memory>
    requires few { params + depth ≤ VARIABLES }
    ensures { IfOk result (λ sets. sets.items ≡ sets_of params arrays depth (map access_of reads.now)) }
{
    let mut sets = Vec::new(alloc);
    for array in 0..arrays {
        sets.push(set_of(alloc, params, depth, reads, array)?)?;
    }
    Ok(sets)
}

/// What `as_projective` answers for a program of this one statement.
fn shape_of(
    alloc: Global,
    program: &Program,
    statement: &Statement,
) -> Result<Option<Projective>, Memory>
    requires one { program.now.statements ≡ statement.now ∷ [] }
    ensures { IfOk result (λ found. MatchOption found (¬ IsProjective (meaning program.now)) (λ shape. IsProjective (meaning program.now) × IsShapeOf (meaning program.now) shape)) }
{
    let (params, arrays) = (program.params().len(), program.arrays().len());
    let bounds = statement.bounds.as_slice();
    let reads = statement.reads.as_slice();
    if !statement.guards.as_slice().is_empty() {
        return Ok(None);
    }
    if !are_loops_projective(alloc, program, bounds)? {
        return Ok(None);
    }
    if !are_projections(
        alloc,
        params,
        arrays,
        bounds.len(),
        &statement.writes,
        reads,
    )? {
        return Ok(None);
    }
    let depth = bounds.len() as u8;
    let sets = sets_of(alloc, params, arrays as u16, depth, reads)?;
    Ok(Some(Projective { sets, depth }))
}

/// The loops of a projective program, and those that stand in each array's reference, and `None` exactly where the program
/// isn't projective: one statement, with no guards around it, in a nest of at least one loop, each of which runs upward
/// from 0 to below a parameter that some assumption says is at least 1; the reference that is written is also read; at most 6
/// arrays, each with one reference, whose subscripts are different loops; and each loop stands in a reference. Want of memory
/// is the only error.
pub fn as_projective(alloc: Global, program: &Program) -> Result<Option<Projective>, Memory>
    ensures { IfOk result (λ found. MatchOption found (¬ IsProjective (meaning program.now)) (λ shape. IsProjective (meaning program.now) × IsShapeOf (meaning program.now) shape)) }
{
    match program.statements().split_first() {
        Some((statement, others)) => {
            if !others.is_empty() {
                return Ok(None);
            }
            shape_of(alloc, program, statement)
        }
        None => Ok(None),
    }
}
