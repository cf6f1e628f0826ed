//! What a walk is in, and the variables of its regions.

ghost use Rattle.std.specs.Prelude.{◌≡◌, ◌+◌, ◌<◌, ◌≤◌, length, map, option_map, MatchOption, None, Some, IfOk};
ghost use Rattle.std.specs.List.{AllByRecursion};
ghost use Rattle.affine_form.specs.Rows.{IsSmallOver};
ghost use Rattle.affine_program.specs.Domain.{depth_of};
ghost use Rattle.affine_program.specs.Parts.{IsProgram};
ghost use Rattle.dep_quast.specs.Context.{variables_at};
ghost use Rattle.dep_quast.specs.Trees.{read_of};
ghost use Rattle.reuse_paths.specs.WalkFits.{NestFits};
ghost use Rattle.reuse_paths.specs.Walks.{region_of};
ghost use Rattle.reuse_paths.specs.WalkSettings.{region_at, region_values, region_variables, reading_point, spot_variables};
ghost use Rattle.reuse_paths.specs.WalkViews.{walk_of};
ghost use Rattle.iolb_model.specs.declared.limits.TheConstants.{LOOPS, NEST_VARIABLES, PARAMETERS};

use crate::family::{Credit, Nodes, node_region, region_in};
use crate::{Quasts, Region, Spot};
use affine_form::{Form, Memory, variables_from};
use affine_program::Program;
use claims::lists::followed_by;
use dep_quast::reader::depth;
use domain_count::Nest;
use std::alloc::Global;

/// The labels that walks keep, from readers whose label these forms are, over the variables of their region: those of the
/// statements, with the regions, and for each array none or that of its cells; and the credited nests, in which they may stop.
#[derive(Clone, Copy)]
pub struct Kept<'a> {
    pub nodes: Nodes<'a>,
    pub inputs: &'a [Option<Box<Vec<Form>>>],
    pub credits: &'a [Credit],
    pub reader: &'a [Form],
}

/// What is asked of walks.
#[derive(Clone, Copy)]
pub enum Aim<'a> {
    /// That they arrive at a spot, through regions, one or none for each statement.
    Arrive {
        nodes: &'a [Option<Box<Region>>],
        target: &'a Spot,
    },
    /// That they keep labels.
    Keep(Kept<'a>),
}

/// What a walk is in: a program with its source trees; a nest; what is asked of it, with its regions; and the number of the
/// condition that it is to meet.
#[derive(Clone, Copy)]
pub struct Walking<'a> {
    pub program: &'a Program,
    pub quasts: &'a Quasts,
    pub nest: &'a Nest,
    pub aim: Aim<'a>,
    pub condition: u8,
}

/// How many variables a spot has: the parameters and the nest's.
pub(crate) fn spot_variables(walking: &Walking) -> usize
    requires { NestFits (walk_of walking.now).program (walk_of walking.now).nest }
    ensures variables { result ≡ spot_variables (walk_of walking.now) }
    ensures few { result ≤ PARAMETERS + NEST_VARIABLES }
    ensures kept { IsProgram walking.now.program.now }
{
    walking.program.params().len() + walking.nest.bounds().len()
}

/// How many variables the region of a statement has, with the loop values.
pub(crate) fn region_variables(walking: &Walking, statement: u16) -> usize
    requires nest { NestFits (walk_of walking.now).program (walk_of walking.now).nest }
    requires there { statement < length (walk_of walking.now).program.statements }
    ensures variables { result ≡ region_variables (walk_of walking.now) statement }
    ensures few { result ≤ PARAMETERS + NEST_VARIABLES + LOOPS }
{
    spot_variables(walking) + depth(walking.program, statement)
}

/// The loop values of the statement of a region, over its variables.
pub(crate) fn region_values(
    alloc: Global,
    walking: &Walking,
    statement: u16,
) -> Result<Vec<Form>, Memory>
    requires nest { NestFits (walk_of walking.now).program (walk_of walking.now).nest }
    requires there { statement < length (walk_of walking.now).program.statements }
    ensures values { IfOk result (λ values. values.items ≡ region_values (walk_of walking.now) statement) }
    ensures many { IfOk result (λ values. length values.items ≡ depth_of (walk_of walking.now).program statement) }
    ensures over { IfOk result (λ values. AllByRecursion (IsSmallOver (region_variables (walk_of walking.now) statement)) values.items) }
{
    let first = spot_variables(walking);
    let count = depth(walking.program, statement);
    variables_from(alloc, first + count, first, count)
}

/// The parameters and the loop values of the statement of a region, over its variables.
pub(crate) fn reading_point(
    alloc: Global,
    walking: &Walking,
    statement: u16,
) -> Result<Vec<Form>, Memory>
    requires nest { NestFits (walk_of walking.now).program (walk_of walking.now).nest }
    requires there { statement < length (walk_of walking.now).program.statements }
    ensures point { IfOk result (λ point. point.items ≡ reading_point (walk_of walking.now) statement) }
    ensures many { IfOk result (λ point. length point.items ≡ variables_at (walk_of walking.now).program (read_of statement 0)) }
    ensures over { IfOk result (λ point. AllByRecursion (IsSmallOver (region_variables (walk_of walking.now) statement)) point.items) }
{
    let vars = region_variables(walking, statement);
    let params = variables_from(alloc, vars, 0, walking.program.params().len())?;
    let values = region_values(alloc, walking, statement)?;
    followed_by(alloc, params, values.as_slice())
}

/// The region of a statement, where it has one.
pub fn region_at<'a>(walking: &Walking<'a>, statement: u16) -> Option<&'a Region>
    ensures { MatchOption result (region_at (walk_of walking.now).nodes statement ≡ None) (λ region. region_at (walk_of walking.now).nodes statement ≡ Some (region_of region.now)) }
{
    match walking.aim {
        Aim::Arrive { nodes, .. } => region_in(nodes, statement),
        Aim::Keep(kept) => node_region(kept.nodes, statement),
    }
}
