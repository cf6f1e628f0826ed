//! Systems of walks that arrive.

use crate::frames::{nest_point, nest_system};
use crate::points::{equal_rows, followed, put_all};
use crate::walks::{region_system, write_goal, write_walk};
use affine_form::{Memory, Multipliers};
use affine_program::Program;
use asked_systems::{Sum, behind, index_at, key_at};
use claims::Step;
use dep_quast::Quasts;
use domain_count::Nest;
use plain_pages::Page;
use reuse_paths::{Aim, Reach, Region, Spot, Walking, region_at};
use std::alloc::Global;

/// The loop values of a spot, over the variables of a nest.
fn spot_values(alloc: Global, walking: &Walking<'_>, spot: &Spot) -> Result<Vec<Sum>, Memory> {
    let bounds = walking.nest.bounds();
    let vars = walking.program.params().len().saturating_add(bounds.len());
    let point = nest_point(alloc, walking.program, bounds, vars)?;
    put_all(alloc, vars, spot.point.as_slice(), point.as_slice())
}

/// Writes what is asked where a spot is to be the target: that their loop values are equal, or that they differ in
/// their statements.
fn write_same(
    page: &mut Page,
    walking: &Walking<'_>,
    from: &Spot,
    to: &Spot,
    equal: &[Multipliers],
    number: Option<usize>,
) -> Result<(), Memory> {
    let alloc = page.alloc();
    let (one, other) = (from.statement, to.statement);
    if one != other {
        let words = format!(in alloc;
            "an instance of statement {one} is none of statement {other}"
        )?;
        page.line(words.as_str())?;
        return Ok(());
    }
    let system = nest_system(alloc, walking.program, walking.nest.bounds())?;
    let here = spot_values(alloc, walking, from)?;
    let there = spot_values(alloc, walking, to)?;
    let goals = equal_rows(alloc, here.as_slice(), there.as_slice())?;
    write_goal(page, &system, goals.as_slice(), equal, number)
}

/// Writes what is asked where a walk starts: that the spot is in the region of its statement, or that this has none.
fn write_start(
    page: &mut Page,
    walking: &Walking<'_>,
    from: &Spot,
    start: &[Multipliers],
    number: Option<usize>,
) -> Result<(), Memory> {
    let alloc = page.alloc();
    let Some(region) = region_at(walking, from.statement) else {
        let statement = from.statement;
        let words = format!(in alloc;
            "statement {statement}, where the walk starts, has no region"
        )?;
        page.line(words.as_str())?;
        return Ok(());
    };
    let (program, bounds) = (walking.program, walking.nest.bounds());
    let system = nest_system(alloc, program, bounds)?;
    let outer = nest_point(alloc, program, bounds, system.vars())?;
    let values = spot_values(alloc, walking, from)?;
    let point = followed(alloc, outer, values.as_slice())?;
    let goals = put_all(
        alloc,
        system.vars(),
        region.rows.as_slice(),
        point.as_slice(),
    )?;
    write_goal(page, &system, goals.as_slice(), start, number)
}

/// Writes what is asked at a place in the regions of a walk, behind `nodes`.
fn write_in_nodes(
    page: &mut Page,
    walking: &Walking<'_>,
    nodes: &[Option<Box<Region>>],
    steps: &[Step],
) -> Result<(), Memory> {
    let Some(number) = index_at(steps, 0) else {
        return Ok(());
    };
    let (Some(Some(region)), Ok(statement)) = (nodes.get(number), u16::try_from(number)) else {
        return Ok(());
    };
    let system = region_system(page.alloc(), walking, statement, region.rows.as_slice())?;
    write_walk(
        page,
        walking,
        statement,
        &system,
        &region.tree,
        behind(steps, 2),
    )
}

/// Writes what is asked at a place of a reach for a condition, from one spot to another over the variables of a nest.
pub fn write_reach(
    page: &mut Page,
    program: &Program,
    quasts: &Quasts,
    nest: &Nest,
    from: &Spot,
    to: &Spot,
    reach: &Reach,
    condition: u8,
    steps: &[Step],
) -> Result<(), Memory> {
    let nodes = match reach {
        Reach::Same(_) => &[],
        Reach::Walked { nodes, .. } => nodes.as_slice(),
    };
    let walking = Walking {
        program,
        quasts,
        nest,
        aim: Aim::Arrive { nodes, target: to },
        condition,
    };
    let number = index_at(steps, 1);
    match reach {
        Reach::Same(equal) => write_same(page, &walking, from, to, equal.as_slice(), number),
        Reach::Walked { .. } if key_at(steps, 0) == Some("nodes") => {
            write_in_nodes(page, &walking, nodes, behind(steps, 1))
        }
        Reach::Walked { start, .. } => {
            write_start(page, &walking, from, start.as_slice(), number)
        }
    }
}
