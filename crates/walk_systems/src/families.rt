//! Systems of families.

use crate::numbers::write_scaled;
use crate::walks::{frame_of, region_system, write_walk};
use affine_form::{Form, Memory};
use affine_program::Program;
use asked_systems::{Says, System, behind, index_at, key_at};
use claims::Step;
use dep_quast::Quasts;
use domain_count::Nest;
use k_partition::Partition;
use plain_pages::Page;
use reuse_paths::{Aim, Credit, Family, Kept, Nodes, Walking};
use std::alloc::Global;

/// The walks of a family from readers with this label, which no nest is around.
pub(crate) fn walking_from<'a>(
    program: &'a Program,
    quasts: &'a Quasts,
    none: &'a Nest,
    credits: &'a [Credit],
    family: &'a Family,
    reader: &'a [Form],
    condition: u8,
) -> Walking<'a> {
    Walking {
        program,
        quasts,
        nest: none,
        aim: Aim::Keep(Kept {
            nodes: Nodes::Together(family.nodes.as_slice()),
            inputs: family.inputs.as_slice(),
            credits,
            reader,
        }),
        condition,
    }
}

/// The system of the points where walks start: the instances of a statement in a nest.
pub(crate) fn start_system(
    alloc: Global,
    walking: &Walking<'_>,
    statement: u16,
    nest: &Nest,
) -> Result<System, Memory> {
    let frame = frame_of(walking, statement);
    let mut system = frame.system(alloc)?;
    let rows = frame.within(alloc, nest.bounds())?;
    system.push_all(alloc, rows.as_slice(), Says::Nest)?;
    Ok(system)
}

/// Writes what is asked at a place in the regions of a family, behind `nodes`, where it is the walk of one.
fn write_node(
    page: &mut Page,
    program: &Program,
    quasts: &Quasts,
    none: &Nest,
    term: &Partition,
    family: &Family,
    condition: u8,
    steps: &[Step],
) -> Result<(), Memory> {
    let Some(number) = index_at(steps, 0) else {
        return Ok(());
    };
    let (Some(Some(node)), Ok(statement)) = (family.nodes.get(number), u16::try_from(number)) else {
        return Ok(());
    };
    let Some(region) = &node.region else {
        return Ok(());
    };
    let label = node.label.as_slice();
    let credits = term.credits.as_slice();
    let walking = walking_from(program, quasts, none, credits, family, label, condition);
    let system = region_system(page.alloc(), &walking, statement, region.rows.as_slice())?;
    write_walk(
        page,
        &walking,
        statement,
        &system,
        &region.tree,
        behind(steps, 3),
    )
}

/// Writes what is asked for a condition at a place of a family of a partition term: of its start label, of its start
/// tree, or of the walks of its regions.
pub fn write_family(
    page: &mut Page,
    program: &Program,
    quasts: &Quasts,
    term: &Partition,
    family: &Family,
    condition: u8,
    steps: &[Step],
) -> Result<(), Memory> {
    let none = Nest::new(Vec::new(page.alloc()));
    let label = family.start_label.as_slice();
    if key_at(steps, 0) == Some("nodes") {
        let rest = behind(steps, 1);
        return write_node(page, program, quasts, &none, term, family, condition, rest);
    }
    if key_at(steps, 1) == Some("label") {
        return match index_at(steps, 2) {
            Some(number) => write_scaled(page, program, term, family, number),
            None => Ok(()),
        };
    }
    let credits = term.credits.as_slice();
    let walking = walking_from(program, quasts, &none, credits, family, label, condition);
    let system = start_system(page.alloc(), &walking, term.statement, &term.nest)?;
    write_walk(
        page,
        &walking,
        term.statement,
        &system,
        &family.start,
        behind(steps, 2),
    )
}
