//! How long lists of families and of walks have to be.

use crate::families::walking_from;
use crate::leaves::{Source, open_leaves};
use affine_form::Memory;
use affine_program::Program;
use asked_systems::{behind, index_at, key_at};
use certificate_fit::counts::loops_around;
use claims::Step;
use cover_lp::CoordSet;
use dep_quast::Quasts;
use dep_quast::reader::Reader;
use domain_count::Nest;
use k_partition::Partition;
use reuse_paths::{Aim, Credit, Family, Leaf, Reach, Region, Spot, Walk, Walking, region_at};
use std::alloc::Global;

/// How many numbers a form has over so many variables: the coefficients, and the constant.
pub(crate) fn form_length(outer: usize, more: usize) -> usize {
    outer.saturating_add(more).saturating_add(1)
}

/// How many variables there are in front of the loop values of a walk's readers.
fn outer_variables(walking: &Walking<'_>) -> usize {
    let params = walking.program.params().len();
    params.saturating_add(walking.nest.bounds().len())
}

/// How many rows the region of a statement has: none where it has no region.
fn region_rows(walking: &Walking<'_>, statement: u16) -> usize {
    match region_at(walking, statement) {
        Some(region) => region.rows.as_slice().len(),
        None => 0,
    }
}

/// How many variables a credited nest has: none where it isn't there.
fn credited(credits: &[Credit], number: u8) -> usize {
    match credits.get(usize::from(number)) {
        Some(credit) => credit.nest.bounds().len(),
        None => 0,
    }
}

/// How many multipliers the list of this key of an entry has, at a leaf whose word comes from this source.
fn entry_length(
    walking: &Walking<'_>,
    source: Source<'_>,
    entry: &Leaf,
    key: &str,
) -> Option<usize> {
    let (label, loops, credits): (usize, usize, &[Credit]) = match walking.aim {
        Aim::Keep(kept) => (kept.reader.len(), 0, kept.credits),
        Aim::Arrive { target, .. } => (0, loops_around(walking.program, target.statement), &[]),
    };
    match (key, entry, source) {
        ("label" | "stop", _, _) => Some(label.saturating_mul(2)),
        ("arrive", _, _) => Some(loops.saturating_mul(2)),
        ("rows", Leaf::Credit { credit, .. }, _) => {
            Some(credited(credits, *credit).saturating_mul(2))
        }
        ("rows", _, Source::Written { statement, .. }) => Some(region_rows(walking, statement)),
        ("rows", _, _) => Some(0),
        _ => None,
    }
}

/// How long the list at a place of the entries of a read is: themselves, or a list of one.
fn taken_length(
    alloc: Global,
    walking: &Walking<'_>,
    reader: Reader,
    entries: &[Leaf],
    steps: &[Step],
) -> Result<Option<usize>, Memory> {
    let leaves = open_leaves(alloc, walking.quasts, reader, 0, &[])?;
    let Some(number) = index_at(steps, 1) else {
        return Ok(Some(leaves.len()));
    };
    Ok(
        match (leaves.get(number), entries.get(number), key_at(steps, 2)) {
            (Some(leaf), Some(entry), Some(key)) => entry_length(walking, leaf.source, entry, key),
            _ => None,
        },
    )
}

/// How long the list at a place of a walk from instances of a statement has to be.
pub(crate) fn walk_length(
    alloc: Global,
    walking: &Walking<'_>,
    statement: u16,
    walk: &Walk,
    steps: &[Step],
) -> Result<Option<usize>, Memory> {
    match (walk, key_at(steps, 0)) {
        (Walk::Test { .. }, Some("form")) => {
            let loops = loops_around(walking.program, statement);
            Ok(Some(form_length(outer_variables(walking), loops)))
        }
        (Walk::Test { yes, .. }, Some("yes")) => {
            walk_length(alloc, walking, statement, yes, behind(steps, 1))
        }
        (Walk::Test { no, .. }, _) => walk_length(alloc, walking, statement, no, behind(steps, 1)),
        (Walk::Take { read, leaves }, Some("leaves")) => {
            let reader = Reader {
                statement,
                read: *read,
            };
            taken_length(alloc, walking, reader, leaves.as_slice(), steps)
        }
        _ => Ok(None),
    }
}

/// How long the list at a place of a region has to be: a row, or one of its walk.
pub(crate) fn region_length(
    alloc: Global,
    walking: &Walking<'_>,
    statement: u16,
    region: &Region,
    steps: &[Step],
) -> Result<Option<usize>, Memory> {
    if key_at(steps, 0) == Some("rows") {
        let loops = loops_around(walking.program, statement);
        return Ok(Some(form_length(outer_variables(walking), loops)));
    }
    walk_length(alloc, walking, statement, &region.tree, behind(steps, 1))
}

/// How long a label of a family with this set is, or a form of it, which is over so many variables.
pub(crate) fn label_length(set: &CoordSet, vars: usize, steps: &[Step]) -> Option<usize> {
    if steps.is_empty() {
        Some(set.coords().len())
    } else {
        Some(form_length(vars, 0))
    }
}

/// How long the list at a place of what a family says of the statements has to be, behind `nodes`.
fn node_length(
    alloc: Global,
    program: &Program,
    quasts: &Quasts,
    none: &Nest,
    term: &Partition,
    family: &Family,
    steps: &[Step],
) -> Result<Option<usize>, Memory> {
    let Some(number) = index_at(steps, 0) else {
        return Ok(Some(program.statements().len()));
    };
    let (Some(Some(node)), Ok(statement)) = (family.nodes.get(number), u16::try_from(number)) else {
        return Ok(None);
    };
    let label = node.label.as_slice();
    let walking = walking_from(
        program,
        quasts,
        none,
        term.credits.as_slice(),
        family,
        label,
        1,
    );
    let vars = outer_variables(&walking).saturating_add(loops_around(program, statement));
    match (key_at(steps, 1), &node.region) {
        (Some("label"), _) => Ok(label_length(&family.set, vars, behind(steps, 2))),
        (_, Some(region)) => region_length(alloc, &walking, statement, region, behind(steps, 2)),
        _ => Ok(None),
    }
}

/// How long the list at a place of the labels of cells of a family with this set has to be, behind `inputs`.
pub(crate) fn input_length(program: &Program, set: &CoordSet, steps: &[Step]) -> Option<usize> {
    let Some(number) = index_at(steps, 0) else {
        return Some(program.arrays().len());
    };
    let (_, rank) = program.arrays().get(number)?;
    let vars = program.params().len().saturating_add(usize::from(*rank));
    label_length(set, vars, behind(steps, 1))
}

/// How long the list at a place of a family of a partition term has to be, where that is known.
pub fn family_length(
    alloc: Global,
    program: &Program,
    quasts: &Quasts,
    term: &Partition,
    family: &Family,
    steps: &[Step],
) -> Result<Option<usize>, Memory> {
    let none = Nest::new(Vec::new(alloc));
    let rest = behind(steps, 1);
    match (key_at(steps, 0), key_at(steps, 1)) {
        (Some("inputs"), _) => Ok(input_length(program, &family.set, rest)),
        (Some("nodes"), _) => node_length(alloc, program, quasts, &none, term, family, rest),
        (Some("start"), Some("label")) => {
            let loops = loops_around(program, term.statement);
            let vars = program.params().len().saturating_add(loops);
            Ok(label_length(&family.set, vars, behind(steps, 2)))
        }
        (Some("start"), _) => {
            let (label, credits) = (family.start_label.as_slice(), term.credits.as_slice());
            let walking = walking_from(program, quasts, &none, credits, family, label, 1);
            walk_length(
                alloc,
                &walking,
                term.statement,
                &family.start,
                behind(steps, 2),
            )
        }
        _ => Ok(None),
    }
}

/// How long the list at a place in the regions of a walk has to be, behind `nodes`.
fn nodes_length(
    alloc: Global,
    walking: &Walking<'_>,
    nodes: &[Option<Box<Region>>],
    steps: &[Step],
) -> Result<Option<usize>, Memory> {
    let Some(number) = index_at(steps, 0) else {
        return Ok(Some(walking.program.statements().len()));
    };
    match (nodes.get(number), u16::try_from(number)) {
        (Some(Some(region)), Ok(statement)) => {
            region_length(alloc, walking, statement, region, behind(steps, 1))
        }
        _ => Ok(None),
    }
}

/// How long the list at a place of a reach from one spot to another has to be, where that is known.
pub fn reach_length(
    alloc: Global,
    program: &Program,
    quasts: &Quasts,
    nest: &Nest,
    from: &Spot,
    to: &Spot,
    reach: &Reach,
    steps: &[Step],
) -> Result<Option<usize>, Memory> {
    let Reach::Walked { nodes, .. } = reach else {
        let loops = loops_around(program, from.statement);
        let is_one = from.statement == to.statement;
        return Ok(Some(if is_one { loops.saturating_mul(2) } else { 0 }));
    };
    let nodes = nodes.as_slice();
    let walking = Walking {
        program,
        quasts,
        nest,
        aim: Aim::Arrive { nodes, target: to },
        condition: 1,
    };
    if key_at(steps, 0) == Some("nodes") {
        return nodes_length(alloc, &walking, nodes, behind(steps, 1));
    }
    Ok(Some(region_rows(&walking, from.statement)))
}
