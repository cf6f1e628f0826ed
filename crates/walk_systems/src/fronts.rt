//! What is asked at the leaves of a cold term's read, and at those of the read of a wavefront term's user.

use crate::frames::{nest_point, nest_system, parameters};
use crate::leaves::{OpenLeaf, Source, open_leaves};
use crate::points::{equal_rows, followed, put_all};
use crate::said::write_there;
use crate::walks::write_pointless;
use affine_form::{Form, Memory, Multipliers};
use affine_program::Program;
use asked_systems::{Says, Sum, System};
use dep_quast::Quasts;
use dep_quast::reader::Reader;
use plain_pages::Page;
use reuse_paths::Leaf;
use std::alloc::Global;
use wavefront::{Cold, Wavefront};

/// The parameters and the loop values of an instance with these loop values, forms over a nest's variables.
pub(crate) fn instance_point(
    alloc: Global,
    program: &Program,
    bounds: &[(Form, Form)],
    vars: usize,
    values: &[Form],
) -> Result<Vec<Sum>, Memory> {
    let outer = nest_point(alloc, program, bounds, vars)?;
    let values = put_all(alloc, vars, values, outer.as_slice())?;
    followed(alloc, parameters(alloc, program, vars)?, values.as_slice())
}

/// The system of a nest's points that come to a leaf.
pub(crate) fn leaf_system(
    alloc: Global,
    program: &Program,
    bounds: &[(Form, Form)],
    leaf: &OpenLeaf<'_>,
) -> Result<System, Memory> {
    let mut system = nest_system(alloc, program, bounds)?;
    system.push_all(alloc, leaf.tests.as_slice(), Says::Test)?;
    Ok(system)
}

/// Writes what is asked at the entry of this number in a cold term's leaves.
pub fn write_cold_leaf(
    page: &mut Page,
    program: &Program,
    quasts: &Quasts,
    term: &Cold,
    number: usize,
) -> Result<(), Memory> {
    let alloc = page.alloc();
    let bounds = term.nest.bounds();
    let vars = nest_system(alloc, program, bounds)?.vars();
    let point = instance_point(alloc, program, bounds, vars, term.point.as_slice())?;
    let reader = Reader {
        statement: term.statement,
        read: term.read,
    };
    let leaves = open_leaves(alloc, quasts, reader, vars, point.as_slice())?;
    let (Some(leaf), Some(entry)) = (leaves.get(number), term.leaves.get(number)) else {
        return Ok(());
    };
    match entry {
        Leaf::Empty(shown) => {
            let system = leaf_system(alloc, program, bounds, leaf)?;
            write_pointless(page, &system, shown)
        }
        _ => {
            write_there(page, leaf.source, entry)?;
            page.line("called for: an input and `stop`, or `empty`")?;
            Ok(())
        }
    }
}

/// Writes a system with the first goal that its multipliers don't show.
fn write_unshown(
    page: &mut Page,
    system: &System,
    goals: &[Sum],
    shown: &[Multipliers],
) -> Result<(), Memory> {
    for (goal, shown) in goals.iter().zip(shown) {
        if !system.is_shown(page.alloc(), goal, shown)? {
            return system.write(page, goal, shown);
        }
    }
    Ok(())
}

/// Writes what is called for at a leaf of the edge: the source with `arrive`, or an input with `stop`, or no point.
fn write_called(page: &mut Page, term: &Wavefront) -> Result<(), Memory> {
    let alloc = page.alloc();
    let words = match &term.source {
        Some(spot) => {
            let statement = spot.statement;
            format!(in alloc; "an instance of statement {statement} and `arrive`")?
        }
        None => format!(in alloc; "an input and `stop`")?,
    };
    page.text("called for: ")?;
    page.text(words.as_str())?;
    page.line(", or `empty`")?;
    Ok(())
}

/// Writes what is asked at a leaf of the edge, whose word has this point: that there is no point, or that the word is
/// the source.
fn write_at_edge(
    page: &mut Page,
    term: &Wavefront,
    system: &System,
    here: &[Sum],
    point: &[Sum],
    source: Source<'_>,
    entry: &Leaf,
) -> Result<(), Memory> {
    let alloc = page.alloc();
    match (entry, &term.source, source) {
        (Leaf::Empty(shown), _, _) => write_pointless(page, system, shown),
        (
            Leaf::Arrive { equal },
            Some(spot),
            Source::Written {
                statement,
                point: values,
            },
        ) if statement == spot.statement => {
            let word = put_all(alloc, system.vars(), values, here)?;
            let there = put_all(alloc, system.vars(), spot.point.as_slice(), point)?;
            let goals = equal_rows(alloc, word.as_slice(), there.as_slice())?;
            write_unshown(page, system, goals.as_slice(), equal.as_slice())
        }
        _ => {
            write_there(page, source, entry)?;
            write_called(page, term)
        }
    }
}

/// Writes what is asked at the entry of this number in a wavefront term's edge.
pub fn write_edge(
    page: &mut Page,
    program: &Program,
    quasts: &Quasts,
    term: &Wavefront,
    number: usize,
) -> Result<(), Memory> {
    let alloc = page.alloc();
    let bounds = term.nest.bounds();
    let vars = nest_system(alloc, program, bounds)?.vars();
    let here = instance_point(alloc, program, bounds, vars, term.user.point.as_slice())?;
    let reader = Reader {
        statement: term.user.statement,
        read: term.read,
    };
    let leaves = open_leaves(alloc, quasts, reader, vars, here.as_slice())?;
    let (Some(leaf), Some(entry)) = (leaves.get(number), term.edge.get(number)) else {
        return Ok(());
    };
    let system = leaf_system(alloc, program, bounds, leaf)?;
    let point = nest_point(alloc, program, bounds, vars)?;
    write_at_edge(
        page,
        term,
        &system,
        here.as_slice(),
        point.as_slice(),
        leaf.source,
        entry,
    )
}
