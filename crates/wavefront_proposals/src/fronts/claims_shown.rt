//! What wavefronts claim, as far as multipliers are found.

use crate::fronts::outlines::Outline;
use crate::fronts::ways::{Instance, Step, Turn};
use affine_facts::affine::{Affine, copies, loops};
use affine_facts::facts::{Facts, Origin, ReadFacts, TreeLeaf, with_row};
use affine_facts::leaves::{empty_entry, with_tests};
use affine_facts::numbers::short;
use affine_facts::shown::{Rows, all_forms, all_put, all_shown, equalities, followed};
use affine_form::{Memory, Multipliers};
use iolb_model::limits;
use reuse_paths::{Leaf, Reach, Region, Walk};
use std::alloc::Global;

/// The entry at a leaf whose source has to be an instance, or else no point comes.
fn arriving_entry(
    alloc: Global,
    params: usize,
    given: &Rows,
    leaf: &TreeLeaf,
    values: &[Affine],
    target: &Instance,
) -> Result<Option<Leaf>, Memory> {
    if let Origin::Instance { statement, point } = &leaf.origin {
        if *statement == target.statement {
            let point = all_put(alloc, params, point.as_slice(), values)?;
            let goals = equalities(alloc, point.as_slice(), target.point.as_slice())?;
            if let Some(equal) = all_shown(alloc, given, goals.as_slice())? {
                return Ok(Some(Leaf::Arrive { equal }));
            }
        }
    }
    empty_entry(alloc, given)
}

/// The entries at the leaves of the read that takes the word.
pub(crate) fn edge(
    alloc: Global,
    facts: &Facts,
    given: &Rows,
    outline: &Outline,
) -> Result<Option<Vec<Leaf>>, Memory> {
    let mut all = Vec::new(alloc);
    let Some(read) = facts.read(outline.user.statement, outline.read) else {
        return Ok(None);
    };
    let values = outline.user.point.as_slice();
    for leaf in read.leaves.as_slice() {
        let rows = with_tests(alloc, facts.params, given, leaf, values)?;
        let word = &outline.word;
        match arriving_entry(alloc, facts.params, &rows, leaf, values, word)? {
            Some(entry) => all.push(entry)?,
            None => return Ok(None),
        }
    }
    Ok(Some(all))
}

/// A way: the facts, the nest's points, its steps, and where it arrives.
#[derive(Clone, Copy)]
pub(crate) struct Way<'a> {
    pub(crate) facts: &'a Facts,
    pub(crate) nest: &'a Rows,
    pub(crate) steps: &'a [Step],
    pub(crate) target: &'a Instance,
}

/// The rows of a step's region at loop values: each is the step's, but in the loop along which a reduction goes back it is
/// at least the least one.
fn region_rows(alloc: Global, step: &Step, values: &[Affine]) -> Result<Vec<Affine>, Memory> {
    let mut rows = Vec::new(alloc);
    for (place, (own, value)) in step
        .from
        .point
        .as_slice()
        .iter()
        .zip(values.iter())
        .enumerate()
    {
        match &step.turn {
            Some(turn) if turn.place == place => rows.push(value.less(alloc, &turn.least, 0)?)?,
            _ => {
                rows.push(value.less(alloc, own, 0)?)?;
                rows.push(own.less(alloc, value, 0)?)?;
            }
        }
    }
    Ok(rows)
}

/// The step from instances of a statement.
fn step_from(steps: &[Step], statement: u16) -> Option<&Step> {
    for step in steps {
        if step.from.statement == statement {
            return Some(step);
        }
    }
    None
}

/// The entry at a leaf of a walk: it arrives, goes on, or no point comes.
fn walk_entry(
    alloc: Global,
    way: Way,
    given: &Rows,
    leaf: &TreeLeaf,
    values: &[Affine],
) -> Result<Option<Leaf>, Memory> {
    let params = way.facts.params;
    let rows = with_tests(alloc, params, given, leaf, values)?;
    let found = arriving_entry(alloc, params, &rows, leaf, values, way.target)?;
    if found.is_some() {
        return Ok(found);
    }
    let Origin::Instance { statement, point } = &leaf.origin else {
        return Ok(None);
    };
    let Some(step) = step_from(way.steps, *statement) else {
        return Ok(None);
    };
    let point = all_put(alloc, params, point.as_slice(), values)?;
    let goals = region_rows(alloc, step, point.as_slice())?;
    match all_shown(alloc, &rows, goals.as_slice())? {
        Some(rows) => Ok(Some(Leaf::Go {
            rows,
            label: Vec::new(alloc),
        })),
        None => Ok(None),
    }
}

/// The walk that takes a read.
fn taken(
    alloc: Global,
    way: Way,
    given: &Rows,
    number: u16,
    read: &ReadFacts,
    values: &[Affine],
) -> Result<Option<Walk>, Memory> {
    let mut leaves = Vec::new(alloc);
    for leaf in read.leaves.as_slice() {
        match walk_entry(alloc, way, given, leaf, values)? {
            Some(entry) => leaves.push(entry)?,
            None => return Ok(None),
        }
    }
    Ok(Some(Walk::Take {
        read: number,
        leaves,
    }))
}

/// The walk that takes a read of a statement where a row holds too.
fn taken_where(
    alloc: Global,
    way: Way,
    given: &Rows,
    row: Affine,
    statement: u16,
    number: u16,
    values: &[Affine],
) -> Result<Option<Walk>, Memory> {
    let Some(read) = way.facts.read(statement, number) else {
        return Ok(None);
    };
    let given = Rows {
        vars: given.vars,
        rows: with_row(alloc, given.rows.as_slice(), row)?,
    };
    taken(alloc, way, &given, number, read, values)
}

/// The walk from the instances of a reduction: back along its loop by its own word, and at the least value by the other read.
fn turning(
    alloc: Global,
    way: Way,
    given: &Rows,
    step: &Step,
    turn: &Turn,
    values: &[Affine],
) -> Result<Option<Walk>, Memory> {
    let statement = step.from.statement;
    let Some(value) = values.get(turn.place) else {
        return Ok(None);
    };
    let later = value.less(alloc, &turn.least, -1)?;
    let Some(form) = later.form(alloc, given.vars.min(limits::VARIABLES))? else {
        return Ok(None);
    };
    let opposite = later.negated(alloc)?;
    let yes = taken_where(alloc, way, given, later, statement, turn.again, values)?;
    let no = taken_where(alloc, way, given, opposite, statement, step.read, values)?;
    match (yes, no) {
        (Some(yes), Some(no)) => Ok(Some(Walk::Test {
            form,
            yes: Box::new(alloc, yes)?,
            no: Box::new(alloc, no)?,
        })),
        _ => Ok(None),
    }
}

/// The region of a step.
fn region(alloc: Global, way: Way, step: &Step) -> Result<Option<Box<Region>>, Memory> {
    let facts = way.facts;
    let Some(own) = facts.statement(step.from.statement) else {
        return Ok(None);
    };
    let vars = way.nest.vars.saturating_add(own.depth());
    let values = loops(alloc, way.nest.vars, own.depth())?;
    let values = values.as_slice();
    let domain = own.domain(alloc, facts.params, values)?;
    let rows = region_rows(alloc, step, values)?;
    let Some(forms) = all_forms(alloc, vars, rows.as_slice())? else {
        return Ok(None);
    };
    let all = followed(
        alloc,
        copies(alloc, way.nest.rows.as_slice())?,
        domain.as_slice(),
    )?;
    let given = Rows {
        vars,
        rows: followed(alloc, all, rows.as_slice())?,
    };
    let tree = match &step.turn {
        Some(turn) => turning(alloc, way, &given, step, turn, values)?,
        None => {
            let Some(read) = facts.read(step.from.statement, step.read) else {
                return Ok(None);
            };
            taken(alloc, way, &given, step.read, read, values)?
        }
    };
    match tree {
        Some(tree) => Ok(Some(Box::new(alloc, Region { rows: forms, tree })?)),
        None => Ok(None),
    }
}

/// The regions of a way's steps, one or none for each statement.
fn regions(alloc: Global, way: Way) -> Result<Option<Vec<Option<Box<Region>>>>, Memory> {
    let mut all = Vec::new(alloc);
    for statement in 0..way.facts.statements.len() {
        all.push(match step_from(way.steps, short(statement)) {
            None => None,
            Some(step) => {
                let Some(found) = region(alloc, way, step)? else {
                    return Ok(None);
                };
                Some(found)
            }
        })?;
    }
    Ok(Some(all))
}

/// What shows that the first step's instance is in its region.
fn start(alloc: Global, way: Way) -> Result<Option<Vec<Multipliers>>, Memory> {
    let Some(step) = way.steps.first() else {
        return Ok(None);
    };
    let goals = region_rows(alloc, step, step.from.point.as_slice())?;
    all_shown(alloc, way.nest, goals.as_slice())
}

/// What shows that a way leads to its target.
pub(crate) fn reach(alloc: Global, way: Way) -> Result<Option<Reach>, Memory> {
    let Some(start) = start(alloc, way)? else {
        return Ok(None);
    };
    match regions(alloc, way)? {
        Some(nodes) => Ok(Some(Reach::Walked { start, nodes })),
        None => Ok(None),
    }
}
