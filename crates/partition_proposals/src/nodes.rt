//! How the walks of a family go on from statements, with what is claimed there.

use crate::drafts::{Draft, Step};
use crate::entries::{At, Work};
use crate::taking::{Walked, walk_by, with_words};
use affine_facts::affine::Affine;
use affine_facts::facts::{Facts, ReadFacts, StatementFacts};
use affine_facts::nests::instance_rows;
use affine_facts::numbers::short;
use affine_facts::shown::all_forms;
use affine_facts::words::Words;
use affine_form::{Form, Memory};
use reuse_paths::{FamilyNode, Region};
use std::alloc::Global;

/// How a walk goes on from a statement, with its claims.
#[derive(Drop)]
enum Onward {
    Made(Option<FamilyNode>, Vec<Words>),
    Restrict(Affine),
    Fails,
}

/// The region from which walks go on by a step, with their claims.
enum Found {
    Made(Box<Region>, Vec<Words>),
    Restrict(Affine),
    Fails,
}

/// The region of a statement from which walks go on by this step.
fn region_of(
    alloc: Global,
    at: &At,
    work: &mut Work,
    source: &StatementFacts,
    read: &ReadFacts,
    step: &Step,
) -> Result<Found, Memory> {
    let more = step.rows.as_slice();
    let given = instance_rows(alloc, at.facts, source, more)?;
    let Some(rows) = all_forms(alloc, given.vars, more)? else {
        return Ok(Found::Fails);
    };
    match walk_by(alloc, at, work, &given, step.read, read)? {
        Walked::Made(tree, all) => {
            let region = Box::new(alloc, Region { rows, tree })?;
            Ok(Found::Made(region, all))
        }
        Walked::Restrict(row) if step.rows.is_empty() => Ok(Found::Restrict(row)),
        _ => Ok(Found::Fails),
    }
}

/// The node of a statement with this label, whose forms are these.
fn node_from(
    alloc: Global,
    at: &At,
    work: &mut Work,
    statement: u16,
    source: &StatementFacts,
    label: Vec<Form>,
) -> Result<Onward, Memory> {
    let Some(step) = at.draft.step_of(statement) else {
        let node = FamilyNode {
            label,
            region: None,
        };
        return Ok(Onward::Made(Some(node), Vec::new(alloc)));
    };
    let Some(read) = at.facts.read(statement, step.read) else {
        return Ok(Onward::Fails);
    };
    match region_of(alloc, at, work, source, read, step)? {
        Found::Made(region, all) => {
            let node = FamilyNode {
                label,
                region: Some(region),
            };
            Ok(Onward::Made(Some(node), all))
        }
        Found::Restrict(row) => Ok(Onward::Restrict(row)),
        Found::Fails => Ok(Onward::Fails),
    }
}

/// The node of a statement.
fn onward_from(
    alloc: Global,
    facts: &Facts,
    draft: &Draft,
    work: &mut Work,
    statement: u16,
) -> Result<Onward, Memory> {
    let Some(label) = draft.label_of(statement) else {
        return Ok(Onward::Made(None, Vec::new(alloc)));
    };
    let Some(source) = facts.statement(statement) else {
        return Ok(Onward::Fails);
    };
    let vars = facts.params.saturating_add(source.depth());
    let Some(forms) = all_forms(alloc, vars, label)? else {
        return Ok(Onward::Fails);
    };
    let at = At {
        facts,
        draft,
        bounds: source.nest.as_slice(),
        label,
    };
    node_from(alloc, &at, work, statement, source, forms)
}

/// The nodes of a family, and their words; or the statement that has to be restricted to a row.
#[derive(Drop)]
pub(crate) enum Nodes {
    Made(Vec<Option<FamilyNode>>, Vec<Words>),
    Restrict(u16, Affine),
    Fails,
}

/// The nodes of a family's statements, with their claims.
pub(crate) fn nodes_of(
    alloc: Global,
    facts: &Facts,
    draft: &Draft,
    work: &mut Work,
) -> Result<Nodes, Memory> {
    let mut all = Vec::new(alloc);
    let mut taken = Vec::new(alloc);
    for number in 0..draft.nodes.len() {
        match onward_from(alloc, facts, draft, work, short(number))? {
            Onward::Made(node, some) => {
                all.push(node)?;
                taken = with_words(taken, some)?;
            }
            Onward::Restrict(row) => return Ok(Nodes::Restrict(short(number), row)),
            Onward::Fails => return Ok(Nodes::Fails),
        }
    }
    Ok(Nodes::Made(all, taken))
}
