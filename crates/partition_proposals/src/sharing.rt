//! The drafts of a part more, by reads of words that keep the labels that they have.

use crate::choices::{BEST, Search, draft_for, named};
use crate::drafts::{Choice, Draft, Request, Way};
use crate::labels::{drafted, is_known, is_repeated, keeps_cells};
use crate::points::Points;
use crate::schemes::{Plan, Scheme};
use affine_facts::facts::Facts;
use affine_facts::numbers::short;
use affine_form::Memory;
use std::alloc::Global;

/// The draft of a family that is asked for, which begins with what a part's draft knows, where that knows words of its read, and they keep
/// their label.
fn shared_by(
    alloc: Global,
    facts: &Facts,
    seed: &Draft,
    request: Request,
) -> Result<Option<Draft>, Memory> {
    let Some(own) = facts.statement(request.statement) else {
        return Ok(None);
    };
    let number = usize::from(request.read);
    let Some(read) = own.reads.get(number) else {
        return Ok(None);
    };
    let bounds = own.nest.as_slice();
    if !is_known(seed, read)
        || is_repeated(own, number)
        || !keeps_cells(alloc, facts, seed, request.label, bounds, read)?
    {
        return Ok(None);
    }
    drafted(alloc, facts, request, Some(seed))
}

/// The draft of a family for points, by the first read of words whose label a part's draft knows and that keep it.
fn sharing_with(
    alloc: Global,
    facts: &Facts,
    seed: &Draft,
    points: &Points,
    choice: Choice,
) -> Result<Option<Draft>, Memory> {
    let Some(own) = facts.statement(points.statement) else {
        return Ok(None);
    };
    let label = points.label(alloc, seed.set.as_slice())?;
    for number in 0..own.reads.len() {
        let request = Request {
            statement: points.statement,
            read: short(number),
            set: seed.set.as_slice(),
            label: label.as_slice(),
            way: Way::Whole,
            choice,
        };
        let found = shared_by(alloc, facts, seed, request)?;
        if found.is_some() {
            return Ok(found);
        }
    }
    Ok(None)
}

/// The draft of a family for points, by a read of words that keep the label that they have from one of its parts.
fn sharing_draft(
    alloc: Global,
    facts: &Facts,
    plan: &Plan,
    points: &Points,
    choice: Choice,
) -> Result<Option<Draft>, Memory> {
    for (part, seed) in plan.drafts.as_slice().iter().enumerate() {
        if let Some(mut draft) = sharing_with(alloc, facts, seed, points, choice)? {
            draft.seed = Some(part);
            return Ok(Some(draft));
        }
    }
    Ok(None)
}

/// Of each of a scheme's families the draft for points by a read of words that keep their labels, where there is one.
fn sharing_drafts(
    alloc: Global,
    facts: &Facts,
    scheme: &Scheme,
    points: &Points,
) -> Result<Vec<Option<Draft>>, Memory> {
    let mut all = Vec::new(alloc);
    for plan in scheme.plans.as_slice() {
        let strict = sharing_draft(alloc, facts, plan, points, Choice::Strict)?;
        all.push(match strict {
            Some(draft) => Some(draft),
            None => sharing_draft(alloc, facts, plan, points, Choice::Loose)?,
        })?;
    }
    Ok(all)
}

/// The draft of a family for points by any read that has one.
fn other_draft(
    alloc: Global,
    facts: &Facts,
    plan: &Plan,
    points: &Points,
) -> Result<Option<Draft>, Memory> {
    let Some(first) = plan.drafts.as_slice().first() else {
        return Ok(None);
    };
    let set = first.set.as_slice();
    let label = points.label(alloc, set)?;
    let label = label.as_slice();
    let wanted = named(alloc, facts.params, points.bounds.len(), label)?;
    let search = Search {
        statement: points.statement,
        set,
        label,
        wanted: wanted.as_slice(),
        is_alone: false,
    };
    draft_for(alloc, facts, search, &BEST)
}

/// The drafts of a scheme's families for points, where some words keep their labels and each family has one.
pub(crate) fn drafts_for(
    alloc: Global,
    facts: &Facts,
    scheme: &Scheme,
    points: &Points,
) -> Result<Option<Vec<Draft>>, Memory> {
    let sharing = sharing_drafts(alloc, facts, scheme, points)?;
    if sharing.as_slice().iter().all(|draft| draft.is_none()) {
        return Ok(None);
    }
    let mut all = Vec::new(alloc);
    for (plan, draft) in scheme.plans.as_slice().iter().zip(sharing) {
        let found = match draft {
            Some(draft) => Some(draft),
            None => other_draft(alloc, facts, plan, points)?,
        };
        let Some(draft) = found else {
            return Ok(None);
        };
        all.push(draft)?;
    }
    Ok(Some(all))
}

/// Whether a statement reads words that walks of a scheme's families know.
pub(crate) fn reads_known(facts: &Facts, scheme: &Scheme, statement: u16) -> bool {
    let Some(own) = facts.statement(statement) else {
        return false;
    };
    own.reads.as_slice().iter().any(|read| {
        scheme.plans.as_slice().iter().any(|plan| plan
            .drafts
            .as_slice()
            .iter()
            .any(|draft| is_known(draft, read)))
    })
}
