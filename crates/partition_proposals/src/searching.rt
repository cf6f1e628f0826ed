//! Walks that go on from all statements, looked for by trying reads in turn.

use crate::drafts::Draft;
use crate::effort::share;
use crate::labels::{is_repeated, rank, stepped_by};
use affine_facts::facts::Facts;
use affine_facts::numbers::short;
use affine_form::Memory;
use std::alloc::Global;

/// How many drafts are tried at most: fewer in a long program, where there are more of them and walks are longer.
fn most_trials(facts: &Facts) -> usize {
    share(facts, share(facts, 3072)).clamp(4, 48)
}

/// A draft, and the statements from which its walks don't go on yet.
#[derive(Drop)]
struct Open {
    draft: Draft,
    waiting: Vec<u16>,
}

/// A draft that waits for more.
fn opened(alloc: Global, draft: Draft, waiting: &[u16], fresh: Vec<u16>) -> Result<Open, Memory> {
    let mut all = Vec::from_slice(alloc, waiting)?;
    for statement in fresh {
        all.push(statement)?;
    }
    Ok(Open {
        draft,
        waiting: all,
    })
}

/// The drafts with a step from a statement by its reads of a rank, the last of these first, behind others.
fn with_reads(
    alloc: Global,
    facts: &Facts,
    draft: &Draft,
    waiting: &[u16],
    statement: u16,
    wanted: u8,
    mut open: Vec<Open>,
) -> Result<Vec<Open>, Memory> {
    let Some(source) = facts.statement(statement) else {
        return Ok(open);
    };
    for (number, read) in source.reads.as_slice().iter().enumerate().rev() {
        if rank(facts, statement, &read.access) == wanted && !is_repeated(source, number) {
            let found = stepped_by(alloc, facts, draft, statement, short(number), false)?;
            if let Some((with_step, fresh)) = found {
                open.push(opened(alloc, with_step, waiting, fresh)?)?;
            }
        }
    }
    Ok(open)
}

/// The drafts with a step from a statement, the best last, behind others; where there is none and the statement is in fewer loops
/// than a start, the draft as it is.
fn with_next(
    alloc: Global,
    facts: &Facts,
    depth: usize,
    draft: Draft,
    waiting: Vec<u16>,
    next: u16,
    mut open: Vec<Open>,
) -> Result<Vec<Open>, Memory> {
    let before = open.len();
    for wanted in [2u8, 1, 0] {
        open = with_reads(alloc, facts, &draft, waiting.as_slice(), next, wanted, open)?;
    }
    let is_shallow = match facts.statement(next) {
        Some(source) => source.depth() < depth,
        None => false,
    };
    if open.len() == before && is_shallow {
        open.push(Open { draft, waiting })?;
    }
    Ok(open)
}

/// The first draft found whose walks go on from each statement that is in as many loops as a start.
pub(crate) fn searched(
    alloc: Global,
    facts: &Facts,
    depth: usize,
    draft: Draft,
    waiting: Vec<u16>,
) -> Result<Option<Draft>, Memory> {
    let mut open = vec![in alloc; Open { draft, waiting }]?;
    for _trial in 0..most_trials(facts) {
        let Some(Open { draft, mut waiting }) = open.pop() else {
            return Ok(None);
        };
        let Some(next) = waiting.pop() else {
            return Ok(Some(draft));
        };
        open = with_next(alloc, facts, depth, draft, waiting, next, open)?;
    }
    Ok(None)
}
