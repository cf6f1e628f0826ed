//! Parts that gain: other statements that read the same words, and the instances of one counted again with two loops turned.

use crate::apart::Tried;
use crate::coordinates::Coordinates;
use crate::cutting::cut;
use crate::drafts::{Draft, all_copied};
use crate::effort::share;
use crate::gains::{Gain, gained, gained_by, most_gained};
use crate::placing::{Placed, placed_parts};
use crate::points::points_over;
use crate::schemes::{Scheme, longer};
use crate::sharing::{drafts_for, reads_known};
use affine_facts::facts::Facts;
use affine_facts::numbers::{narrow, short};
use affine_form::Memory;
use joint_partition::limits::PARTS;
use std::alloc::Global;

/// A scheme that is stronger, with the code of its ways.
#[derive(Drop)]
pub(crate) struct Stronger {
    pub(crate) scheme: Scheme,
    pub(crate) code: u32,
    gain: Gain,
}

/// Schemes that are weighed against each other: the strongest so far that gains more than so much, and how many more may be weighed.
#[derive(Drop)]
struct Contest {
    best: Option<Stronger>,
    least: Gain,
    left: usize,
}

impl Contest {
    /// How much is to be passed.
    fn bar(&self) -> Gain {
        match &self.best {
            Some(stronger) => stronger.gain,
            None => self.least,
        }
    }

    /// Weighs a scheme.
    fn weigh(&mut self, alloc: Global, facts: &Facts, scheme: Scheme) -> Result<(), Memory> {
        if self.left == 0 {
            return Ok(());
        }
        self.left = self.left.saturating_sub(1);
        if let Some((gain, code)) = gained(alloc, facts, &scheme)? {
            if gain.is_more(self.bar()) {
                self.best = Some(Stronger { scheme, code, gain });
            }
        }
        Ok(())
    }
}

/// Whether a scheme with these drafts for a part more would gain more than so much, were no words of two families one.
fn may_gain(
    alloc: Global,
    facts: &Facts,
    scheme: &Scheme,
    drafts: &[Draft],
    least: Gain,
) -> Result<bool, Memory> {
    let parts = scheme.parts.as_slice();
    let larger = longer(alloc, scheme, parts, all_copied(alloc, drafts)?)?;
    match most_gained(alloc, facts, &larger)? {
        Some(most) => Ok(most.is_more(least)),
        None => Ok(false),
    }
}

/// The drafts for the last of these parts: those for points that weren't moved, or else anew.
fn drafts_at(
    alloc: Global,
    facts: &Facts,
    scheme: &Scheme,
    placed: &Placed,
    drafts: &[Draft],
) -> Result<Option<Vec<Draft>>, Memory> {
    match placed.parts.as_slice().last() {
        Some(points) if placed.is_moved => drafts_for(alloc, facts, scheme, points),
        Some(_) => Ok(Some(all_copied(alloc, drafts)?)),
        None => Ok(None),
    }
}

/// The coordinates over which a statement may be a part more.
fn kinds_for(alloc: Global, scheme: &Scheme, is_same: bool) -> Result<Vec<Coordinates>, Memory> {
    let depth = scheme.depth();
    let mut all = Vec::new(alloc);
    match scheme.kind {
        Coordinates::Loops => {
            if !is_same {
                all.push(Coordinates::Loops)?;
            }
            for place in 0..depth.saturating_mul(depth) {
                let first = place.checked_div(depth).unwrap_or(0);
                let second = place.checked_rem(depth).unwrap_or(0);
                if first < second {
                    all.push(Coordinates::Turned(narrow(first), narrow(second)))?;
                }
            }
        }
        Coordinates::Timed(count, _) if !is_same => {
            all.push(Coordinates::Timed(count, narrow(scheme.parts.len())))?;
        }
        _ => {}
    }
    Ok(all)
}

/// Weighs the schemes with a statement over these coordinates as a part more.
fn weigh_over(
    alloc: Global,
    facts: &Facts,
    scheme: &Scheme,
    statement: u16,
    kind: Coordinates,
    contest: &mut Contest,
) -> Result<(), Memory> {
    let Some(points) = points_over(alloc, facts, statement, kind)? else {
        return Ok(());
    };
    let Some(drafts) = drafts_for(alloc, facts, scheme, &points)? else {
        return Ok(());
    };
    let drafts = drafts.as_slice();
    if !may_gain(alloc, facts, scheme, drafts, contest.bar())? {
        return Ok(());
    }
    for placed in placed_parts(alloc, facts, scheme, points, kind)? {
        if let Some(own) = drafts_at(alloc, facts, scheme, &placed, drafts)? {
            let parts = placed.parts.as_slice();
            contest.weigh(alloc, facts, longer(alloc, scheme, parts, own)?)?;
        }
    }
    Ok(())
}

/// Weighs the schemes with a statement as a part more.
fn weigh_with(
    alloc: Global,
    facts: &Facts,
    scheme: &Scheme,
    statement: u16,
    is_same: bool,
    contest: &mut Contest,
) -> Result<(), Memory> {
    for kind in kinds_for(alloc, scheme, is_same)? {
        if contest.left > 0 {
            weigh_over(alloc, facts, scheme, statement, kind, contest)?;
        }
    }
    Ok(())
}

/// Whether a statement may be a part more, beside the first part's own one: it is behind that in the text, in as many loops, and no part
/// yet.
fn is_other(facts: &Facts, scheme: &Scheme, first: u16, statement: u16) -> bool {
    let Some(own) = facts.statement(statement) else {
        return false;
    };
    let is_part = scheme
        .parts
        .as_slice()
        .iter()
        .any(|points| points.statement == statement);
    statement > first && own.depth() == scheme.depth() && !is_part
}

/// Weighs the schemes with another statement as a part more, of those that read words of the scheme's; the first ones alone in a long
/// program.
fn weigh_others(
    alloc: Global,
    facts: &Facts,
    scheme: &Scheme,
    first: u16,
    contest: &mut Contest,
) -> Result<(), Memory> {
    let mut left = share(facts, 128).max(4);
    for number in 0..facts.statements.len() {
        let statement = short(number);
        if left > 0
            && is_other(facts, scheme, first, statement)
            && reads_known(facts, scheme, statement)
        {
            left = left.saturating_sub(1);
            weigh_with(alloc, facts, scheme, statement, false, contest)?;
        }
    }
    Ok(())
}

/// The strongest scheme with a part more, where one gains more than so much: of another statement, or, where there is one part, of its own
/// statement.
fn grown_once(
    alloc: Global,
    facts: &Facts,
    scheme: &Scheme,
    least: Gain,
) -> Result<Option<Stronger>, Memory> {
    let Some(first) = scheme.parts.as_slice().first() else {
        return Ok(None);
    };
    let first = first.statement;
    let mut contest = Contest {
        best: None,
        least,
        left: share(facts, 128).max(4),
    };
    weigh_others(alloc, facts, scheme, first, &mut contest)?;
    if scheme.parts.len() == 1 {
        weigh_with(alloc, facts, scheme, first, true, &mut contest)?;
    }
    Ok(contest.best)
}

/// The scheme with its one part cut, where that gains more than so much.
fn cut_better(
    alloc: Global,
    facts: &Facts,
    scheme: &Scheme,
    least: Gain,
) -> Result<Option<Stronger>, Memory> {
    let Some(scheme) = cut(alloc, facts, scheme)? else {
        return Ok(None);
    };
    match gained(alloc, facts, &scheme)? {
        Some((gain, code)) if gain.is_more(least) => Ok(Some(Stronger { scheme, code, gain })),
        _ => Ok(None),
    }
}

/// Schemes with parts more, each with one more than that before it, as long as one gains; or else the scheme with its one part cut, where
/// that gains.
pub(crate) fn grown(
    alloc: Global,
    facts: &Facts,
    scheme: &Scheme,
    tried: &Tried,
) -> Result<Vec<Stronger>, Memory> {
    let mut all: Vec<Stronger> = Vec::new(alloc);
    let Some((gain, _code)) = gained_by(alloc, facts, scheme, tried)? else {
        return Ok(all);
    };
    for _turn in 1..PARTS {
        let found = match all.as_slice().last() {
            Some(last) => grown_once(alloc, facts, &last.scheme, last.gain)?,
            None => grown_once(alloc, facts, scheme, gain)?,
        };
        match found {
            Some(stronger) => all.push(stronger)?,
            None => return with_cut(alloc, facts, scheme, gain, all),
        }
    }
    Ok(all)
}

/// The scheme with its one part cut, where that gains more than so much, if there are no others.
fn with_cut(
    alloc: Global,
    facts: &Facts,
    scheme: &Scheme,
    least: Gain,
    mut all: Vec<Stronger>,
) -> Result<Vec<Stronger>, Memory> {
    if all.is_empty() {
        if let Some(stronger) = cut_better(alloc, facts, scheme, least)? {
            all.push(stronger)?;
        }
    }
    Ok(all)
}
