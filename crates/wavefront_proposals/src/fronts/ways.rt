//! Ways back from a vertex to a word, thought out without multipliers.

use crate::fronts::turns::read_of_turn;
use affine_facts::affine::{Affine, copies};
use affine_facts::facts::{Facts, Origin, ReadFacts, StatementFacts};
use affine_facts::numbers::short;
use affine_facts::shown::{Rows, all_put, all_shown, are_same};
use affine_form::Memory;
use std::alloc::Global;

/// How many steps a way has at most past its first.
const STEPS: usize = 3;

/// How many ways are followed side by side.
const TRAILS: usize = 32;

/// An instance for each point of a nest: a statement with its loop values, as forms over the parameters and the nest's
/// variables.
#[derive(Drop)]
pub(crate) struct Instance {
    pub(crate) statement: u16,
    pub(crate) point: Vec<Affine>,
}

/// How a reduction goes back along one of its loops: from any value on to this one, by the read of its own word.
#[derive(Drop)]
pub(crate) struct Turn {
    pub(crate) place: usize,
    pub(crate) least: Affine,
    pub(crate) again: u16,
}

/// A step of a way: from an instance, or from those of a reduction, by a read.
#[derive(Drop)]
pub(crate) struct Step {
    pub(crate) from: Instance,
    pub(crate) turn: Option<Turn>,
    pub(crate) read: u16,
}

/// The instances and reads from and by which steps were made so far, and the instance to which they lead.
#[derive(Drop)]
struct Trail {
    steps: Vec<(Instance, u16)>,
    at: Instance,
}

impl Instance {
    pub(crate) fn copied(&self, alloc: Global) -> Result<Instance, Memory> {
        Ok(Instance {
            statement: self.statement,
            point: copies(alloc, self.point.as_slice())?,
        })
    }
}

/// The steps of a way, and a last one.
fn ended(alloc: Global, trail: Trail, last: Step) -> Result<Vec<Step>, Memory> {
    let mut steps = Vec::new(alloc);
    for (from, read) in trail.steps {
        steps.push(Step {
            from,
            turn: None,
            read,
        })?;
    }
    steps.push(last)?;
    Ok(steps)
}

/// The value of a loop at which one of the forms has its wanted value, where a form has no other loop than this one.
fn solved(
    alloc: Global,
    params: usize,
    place: usize,
    forms: &[Affine],
    wanted: &[Affine],
) -> Result<Option<Affine>, Memory> {
    let variable = params.saturating_add(place);
    for (form, value) in forms.iter().zip(wanted.iter()) {
        if form.only_loop(params) == Some(place) {
            let sign = form.at(variable);
            let mut rest = form.copied(alloc)?;
            rest.add_variable(variable, sign.saturating_neg())?;
            let mut found = Affine::number(alloc, 0);
            found.add(&value.less(alloc, &rest, 0)?, sign)?;
            return Ok(Some(found));
        }
    }
    Ok(None)
}

/// The loop values that are near an instance's and at which forms have their wanted values: those that aren't told by a
/// form are the instance's.
fn reading_values(
    alloc: Global,
    params: usize,
    near: &[Affine],
    forms: &[Affine],
    wanted: &[Affine],
) -> Result<Option<Vec<Affine>>, Memory> {
    let mut values = Vec::new(alloc);
    for (place, value) in near.iter().enumerate() {
        values.push(match solved(alloc, params, place, forms, wanted)? {
            Some(found) => found,
            None => value.copied(alloc)?,
        })?;
    }
    let reached = all_put(alloc, params, forms, values.as_slice())?;
    if are_same(reached.as_slice(), wanted) {
        Ok(Some(values))
    } else {
        Ok(None)
    }
}

/// The loops whose values differ.
fn differing(alloc: Global, first: &[Affine], second: &[Affine]) -> Result<Vec<usize>, Memory> {
    let mut places = Vec::new(alloc);
    for (place, (one, other)) in first.iter().zip(second.iter()).enumerate() {
        if !one.is_same(other) {
            places.push(place)?;
        }
    }
    Ok(places)
}

/// Whether an instance is seen to be no earlier in a loop than a value.
fn is_from(
    alloc: Global,
    given: &Rows,
    at: &Instance,
    place: usize,
    least: &Affine,
) -> Result<bool, Memory> {
    let Some(own) = at.point.get(place) else {
        return Ok(false);
    };
    let goals = vec![in alloc; own.less(alloc, least, 0)?]?;
    Ok(all_shown(alloc, given, goals.as_slice())?.is_some())
}

/// The last step of a way, from an instance by a read whose word is the wanted one at these loop values: at once, or back along
/// one loop of a reduction.
fn step_by(
    alloc: Global,
    facts: &Facts,
    given: &Rows,
    at: &Instance,
    own: &StatementFacts,
    read: u16,
    values: &[Affine],
) -> Result<Option<Step>, Memory> {
    let places = differing(alloc, at.point.as_slice(), values)?;
    let mut turn = None;
    match places.as_slice() {
        [] => {}
        [place] => {
            let statement = at.statement;
            let place = *place;
            let Some(again) = read_of_turn(alloc, facts.params, statement, place, own)? else {
                return Ok(None);
            };
            let Some(least) = values.get(place) else {
                return Ok(None);
            };
            if !is_from(alloc, given, at, place, least)? {
                return Ok(None);
            }
            let least = least.copied(alloc)?;
            turn = Some(Turn {
                place,
                least,
                again,
            });
        }
        _ => return Ok(None),
    }
    let from = at.copied(alloc)?;
    Ok(Some(Step { from, turn, read }))
}

/// The last step of a way, from an instance to a word.
fn last_step(
    alloc: Global,
    facts: &Facts,
    given: &Rows,
    at: &Instance,
    word: &Instance,
) -> Result<Option<Step>, Memory> {
    let Some(own) = facts.statement(at.statement) else {
        return Ok(None);
    };
    for (number, read) in own.reads.as_slice().iter().enumerate() {
        let found = step_to(alloc, facts, given, at, own, short(number), read, word)?;
        if found.is_some() {
            return Ok(found);
        }
    }
    Ok(None)
}

/// The last step of a way by a read, from an instance to a word.
fn step_to(
    alloc: Global,
    facts: &Facts,
    given: &Rows,
    at: &Instance,
    own: &StatementFacts,
    number: u16,
    read: &ReadFacts,
    word: &Instance,
) -> Result<Option<Step>, Memory> {
    let wanted = word.point.as_slice();
    let near = at.point.as_slice();
    for leaf in read.leaves.as_slice() {
        if let Origin::Instance { statement, point } = &leaf.origin {
            if *statement == word.statement {
                let forms = point.as_slice();
                let found = reading_values(alloc, facts.params, near, forms, wanted)?;
                if let Some(values) = found {
                    let step = step_by(alloc, facts, given, at, own, number, values.as_slice())?;
                    if step.is_some() {
                        return Ok(step);
                    }
                }
            }
        }
    }
    Ok(None)
}

/// Whether a way comes to a statement.
fn comes_to(trail: &Trail, statement: u16) -> bool {
    trail.at.statement == statement
        || trail
            .steps
            .as_slice()
            .iter()
            .any(|(from, _)| from.statement == statement)
}

/// A way with one step more.
fn extended(
    alloc: Global,
    facts: &Facts,
    trail: &Trail,
    read: u16,
    statement: u16,
    point: &[Affine],
) -> Result<Trail, Memory> {
    let mut steps = Vec::new(alloc);
    for (from, read) in trail.steps.as_slice() {
        steps.push((from.copied(alloc)?, *read))?;
    }
    let from = trail.at.copied(alloc)?;
    let point = all_put(alloc, facts.params, point, from.point.as_slice())?;
    steps.push((from, read))?;
    let at = Instance { statement, point };
    Ok(Trail { steps, at })
}

/// The ways with one step more by a read, to statements to which they didn't come before.
fn extended_by(
    alloc: Global,
    facts: &Facts,
    trail: &Trail,
    number: u16,
    read: &ReadFacts,
    mut more: Vec<Trail>,
) -> Result<Vec<Trail>, Memory> {
    for leaf in read.leaves.as_slice() {
        if let Origin::Instance { statement, point } = &leaf.origin {
            if more.len() < TRAILS && !comes_to(trail, *statement) {
                let point = point.as_slice();
                more.push(extended(alloc, facts, trail, number, *statement, point)?)?;
            }
        }
    }
    Ok(more)
}

/// The ways with one step more, behind others.
fn all_extended(
    alloc: Global,
    facts: &Facts,
    trail: &Trail,
    mut more: Vec<Trail>,
) -> Result<Vec<Trail>, Memory> {
    let Some(own) = facts.statement(trail.at.statement) else {
        return Ok(more);
    };
    for (number, read) in own.reads.as_slice().iter().enumerate() {
        more = extended_by(alloc, facts, trail, short(number), read, more)?;
    }
    Ok(more)
}

/// The first of the ways that leads to the word by one step more, with that; or all that go on.
fn followed_once(
    alloc: Global,
    facts: &Facts,
    given: &Rows,
    trails: Vec<Trail>,
    word: &Instance,
) -> Result<(Option<Vec<Step>>, Vec<Trail>), Memory> {
    let mut more = Vec::new(alloc);
    for trail in trails {
        if let Some(step) = last_step(alloc, facts, given, &trail.at, word)? {
            return Ok((Some(ended(alloc, trail, step)?), more));
        }
        more = all_extended(alloc, facts, &trail, more)?;
    }
    Ok((None, more))
}

/// The steps of a way back from a vertex to a word at all points of a nest, whose rows are given, where one is found.
pub(crate) fn way_to(
    alloc: Global,
    facts: &Facts,
    given: &Rows,
    vertex: &Instance,
    word: &Instance,
) -> Result<Option<Vec<Step>>, Memory> {
    let first = Trail {
        steps: Vec::new(alloc),
        at: vertex.copied(alloc)?,
    };
    let mut trails = vec![in alloc; first]?;
    for _turn in 0..STEPS {
        let (found, more) = followed_once(alloc, facts, given, trails, word)?;
        if found.is_some() {
            return Ok(found);
        }
        trails = more;
    }
    Ok(None)
}
