//! Families from which a cover of the coordinates of points is chosen.

use crate::drafts::{Choice, Draft, Request, Way};
use crate::families::is_made_alone;
use crate::labels::{drafted, is_repeated};
use crate::points::Points;
use affine_facts::affine::Affine;
use affine_facts::facts::{Facts, Origin, ReadFacts, StatementFacts};
use affine_facts::numbers::{narrow, short};
use affine_facts::placed::stands_in;
use affine_form::Memory;
use cover_lp::{CoordSet, CoverFault, least_cover};
use iolb_model::limits;
use std::alloc::Global;

/// The coordinates of a family: all but one, by their numbers.
fn all_but(alloc: Global, depth: usize, left_out: usize) -> Result<Vec<u8>, Memory> {
    let mut set = Vec::new(alloc);
    for place in 0..depth {
        if place != left_out {
            set.push(narrow(place))?;
        }
    }
    Ok(set)
}

/// The loops that stand in forms.
pub(crate) fn named(
    alloc: Global,
    params: usize,
    depth: usize,
    subs: &[Affine],
) -> Result<Vec<u8>, Memory> {
    let mut set = Vec::new(alloc);
    for place in 0..depth {
        if stands_in(subs, params.saturating_add(place)) {
            set.push(narrow(place))?;
        }
    }
    Ok(set)
}

/// What family is looked for: of a statement, with these coordinates and this label of a start; and which loops are to stand in the
/// subscripts of its read, and whether it has to be one that can be made by itself.
#[derive(Clone, Copy)]
pub(crate) struct Search<'a> {
    pub(crate) statement: u16,
    pub(crate) set: &'a [u8],
    pub(crate) label: &'a [Affine],
    pub(crate) wanted: &'a [u8],
    pub(crate) is_alone: bool,
}

impl<'a> Search<'a> {
    /// What the family is asked to be by a read.
    fn request(self, read: u16, choice: Choice) -> Request<'a> {
        Request {
            statement: self.statement,
            read,
            set: self.set,
            label: self.label,
            way: Way::Whole,
            choice,
        }
    }
}

/// The family of a read that is looked for. Where each source of the read can have the label, no choice that leaves some out is tried,
/// since it would be the same.
fn draft_of(
    alloc: Global,
    facts: &Facts,
    search: Search,
    read: u16,
    choice: Choice,
) -> Result<Option<Draft>, Memory> {
    if choice == Choice::Loose {
        let strict = search.request(read, Choice::Strict);
        if drafted(alloc, facts, strict, None)?.is_some() {
            return Ok(None);
        }
    }
    if let Some(draft) = drafted(alloc, facts, search.request(read, choice), None)? {
        if !search.is_alone || is_made_alone(alloc, facts, &draft)? {
            return Ok(Some(draft));
        }
    }
    Ok(None)
}

/// Whether each instance reads an input cell of its own, so that no word is used twice.
fn is_used_once(depth: usize, read: &ReadFacts, loops: &[u8]) -> bool {
    let inputs = read
        .leaves
        .as_slice()
        .iter()
        .all(|leaf| matches!(leaf.origin, Origin::Input));
    inputs && loops.len() == depth
}

/// The family that is looked for, by the first read that has one, among those whose subscripts are in just the wanted loops, or among the
/// others. A read of words that are used once has none.
fn draft_among(
    alloc: Global,
    facts: &Facts,
    search: Search,
    is_named: bool,
    choice: Choice,
) -> Result<Option<Draft>, Memory> {
    let Some(own) = facts.statement(search.statement) else {
        return Ok(None);
    };
    let depth = own.depth();
    for (number, read) in own.reads.as_slice().iter().enumerate() {
        let loops = named(alloc, facts.params, depth, read.access.subs.as_slice())?;
        let loops = loops.as_slice();
        let is_apt = (loops == search.wanted) == is_named && !is_repeated(own, number);
        if is_apt && !is_used_once(depth, read, loops) {
            let found = draft_of(alloc, facts, search, short(number), choice)?;
            if found.is_some() {
                return Ok(found);
            }
        }
    }
    Ok(None)
}

/// The family that is looked for, by the first of these orders that has one: of a read whose subscripts are in just the wanted loops, or
/// of another, and by a choice.
pub(crate) fn draft_for(
    alloc: Global,
    facts: &Facts,
    search: Search,
    orders: &[(bool, Choice)],
) -> Result<Option<Draft>, Memory> {
    for (is_named, choice) in orders {
        let found = draft_among(alloc, facts, search, *is_named, *choice)?;
        if found.is_some() {
            return Ok(found);
        }
    }
    Ok(None)
}

/// In which order reads are looked at, whether those whose subscripts are in just some loops, and how walks go on from them.
pub(crate) const BEST: [(bool, Choice); 4] = [
    (true, Choice::Strict),
    (false, Choice::Strict),
    (true, Choice::Loose),
    (false, Choice::Loose),
];

/// In which order reads are looked at by walks that are tried in turn.
const TRIED: [(bool, Choice); 2] = [(true, Choice::Tried), (false, Choice::Tried)];

/// Whether a list of sets has one already.
fn has_set(drafts: &[Draft], set: &[u8]) -> bool {
    drafts.iter().any(|draft| draft.set.as_slice() == set)
}

/// The family of a set of coordinates of points, by one of these choices.
fn draft_over(
    alloc: Global,
    facts: &Facts,
    points: &Points,
    set: &[u8],
    orders: &[(bool, Choice)],
) -> Result<Option<Draft>, Memory> {
    let label = points.label(alloc, set)?;
    let search = Search {
        statement: points.statement,
        set,
        label: label.as_slice(),
        wanted: set,
        is_alone: true,
    };
    draft_for(alloc, facts, search, orders)
}

/// The sets of coordinates that may have a family: the loops that stand in a read's subscripts, and all coordinates but one.
fn sets_of(alloc: Global, params: usize, own: &StatementFacts) -> Result<Vec<Vec<u8>>, Memory> {
    let depth = own.depth();
    let mut sets = Vec::new(alloc);
    for read in own.reads.as_slice() {
        sets.push(named(alloc, params, depth, read.access.subs.as_slice())?)?;
    }
    all_but_one(alloc, depth, sets)
}

/// All coordinates but one, behind other sets.
fn all_but_one(
    alloc: Global,
    depth: usize,
    mut sets: Vec<Vec<u8>>,
) -> Result<Vec<Vec<u8>>, Memory> {
    for place in 0..depth {
        sets.push(all_but(alloc, depth, place)?)?;
    }
    Ok(sets)
}

/// The families from which a cover is chosen: one for each set of coordinates that has one.
pub(crate) fn choices(alloc: Global, facts: &Facts, points: &Points) -> Result<Vec<Draft>, Memory> {
    let mut all = Vec::new(alloc);
    let Some(own) = facts.statement(points.statement) else {
        return Ok(all);
    };
    for set in sets_of(alloc, facts.params, own)? {
        if set.len() < own.depth()
            && set.len() > 0
            && all.len() < limits::FAMILIES
            && !has_set(all.as_slice(), set.as_slice())
        {
            if let Some(draft) = draft_over(alloc, facts, points, set.as_slice(), &BEST)? {
                all.push(draft)?;
            }
        }
    }
    Ok(all)
}

/// The families from which a cover is chosen, with more for each set of all coordinates but one that has none so far: of walks
/// that are tried in turn.
pub(crate) fn with_tried(
    alloc: Global,
    facts: &Facts,
    points: &Points,
    mut all: Vec<Draft>,
) -> Result<Vec<Draft>, Memory> {
    for set in all_but_one(alloc, points.bounds.len(), Vec::new(alloc))? {
        if !set.is_empty()
            && all.len() < limits::FAMILIES
            && !has_set(all.as_slice(), set.as_slice())
        {
            if let Some(draft) = draft_over(alloc, facts, points, set.as_slice(), &TRIED)? {
                all.push(draft)?;
            }
        }
    }
    Ok(all)
}

/// A least cover by the sets of drafts: the weight of each, and how often coordinates are covered.
pub(crate) fn cover(
    alloc: Global,
    drafts: &[Draft],
    depth: usize,
) -> Result<Option<(Vec<u8>, u8)>, Memory> {
    let mut sets = Vec::new(alloc);
    for draft in drafts {
        sets.push(CoordSet::new(Vec::from_slice(alloc, draft.set.as_slice())?))?;
    }
    match least_cover(alloc, sets.as_slice(), narrow(depth)) {
        Ok(cover) => Ok(Some((Vec::from_slice(alloc, cover.weights())?, cover.q()))),
        Err(CoverFault::Memory) => Err(Memory),
        Err(_) => Ok(None),
    }
}

/// The drafts whose weight isn't 0, and these weights.
pub(crate) fn weighted(
    alloc: Global,
    drafts: Vec<Draft>,
    weights: &[u8],
) -> Result<(Vec<Draft>, Vec<u8>), Memory> {
    let mut kept = Vec::new(alloc);
    let mut numbers = Vec::new(alloc);
    for (draft, weight) in drafts.into_iter().zip(weights.iter()) {
        if *weight > 0 {
            kept.push(draft)?;
            numbers.push(*weight)?;
        }
    }
    Ok((kept, numbers))
}
