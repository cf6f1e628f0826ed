//! The families of a term with their claims, and the drafts of their parts anew.

use crate::drafts::{Draft, Way, kept_within};
use crate::entries::{Room, Work};
use crate::labels::drafted;
use crate::merged::{Merged, merge_drafts};
use crate::points::Points;
use crate::walks::{Made, Shown, begun, family, points_restricted};
use affine_facts::facts::Facts;
use affine_facts::nests::copied_bounds;
use affine_facts::words::Words;
use affine_form::Memory;
use iolb_model::limits;
use std::alloc::Global;
use std::slice;

/// The families of a term, each with its words.
#[derive(Drop)]
pub(crate) struct Families {
    pub(crate) families: Vec<Shown>,
    pub(crate) words: Vec<Vec<Words>>,
    pub(crate) work: Work,
}

/// What may be made of families over a work: all, each with its words; or a change by which there may be some; or nothing.
#[derive(Drop)]
enum AllMade {
    Whole(Vec<Shown>, Vec<Vec<Words>>),
    Again,
    Fails,
}

/// The families with their claims, over a work as it stands.
fn all_made(
    alloc: Global,
    facts: &Facts,
    all: &mut [Merged],
    weights: &[u8],
    work: &mut Work,
) -> Result<AllMade, Memory> {
    let mut families = Vec::new(alloc);
    let mut words = Vec::new(alloc);
    for (one, weight) in all.iter_mut().zip(weights.iter()) {
        match family(alloc, facts, one, work, *weight)? {
            Made::Fails => return Ok(AllMade::Fails),
            Made::Again => return Ok(AllMade::Again),
            Made::Made(made, some) => {
                families.push(made)?;
                words.push(some)?;
            }
        }
    }
    Ok(AllMade::Whole(families, words))
}

/// The families over the points of parts, with so many credited nests at most, where all can be made.
pub(crate) fn families_over(
    alloc: Global,
    facts: &Facts,
    parts: &[Points],
    all: &mut [Merged],
    weights: &[u8],
    room: Room,
    most: usize,
) -> Result<Option<Families>, Memory> {
    let mut work = begun(alloc, parts, room, most)?;
    if !points_restricted(alloc, facts, all, &mut work)? {
        return Ok(None);
    }
    for _turn in 0..10 {
        work.stops = Vec::new(alloc);
        match all_made(alloc, facts, all, weights, &mut work)? {
            AllMade::Fails => return Ok(None),
            AllMade::Again => {}
            AllMade::Whole(families, words) => {
                return Ok(Some(Families {
                    families,
                    words,
                    work,
                }));
            }
        }
    }
    Ok(None)
}

/// Whether a draft's family can be made by itself, over all instances of its statement.
pub(crate) fn is_made_alone(alloc: Global, facts: &Facts, draft: &Draft) -> Result<bool, Memory> {
    let Some(own) = facts.statement(draft.statement) else {
        return Ok(false);
    };
    let points = Points {
        statement: draft.statement,
        bounds: copied_bounds(alloc, own.nest.as_slice())?,
        image: Vec::new(alloc),
    };
    let Some(one) = merge_drafts(alloc, slice::from_ref(draft))? else {
        return Ok(false);
    };
    let mut all = vec![in alloc; one]?;
    let all = all.as_mut_slice();
    let parts = slice::from_ref(&points);
    let most = limits::CREDITS;
    Ok(families_over(alloc, facts, parts, all, &[1], Room::Wide, most)?.is_some())
}

/// The way of a number.
pub(crate) fn way_of(number: u32) -> Way {
    match number {
        0 => Way::Whole,
        1 => Way::Short,
        _ => Way::Dry,
    }
}

/// A draft anew, by a way, where the drafts of earlier parts are these.
fn draft_anew(
    alloc: Global,
    facts: &Facts,
    draft: &Draft,
    way: Way,
    earlier: &[Draft],
) -> Result<Option<Draft>, Memory> {
    let seed = match draft.seed {
        Some(part) => earlier.get(part),
        None => None,
    };
    match drafted(alloc, facts, draft.request(way), seed)? {
        Some(mut made) => {
            made.seed = draft.seed;
            Ok(Some(kept_within(alloc, made, draft.within.as_slice())?))
        }
        None => Ok(None),
    }
}

/// The drafts of a family's parts anew, by a way.
pub(crate) fn anew(
    alloc: Global,
    facts: &Facts,
    drafts: &[Draft],
    way: Way,
) -> Result<Option<Vec<Draft>>, Memory> {
    let mut all: Vec<Draft> = Vec::new(alloc);
    for draft in drafts {
        let Some(made) = draft_anew(alloc, facts, draft, way, all.as_slice())? else {
            return Ok(None);
        };
        all.push(made)?;
    }
    Ok(Some(all))
}
