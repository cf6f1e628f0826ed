//! Families with what is claimed at their leaves, as far as multipliers are found.

use crate::drafts::Draft;
use crate::entries::{At, Room, Work};
use crate::merged::{Course, Merged, Opening};
use crate::nodes::{Nodes, nodes_of};
use crate::points::{Points, all_points};
use crate::taking::{Walked, walk_by, with_words};
use affine_facts::affine::{Affine, loops};
use affine_facts::facts::Facts;
use affine_facts::nests::{instance_rows, ranged, tightened, wide_loops};
use affine_facts::shown::{all_forms, within};
use affine_facts::words::Words;
use affine_form::{Form, Memory};
use cover_lp::CoordSet;
use reuse_paths::{FamilyNode, Walk};
use std::alloc::Global;

/// A way of a family's walks with its claims: the number of its labeling, one or no node for each statement, and the labels of cells.
#[derive(Drop)]
pub(crate) struct ShownWay {
    pub(crate) labeling: usize,
    pub(crate) nodes: Vec<Option<FamilyNode>>,
    pub(crate) inputs: Vec<Option<Box<Vec<Form>>>>,
}

/// How walks start from a part, with the claims: the number of the way that they enter, and the walk.
#[derive(Drop)]
pub(crate) struct ShownStart {
    pub(crate) way: usize,
    pub(crate) tree: Walk,
}

/// A family with its claims, as either kind of term has it: the coordinates of its set with a weight, the label of a start from the
/// first part, a start for each part, and its ways.
#[derive(Drop)]
pub(crate) struct Shown {
    pub(crate) set: CoordSet,
    pub(crate) weight: u8,
    pub(crate) start_label: Vec<Form>,
    pub(crate) starts: Vec<ShownStart>,
    pub(crate) ways: Vec<ShownWay>,
}

/// What may be made of something: it with its words; or a change by which there may be some; or nothing.
#[derive(Drop)]
pub(crate) enum Made<T> {
    Made(T, Vec<Words>),
    Again,
    Fails,
}

/// The labels of cells as forms.
fn inputs(
    alloc: Global,
    facts: &Facts,
    draft: &Draft,
) -> Result<Option<Vec<Option<Box<Vec<Form>>>>>, Memory> {
    let mut all = Vec::new(alloc);
    for (array, label) in draft.cells.as_slice().iter().enumerate() {
        let cell = match label {
            None => None,
            Some(label) => {
                let vars = facts.params.saturating_add(facts.subscripts(array));
                let Some(forms) = all_forms(alloc, vars, label.as_slice())? else {
                    return Ok(None);
                };
                Some(Box::new(alloc, forms)?)
            }
        };
        all.push(cell)?;
    }
    Ok(Some(all))
}

/// How walks start from points: the walk with its words, or a row that the points have to meet.
fn start(
    alloc: Global,
    facts: &Facts,
    draft: &Draft,
    opening: &Opening,
    points: &Points,
    work: &mut Work,
) -> Result<Walked, Memory> {
    let Some(read) = facts.read(points.statement, opening.read) else {
        return Ok(Walked::Fails);
    };
    let Some(own) = facts.statement(points.statement) else {
        return Ok(Walked::Fails);
    };
    let values = loops(alloc, facts.params, own.depth())?;
    let nest = within(
        alloc,
        facts.params,
        points.bounds.as_slice(),
        values.as_slice(),
    )?;
    let given = instance_rows(alloc, facts, own, nest.as_slice())?;
    let at = At {
        facts,
        draft,
        bounds: own.nest.as_slice(),
        label: opening.label.as_slice(),
    };
    walk_by(alloc, &at, work, &given, opening.read, read)
}

/// The bounds of points restricted to a row, where that can be had.
fn restricted(
    alloc: Global,
    facts: &Facts,
    bounds: &[(Affine, Affine)],
    row: &Affine,
) -> Result<Option<Vec<(Affine, Affine)>>, Memory> {
    let Some(bounds) = tightened(alloc, facts.params, bounds, row)? else {
        return Ok(None);
    };
    let Some(bounds) = ranged(alloc, facts, bounds)? else {
        return Ok(None);
    };
    if wide_loops(alloc, bounds.as_slice())? < bounds.len() {
        return Ok(None);
    }
    Ok(Some(bounds))
}

/// Whether the points of a part can be restricted to a row, and then they are.
fn restricts(
    alloc: Global,
    facts: &Facts,
    work: &mut Work,
    part: usize,
    row: &Affine,
) -> Result<bool, Memory> {
    let Some(points) = work.parts.get_mut(part) else {
        return Ok(false);
    };
    match restricted(alloc, facts, points.bounds.as_slice(), row)? {
        Some(bounds) => {
            points.bounds = bounds;
            Ok(true)
        }
        None => Ok(false),
    }
}

/// What is to be made anew where something could be restricted, and else nothing.
fn again<T>(is_restricted: bool) -> Made<T> {
    if is_restricted {
        Made::Again
    } else {
        Made::Fails
    }
}

/// The start of a family from a part.
fn start_of(
    alloc: Global,
    facts: &Facts,
    courses: &[Course],
    opening: &Opening,
    part: usize,
    work: &mut Work,
) -> Result<Made<ShownStart>, Memory> {
    let (Some(course), Some(points)) = (courses.get(opening.course), work.parts.get(part)) else {
        return Ok(Made::Fails);
    };
    let points = points.copied(alloc)?;
    match start(alloc, facts, &course.draft, opening, &points, work)? {
        Walked::Made(tree, some) => {
            let way = opening.course;
            Ok(Made::Made(ShownStart { way, tree }, some))
        }
        Walked::Fails => Ok(Made::Fails),
        Walked::Restrict(row) => Ok(again(restricts(alloc, facts, work, part, &row)?)),
    }
}

/// The starts of a family.
fn starts_of(
    alloc: Global,
    facts: &Facts,
    merged: &Merged,
    work: &mut Work,
) -> Result<Made<Vec<ShownStart>>, Memory> {
    let mut all = Vec::new(alloc);
    let mut words = Vec::new(alloc);
    let courses = merged.courses.as_slice();
    for (part, opening) in merged.openings.as_slice().iter().enumerate() {
        match start_of(alloc, facts, courses, opening, part, work)? {
            Made::Made(start, some) => {
                all.push(start)?;
                words = with_words(words, some)?;
            }
            Made::Again => return Ok(Made::Again),
            Made::Fails => return Ok(Made::Fails),
        }
    }
    Ok(Made::Made(all, words))
}

/// A way of a family. Where a leaf can't be claimed, how far walks go on is restricted.
fn way_of(
    alloc: Global,
    facts: &Facts,
    course: &mut Course,
    work: &mut Work,
) -> Result<Made<ShownWay>, Memory> {
    match nodes_of(alloc, facts, &course.draft, work)? {
        Nodes::Made(nodes, words) => match inputs(alloc, facts, &course.draft)? {
            Some(inputs) => {
                let way = ShownWay {
                    labeling: course.labeling,
                    nodes,
                    inputs,
                };
                Ok(Made::Made(way, words))
            }
            None => Ok(Made::Fails),
        },
        Nodes::Fails => Ok(Made::Fails),
        Nodes::Restrict(statement, row) => Ok(again(course.draft.restrict(statement, row)?)),
    }
}

/// The ways of a family.
fn ways_of(
    alloc: Global,
    facts: &Facts,
    courses: &mut [Course],
    work: &mut Work,
) -> Result<Made<Vec<ShownWay>>, Memory> {
    let mut all = Vec::new(alloc);
    let mut words = Vec::new(alloc);
    for course in courses.iter_mut() {
        match way_of(alloc, facts, course, work)? {
            Made::Made(way, some) => {
                all.push(way)?;
                words = with_words(words, some)?;
            }
            Made::Again => return Ok(Made::Again),
            Made::Fails => return Ok(Made::Fails),
        }
    }
    Ok(Made::Made(all, words))
}

/// The label of a start from the first part as forms.
fn first_label(
    alloc: Global,
    facts: &Facts,
    depth: usize,
    openings: &[Opening],
) -> Result<Option<Vec<Form>>, Memory> {
    let Some(first) = openings.first() else {
        return Ok(None);
    };
    let vars = facts.params.saturating_add(depth);
    all_forms(alloc, vars, first.label.as_slice())
}

/// What may be made of a family as it stands: it with its words; or a change of a part's points, or of how far walks go on, by which
/// there may be one; or nothing.
#[derive(Drop)]
enum Turn {
    Made(Shown, Vec<Words>),
    OtherPoints,
    OtherWays,
    Fails,
}

/// A family with all claims, as it stands.
fn family_once(
    alloc: Global,
    facts: &Facts,
    merged: &mut Merged,
    work: &mut Work,
    weight: u8,
) -> Result<Turn, Memory> {
    let (starts, words) = match starts_of(alloc, facts, merged, work)? {
        Made::Made(starts, words) => (starts, words),
        Made::Again => return Ok(Turn::OtherPoints),
        Made::Fails => return Ok(Turn::Fails),
    };
    let (ways, more) = match ways_of(alloc, facts, merged.courses.as_mut_slice(), work)? {
        Made::Made(ways, more) => (ways, more),
        Made::Again => return Ok(Turn::OtherWays),
        Made::Fails => return Ok(Turn::Fails),
    };
    let openings = merged.openings.as_slice();
    let Some(start_label) = first_label(alloc, facts, work.depth, openings)? else {
        return Ok(Turn::Fails);
    };
    let shown = Shown {
        set: CoordSet::new(Vec::from_slice(alloc, merged.set.as_slice())?),
        weight,
        start_label,
        starts,
        ways,
    };
    Ok(Turn::Made(shown, with_words(words, more)?))
}

/// A family with all claims. Where a leaf can't be claimed, how far walks go on is restricted, and it is made anew, or the points of a
/// part are, and all families are to be made anew.
pub(crate) fn family(
    alloc: Global,
    facts: &Facts,
    merged: &mut Merged,
    work: &mut Work,
    weight: u8,
) -> Result<Made<Shown>, Memory> {
    let before = work.stops.len();
    for _turn in 0..8 {
        match family_once(alloc, facts, merged, work, weight)? {
            Turn::Made(shown, words) => return Ok(Made::Made(shown, words)),
            Turn::OtherPoints => return Ok(Made::Again),
            Turn::OtherWays => work.stops.truncate(before),
            Turn::Fails => return Ok(Made::Fails),
        }
    }
    Ok(Made::Fails)
}

/// Whether the points of the parts can be restricted until walks start from all of them, for each of these families; and then they are.
pub(crate) fn points_restricted(
    alloc: Global,
    facts: &Facts,
    all: &[Merged],
    work: &mut Work,
) -> Result<bool, Memory> {
    for one in all {
        if !starts_restricted(alloc, facts, one, work)? {
            return Ok(false);
        }
    }
    Ok(true)
}

/// The same for one family.
fn starts_restricted(
    alloc: Global,
    facts: &Facts,
    one: &Merged,
    work: &mut Work,
) -> Result<bool, Memory> {
    for _turn in 0..8 {
        work.stops = Vec::new(alloc);
        match starts_of(alloc, facts, one, work)? {
            Made::Made(_, _) => return Ok(true),
            Made::Again => {}
            Made::Fails => return Ok(false),
        }
    }
    Ok(false)
}

/// A term's work from the beginning, over the points of these parts.
pub(crate) fn begun(
    alloc: Global,
    parts: &[Points],
    room: Room,
    most: usize,
) -> Result<Work, Memory> {
    let depth = match parts.first() {
        Some(points) => points.bounds.len(),
        None => 0,
    };
    Ok(Work {
        depth,
        parts: all_points(alloc, parts)?,
        room,
        most,
        stops: Vec::new(alloc),
    })
}
