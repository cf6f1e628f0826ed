//! Wavefronts, thought out without multipliers.

use crate::fronts::turns::place_of_turn;
use crate::fronts::ways::{Instance, Step, Turn, way_to};
use affine_facts::affine::{Affine, copies};
use affine_facts::facts::{Facts, Origin, StatementFacts, TreeLeaf};
use affine_facts::nests::{instance_rows, is_empty, nest_rows, ranged, restricted};
use affine_facts::numbers::short;
use affine_facts::placed::{PlacedNest, nested, stands_in};
use affine_facts::shown::{all_put, all_shown, followed, no_point};
use affine_form::Memory;
use std::alloc::Global;

/// A wavefront: the bounds of its nest, and on how many of the first variables the vertex depends; the user of the words, its
/// way back to the vertex and its read of the word; the vertex and the word; and a way back from the vertex to the word.
#[derive(Drop)]
pub(crate) struct Outline {
    pub(crate) bounds: Vec<(Affine, Affine)>,
    pub(crate) outer: usize,
    pub(crate) user: Instance,
    pub(crate) back: Step,
    pub(crate) read: u16,
    pub(crate) vertex: Instance,
    pub(crate) word: Instance,
    pub(crate) steps: Vec<Step>,
}

/// A source of a read of a statement: the read's number, the tests under which it is the source, and its loop values over
/// those of the reader.
#[derive(Clone, Copy)]
struct Source<'a> {
    read: u16,
    tests: &'a [Affine],
    statement: u16,
    point: &'a [Affine],
}

/// The source that a leaf names.
fn source_at(read: u16, leaf: &TreeLeaf) -> Option<Source> {
    match &leaf.origin {
        Origin::Instance { statement, point } => Some(Source {
            read,
            tests: leaf.tests.as_slice(),
            statement: *statement,
            point: point.as_slice(),
        }),
        _ => None,
    }
}

/// All sources of a statement's reads.
fn sources_of(alloc: Global, own: &StatementFacts) -> Result<Vec<Source>, Memory> {
    let mut all = Vec::new(alloc);
    for (number, read) in own.reads.as_slice().iter().enumerate() {
        for leaf in read.leaves.as_slice() {
            if let Some(source) = source_at(short(number), leaf) {
                all.push(source)?;
            }
        }
    }
    Ok(all)
}

/// On how many of the first variables forms depend at most.
fn outer_of(params: usize, vars: usize, forms: &[Affine]) -> usize {
    let mut outer = 0;
    for place in 0..vars {
        if stands_in(forms, params.saturating_add(place)) {
            outer = place.saturating_add(1);
        }
    }
    outer
}

/// The tests of two sources together.
fn all_tests(alloc: Global, first: Source, second: Source) -> Result<Vec<Affine>, Memory> {
    let mut rows = Vec::new(alloc);
    for row in first.tests.iter().chain(second.tests.iter()) {
        rows.push(row.copied(alloc)?)?;
    }
    Ok(rows)
}

/// The instance that is a reader's source.
fn seen_from(
    alloc: Global,
    params: usize,
    source: Source,
    reader: &Instance,
) -> Result<Instance, Memory> {
    Ok(Instance {
        statement: source.statement,
        point: all_put(alloc, params, source.point, reader.point.as_slice())?,
    })
}

/// Whether no instance of a statement is seen to meet rows.
fn has_no_point(
    alloc: Global,
    facts: &Facts,
    own: &StatementFacts,
    rows: &[Affine],
) -> Result<bool, Memory> {
    let all = instance_rows(alloc, facts, own, rows)?;
    Ok(no_point(alloc, &all)?.is_some())
}

/// The rows that don't follow from the others and a statement's domain.
fn without_implied(
    alloc: Global,
    facts: &Facts,
    own: &StatementFacts,
    rows: &[Affine],
) -> Result<Vec<Affine>, Memory> {
    let mut kept = Vec::new(alloc);
    for (place, row) in rows.iter().enumerate() {
        let mut others = copies(alloc, kept.as_slice())?;
        if let Some((_, later)) = rows.split_at_checked(place.saturating_add(1)) {
            others = followed(alloc, others, later)?;
        }
        let given = instance_rows(alloc, facts, own, others.as_slice())?;
        let goals = vec![in alloc; row.copied(alloc)?]?;
        if all_shown(alloc, &given, goals.as_slice())?.is_none() {
            kept.push(row.copied(alloc)?)?;
        }
    }
    Ok(kept)
}

/// The bounds of a statement's instances that meet rows, each range whole.
fn ranged_where(
    alloc: Global,
    facts: &Facts,
    own: &StatementFacts,
    rows: &[Affine],
) -> Result<Option<Vec<(Affine, Affine)>>, Memory> {
    match restricted(alloc, facts.params, own.nest.as_slice(), rows)? {
        Some(bounds) => ranged(alloc, facts, bounds),
        None => Ok(None),
    }
}

/// The bounds of a statement's instances at which it has both sources. Where the range of a loop may be empty, it may be left
/// as wide as the others allow: there the loops within it are empty.
fn bounds_of(
    alloc: Global,
    facts: &Facts,
    own: &StatementFacts,
    vertex: Source,
    word: Source,
) -> Result<Option<Vec<(Affine, Affine)>>, Memory> {
    let rows = all_tests(alloc, vertex, word)?;
    let found = ranged_where(alloc, facts, own, rows.as_slice())?;
    if found.is_some() || has_no_point(alloc, facts, own, rows.as_slice())? {
        return Ok(found);
    }
    let rows = without_implied(alloc, facts, own, rows.as_slice())?;
    ranged_where(alloc, facts, own, rows.as_slice())
}

/// The vertex of a user that reads it, and the way back to it: at once, or, where it is read from the turn before in a loop, back
/// along that loop to its first turn.
fn vertex_of(
    alloc: Global,
    params: usize,
    bounds: &[(Affine, Affine)],
    user: &Instance,
    source: Source,
) -> Result<(Instance, Step), Memory> {
    let (from, read) = (user.copied(alloc)?, source.read);
    let place = place_of_turn(
        alloc,
        params,
        user.statement,
        source.statement,
        source.point,
    )?;
    let Some((place, (lower, _))) = place.and_then(|place| Some((place, bounds.get(place)?))) else {
        let vertex = seen_from(alloc, params, source, user)?;
        let turn = None;
        return Ok((vertex, Step { from, turn, read }));
    };
    let least = lower.put(alloc, params, user.point.as_slice())?;
    let mut first = least.copied(alloc)?;
    first.add_number(-1);
    let mut point = copies(alloc, user.point.as_slice())?;
    if let Some(value) = point.get_mut(place) {
        *value = first;
    }
    let statement = source.statement;
    let turn = Some(Turn {
        place,
        least,
        again: read,
    });
    Ok((Instance { statement, point }, Step { from, turn, read }))
}

/// Instances that use a word: the bounds of their loops, and the nest, with the user at its points.
#[derive(Drop)]
struct Users {
    domain: Vec<(Affine, Affine)>,
    bounds: Vec<(Affine, Affine)>,
    user: Instance,
}

/// The instances of a statement that read a vertex and a word, one for each loop values of the word.
fn users_of(
    alloc: Global,
    facts: &Facts,
    statement: u16,
    own: &StatementFacts,
    vertex: Source,
    word: Source,
) -> Result<Option<Users>, Memory> {
    let Some(domain) = bounds_of(alloc, facts, own, vertex, word)? else {
        return Ok(None);
    };
    let placed = nested(alloc, facts.params, domain.as_slice(), word.point)?;
    let PlacedNest { bounds, values } = placed;
    if is_empty(alloc, bounds.as_slice())? {
        return Ok(None);
    }
    let user = Instance {
        statement,
        point: values,
    };
    Ok(Some(Users {
        domain,
        bounds,
        user,
    }))
}

/// The wavefront of a statement that reads a vertex and a word.
fn outline_of(
    alloc: Global,
    facts: &Facts,
    users: Users,
    vertex: Source,
    word: Source,
) -> Result<Option<Outline>, Memory> {
    let params = facts.params;
    let Users {
        domain,
        bounds,
        user,
    } = users;
    let read = word.read;
    let (vertex, back) = vertex_of(alloc, params, domain.as_slice(), &user, vertex)?;
    let word = seen_from(alloc, params, word, &user)?;
    let outer = outer_of(params, bounds.len(), vertex.point.as_slice());
    if outer >= bounds.len() {
        return Ok(None);
    }
    let given = nest_rows(alloc, facts, bounds.as_slice())?;
    let Some(steps) = way_to(alloc, facts, &given, &vertex, &word)? else {
        return Ok(None);
    };
    Ok(Some(Outline {
        bounds,
        outer,
        user,
        back,
        read,
        vertex,
        word,
        steps,
    }))
}

/// The wavefront of instances that use a word, if there are any and it has one, behind others.
fn with_outline(
    alloc: Global,
    facts: &Facts,
    users: Option<Users>,
    vertex: Source,
    word: Source,
    mut all: Vec<Outline>,
) -> Result<Vec<Outline>, Memory> {
    if let Some(users) = users {
        if let Some(outline) = outline_of(alloc, facts, users, vertex, word)? {
            all.push(outline)?;
        }
    }
    Ok(all)
}

/// The wavefronts whose words a statement uses, behind others.
pub(crate) fn outlines_of(
    alloc: Global,
    facts: &Facts,
    statement: u16,
    own: &StatementFacts,
) -> Result<Vec<Outline>, Memory> {
    let mut all = Vec::new(alloc);
    let sources = sources_of(alloc, own)?;
    for vertex in sources.as_slice() {
        for word in sources.as_slice() {
            if vertex.read != word.read {
                let users = users_of(alloc, facts, statement, own, *vertex, *word)?;
                all = with_outline(alloc, facts, users, *vertex, *word, all)?;
            }
        }
    }
    Ok(all)
}
