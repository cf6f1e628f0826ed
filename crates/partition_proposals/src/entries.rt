//! What is claimed at the leaves of a read's source tree, as far as multipliers are found.

use crate::drafts::{Draft, Way};
use crate::points::Points;
use affine_facts::affine::{Affine, copies};
use affine_facts::facts::{Facts, Origin, ReadFacts, TreeLeaf};
use affine_facts::fitted::fitted;
use affine_facts::leaves::empty_entry;
use affine_facts::nests::{image, narrowed, ranged, tightened, wide_loops};
use affine_facts::numbers::narrow;
use affine_facts::shown::{Rows, all_put, all_shown, equalities, followed, within};
use affine_facts::words::Words;
use affine_form::{Memory, Multipliers};
use reuse_paths::Leaf;
use std::alloc::Global;

/// A nest of instances in which walks stop.
#[derive(Drop)]
pub(crate) struct Stop {
    pub(crate) statement: u16,
    pub(crate) bounds: Vec<(Affine, Affine)>,
}

/// How much room nests have in which walks stop.
#[derive(Clone, Copy)]
pub(crate) enum Room {
    /// All that their sources' loop values leave free.
    Wide,
    /// As far as there are instances.
    Fitted,
    /// As far as their readers come to them.
    Narrow,
    /// As far as there are instances to which their readers come.
    Close,
}

impl Room {
    fn is_fitted(self) -> bool {
        matches!(self, Room::Fitted | Room::Close)
    }

    fn is_narrow(self) -> bool {
        matches!(self, Room::Narrow | Room::Close)
    }
}

/// A term as it is made: how many loops are around what is counted, the points of its parts, how much room nests have that are
/// credited, how many these are at most, and those that are so far.
#[derive(Drop)]
pub(crate) struct Work {
    pub(crate) depth: usize,
    pub(crate) parts: Vec<Points>,
    pub(crate) room: Room,
    pub(crate) most: usize,
    pub(crate) stops: Vec<Stop>,
}

/// What may be claimed at a leaf: an entry and the words that it takes; or that one side of a row is to be told from the other;
/// or nothing.
#[derive(Drop)]
pub(crate) enum Entry {
    Made(Leaf, Vec<Words>),
    Split(Affine),
    Fails,
}

/// Where a walk is: the bounds of the reader's loops, and the reader's label.
#[derive(Clone, Copy)]
pub(crate) struct At<'a> {
    pub(crate) facts: &'a Facts,
    pub(crate) draft: &'a Draft,
    pub(crate) bounds: &'a [(Affine, Affine)],
    pub(crate) label: &'a [Affine],
}

/// A source: an instance of a statement, by its loop values.
#[derive(Clone, Copy)]
struct Source<'a> {
    statement: u16,
    point: &'a [Affine],
}

/// The words at a leaf.
fn words_at(
    alloc: Global,
    of_cells: bool,
    target: u16,
    given: &Rows,
    point: &[Affine],
) -> Result<Vec<Words>, Memory> {
    let rows = copies(alloc, given.rows.as_slice())?;
    let mut all = Vec::new(alloc);
    all.push(Words {
        of_cells,
        target,
        given: Rows {
            vars: given.vars,
            rows,
        },
        point: copies(alloc, point)?,
    })?;
    Ok(all)
}

/// What shows that a source is in a nest.
fn held(
    alloc: Global,
    facts: &Facts,
    given: &Rows,
    bounds: &[(Affine, Affine)],
    point: &[Affine],
) -> Result<Option<Vec<Multipliers>>, Memory> {
    let goals = within(alloc, facts.params, bounds, point)?;
    all_shown(alloc, given, goals.as_slice())
}

/// A nest that is credited already and holds the source, with what shows it.
fn known_stop(
    alloc: Global,
    facts: &Facts,
    stops: &[Stop],
    given: &Rows,
    source: Source,
) -> Result<Option<(u8, Vec<Multipliers>)>, Memory> {
    for (number, stop) in stops.iter().enumerate() {
        if stop.statement == source.statement {
            let bounds = stop.bounds.as_slice();
            if let Some(rows) = held(alloc, facts, given, bounds, source.point)? {
                return Ok(Some((narrow(number), rows)));
            }
        }
    }
    Ok(None)
}

/// The bounds of a nest that may hold the source: what doesn't meet a row, if there is one, or else what the source's loop
/// values leave free.
fn stop_bounds(
    alloc: Global,
    facts: &Facts,
    room: Room,
    source: Source,
    outside: Option<&Affine>,
) -> Result<Option<Vec<(Affine, Affine)>>, Memory> {
    let Some(own) = facts.statement(source.statement) else {
        return Ok(None);
    };
    let bounds = own.nest.as_slice();
    let found = match outside {
        Some(row) => {
            let opposite = row.negated(alloc)?;
            tightened(alloc, facts.params, bounds, &opposite)?
        }
        None => Some(image(alloc, facts.params, bounds, source.point)?),
    };
    match found {
        Some(bounds) if room.is_fitted() => fitted(alloc, facts, bounds, own),
        Some(bounds) => ranged(alloc, facts, bounds),
        None => Ok(None),
    }
}

/// The bounds of a nest that is new, and may hold the source.
fn new_bounds(
    alloc: Global,
    at: &At,
    room: Room,
    source: Source,
    outside: Option<&Affine>,
) -> Result<Option<Vec<(Affine, Affine)>>, Memory> {
    let Some(bounds) = stop_bounds(alloc, at.facts, room, source, outside)? else {
        return Ok(None);
    };
    if room.is_narrow() {
        let bounds = narrowed(alloc, at.facts.params, bounds, source.point, at.bounds)?;
        return ranged(alloc, at.facts, bounds);
    }
    Ok(Some(bounds))
}

/// Bounds that are in fewer loops than so many: they themselves, or those of what misses a row by one alone.
fn thin_bounds(
    alloc: Global,
    facts: &Facts,
    depth: usize,
    bounds: Vec<(Affine, Affine)>,
    outside: Option<&Affine>,
) -> Result<Option<Vec<(Affine, Affine)>>, Memory> {
    if wide_loops(alloc, bounds.as_slice())? < depth {
        return Ok(Some(bounds));
    }
    let Some(row) = outside else {
        return Ok(None);
    };
    let mut edge = row.copied(alloc)?;
    edge.add_number(1);
    let Some(bounds) = tightened(alloc, facts.params, bounds.as_slice(), &edge)? else {
        return Ok(None);
    };
    let Some(bounds) = ranged(alloc, facts, bounds)? else {
        return Ok(None);
    };
    if wide_loops(alloc, bounds.as_slice())? < depth {
        Ok(Some(bounds))
    } else {
        Ok(None)
    }
}

/// A nest that holds the source, with what shows it: one that is credited already, or a new one.
fn credited(
    alloc: Global,
    at: &At,
    work: &mut Work,
    given: &Rows,
    source: Source,
    outside: Option<&Affine>,
) -> Result<Option<(u8, Vec<Multipliers>)>, Memory> {
    let facts = at.facts;
    let known = known_stop(alloc, facts, work.stops.as_slice(), given, source)?;
    if known.is_some() {
        return Ok(known);
    }
    let number = work.stops.len();
    if number >= work.most {
        return Ok(None);
    }
    let Some(bounds) = new_bounds(alloc, at, work.room, source, outside)? else {
        return Ok(None);
    };
    let Some(bounds) = thin_bounds(alloc, facts, work.depth, bounds, outside)? else {
        return Ok(None);
    };
    let Some(rows) = held(alloc, facts, given, bounds.as_slice(), source.point)? else {
        return Ok(None);
    };
    let statement = source.statement;
    work.stops.push(Stop { statement, bounds })?;
    Ok(Some((narrow(number), rows)))
}

/// Where a source lies, by the rows that its walks go on from.
enum Side {
    /// Walks go on, as the multipliers show.
    Inside(Vec<Multipliers>),
    /// They don't, since it misses the row with this number.
    Outside(usize),
    /// It isn't shown on which side of a row it is.
    Either(Affine),
}

/// On which side of rows a source lies.
fn side_of(
    alloc: Global,
    facts: &Facts,
    given: &Rows,
    rows: &[Affine],
    point: &[Affine],
) -> Result<Side, Memory> {
    let mut shown = Vec::new(alloc);
    for (number, row) in rows.iter().enumerate() {
        let inner = row.put(alloc, facts.params, point)?;
        let opposite = vec![in alloc; inner.negated(alloc)?]?;
        let goals = vec![in alloc; inner.copied(alloc)?]?;
        match all_shown(alloc, given, goals.as_slice())? {
            Some(more) => shown = joined_shown(shown, more)?,
            None => {
                return if all_shown(alloc, given, opposite.as_slice())?.is_some() {
                    Ok(Side::Outside(number))
                } else {
                    Ok(Side::Either(inner))
                };
            }
        }
    }
    Ok(Side::Inside(shown))
}

/// Multipliers, and more.
fn joined_shown(
    mut shown: Vec<Multipliers>,
    more: Vec<Multipliers>,
) -> Result<Vec<Multipliers>, Memory> {
    for one in more {
        shown.push(one)?;
    }
    Ok(shown)
}

/// The entry at a source whose label is shown: a walk goes on where its region is, and else stops in a credited nest.
fn labelled_entry(
    alloc: Global,
    at: &At,
    work: &mut Work,
    given: &Rows,
    source: Source,
    label: Vec<Multipliers>,
) -> Result<Entry, Memory> {
    let facts = at.facts;
    let taken = words_at(alloc, false, source.statement, given, source.point)?;
    let mut outside = None;
    if let Some(step) = at.draft.step_of(source.statement) {
        let own = step.rows.as_slice();
        match side_of(alloc, facts, given, own, source.point)? {
            Side::Inside(rows) => return Ok(Entry::Made(Leaf::Go { rows, label }, taken)),
            Side::Either(row) => return Ok(Entry::Split(row)),
            Side::Outside(number) => outside = own.get(number),
        }
    }
    match credited(alloc, at, work, given, source, outside)? {
        Some((credit, rows)) => {
            let entry = Leaf::Credit {
                credit,
                rows,
                label,
            };
            Ok(Entry::Made(entry, taken))
        }
        None => Ok(Entry::Fails),
    }
}

/// The entry at a source, whose label has to be the reader's.
fn source_entry(
    alloc: Global,
    at: &At,
    work: &mut Work,
    given: &Rows,
    source: Source,
) -> Result<Entry, Memory> {
    let Some(known) = at.draft.label_of(source.statement) else {
        return Ok(Entry::Fails);
    };
    let at_source = all_put(alloc, at.facts.params, known, source.point)?;
    let goals = equalities(alloc, at_source.as_slice(), at.label)?;
    match all_shown(alloc, given, goals.as_slice())? {
        Some(label) => labelled_entry(alloc, at, work, given, source, label),
        None => Ok(Entry::Fails),
    }
}

/// The entry at an input cell: a walk stops there.
fn input_entry(alloc: Global, at: &At, given: &Rows, read: &ReadFacts) -> Result<Entry, Memory> {
    if at.draft.way == Way::Dry {
        return Ok(Entry::Fails);
    }
    let Some(cells) = at.draft.cell_label(read.access.array) else {
        return Ok(Entry::Fails);
    };
    let subs = read.access.subs.as_slice();
    let at_cell = all_put(alloc, at.facts.params, cells, subs)?;
    let goals = equalities(alloc, at_cell.as_slice(), at.label)?;
    match all_shown(alloc, given, goals.as_slice())? {
        Some(label) => Ok(Entry::Made(
            Leaf::Stop { label },
            words_at(alloc, true, read.access.array, given, subs)?,
        )),
        None => Ok(Entry::Fails),
    }
}

/// The entry at a leaf under what is given of the reader.
pub(crate) fn entry_at(
    alloc: Global,
    at: &At,
    work: &mut Work,
    given: &Rows,
    read: &ReadFacts,
    leaf: &TreeLeaf,
) -> Result<Entry, Memory> {
    let rows = copies(alloc, given.rows.as_slice())?;
    let rows = followed(alloc, rows, leaf.tests.as_slice())?;
    let given = Rows {
        vars: given.vars,
        rows,
    };
    let made = match &leaf.origin {
        Origin::Unknown => Entry::Fails,
        Origin::Input => input_entry(alloc, at, &given, read)?,
        Origin::Instance { statement, point } => {
            let source = Source {
                statement: *statement,
                point: point.as_slice(),
            };
            source_entry(alloc, at, work, &given, source)?
        }
    };
    if let Entry::Made(_, _) = made {
        return Ok(made);
    }
    match empty_entry(alloc, &given)? {
        Some(entry) => Ok(Entry::Made(entry, Vec::new(alloc))),
        None => Ok(made),
    }
}
