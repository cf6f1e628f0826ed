//! Pieces of what a read takes from the input: some turns of each loop.

use crate::cold::starts::starts_at;
use crate::cold::turns::{Turns, all_turned};
use affine_facts::affine::Affine;
use affine_facts::facts::{Facts, Origin, ReadFacts, StatementFacts};
use affine_facts::inverses::scaled_matrix;
use affine_facts::nests::wide_loops;
use affine_facts::numbers::short;
use affine_facts::placed::{PlacedNest, nested};
use affine_facts::shown::all_put;
use affine_form::Memory;
use std::alloc::Global;

/// Instances of a statement, and a read. A loop with one turn has the same bounds twice, and stands in no other bounds.
#[derive(Drop)]
pub(crate) struct Piece {
    pub(crate) statement: u16,
    pub(crate) read: u16,
    pub(crate) bounds: Vec<(Affine, Affine)>,
}

/// The value of a loop with these bounds.
fn loop_value(
    alloc: Global,
    params: usize,
    place: usize,
    lower: &Affine,
    upper: &Affine,
) -> Result<Affine, Memory> {
    if lower.is_same(upper) {
        lower.copied(alloc)
    } else {
        Affine::variable(alloc, params.saturating_add(place))
    }
}

/// The values of loops with these bounds: a loop with one turn has the value that it takes there.
pub(crate) fn loop_values(
    alloc: Global,
    params: usize,
    bounds: &[(Affine, Affine)],
) -> Result<Vec<Affine>, Memory> {
    let mut values = Vec::new(alloc);
    for (place, (lower, upper)) in bounds.iter().enumerate() {
        values.push(loop_value(alloc, params, place, lower, upper)?)?;
    }
    Ok(values)
}

/// The same bounds, where a loop with one turn stands in no others.
pub(crate) fn settled(
    alloc: Global,
    params: usize,
    bounds: &[(Affine, Affine)],
) -> Result<Vec<(Affine, Affine)>, Memory> {
    let mut all = Vec::new(alloc);
    let mut values = Vec::new(alloc);
    for (place, (lower, upper)) in bounds.iter().enumerate() {
        let lower = lower.put(alloc, params, values.as_slice())?;
        let upper = upper.put(alloc, params, values.as_slice())?;
        values.push(loop_value(alloc, params, place, &lower, &upper)?)?;
        all.push((lower, upper))?;
    }
    Ok(all)
}

/// Whether a loop has several turns.
fn has_turns(bounds: &[(Affine, Affine)], place: usize) -> bool {
    match bounds.get(place) {
        Some((lower, upper)) => !lower.is_same(upper),
        None => false,
    }
}

/// The nest of a piece, over the loops that have several turns.
pub(crate) fn placed(
    alloc: Global,
    params: usize,
    bounds: &[(Affine, Affine)],
) -> Result<PlacedNest, Memory> {
    let values = loop_values(alloc, params, bounds)?;
    nested(alloc, params, bounds, values.as_slice())
}

/// Whether no two instances of a piece have the same subscripts.
fn are_told_apart(
    alloc: Global,
    params: usize,
    bounds: &[(Affine, Affine)],
    subs: &[Affine],
) -> Result<bool, Memory> {
    let nest = placed(alloc, params, bounds)?;
    let cell = all_put(alloc, params, subs, nest.values.as_slice())?;
    Ok(scaled_matrix(alloc, params, nest.bounds.len(), cell.as_slice())?.is_some())
}

/// The loops with several turns that stand in a subscript.
fn loops_in(
    alloc: Global,
    params: usize,
    bounds: &[(Affine, Affine)],
    sub: &Affine,
) -> Result<Vec<usize>, Memory> {
    let mut places = Vec::new(alloc);
    for place in 0..bounds.len() {
        if has_turns(bounds, place) && sub.at(params.saturating_add(place)) != 0 {
            places.push(place)?;
        }
    }
    Ok(places)
}

/// The turns of a loop on a step along some loops of a subscript: each loop before that of the step is where the subscript is
/// greatest, each one behind it where it is least, and its own takes all turns, on later steps without the one in which the step
/// before ended.
fn turns_on(step: usize, number: usize, times: i64) -> Turns {
    let rises = times > 0;
    if number == step {
        return match rises {
            _ if step == 0 => Turns::All,
            true => Turns::AllButFirst,
            false => Turns::AllButLast,
        };
    }
    if rises == (number < step) {
        Turns::Last
    } else {
        Turns::First
    }
}

/// The turns of each loop on such a step.
fn all_turns_on(
    alloc: Global,
    params: usize,
    depth: usize,
    places: &[usize],
    sub: &Affine,
    step: usize,
) -> Result<Vec<Turns>, Memory> {
    let mut turns = Vec::new(alloc);
    for place in 0..depth {
        let times = sub.at(params.saturating_add(place));
        turns.push(match places.iter().position(|other| *other == place) {
            Some(number) => turns_on(step, number, times),
            None => Turns::All,
        })?;
    }
    Ok(turns)
}

/// Bounds of a piece along each of the loops with several turns in a subscript.
fn stepped(
    alloc: Global,
    params: usize,
    bounds: &[(Affine, Affine)],
    sub: &Affine,
) -> Result<Vec<Vec<(Affine, Affine)>>, Memory> {
    let places = loops_in(alloc, params, bounds, sub)?;
    let mut all = Vec::new(alloc);
    for step in 0..places.len() {
        let turns = all_turns_on(alloc, params, bounds.len(), places.as_slice(), sub, step)?;
        let some = all_turned(alloc, bounds, turns.as_slice())?;
        all.push(settled(alloc, params, some.as_slice())?)?;
    }
    Ok(all)
}

/// Bounds whose instances have different subscripts, each: those that have them already, and of others those along each of the
/// loops in one subscript.
fn stepped_along(
    alloc: Global,
    params: usize,
    some: Vec<Vec<(Affine, Affine)>>,
    subs: &[Affine],
    sub: &Affine,
) -> Result<Vec<Vec<(Affine, Affine)>>, Memory> {
    let mut all = Vec::new(alloc);
    for bounds in some {
        let is_told_apart = are_told_apart(alloc, params, bounds.as_slice(), subs)?;
        if is_told_apart || loops_in(alloc, params, bounds.as_slice(), sub)?.is_empty() {
            all.push(bounds)?;
        } else {
            for part in stepped(alloc, params, bounds.as_slice(), sub)? {
                all.push(part)?;
            }
        }
    }
    Ok(all)
}

/// Bounds whose instances have different subscripts, each, along the loops of each subscript.
fn all_stepped(
    alloc: Global,
    params: usize,
    bounds: Vec<(Affine, Affine)>,
    subs: &[Affine],
) -> Result<Vec<Vec<(Affine, Affine)>>, Memory> {
    let mut all = vec![in alloc; bounds]?;
    for sub in subs {
        all = stepped_along(alloc, params, all, subs, sub)?;
    }
    Ok(all)
}

/// A piece with the number of its loops that may take many values.
#[derive(Drop)]
struct Ranked {
    loops: usize,
    piece: Piece,
}

/// Puts a piece behind those with at least as many loops that may take many values.
fn put_piece(alloc: Global, mut all: Vec<Ranked>, piece: Piece) -> Result<Vec<Ranked>, Memory> {
    let loops = wide_loops(alloc, piece.bounds.as_slice())?;
    let mut place: usize = 0;
    for other in all.as_slice() {
        if other.loops >= loops {
            place = place.saturating_add(1);
        }
    }
    if place <= all.len() {
        all.insert(place, Ranked { loops, piece })?;
    }
    Ok(all)
}

/// The pieces of a read, among others.
fn with_read(
    alloc: Global,
    facts: &Facts,
    statement: u16,
    own: &StatementFacts,
    read: u16,
    reads: &ReadFacts,
    mut all: Vec<Ranked>,
) -> Result<Vec<Ranked>, Memory> {
    let subs = reads.access.subs.as_slice();
    for leaf in reads.leaves.as_slice() {
        if matches!(leaf.origin, Origin::Input) {
            for start in starts_at(alloc, facts, own, subs, leaf)? {
                all = with_start(alloc, facts.params, statement, read, subs, start, all)?;
            }
        }
    }
    Ok(all)
}

/// The pieces of a read that begin with bounds, among others.
fn with_start(
    alloc: Global,
    params: usize,
    statement: u16,
    read: u16,
    subs: &[Affine],
    start: Vec<(Affine, Affine)>,
    mut all: Vec<Ranked>,
) -> Result<Vec<Ranked>, Memory> {
    for bounds in all_stepped(alloc, params, start, subs)? {
        let piece = Piece {
            statement,
            read,
            bounds,
        };
        all = put_piece(alloc, all, piece)?;
    }
    Ok(all)
}

/// The pieces of a statement's reads, among others.
fn with_statement(
    alloc: Global,
    facts: &Facts,
    statement: u16,
    own: &StatementFacts,
    mut all: Vec<Ranked>,
) -> Result<Vec<Ranked>, Memory> {
    for (number, read) in own.reads.as_slice().iter().enumerate() {
        all = with_read(alloc, facts, statement, own, short(number), read, all)?;
    }
    Ok(all)
}

/// Pieces of all that a program's reads take from the input, those of more loops that may take many values first.
pub(crate) fn pieces_of(alloc: Global, facts: &Facts) -> Result<Vec<Piece>, Memory> {
    let mut all = Vec::new(alloc);
    for (number, own) in facts.statements.as_slice().iter().enumerate() {
        all = with_statement(alloc, facts, short(number), own, all)?;
    }
    let mut pieces = Vec::new(alloc);
    for Ranked { piece, .. } in all {
        pieces.push(piece)?;
    }
    Ok(pieces)
}
