//! What is proposed for each statement.

use crate::apart::{Tried, try_ways};
use crate::coordinates::Coordinates;
use crate::growing::{Stronger, grown};
use crate::schemes::{Scheme, scheme_of};
use crate::strength::{StretchTerm, strength};
use crate::terms::{single_term, term_grouped};
use affine_facts::facts::{Facts, StatementFacts};
use affine_facts::numbers::short;
use affine_facts::words::{Proposed, Words, are_none_of};
use affine_form::Memory;
use affine_program::Program;
use k_partition::Shape;
use std::alloc::Global;

/// What a proposal is made of: all instances of one statement, or several parts by the ways of a code.
#[derive(Drop)]
enum Origin {
    One(Known),
    Several(Stronger),
}

/// A scheme of one statement, and what is known of its families.
#[derive(Drop)]
struct Known {
    scheme: Scheme,
    tried: Tried,
}

/// What is proposed for a statement.
#[derive(Drop)]
pub struct Candidate {
    origin: Origin,
    pub proposed: Proposed<StretchTerm>,
}

impl Candidate {
    /// Whether several parts are counted.
    pub fn has_parts(&self) -> bool {
        matches!(self.origin, Origin::Several(_))
    }

    /// Whether there may be other words by other ways of the families' walks.
    fn has_choice(&self) -> bool {
        match &self.proposed.term {
            StretchTerm::Partition(term) => matches!(term.shape, Shape::Sum),
            StretchTerm::Joint(_) => false,
        }
    }

    /// What is proposed likewise where none of its words may be one of those that are taken.
    ///
    /// # Errors
    ///
    /// Want of memory alone.
    pub fn beside(
        &self,
        alloc: Global,
        program: &Program,
        facts: &Facts,
        taken: &[Vec<Words>],
    ) -> Result<Option<Proposed<StretchTerm>>, Memory> {
        let words = self.proposed.words.as_slice();
        if !self.has_choice() && !are_none_of(alloc, facts, words, taken)? {
            return Ok(None);
        }
        match &self.origin {
            Origin::One(known) => {
                single_term(alloc, program, facts, &known.scheme, &known.tried, taken)
            }
            Origin::Several(stronger) => {
                let (scheme, code) = (&stronger.scheme, stronger.code);
                term_grouped(alloc, program, facts, scheme, code, true, taken)
            }
        }
    }
}

/// Puts a candidate behind those that are at least as strong.
fn placed(mut all: Vec<Candidate>, candidate: Candidate) -> Result<Vec<Candidate>, Memory> {
    let own = strength(&candidate.proposed);
    let mut place: usize = 0;
    for other in all.as_slice() {
        if strength(&other.proposed) >= own {
            place = place.saturating_add(1);
        }
    }
    if place <= all.len() {
        all.insert(place, candidate)?;
    }
    Ok(all)
}

/// The stronger one of two candidates, the first where they are as strong.
fn stronger_of(first: Option<Candidate>, second: Option<Candidate>) -> Option<Candidate> {
    match (first, second) {
        (Some(one), Some(other)) => {
            if strength(&other.proposed) > strength(&one.proposed) {
                Some(other)
            } else {
                Some(one)
            }
        }
        (Some(one), None) => Some(one),
        (None, found) => found,
    }
}

/// The scheme of a statement over these coordinates, where there is one, with what is known of its families.
fn known_of(
    alloc: Global,
    facts: &Facts,
    kind: Coordinates,
    statement: u16,
) -> Result<Option<Known>, Memory> {
    match scheme_of(alloc, facts, kind, statement)? {
        Some(scheme) => {
            let tried = try_ways(alloc, facts, &scheme)?;
            Ok(Some(Known { scheme, tried }))
        }
        None => Ok(None),
    }
}

/// What is proposed for all instances of one statement by a scheme.
fn alone(
    alloc: Global,
    program: &Program,
    facts: &Facts,
    known: Option<Known>,
) -> Result<Option<Candidate>, Memory> {
    let Some(known) = known else {
        return Ok(None);
    };
    match single_term(alloc, program, facts, &known.scheme, &known.tried, &[])? {
        Some(proposed) => {
            let origin = Origin::One(known);
            Ok(Some(Candidate { origin, proposed }))
        }
        None => Ok(None),
    }
}

/// What is proposed by a scheme with parts more, where these gain: with as many as can be claimed.
fn with_parts(
    alloc: Global,
    program: &Program,
    facts: &Facts,
    known: &Option<Known>,
) -> Result<Option<Candidate>, Memory> {
    let Some(known) = known else {
        return Ok(None);
    };
    for stronger in grown(alloc, facts, &known.scheme, &known.tried)?
        .into_iter()
        .rev()
    {
        let (whole, code) = (&stronger.scheme, stronger.code);
        let found = term_grouped(alloc, program, facts, whole, code, true, &[])?;
        if let Some(proposed) = found {
            let origin = Origin::Several(stronger);
            return Ok(Some(Candidate { origin, proposed }));
        }
    }
    Ok(None)
}

/// Puts a candidate, if there is one, behind those that are at least as strong.
fn put(all: Vec<Candidate>, candidate: Option<Candidate>) -> Result<Vec<Candidate>, Memory> {
    match candidate {
        Some(candidate) => placed(all, candidate),
        None => Ok(all),
    }
}

/// Whether a statement reads cells of an array.
fn reads_of(own: &StatementFacts, array: u16) -> bool {
    own.reads
        .as_slice()
        .iter()
        .any(|read| read.access.array == array)
}

/// Whether a statement reads cells of an array that another one reads too, or one of the two reads cells of that which the other writes.
fn are_related(own: &StatementFacts, other: &StatementFacts) -> bool {
    let shares = other
        .reads
        .as_slice()
        .iter()
        .any(|read| reads_of(own, read.access.array));
    shares || reads_of(own, other.writes.array) || reads_of(other, own.writes.array)
}

/// Whether a statement behind another one is in as many loops, and has to do with the same arrays.
fn has_peer(facts: &Facts, statement: u16) -> bool {
    let Some(own) = facts.statement(statement) else {
        return false;
    };
    let behind = usize::from(statement).saturating_add(1);
    facts.statements.as_slice().iter().skip(behind).any(|other| other.depth() == own.depth()
        && are_related(own, other))
}

/// What is proposed for a statement and one behind it over coordinates of statements that take turns, where they gain.
fn in_turns(
    alloc: Global,
    program: &Program,
    facts: &Facts,
    statement: u16,
) -> Result<Option<Candidate>, Memory> {
    if !has_peer(facts, statement) {
        return Ok(None);
    }
    let known = known_of(alloc, facts, Coordinates::Timed(2, 0), statement)?;
    with_parts(alloc, program, facts, &known)
}

/// What is proposed for a statement, among others: for it alone over its loops or over skewed coordinates, whichever is the stronger;
/// and with parts more, over its loops and over coordinates of statements that take turns.
fn with_statement(
    alloc: Global,
    program: &Program,
    facts: &Facts,
    statement: u16,
    mut all: Vec<Candidate>,
) -> Result<Vec<Candidate>, Memory> {
    let plain = known_of(alloc, facts, Coordinates::Loops, statement)?;
    let skewed = known_of(alloc, facts, Coordinates::Skewed, statement)?;
    let joint = with_parts(alloc, program, facts, &plain)?;
    let turns = in_turns(alloc, program, facts, statement)?;
    let first = alone(alloc, program, facts, plain)?;
    let second = alone(alloc, program, facts, skewed)?;
    all = put(all, stronger_of(first, second))?;
    all = put(all, joint)?;
    put(all, turns)
}

/// What is proposed for each statement in at least two loops, alone and with parts more, strongest first.
///
/// # Errors
///
/// Want of memory alone.
pub fn candidates_of(
    alloc: Global,
    program: &Program,
    facts: &Facts,
) -> Result<Vec<Candidate>, Memory> {
    let mut all = Vec::new(alloc);
    for (number, statement) in facts.statements.as_slice().iter().enumerate() {
        if statement.depth() > 1 {
            all = with_statement(alloc, program, facts, short(number), all)?;
        }
    }
    Ok(all)
}
