//! That families have no word in common, as far as it is found, by the ways of their walks.

use crate::coordinates::Coordinates;
use crate::entries::Room;
use crate::families::{anew, families_over, way_of};
use crate::merged::merge_drafts;
use crate::pairs::Pairs;
use crate::points::Points;
use crate::schemes::{Plan, Scheme};
use affine_facts::facts::Facts;
use affine_facts::words::{Words, are_none_of, joined, two_apart};
use affine_form::Memory;
use joint_partition::limits::JOINT_CREDITS;
use std::alloc::Global;

/// The words that a family takes by itself, by the way of a number; nothing where it can't be made so.
fn words_of(
    alloc: Global,
    facts: &Facts,
    parts: &[Points],
    plan: &Plan,
    number: u32,
) -> Result<Option<Vec<Words>>, Memory> {
    let Some(drafts) = anew(alloc, facts, plan.drafts.as_slice(), way_of(number))? else {
        return Ok(None);
    };
    let Some(family) = merge_drafts(alloc, drafts.as_slice())? else {
        return Ok(None);
    };
    let mut one = vec![in alloc; family]?;
    let one = one.as_mut_slice();
    match families_over(alloc, facts, parts, one, &[1], Room::Wide, JOINT_CREDITS)? {
        Some(made) => Ok(Some(joined(alloc, made.words)?)),
        None => Ok(None),
    }
}

/// The words that families take, each by itself, by so many of its ways in turn.
fn words_by_way(
    alloc: Global,
    facts: &Facts,
    scheme: &Scheme,
    ways: u32,
) -> Result<Vec<Option<Vec<Words>>>, Memory> {
    let mut all = Vec::new(alloc);
    for place in 0..scheme.plans.len().saturating_mul(3) {
        let number = (place % 3) as u32;
        let plan = scheme.plans.get(place / 3);
        all.push(match plan {
            Some(plan) if number < ways => words_of(
                alloc,
                facts,
                scheme.parts.as_slice(),
                plan,
                number,
            )?,
            _ => None,
        })?;
    }
    Ok(all)
}

/// Whether two lists of words have none in common, as far as it is found.
fn are_apart(
    alloc: Global,
    facts: &Facts,
    words: &[Option<Vec<Words>>],
    first: usize,
    second: usize,
) -> Result<bool, Memory> {
    let (Some(Some(one)), Some(Some(other))) = (words.get(first), words.get(second)) else {
        return Ok(false);
    };
    let none = Vec::new(alloc);
    Ok(two_apart(alloc, facts, one.as_slice(), other.as_slice(), none)?.is_some())
}

/// Which families of a scheme can be made by which of their ways, and which of these are apart.
#[derive(Drop)]
pub(crate) struct Tried {
    words: Vec<Option<Vec<Words>>>,
    apart: Pairs,
}

/// What is known of a scheme's families by the first so many of their ways.
fn try_first_ways(
    alloc: Global,
    facts: &Facts,
    scheme: &Scheme,
    ways: u32,
) -> Result<Tried, Memory> {
    let words = words_by_way(alloc, facts, scheme, ways)?;
    let mut apart = Pairs::new(words.len(), Vec::new(alloc));
    for place in 0..words.len().saturating_mul(words.len()) {
        let first = place.checked_div(words.len()).unwrap_or(0);
        let second = place.checked_rem(words.len()).unwrap_or(0);
        let later = second / 3 > first / 3;
        apart.push(later && are_apart(alloc, facts, words.as_slice(), first, second)?)?;
    }
    Ok(Tried { words, apart })
}

/// How many ways of a scheme's families are tried: over coordinates of statements that take turns the first alone, since walks that stop
/// are no use there.
fn ways_of(scheme: &Scheme) -> u32 {
    match scheme.kind {
        Coordinates::Timed(_, _) => 1,
        _ => 3,
    }
}

/// What is known of a scheme's families by all their ways that are tried.
pub(crate) fn try_ways(alloc: Global, facts: &Facts, scheme: &Scheme) -> Result<Tried, Memory> {
    try_first_ways(alloc, facts, scheme, ways_of(scheme))
}

/// What is known of a scheme's families by their first way, where by this all are apart, or else by all their ways.
pub(crate) fn try_in_turn(alloc: Global, facts: &Facts, scheme: &Scheme) -> Result<Tried, Memory> {
    let first = try_first_ways(alloc, facts, scheme, 1)?;
    if ways_of(scheme) == 1 || first.by_code(alloc, 0)?.are_all_apart() {
        return Ok(first);
    }
    try_ways(alloc, facts, scheme)
}

/// How many codes there are of ways for so many families, at most those of four.
pub(crate) fn codes(families: usize) -> u32 {
    match families {
        0 => 1,
        1 => 3,
        2 => 9,
        3 => 27,
        _ => 81,
    }
}

/// The way of a family by a code, whose digits in base 3 are the ways.
pub(crate) fn digit(code: u32, family: usize) -> u32 {
    let mut rest = code;
    for _family in 0..family {
        rest /= 3;
    }
    rest % 3
}

/// The place of a family's way by a code.
fn place_of(code: u32, family: usize) -> usize {
    family
        .saturating_mul(3)
        .saturating_add(digit(code, family) as usize)
}

impl Tried {
    /// How many families there are.
    pub(crate) fn families(&self) -> usize {
        self.words.len() / 3
    }

    /// Which families are apart by the ways of a code.
    pub(crate) fn by_code(&self, alloc: Global, code: u32) -> Result<Pairs, Memory> {
        let families = self.families();
        let mut pairs = Pairs::new(families, Vec::new(alloc));
        for place in 0..families.saturating_mul(families) {
            let first = place.checked_div(families).unwrap_or(0);
            let second = place.checked_rem(families).unwrap_or(0);
            let (one, other) = (place_of(code, first), place_of(code, second));
            pairs.push(self.apart.is_apart(one, other))?;
        }
        Ok(pairs)
    }

    /// Of each way of each family, whether it can be made by itself of words none of which is taken.
    pub(crate) fn free_ways(
        &self,
        alloc: Global,
        facts: &Facts,
        taken: &[Vec<Words>],
    ) -> Result<Vec<bool>, Memory> {
        let mut all = Vec::new(alloc);
        for words in self.words.as_slice() {
            all.push(match words {
                Some(words) => are_none_of(alloc, facts, words.as_slice(), taken)?,
                None => false,
            })?;
        }
        Ok(all)
    }

    /// Whether each family's way in a code is one of these.
    pub(crate) fn are_among(&self, code: u32, ways: &[bool]) -> bool {
        (0..self.families()).all(|family| matches!(ways.get(place_of(code, family)), Some(true)))
    }

    /// Whether each family can be made by its way in a code.
    pub(crate) fn are_made(&self, code: u32) -> bool {
        for family in 0..self.families() {
            if !matches!(self.words.get(place_of(code, family)), Some(Some(_))) {
                return false;
            }
        }
        true
    }
}
