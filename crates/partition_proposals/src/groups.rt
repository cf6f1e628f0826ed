//! Groups of families: families that aren't shown to have no word in common are in one.

use crate::pairs::Pairs;
use affine_facts::facts::Facts;
use affine_facts::numbers::narrow;
use affine_facts::words::{Words, two_apart};
use affine_form::{Memory, Multipliers};
use std::alloc::Global;

/// Puts the members of one group into another.
fn merge(groups: &mut [u8], kept: u8, other: u8) {
    for group in groups.iter_mut() {
        if *group == other {
            *group = kept;
        }
    }
}

/// The number of a family's group.
fn group_of(groups: &[u8], family: usize) -> u8 {
    groups.get(family).copied().unwrap_or(0)
}

/// A group for each of so many families.
fn singles(alloc: Global, families: usize) -> Result<Vec<u8>, Memory> {
    let mut groups = Vec::new(alloc);
    for family in 0..families {
        groups.push(narrow(family))?;
    }
    Ok(groups)
}

/// The groups of families, of which it is said which two are apart: a number for each family.
pub(crate) fn groups_of(alloc: Global, apart: &Pairs) -> Result<Vec<u8>, Memory> {
    let families = apart.count();
    let mut groups = singles(alloc, families)?;
    for place in 0..families.saturating_mul(families) {
        let first = place.checked_div(families).unwrap_or(0);
        let second = place.checked_rem(families).unwrap_or(0);
        if first < second && !apart.is_apart(first, second) {
            let kept = group_of(groups.as_slice(), first);
            let other = group_of(groups.as_slice(), second);
            merge(groups.as_mut_slice(), kept, other);
        }
    }
    Ok(groups)
}

/// The weights of a group's families, added up.
fn weight_in(groups: &[u8], weights: &[u8], number: u8) -> u32 {
    let mut sum: u32 = 0;
    for (group, weight) in groups.iter().zip(weights.iter()) {
        if *group == number {
            sum = sum.saturating_add(u32::from(*weight));
        }
    }
    sum
}

/// The product of the groups' weights, each raised to itself: the less it is, the fewer points go into a stretch.
pub(crate) fn factor(groups: &[u8], weights: &[u8]) -> u128 {
    let mut product: u128 = 1;
    for number in 0..narrow(groups.len()) {
        let weight = weight_in(groups, weights, number);
        product = product.saturating_mul(u128::from(weight).saturating_pow(weight));
    }
    product
}

/// Whether there are several groups.
pub(crate) fn are_several(groups: &[u8]) -> bool {
    groups.iter().any(|group| *group != group_of(groups, 0))
}

/// Which two families are apart, by their words.
pub(crate) fn apart_by_words(
    alloc: Global,
    facts: &Facts,
    words: &[Vec<Words>],
) -> Result<Pairs, Memory> {
    let mut pairs = Pairs::new(words.len(), Vec::new(alloc));
    for place in 0..words.len().saturating_mul(words.len()) {
        let first = place.checked_div(words.len()).unwrap_or(0);
        let second = place.checked_rem(words.len()).unwrap_or(0);
        pairs.push(match (words.get(first), words.get(second)) {
            (Some(one), Some(other)) if first < second => {
                let none = Vec::new(alloc);
                two_apart(alloc, facts, one.as_slice(), other.as_slice(), none)?.is_some()
            }
            _ => false,
        })?;
    }
    Ok(pairs)
}

/// Multipliers which show that no two families of different groups have a word in common.
pub(crate) fn groups_shown(
    alloc: Global,
    facts: &Facts,
    words: &[Vec<Words>],
    groups: &[u8],
) -> Result<Option<Vec<Multipliers>>, Memory> {
    let mut shown = Vec::new(alloc);
    for (place, first) in words.iter().enumerate() {
        for (later, second) in words.iter().enumerate().skip(place.saturating_add(1)) {
            if group_of(groups, place) != group_of(groups, later) {
                match two_apart(alloc, facts, first.as_slice(), second.as_slice(), shown)? {
                    Some(more) => shown = more,
                    None => return Ok(None),
                }
            }
        }
    }
    Ok(Some(shown))
}
