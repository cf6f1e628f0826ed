//! Words that terms count, and that two terms or families have none in common.

use crate::affine::{Affine, copies};
use crate::facts::Facts;
use crate::shown::{Rows, equalities, followed, no_point};
use affine_form::{Memory, Multipliers};
use std::alloc::Global;

/// Words of a term: instances of a statement or cells of an array, at a point, under rows.
#[derive(Drop)]
pub struct Words {
    pub of_cells: bool,
    pub target: u16,
    pub given: Rows,
    pub point: Vec<Affine>,
}

/// A term that is proposed, with the words that it counts.
#[derive(Drop)]
pub struct Proposed<T> {
    pub term: T,
    pub words: Vec<Words>,
}

/// The rows of two lists of words together: those of the first, those of the second without its assumptions, and that their
/// points are equal.
pub fn shared(alloc: Global, facts: &Facts, first: &Words, second: &Words) -> Result<Rows, Memory> {
    let params = facts.params;
    let by = first.given.vars.saturating_sub(params);
    let mut rows = copies(alloc, first.given.rows.as_slice())?;
    for row in second
        .given
        .rows
        .as_slice()
        .iter()
        .skip(facts.assumed.len())
    {
        rows.push(row.moved(alloc, params, by)?)?;
    }
    let mut point = Vec::new(alloc);
    for value in second.point.as_slice() {
        point.push(value.moved(alloc, params, by)?)?;
    }
    let equal = equalities(alloc, first.point.as_slice(), point.as_slice())?;
    Ok(Rows {
        vars: first
            .given
            .vars
            .saturating_add(second.given.vars)
            .saturating_sub(params),
        rows: followed(alloc, rows, equal.as_slice())?,
    })
}

/// Multipliers that show that two families have no word in common, behind others.
pub fn two_apart(
    alloc: Global,
    facts: &Facts,
    first: &[Words],
    second: &[Words],
    mut shown: Vec<Multipliers>,
) -> Result<Option<Vec<Multipliers>>, Memory> {
    for one in first {
        for other in second {
            if one.of_cells == other.of_cells && one.target == other.target {
                let both = shared(alloc, facts, one, other)?;
                let Some(found) = no_point(alloc, &both)? else {
                    return Ok(None);
                };
                shown.push(found)?;
            }
        }
    }
    Ok(Some(shown))
}

/// Whether words are shown to be none of those that are taken.
pub fn are_none_of(
    alloc: Global,
    facts: &Facts,
    words: &[Words],
    taken: &[Vec<Words>],
) -> Result<bool, Memory> {
    for some in taken {
        let none = Vec::new(alloc);
        if two_apart(alloc, facts, some.as_slice(), words, none)?.is_none() {
            return Ok(false);
        }
    }
    Ok(true)
}

/// Multipliers that show that no two families have a word in common.
pub fn apart(
    alloc: Global,
    facts: &Facts,
    words: &[Vec<Words>],
) -> Result<Option<Vec<Multipliers>>, Memory> {
    let mut shown = Vec::new(alloc);
    for (place, first) in words.iter().enumerate() {
        for second in words.iter().skip(place.saturating_add(1)) {
            match two_apart(alloc, facts, first.as_slice(), second.as_slice(), shown)? {
                Some(more) => shown = more,
                None => return Ok(None),
            }
        }
    }
    Ok(Some(shown))
}

/// Copies of words.
pub fn copied_words(alloc: Global, words: &[Words]) -> Result<Vec<Words>, Memory> {
    let mut all = Vec::new(alloc);
    for some in words {
        all.push(Words {
            of_cells: some.of_cells,
            target: some.target,
            given: Rows {
                vars: some.given.vars,
                rows: copies(alloc, some.given.rows.as_slice())?,
            },
            point: copies(alloc, some.point.as_slice())?,
        })?;
    }
    Ok(all)
}

/// All words of families.
pub fn joined(alloc: Global, words: Vec<Vec<Words>>) -> Result<Vec<Words>, Memory> {
    let mut all = Vec::new(alloc);
    for some in words {
        for word in some {
            all.push(word)?;
        }
    }
    Ok(all)
}
