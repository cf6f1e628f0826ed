//! Walks by a read, with what is claimed at the leaves of its source tree.

use crate::entries::{At, Entry, Work, entry_at};
use affine_facts::affine::Affine;
use affine_facts::facts::{ReadFacts, with_row};
use affine_facts::shown::Rows;
use affine_facts::words::Words;
use affine_form::Memory;
use iolb_model::limits;
use reuse_paths::{Leaf, Walk};
use std::alloc::Global;

/// A walk with its claims and the words that it takes; or a row without which it can't be claimed; or nothing.
#[derive(Drop)]
pub(crate) enum Walked {
    Made(Walk, Vec<Words>),
    Restrict(Affine),
    Fails,
}

/// What a take gives: the leaves and the words, or a row that is to be told from its opposite, or a row that is missing.
#[derive(Drop)]
enum Taken {
    Made(Vec<Leaf>, Vec<Words>),
    Split(Affine),
    Restrict(Affine),
    Fails,
}

/// Words, and more.
pub(crate) fn with_words(mut words: Vec<Words>, more: Vec<Words>) -> Result<Vec<Words>, Memory> {
    for word in more {
        words.push(word)?;
    }
    Ok(words)
}

/// The entries at the leaves of a read's tree.
fn taken_by(
    alloc: Global,
    at: &At,
    work: &mut Work,
    given: &Rows,
    read: &ReadFacts,
) -> Result<Taken, Memory> {
    let mut leaves = Vec::new(alloc);
    let mut all = Vec::new(alloc);
    for leaf in read.leaves.as_slice() {
        match entry_at(alloc, at, work, given, read, leaf)? {
            Entry::Made(entry, some) => {
                leaves.push(entry)?;
                all = with_words(all, some)?;
            }
            Entry::Split(row) => return Ok(Taken::Split(row)),
            Entry::Fails => {
                return match leaf.tests.as_slice().last() {
                    Some(test) => Ok(Taken::Restrict(test.negated(alloc)?)),
                    None => Ok(Taken::Fails),
                };
            }
        }
    }
    Ok(Taken::Made(leaves, all))
}

/// A take of a read.
fn take_of(number: u16, leaves: Vec<Leaf>, all: Vec<Words>) -> Walked {
    Walked::Made(
        Walk::Take {
            read: number,
            leaves,
        },
        all,
    )
}

/// The same rows, and one more.
fn given_more(alloc: Global, given: &Rows, row: Affine) -> Result<Rows, Memory> {
    Ok(Rows {
        vars: given.vars,
        rows: with_row(alloc, given.rows.as_slice(), row)?,
    })
}

/// A walk that takes a read under a row.
fn taken_on(
    alloc: Global,
    at: &At,
    work: &mut Work,
    given: &Rows,
    row: Affine,
    number: u16,
    read: &ReadFacts,
) -> Result<Walked, Memory> {
    let given = given_more(alloc, given, row)?;
    match taken_by(alloc, at, work, &given, read)? {
        Taken::Made(leaves, all) => Ok(take_of(number, leaves, all)),
        Taken::Restrict(row) => Ok(Walked::Restrict(row)),
        _ => Ok(Walked::Fails),
    }
}

/// A walk that takes a read under a row, or tests a row more before.
fn side(
    alloc: Global,
    at: &At,
    work: &mut Work,
    given: &Rows,
    row: Affine,
    number: u16,
    read: &ReadFacts,
) -> Result<Walked, Memory> {
    let given = given_more(alloc, given, row)?;
    match taken_by(alloc, at, work, &given, read)? {
        Taken::Made(leaves, all) => Ok(take_of(number, leaves, all)),
        Taken::Split(row) => tested_last(alloc, at, work, &given, row, number, read),
        Taken::Restrict(row) => Ok(Walked::Restrict(row)),
        Taken::Fails => Ok(Walked::Fails),
    }
}

/// A walk that tests a row, of its two sides; or a row without which one can't be claimed.
fn test_of(
    alloc: Global,
    given: &Rows,
    row: &Affine,
    yes: Walked,
    no: Walked,
) -> Result<Walked, Memory> {
    let Some(form) = row.form(alloc, given.vars.min(limits::VARIABLES))? else {
        return Ok(Walked::Fails);
    };
    match (yes, no) {
        (Walked::Made(yes, some), Walked::Made(no, more)) => {
            let test = Walk::Test {
                form,
                yes: Box::new(alloc, yes)?,
                no: Box::new(alloc, no)?,
            };
            Ok(Walked::Made(test, with_words(some, more)?))
        }
        (Walked::Restrict(row), _) | (_, Walked::Restrict(row)) => Ok(Walked::Restrict(row)),
        _ => Ok(Walked::Fails),
    }
}

/// A walk that tests a row before it takes a read, and no other row.
fn tested_last(
    alloc: Global,
    at: &At,
    work: &mut Work,
    given: &Rows,
    row: Affine,
    number: u16,
    read: &ReadFacts,
) -> Result<Walked, Memory> {
    let own = row.copied(alloc)?;
    let opposite = row.negated(alloc)?;
    let yes = taken_on(alloc, at, work, given, own, number, read)?;
    let no = taken_on(alloc, at, work, given, opposite, number, read)?;
    test_of(alloc, given, &row, yes, no)
}

/// A walk that tests a row before it takes a read, or tests another one.
fn tested(
    alloc: Global,
    at: &At,
    work: &mut Work,
    given: &Rows,
    row: Affine,
    number: u16,
    read: &ReadFacts,
) -> Result<Walked, Memory> {
    let own = row.copied(alloc)?;
    let opposite = row.negated(alloc)?;
    let yes = side(alloc, at, work, given, own, number, read)?;
    let no = side(alloc, at, work, given, opposite, number, read)?;
    test_of(alloc, given, &row, yes, no)
}

/// A walk from a reader by a read, and if need be by a test of where its source is.
pub(crate) fn walk_by(
    alloc: Global,
    at: &At,
    work: &mut Work,
    given: &Rows,
    number: u16,
    read: &ReadFacts,
) -> Result<Walked, Memory> {
    match taken_by(alloc, at, work, given, read)? {
        Taken::Made(leaves, all) => Ok(take_of(number, leaves, all)),
        Taken::Restrict(row) => Ok(Walked::Restrict(row)),
        Taken::Fails => Ok(Walked::Fails),
        Taken::Split(row) => tested(alloc, at, work, given, row, number, read),
    }
}
