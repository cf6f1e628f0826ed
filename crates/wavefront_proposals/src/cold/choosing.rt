//! Cold terms for one branch, chosen.

use crate::cold::outlines::{Outline, outline_of};
use crate::cold::pieces::{Piece, pieces_of};
use crate::cold::remainders::remainders;
use crate::cold::terms::cold_term;
use affine_facts::facts::Facts;
use affine_facts::words::two_apart;
use affine_form::Memory;
use affine_program::Program;
use iolb_model::limits;
use std::alloc::Global;
use wavefront::Cold;

/// How many pieces are cut into parts at most.
const CUT: usize = 128;

/// Cold terms of one branch with their outlines, and the outlines of all other pieces.
#[derive(Drop)]
pub struct Choice {
    pub terms: Vec<Cold>,
    pub chosen: Vec<Outline>,
    pub others: Vec<Outline>,
}

/// Whether the cells of an outline are shown to be none of those that others count.
fn is_apart(
    alloc: Global,
    facts: &Facts,
    outline: &Outline,
    chosen: &[Outline],
) -> Result<bool, Memory> {
    for other in chosen {
        if other.array == outline.array {
            let (taken, words) = (other.words.as_slice(), outline.words.as_slice());
            let none = Vec::new(alloc);
            if two_apart(alloc, facts, taken, words, none)?.is_none() {
                return Ok(false);
            }
        }
    }
    Ok(true)
}

/// The term of an outline, where it may stand in a branch with those that are chosen.
fn term_beside(
    alloc: Global,
    program: &Program,
    facts: &Facts,
    outline: &Outline,
    chosen: &[Outline],
) -> Result<Option<Cold>, Memory> {
    if chosen.len() < limits::TERMS && is_apart(alloc, facts, outline, chosen)? {
        cold_term(alloc, program, facts, outline)
    } else {
        Ok(None)
    }
}

/// Chooses the pieces that may stand in one branch, in order. The others are left, with the outlines of those that have one.
fn whole(
    alloc: Global,
    program: &Program,
    facts: &Facts,
    pieces: Vec<Piece>,
) -> Result<(Choice, Vec<Piece>), Memory> {
    let (mut terms, mut chosen) = (Vec::new(alloc), Vec::new(alloc));
    let (mut others, mut left) = (Vec::new(alloc), Vec::new(alloc));
    for piece in pieces {
        match outline_of(alloc, facts, &piece)? {
            Some(outline) => {
                let found = term_beside(alloc, program, facts, &outline, chosen.as_slice())?;
                match found {
                    Some(term) => {
                        terms.push(term)?;
                        chosen.push(outline)?;
                    }
                    None => {
                        others.push(outline)?;
                        left.push(piece)?;
                    }
                }
            }
            None => left.push(piece)?,
        }
    }
    let choice = Choice {
        terms,
        chosen,
        others,
    };
    Ok((choice, left))
}

/// A choice with a piece more, where that may stand in it.
fn with_part(
    alloc: Global,
    program: &Program,
    facts: &Facts,
    part: &Piece,
    choice: Choice,
) -> Result<Choice, Memory> {
    let Choice {
        mut terms,
        mut chosen,
        others,
    } = choice;
    if let Some(outline) = outline_of(alloc, facts, part)? {
        let found = term_beside(alloc, program, facts, &outline, chosen.as_slice())?;
        if let Some(term) = found {
            terms.push(term)?;
            chosen.push(outline)?;
        }
    }
    Ok(Choice {
        terms,
        chosen,
        others,
    })
}

/// Whether some of an array's cells are chosen.
fn has_array(chosen: &[Outline], array: u16) -> bool {
    chosen.iter().any(|outline| outline.array == array)
}

/// A choice with the parts of a piece that have none of its cells.
fn with_parts(
    alloc: Global,
    program: &Program,
    facts: &Facts,
    piece: Piece,
    mut choice: Choice,
) -> Result<Choice, Memory> {
    let Some(read) = facts.read(piece.statement, piece.read) else {
        return Ok(choice);
    };
    let array = read.access.array;
    if choice.chosen.len() < limits::TERMS && has_array(choice.chosen.as_slice(), array) {
        let parts = remainders(alloc, facts, piece, array, choice.chosen.as_slice())?;
        for part in parts {
            choice = with_part(alloc, program, facts, &part, choice)?;
        }
    }
    Ok(choice)
}

/// Cold terms for one branch: pieces of what is read, those of more loops first, as far as their cells are shown to differ, and
/// then what is left of the others without their cells.
///
/// # Errors
///
/// Want of memory alone.
pub fn cold_choice(alloc: Global, program: &Program, facts: &Facts) -> Result<Choice, Memory> {
    let pieces = pieces_of(alloc, facts)?;
    let (mut choice, left) = whole(alloc, program, facts, pieces)?;
    let mut count: usize = 0;
    for piece in left {
        if count < CUT {
            choice = with_parts(alloc, program, facts, piece, choice)?;
            count = count.saturating_add(1);
        }
    }
    Ok(choice)
}
