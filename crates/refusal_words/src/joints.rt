//! What joint terms are asked to show.

use crate::terms::{write_in_count, write_in_credit, write_points};
use affine_form::Memory;
use affine_program::Program;
use asked_systems::{NestAsked, behind, index_at, key_at};
use claims::Step;
use dep_quast::Quasts;
use joint_partition::{Joint, Part};
use plain_pages::Page;
use walk_systems::{
    joint_pieces, write_distinct, write_image_inverse, write_joint_cover, write_joint_family,
    write_pair,
};

/// Writes what is asked at a place in a part of a joint term: of its points, its count, its map, or the inverse of that.
fn write_in_part<'a>(
    page: &mut Page,
    program: &'a Program,
    term: &Joint,
    part: &'a Part,
    steps: &[Step],
) -> Result<(), Memory> {
    // Of a part's members only the matrix of its inverse has a row and a column.
    if let (Some(row), Some(column)) = (index_at(steps, 2), index_at(steps, 3)) {
        return write_image_inverse(page, program, part, row, column);
    }
    let (Some(key), Some(number)) = (key_at(steps, 0), index_at(steps, 1)) else {
        return Ok(());
    };
    let bounds = part.nest.bounds();
    let nest = NestAsked { program, bounds };
    match (key, part.inside.get(number)) {
        ("inside", Some(shown)) => write_points(page, nest, part.statement, number, shown),
        ("map", _) => write_joint_cover(page, term, number),
        _ => write_in_count(page, nest, &part.sums, key, number),
    }
}

/// Writes the system of the pair of pieces of this number, of two families of different groups.
fn write_apart(
    page: &mut Page,
    program: &Program,
    quasts: &Quasts,
    term: &Joint,
    number: usize,
) -> Result<(), Memory> {
    let Some(shown) = term.apart.get(number) else {
        return Ok(());
    };
    let lists = joint_pieces(page.alloc(), program, quasts, term)?;
    write_pair(page, program, lists.as_slice(), number, shown)
}

/// Writes what is asked for a condition at a place in a joint term.
pub(crate) fn write_in_joint(
    page: &mut Page,
    program: &Program,
    quasts: &Quasts,
    term: &Joint,
    condition: u8,
    steps: &[Step],
) -> Result<(), Memory> {
    let (Some(key), Some(number)) = (key_at(steps, 0), index_at(steps, 1)) else {
        return Ok(());
    };
    let rest = behind(steps, 2);
    match (
        key,
        term.parts.get(number),
        term.credits.get(number),
        term.families.get(number),
    ) {
        ("parts", Some(part), _, _) => write_in_part(page, program, term, part, rest),
        ("distinct", _, _, _) => write_distinct(page, program, term, number, rest),
        ("credits", _, Some(credit), _) => write_in_credit(page, program, credit, rest),
        ("families", _, _, Some(family)) => {
            write_joint_family(page, program, quasts, term, family, condition, rest)
        }
        ("apart", _, _, _) => write_apart(page, program, quasts, term, number),
        _ => Ok(()),
    }
}
