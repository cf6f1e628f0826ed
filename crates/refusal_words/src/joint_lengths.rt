//! How long lists of joint terms have to be.

use crate::lengths::{form_length, in_credit};
use affine_form::Memory;
use affine_program::Program;
use asked_systems::{behind, index_at, key_at};
use certificate_fit::counts::{domain_size, loops_around};
use claims::Step;
use dep_quast::Quasts;
use joint_partition::{Joint, Part};
use std::alloc::Global;
use walk_systems::{joint_family_length, joint_pieces, pair_count, split_length};

/// How many members the list at a place of a part has to have, behind its number, where the maps have so many forms.
fn in_part(program: &Program, part: &Part, dimensions: usize, steps: &[Step]) -> Option<usize> {
    let loops = loops_around(program, part.statement);
    match (key_at(steps, 0)?, index_at(steps, 1)) {
        ("inside", None) => Some(domain_size(program, part.statement)),
        ("inverse", _) if steps.len() == 2 => Some(loops),
        ("inverse", _) => Some(dimensions),
        ("map", None) => Some(dimensions),
        ("map", Some(_)) => Some(form_length(program, loops)),
        ("nest", Some(number)) => Some(form_length(program, number)),
        ("nest" | "shown" | "sums", None) => Some(loops),
        _ => None,
    }
}

/// How many members the list at a place of a joint term has to have.
pub(crate) fn in_joint(
    alloc: Global,
    program: &Program,
    quasts: &Quasts,
    term: &Joint,
    steps: &[Step],
) -> Result<Option<usize>, Memory> {
    let number = index_at(steps, 1).unwrap_or(0);
    let rest = behind(steps, 2);
    let dimensions = match term.parts.first() {
        Some(part) => part.image.len(),
        None => 0,
    };
    match (
        key_at(steps, 0),
        term.parts.get(number),
        term.credits.get(number),
        term.families.get(number),
    ) {
        (Some("parts"), Some(part), _, _) => Ok(in_part(program, part, dimensions, rest)),
        (Some("distinct"), _, _, _) => Ok(split_length(program, term, behind(steps, 1))),
        (Some("credits"), _, Some(credit), _) => Ok(in_credit(program, credit, rest)),
        (Some("families"), _, _, Some(family)) => {
            joint_family_length(alloc, program, quasts, term, family, rest)
        }
        (Some("apart"), _, _, _) => {
            let lists = joint_pieces(alloc, program, quasts, term)?;
            Ok(Some(pair_count(alloc, lists.as_slice())?))
        }
        _ => Ok(None),
    }
}
