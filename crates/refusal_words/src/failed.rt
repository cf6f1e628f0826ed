//! Conditions that fail.

use crate::branches::branch_pieces;
use crate::heads::{write_head, write_length, write_pointer, write_source};
use crate::lengths::{called_for, term_at};
use crate::sources::write_arrays;
use crate::terms::write_in_term;
use affine_form::Memory;
use affine_program::Program;
use asked_systems::{behind, index_at, key_at, write_in_tree};
use claims::{FailedCondition, Step};
use help_pages::condition_of;
use iolb_check::Certificate;
use json_places::value_place;
use plain_pages::Page;
use walk_systems::write_pair;

/// Writes the system of the pair of pieces of a branch's terms at a place behind `branches`.
fn write_disjoint(
    page: &mut Page,
    program: &Program,
    certificate: &Certificate,
    steps: &[Step],
) -> Result<(), Memory> {
    let (Some(number), Some(pair)) = (index_at(steps, 0), index_at(steps, 2)) else {
        return Ok(());
    };
    let Some(branch) = certificate.branches().get(number) else {
        return Ok(());
    };
    let lists = branch_pieces(page.alloc(), program, certificate.quasts(), branch)?;
    match branch.disjoint.get(pair) {
        Some(shown) => write_pair(page, program, lists.as_slice(), pair, shown),
        None => Ok(()),
    }
}

/// Writes what a condition asks at a place of a certificate for a program: a system, or what is called for beside what
/// stands there.
fn write_asked(
    page: &mut Page,
    program: &Program,
    certificate: &Certificate,
    condition: u8,
    steps: &[Step],
) -> Result<(), Memory> {
    let rest = behind(steps, 1);
    let quasts = certificate.quasts();
    if key_at(steps, 0) == Some("quasts") {
        return if key_at(steps, steps.len().saturating_sub(1)) == Some("statement") {
            write_arrays(page, program, quasts, rest)
        } else {
            write_in_tree(page, program, quasts, rest)
        };
    }
    if key_at(steps, 2) == Some("disjoint") {
        return write_disjoint(page, program, certificate, rest);
    }
    match term_at(certificate, rest) {
        Some((term, inner)) => write_in_term(page, program, quasts, term, condition, inner),
        None => Ok(()),
    }
}

/// Writes when the condition of this number holds, and what its places name.
fn write_condition(page: &mut Page, number: u8) -> Result<(), Memory> {
    if let Some(condition) = condition_of(u64::from(number)) {
        let (holds, place) = (condition.holds, condition.place);
        page.line(format!(in page.alloc(); "it holds where {holds}")?.as_str())?;
        page.line(format!(in page.alloc(); "places: {place}")?.as_str())?;
    }
    Ok(())
}

/// Writes which condition a certificate for a program fails, which the file of this name has as its text: its number
/// and place, the place's line with a caret, and when it holds; for condition 1 how long a list is there and has to be;
/// and where multipliers don't show what they are asked to, the system: its variables, its rows with what each says,
/// the goal, and what the multipliers sum to; where numbers or the word at a leaf are others than they have to be, what
/// stands there and what is called for.
pub fn write_failed(
    page: &mut Page,
    file: &str,
    text: &[u8],
    program: &Program,
    certificate: &Certificate,
    failed: &FailedCondition,
) -> Result<(), Memory> {
    let number = failed.condition;
    let steps = failed.place.steps();
    let at = value_place(text, &failed.place);
    write_head(page, file, at, text)?;
    page.text(format!(in page.alloc(); "condition {number} fails at ")?.as_str())?;
    write_pointer(page, &failed.place)?;
    page.line("")?;
    write_source(page, at, text)?;
    write_condition(page, number)?;
    match number {
        1 => {
            let called = called_for(page.alloc(), program, certificate, steps)?;
            write_length(page, text, at, called)
        }
        2 => Ok(()),
        _ => write_asked(page, program, certificate, number, steps),
    }
}
