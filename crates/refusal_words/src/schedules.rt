//! Texts of schedules that aren't read.

use crate::heads::write_length;
use crate::unread::write_unread;
use affine_form::Memory;
use affine_program::Program;
use asked_systems::index_at;
use certificate_fit::counts::loops_around;
use claims::{ObjectKey, Place, Step};
use json_places::{item_places, value_place};
use plain_pages::Page;
use std::alloc::Global;

/// How many keys the first statement has in a schedule's text; none where it has no list of them.
fn first_count(alloc: Global, text: &[u8]) -> Result<usize, Memory> {
    let place = Place::new(vec![in alloc; Step::Key(ObjectKey("keys")), Step::Index(0)]?);
    match value_place(text, &place) {
        Some(at) => Ok(item_places(alloc, text, at)?.len()),
        None => Ok(0),
    }
}

/// How many members the list at a place of a schedule's text has to have, where the first statement has so many keys:
/// one for each statement; as many keys as the first has; a form and a divisor; and a number for each parameter and
/// each loop, and one more.
fn called_for(program: &Program, first: usize, steps: &[Step]) -> Option<usize> {
    match (steps.len(), index_at(steps, 1), index_at(steps, 3)) {
        (1, _, _) => Some(program.statements().len()),
        (2, _, _) => Some(first),
        (3, _, _) => Some(2),
        (4, Some(statement), Some(0)) => {
            let loops = loops_around(program, u16::try_from(statement).ok()?);
            Some(
                program
                    .params()
                    .len()
                    .saturating_add(loops)
                    .saturating_add(1),
            )
        }
        _ => None,
    }
}

/// Writes the fault of this number of the text of a schedule of a program, which the file of this name has, as
/// `write_unread` does, and where a list has another length than is called for, both.
pub fn write_unscheduled(
    page: &mut Page,
    file: &str,
    text: &[u8],
    program: &Program,
    number: u8,
    said: &str,
    place: &Place,
) -> Result<(), Memory> {
    write_unread(page, file, text, number, said, place)?;
    if number != 2 {
        return Ok(());
    }
    let first = first_count(page.alloc(), text)?;
    let called = called_for(program, first, place.steps());
    write_length(page, text, value_place(text, place), called)
}
