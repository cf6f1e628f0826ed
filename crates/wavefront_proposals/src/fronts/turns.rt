//! Sources that are their readers but one turn earlier in a loop.

use affine_facts::affine::Affine;
use affine_facts::facts::{Origin, ReadFacts, StatementFacts};
use affine_facts::numbers::short;
use affine_form::Memory;
use std::alloc::Global;

/// Whether a source is its reader but one turn earlier in a loop.
fn is_turn_before(
    alloc: Global,
    params: usize,
    place: usize,
    point: &[Affine],
) -> Result<bool, Memory> {
    for (number, value) in point.iter().enumerate() {
        let mut own = Affine::variable(alloc, params.saturating_add(number))?;
        if number == place {
            own.add_number(-1);
        }
        if !value.is_same(&own) {
            return Ok(false);
        }
    }
    Ok(true)
}

/// The loop in which a source is its reader but one turn earlier, where there is one.
pub(crate) fn place_of_turn(
    alloc: Global,
    params: usize,
    reader: u16,
    statement: u16,
    point: &[Affine],
) -> Result<Option<usize>, Memory> {
    if reader == statement {
        for place in 0..point.len() {
            if is_turn_before(alloc, params, place, point)? {
                return Ok(Some(place));
            }
        }
    }
    Ok(None)
}

/// Whether some source of a read is its reader but one turn earlier in a loop.
fn goes_back(
    alloc: Global,
    params: usize,
    statement: u16,
    place: usize,
    read: &ReadFacts,
) -> Result<bool, Memory> {
    for leaf in read.leaves.as_slice() {
        if let Origin::Instance {
            statement: writer,
            point,
        } = &leaf.origin
        {
            let point = point.as_slice();
            if *writer == statement && is_turn_before(alloc, params, place, point)? {
                return Ok(true);
            }
        }
    }
    Ok(false)
}

/// The read by which a statement goes back along a loop.
pub(crate) fn read_of_turn(
    alloc: Global,
    params: usize,
    statement: u16,
    place: usize,
    own: &StatementFacts,
) -> Result<Option<u16>, Memory> {
    for (number, read) in own.reads.as_slice().iter().enumerate() {
        if goes_back(alloc, params, statement, place, read)? {
            return Ok(Some(short(number)));
        }
    }
    Ok(None)
}
