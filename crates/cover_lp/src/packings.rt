//! Amounts of coordinates that fit into sets.

ghost use Rattle.std.specs.Prelude.{◌≡◌, ◌+◌, ◌<◌, ◌≤◌, length, option_map, IfOk, IfSome, IfNone};
ghost use Rattle.cover_lp.specs.Search.{IsFound, Fills, HaveRoom, left_of};

use crate::cover::CoordSet;
use affine_form::Memory;
use std::alloc::Global;

/// One amount for each of so many coordinates from `first` on, of this total, that fit into the sets' rooms, or none.
pub(crate) fn amounts_of(
    alloc: Global,
    sets: &[CoordSet],
    rooms: &[u8],
    first: u8,
    count: u8,
    total: u8,
) -> Result<Option<Vec<u8>>, Memory>
    requires few { first + count < 256 }
    requires small { total ≤ 24 }
    requires one_each { length rooms.now ≡ length sets.now }
    ensures { IfOk result (λ found. IsFound (Fills sets.now rooms.now first count total) (option_map (λ amounts. amounts.items) found)) }
{
    if count == 0 {
        if total == 0 {
            return Ok(Some(Vec::new(alloc)));
        }
        return Ok(None);
    }
    for amount in 0..total + 1 {
        let Some(rooms) = rooms_left(alloc, sets, rooms, first, amount)? else {
            return Ok(None);
        };
        if let Some(mut amounts) = amounts_of(
            alloc,
            sets,
            rooms.as_slice(),
            first + 1,
            count - 1,
            total - amount,
        )? {
            amounts.insert(0, amount)?;
            return Ok(Some(amounts));
        }
    }
    Ok(None)
}

/// The room that is left in each set where a coordinate has this amount, or nothing where a set hasn't that much.
fn rooms_left(
    alloc: Global,
    sets: &[CoordSet],
    rooms: &[u8],
    coordinate: u8,
    amount: u8,
) -> Result<Option<Vec<u8>>, Memory>
    requires { length rooms.now ≡ length sets.now }
    ensures some { IfOk result (λ left. IfSome left (λ left. HaveRoom sets.now rooms.now coordinate amount × (left.items ≡ left_of sets.now rooms.now coordinate amount))) }
    ensures len { IfOk result (λ left. IfSome left (λ left. length left.items ≡ length sets.now)) }
    ensures none { IfOk result (λ left. IfNone left (HaveRoom sets.now rooms.now coordinate amount → ⊥)) }
{
    let (Some((set, others)), Some((room, more))) = (sets.split_first(), rooms.split_first()) else {
        return Ok(Some(Vec::new(alloc)));
    };
    let part = if set.holds(coordinate) { amount } else { 0 };
    if part > *room {
        return Ok(None);
    }
    let Some(mut left) = rooms_left(alloc, others, more, coordinate, amount)? else {
        return Ok(None);
    };
    left.insert(0, *room - part)?;
    Ok(Some(left))
}
