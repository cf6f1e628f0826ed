//! Room for no more than the members.

ghost use Rattle.std.specs.Prelude.{◌≡◌, ◌≤◌, IfOk, OnOk, length, take, drop};

use std::alloc::AllocError;
use std::mem;

/// How many members are copied at most where fewer stand before them.
const MANY: usize = 4096;

/// The members from a place on, in room for no more; those before it stay. Where they are many and most of all, they keep
/// their block, so that they don't stand in memory twice.
pub(crate) fn taken<T: Drop>(pending: &mut Vec<T>, first: usize) -> Result<Vec<T>, AllocError>
    requires within { first ≤ length pending.old.items }
    ensures taken { IfOk result (λ exact. exact.items ≡ drop first pending.old.items) }
    ensures stays { OnOk result (pending.new.items ≡ take first pending.old.items) }
{
    let count = pending.len() - first;
    if count <= MANY || count < first {
        return pending.split_off(first);
    }
    pending.rotate_left(first);
    let before = pending.split_off(count)?;
    let mut many = mem::replace(pending, before);
    many.shrink_to_fit();
    Ok(many)
}
