//! Places of members of lists.

ghost use Rattle.std.specs.Prelude.{◌≡◌, IfOk};
ghost use Rattle.joint_partition.specs.Claims.{member_at};

use affine_form::Memory;
use claims::{ObjectKey, Place, Step};
use std::alloc::Global;

/// The place of a member of the list under a key.
pub(crate) fn member_at(
    alloc: Global,
    place: &Place,
    key: ObjectKey,
    index: usize,
) -> Result<Place, Memory>
    ensures { IfOk result (λ inner. inner ≡ member_at place.now key index) }
{
    place
        .within(alloc, Step::Key(key))?
        .within(alloc, Step::Index(index as u64))
}
