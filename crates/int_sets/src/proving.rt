//! Multipliers that show a goal, found where a short list is one.

ghost use Rattle.std.specs.Prelude.{◌≡◌, ◌≤◌, IfOk, IfSome, IfNone};
ghost use Rattle.affine_form.specs.Form.{variables};
ghost use Rattle.affine_form.specs.Shown.{Shows, Follows};
ghost use Rattle.int_sets.specs.ShortList.{IsShort, HasShortList};

use crate::longer::longer_list;
use crate::short::short_list;
use affine_form::{Form, Memory, Multipliers, System};
use std::alloc::Global;

/// Multipliers that show the goal from the rows of the system, as `entails` has it. Where a short list shows it (scale 1,
/// at most four different rows, each once or twice, and any number beside them below 2^48), the answer is a short list;
/// None only where none does. Past short lists the answer may be a longer one.
pub fn prove(alloc: Global, system: &System, goal: &Form) -> Result<Option<Multipliers>, Memory>
    requires { variables goal.now ≡ system.now.vars }
    ensures shows { IfOk result (λ found. IfSome found (λ shown. Shows system.now goal.now shown)) }
    ensures scale { IfOk result (λ found. IfSome found (λ shown. 1 ≤ shown.scale)) }
    ensures follows { IfOk result (λ found. IfSome found (λ shown. Follows system.now goal.now)) }
    ensures short { IfOk result (λ found. IfSome found (λ shown. HasShortList system.now goal.now → IsShort shown)) }
    ensures none { IfOk result (λ found. IfNone found (¬ HasShortList system.now goal.now)) }
{
    if let Some(shown) = short_list(alloc, system, goal)? {
        return Ok(Some(shown));
    }
    longer_list(alloc, system, goal)
}
