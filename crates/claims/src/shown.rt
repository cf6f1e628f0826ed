//! Whether multipliers show what is claimed of systems.
#![tactic(auto, using(crate::proofs::Found::in_a_row))]

ghost use Rattle.std.specs.Prelude.{◌≡◌, ◌≤◌, [], ◌∷◌, length, IsTrue, ◌↔◌};
ghost use Rattle.affine_form.specs.System.{AllOver};
ghost use Rattle.claims.specs.Shown.{IsFew, Follows, IsPointless, follow_claims};
ghost use Rattle.claims.specs.Claims.{Decides};
ghost use Rattle.iolb_model.specs.declared.limits.TheConstants.{VARIABLES};

use crate::{Place, Refused, Step, refusal};
use affine_form::{Form, Multipliers, System, empty, entails, system_of};
use iolb_model::limits;
use std::alloc::Global;

/// Whether the multipliers show that the goal follows.
fn is_followed(system: &System, goal: &Form, shown: &Multipliers) -> bool
    ensures { IsTrue result ↔ (Follows system.now goal.now shown.now) }
{
    let _scale = shown.c();
    entails(system, goal, shown)
}

/// Whether the multipliers show that the system has no point.
pub fn is_pointless(system: &System, shown: &Multipliers) -> bool
    ensures { IsTrue result ↔ (IsPointless system.now shown.now) }
{
    let _scale = shown.c();
    empty(system, shown)
}

/// Whether the goals follow, each by its multipliers: the first that doesn't, by its place in the list at this place.
pub fn goals_shown(
    alloc: Global,
    condition: u8,
    place: &Place,
    system: &System,
    goals: &[Form],
    shown: &[Multipliers],
) -> Result<(), Refused>
    requires { length shown.now ≡ length goals.now }
    ensures { Decides (follow_claims condition place.now system.now 0 goals.now shown.now) result }
{
    for (i, goal) in goals.iter().enumerate() {
        if !is_followed(system, goal, &shown[i]) {
            let place = place.within(alloc, Step::Index(i as u64))?;
            return Err(refusal(alloc, condition, &place));
        }
    }
    Ok(())
}

/// Whether the rows are few, and the multipliers show that no point meets them all: else the condition that doesn't
/// hold, at this place.
pub fn system_shown(
    alloc: Global,
    condition: u8,
    place: &Place,
    vars: usize,
    rows: &[Form],
    shown: &Multipliers,
) -> Result<(), Refused>
    requires few { vars ≤ VARIABLES }
    requires over { AllOver vars rows.now }
    ensures { Decides (record { condition = 2; place = place.now; statement = IsFew (length rows.now) }
        ∷ record { condition = condition; place = place.now; statement = IsPointless (record { vars = vars; rows = rows.now }) shown.now } ∷ []) result }
{
    if rows.len() > limits::ROWS {
        return Err(refusal(alloc, 2, place));
    }
    let system = system_of(alloc, vars, rows)?;
    if !is_pointless(&system, shown) {
        return Err(refusal(alloc, condition, place));
    }
    Ok(())
}
