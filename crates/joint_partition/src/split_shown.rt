//! Whether a split shows that a system has no whole-number point.
#![tactic(auto, using(claims::proofs::Found::in_a_row))]

ghost use Rattle.std.specs.Prelude.{◌≤◌, ◌+◌, ◌++◌, ◌∷◌, [], length, codes};
ghost use Rattle.affine_form.specs.System.{AllOver};
ghost use Rattle.claims.specs.Claims.{Decides};
ghost use Rattle.claims.specs.Shown.{IsPointless};
ghost use Rattle.claims.specs.declared.place.Step.TheVariants.{Key};
ghost use Rattle.iolb_model.specs.declared.limits.TheConstants.{ROWS, VARIABLES};
ghost use Rattle.joint_partition.specs.SplitFits.{SplitFits, nesting};
ghost use Rattle.joint_partition.specs.Splits.{split_claims};
ghost use Rattle.joint_partition.specs.View.{split_of};

use crate::term::Split;
use affine_form::{Form, Multipliers, system_of};
use claims::lists::with_form;
use claims::shown::is_pointless;
use claims::{ObjectKey, Place, Refused, Step, refusal};
use reuse_paths::walk_shown::rows_of_no;
use std::alloc::Global;

/// Whether these multipliers show that no point meets the rows, at `empty` behind this place.
fn end_shown(
    alloc: Global,
    place: &Place,
    vars: usize,
    rows: &[Form],
    shown: &Multipliers,
) -> Result<(), Refused>
    requires few { vars ≤ VARIABLES }
    requires few_rows { length rows.now ≤ ROWS }
    requires over { AllOver vars rows.now }
    ensures { Decides (record { condition = 25; place = place.now ++ Key (codes "empty") ∷ []; statement = IsPointless (record { vars = vars; rows = rows.now }) shown.now } ∷ []) result }
{
    let system = system_of(alloc, vars, rows)?;
    if !is_pointless(&system, shown) {
        let end = place.within(alloc, Step::Key(ObjectKey("empty")))?;
        return Err(refusal(alloc, 25, &end));
    }
    Ok(())
}

/// Whether a split is shown, end by end, `yes` before `no`: that no point meets the rows and those of the tests on the way.
pub(crate) fn split_shown(
    alloc: Global,
    place: &Place,
    vars: usize,
    rows: &[Form],
    split: &Split,
) -> Result<(), Refused>
    requires few { vars ≤ VARIABLES }
    requires few_rows { length rows.now + nesting (split_of split.now) ≤ ROWS }
    requires over { AllOver vars rows.now }
    requires fits { SplitFits vars (split_of split.now) }
    ensures { Decides (split_claims 25 place.now vars rows.now (split_of split.now)) result }
{
    match split {
        Split::Test { form, yes, no } => {
            let above = with_form(alloc, rows, form.try_clone(alloc)?)?;
            let side = place.within(alloc, Step::Key(ObjectKey("yes")))?;
            split_shown(alloc, &side, vars, above.as_slice(), yes)?;
            let below = rows_of_no(alloc, vars, rows, form)?;
            let side = place.within(alloc, Step::Key(ObjectKey("no")))?;
            split_shown(alloc, &side, vars, below.as_slice(), no)?;
            Ok(())
        }
        Split::Empty { shown } => end_shown(alloc, place, vars, rows, shown),
    }
}
