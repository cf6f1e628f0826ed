//! Whether what a cold term claims at leaves is shown.
#![tactic(auto, using(claims::proofs::Found::in_a_row))]

ghost use Rattle.std.specs.Prelude.{◌≡◌, ◌≤◌, ◌++◌, [], ◌∷◌, length, map};
ghost use Rattle.std.specs.List.{AllByRecursion};
ghost use Rattle.affine_form.specs.System.{AllOver};
ghost use Rattle.claims.specs.Shown.{IsFew};
ghost use Rattle.claims.specs.Claims.{Decides};
ghost use Rattle.reuse_paths.specs.LeafClaims.{claim_of};
ghost use Rattle.dep_quast.specs.OpenLeaves.{OpenLeaf as open_leaf, is_input};
ghost use Rattle.wavefront.specs.Leaves.{leaf_claim, leaves_claims};
ghost use Rattle.iolb_model.specs.declared.limits.TheConstants.{VARIABLES};

use affine_form::Form;
use claims::lists::followed_by;
use claims::shown::system_shown;
use claims::{Place, Refused, Step, refusal};
use dep_quast::open_leaves::OpenLeaf;
use iolb_model::limits;
use reuse_paths::Leaf;
use std::alloc::Global;

/// Whether what is claimed at leaves is shown, each by its entry: the first that isn't, by its place in the list at this
/// place.
pub(crate) fn leaves_shown(
    alloc: Global,
    vars: usize,
    rows: &[Form],
    list: &Place,
    leaves: &[OpenLeaf],
    entries: &[Leaf],
) -> Result<(), Refused>
    requires few { vars ≤ VARIABLES }
    requires rows_over { AllOver vars rows.now }
    requires leaves_over { AllByRecursion (λ (l : open_leaf). AllOver vars l.tests) leaves.now }
    requires one_each { length entries.now ≡ length leaves.now }
    ensures { Decides (leaves_claims vars rows.now list.now 0 leaves.now (map claim_of entries.now)) result }
{
    for i in 0..leaves.len() {
        let place = list.within(alloc, Step::Index(i as u64))?;
        leaf_shown(alloc, vars, rows, &place, &leaves[i], &entries[i])?;
    }
    Ok(())
}

/// Whether what an entry claims at a leaf is shown: else the condition that doesn't hold, at this place. Want of memory
/// is its only error.
fn leaf_shown(
    alloc: Global,
    vars: usize,
    rows: &[Form],
    place: &Place,
    leaf: &OpenLeaf,
    entry: &Leaf,
) -> Result<(), Refused>
    requires few { vars ≤ VARIABLES }
    requires rows_over { AllOver vars rows.now }
    requires leaf_over { AllOver vars leaf.now.tests }
    ensures { Decides (record { condition = 2; place = place.now; statement = IsFew (length (rows.now ++ leaf.now.tests)) }
        ∷ leaf_claim place.now (record { vars = vars; rows = rows.now ++ leaf.now.tests }) (is_input leaf.now.origin) (claim_of entry.now) ∷ []) result }
{
    let front = followed_by(alloc, Vec::new(alloc), rows)?;
    let all = followed_by(alloc, front, leaf.tests.as_slice())?;
    if let Leaf::Empty(shown) = entry {
        return system_shown(alloc, 11, place, vars, all.as_slice(), shown);
    }
    if all.len() > limits::ROWS {
        return Err(refusal(alloc, 2, place));
    }
    if !(leaf.is_input() && matches!(entry, Leaf::Stop { .. })) {
        return Err(refusal(alloc, 11, place));
    }
    Ok(())
}
