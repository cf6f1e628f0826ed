//! Entries at the leaves of source trees.

ghost use Rattle.std.specs.Prelude.{◌≤◌, ◌++◌, IfOk};
ghost use Rattle.std.specs.List.{AllByRecursion};
ghost use Rattle.affine_form.specs.System.{AllOver};
ghost use Rattle.dep_quast.specs.OpenLeaves.{OpenLeaf as open_leaf, is_input};
ghost use Rattle.cold_terms.specs.Entries.{FindsEntry, FindsEntries, system_at};
ghost use Rattle.iolb_model.specs.declared.limits.TheConstants.{VARIABLES};

use affine_form::{Form, Memory};
use claims::lists::followed_by;
use dep_quast::open_leaves::OpenLeaf;
use flow_deps::{Wanted, system_answered};
use iolb_model::limits;
use reuse_paths::Leaf;
use std::alloc::Global;

/// An entry at a leaf, whose system has these rows and its tests: the walk stops at an input; every other leaf is shown
/// to have no point.
fn entry_at(
    alloc: Global,
    wanted: Wanted,
    vars: usize,
    rows: &[Form],
    leaf: &OpenLeaf,
) -> Result<Option<Leaf>, Memory>
    requires few { vars ≤ VARIABLES }
    requires rows_over { AllOver vars rows.now }
    requires leaf_over { AllOver vars leaf.now.tests }
    ensures { IfOk result (λ found. FindsEntry wanted (system_at vars rows.now leaf.now) (is_input leaf.now.origin) found) }
{
    let front = followed_by(alloc, Vec::new(alloc), rows)?;
    let all = followed_by(alloc, front, leaf.tests.as_slice())?;
    if all.len() > limits::ROWS {
        return Ok(None);
    }
    if leaf.is_input() {
        let label = Vec::new(alloc);
        return Ok(Some(Leaf::Stop { label }));
    }
    let Some(shown) = system_answered(alloc, wanted, vars, all.as_slice())? else {
        return Ok(None);
    };
    Ok(Some(Leaf::Empty(shown)))
}

/// An entry at each leaf. None only where short lists don't close them all.
pub(crate) fn entries_at(
    alloc: Global,
    wanted: Wanted,
    vars: usize,
    rows: &[Form],
    leaves: &[OpenLeaf],
) -> Result<Option<Vec<Leaf>>, Memory>
    requires few { vars ≤ VARIABLES }
    requires rows_over { AllOver vars rows.now }
    requires leaves_over { AllByRecursion (λ (l : open_leaf). AllOver vars l.tests) leaves.now }
    ensures { IfOk result (λ found. FindsEntries wanted vars rows.now leaves.now found) }
{
    let mut all = Vec::new(alloc);
    for leaf in leaves {
        let Some(entry) = entry_at(alloc, wanted, vars, rows, leaf)? else {
            return Ok(None);
        };
        all.push(entry)?;
    }
    Ok(Some(all))
}
