//! Entries at the leaves of source trees.

ghost use Rattle.std.specs.Prelude.{◌≡◌, ◌≤◌, ◌∷◌, [], IfOk, map};
ghost use Rattle.dep_quast.specs.Tree.{tree_of};
ghost use Rattle.reuse_paths.specs.LeafClaims.{claim_of, goes_on, stops};
ghost use Rattle.projective_bounds.specs.Families.{entries_of};
ghost use Rattle.projective_bounds.specs.Multipliers.{labels_agree};
ghost use Rattle.iolb_model.specs.declared.limits.TheConstants.{NEST_VARIABLES};

use crate::multipliers::labels_agree;
use affine_form::Memory;
use dep_quast::Quast;
use reuse_paths::Leaf;
use std::alloc::Global;

/// The entry at an input, where a walk stops, for labels of so many forms.
pub(crate) fn stop(alloc: Global, size: usize) -> Result<Vec<Leaf>, Memory>
    requires { size ≤ NEST_VARIABLES }
    ensures { IfOk result (λ entries. map claim_of entries.items ≡ stops (labels_agree size) ∷ []) }
{
    let label = labels_agree(alloc, size)?;
    Ok(vec![in alloc; Leaf::Stop { label }]?)
}

/// The entry at a source, where a walk goes on.
fn go(alloc: Global, size: usize) -> Result<Vec<Leaf>, Memory>
    requires { size ≤ NEST_VARIABLES }
    ensures { IfOk result (λ entries. map claim_of entries.items ≡ goes_on [] (labels_agree size) ∷ []) }
{
    let label = labels_agree(alloc, size)?;
    let rows = Vec::new(alloc);
    Ok(vec![in alloc; Leaf::Go { rows, label }]?)
}

/// The entries at the leaves of a source tree, for labels of so many forms: the walk goes on at a source, and stops at an
/// input.
pub(crate) fn entries(alloc: Global, size: usize, quast: &Quast) -> Result<Vec<Leaf>, Memory>
    requires { size ≤ NEST_VARIABLES }
    ensures { IfOk result (λ all. map claim_of all.items ≡ entries_of size (tree_of quast.now)) }
{
    match quast {
        Quast::Test { yes, no, .. } => {
            let mut all = entries(alloc, size, yes)?;
            let mut below = entries(alloc, size, no)?;
            all.append(&mut below)?;
            Ok(all)
        }
        Quast::Source { .. } => go(alloc, size),
        Quast::Empty { .. } => Ok(Vec::new(alloc)),
        Quast::Input { .. } => stop(alloc, size),
        Quast::Blank => stop(alloc, size),
    }
}
