//! Branches of cold terms.

ghost use Rattle.std.specs.Prelude.{◌≡◌, [], map, IfOk};
ghost use Rattle.iolb_check.specs.declared.term.Term.TheVariants as terms;

use affine_form::Memory;
use iolb_check::{Branch, Term};
use std::alloc::Global;
use wavefront::Cold;

/// The branch of cold terms of different arrays, which takes no multipliers to show that they have no cell in common.
///
/// # Errors
///
/// Want of memory alone.
pub fn cold_branch(alloc: Global, colds: Vec<Cold>) -> Result<Branch, Memory>
    ensures all { IfOk result (λ branch. branch.terms.items ≡ map terms.Cold colds.items) }
    ensures alone { IfOk result (λ branch. branch.disjoint.items ≡ []) }
{
    let mut terms = Vec::new(alloc);
    for cold in colds {
        terms.push(Term::Cold(cold))?;
    }
    let disjoint = Vec::new(alloc);
    Ok(Branch { terms, disjoint })
}
