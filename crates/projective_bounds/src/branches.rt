//! The branch of a projective program's whole domain.

ghost use Rattle.std.specs.Prelude.{IfOk};
ghost use Rattle.affine_program.specs.Parts.{meaning};
ghost use Rattle.projective.specs.Shape.{IsShapeOf};
ghost use Rattle.projective_bounds.specs.Certified.{IsWholeBranch};
ghost use Rattle.dep_quast.specs.Quasts.{trees_of};
ghost use Rattle.projective_bounds.specs.WholeLaws.{CanBeShown};

use crate::whole::whole_term;
use affine_form::Memory;
use affine_program::Program;
use iolb_check::{Branch, Term};
use projective::Projective;
use reuse_paths::Quasts;
use std::alloc::Global;

/// The branch of the term of the whole domain.
pub(crate) fn whole_branch(
    alloc: Global,
    program: &Program,
    shape: &Projective,
    quasts: &Quasts,
    q: u8,
    weights: &[u8],
) -> Result<Branch, Memory>
    requires shown { CanBeShown program.now (trees_of quasts.now) q weights.now }
    requires shape { IsShapeOf (meaning program.now) shape.now }
    ensures { IfOk result (λ branch. IsWholeBranch (meaning program.now) (trees_of quasts.now) q weights.now branch) }
{
    let mut terms = Vec::new(alloc);
    let term = whole_term(alloc, program, shape, quasts, q, weights)?;
    terms.push(Term::Partition(term))?;
    let disjoint = Vec::new(alloc);
    Ok(Branch { terms, disjoint })
}
