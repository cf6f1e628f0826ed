//! The term of all instances.

ghost use Rattle.std.specs.Prelude.{◌≡◌, ◌≤◌, IfOk, List, sum};
ghost use Rattle.iolb_model.specs.declared.limits.TheConstants.{WEIGHTS};
ghost use Rattle.affine_program.specs.Parts.{meaning};
ghost use Rattle.dep_quast.specs.Quasts.{trees_of};
ghost use Rattle.claims.specs.Claims.{AllHold};
ghost use Rattle.claims.specs.declared.place.Step.{Step};
ghost use Rattle.k_partition.specs.PartitionClaims.{partition_claims};
ghost use Rattle.k_partition.specs.PartitionFits.{PartitionFits};
ghost use Rattle.k_partition.specs.View.{partition_of};
ghost use Rattle.projective.specs.Shape.{IsShapeOf};
ghost use Rattle.projective_bounds.specs.WholeLaws.{CanBeShown};
ghost use Rattle.projective_bounds.specs.Readable.{AreReadable};
ghost use Rattle.iolb_check.specs.Limits.{IsSmallPartition};
ghost use Rattle.projective_bounds.specs.Whole.{IsWholeTerm, stretch_for};

use crate::families::families;
use crate::matrices::identity;
use crate::multipliers::rows_taken;
use affine_form::{Form, Memory};
use affine_program::Program;
use domain_count::Nest;
use k_partition::{Partition, Shape};
use projective::{Projective, product_sums};
use reuse_paths::Quasts;
use std::alloc::Global;

/// Copies of bounds.
fn copies(alloc: Global, bounds: &[(Form, Form)]) -> Result<Vec<(Form, Form)>, Memory>
    ensures { IfOk result (λ all. all.items ≡ bounds.now) }
{
    let mut all = Vec::new(alloc);
    for (lower, upper) in bounds {
        all.push((lower.try_clone(alloc)?, upper.try_clone(alloc)?))?;
    }
    Ok(all)
}

/// What some weights add up to.
fn total(weights: &[u8]) -> u8
    requires { sum weights.now ≤ WEIGHTS }
    ensures { result ≡ sum weights.now }
{
    let Some((first, others)) = weights.split_first() else {
        return 0;
    };
    first + total(others)
}

/// How many events a stretch has for each word that is red, for a cover of `q` whose weights have this total.
pub fn stretch_for(q: u8, total: u8) -> u8
    requires { q ≤ total }
    ensures { result ≡ stretch_for q total }
{
    if total == q {
        return 16;
    }
    (q / (total - q)).max(1)
}

/// The term of all instances, by its parts.
fn term_of(
    alloc: Global,
    program: &Program,
    shape: &Projective,
    quasts: &Quasts,
    q: u8,
    weights: &[u8],
) -> Result<Partition, Memory>
    requires shown { CanBeShown program.now (trees_of quasts.now) q weights.now }
    requires shape { IsShapeOf (meaning program.now) shape.now }
    requires readable { AreReadable (meaning program.now) 0 shape.now.sets.items weights.now }
    ensures { IfOk result (λ term. IsWholeTerm (meaning program.now) (trees_of quasts.now) q weights.now (partition_of term)) }
{
    let bounds = program.statements()[0].bounds.as_slice();
    let depth = bounds.len();
    let assumed = program.assumed().rows().len();
    let inside = rows_taken(alloc, assumed, 2 * depth)?;
    let families = families(alloc, program, quasts, 0, shape.sets(), weights)?;
    Ok(Partition {
        statement: 0,
        nest: Nest::new(copies(alloc, bounds)?),
        sums: product_sums(alloc, program, bounds)?,
        inside,
        matrix: identity(alloc, depth)?,
        inverse: identity(alloc, depth)?,
        q,
        shape: Shape::Sum,
        a: stretch_for(q, total(weights)),
        b: 0,
        credits: Vec::new(alloc),
        families,
        apart: Vec::new(alloc),
    })
}

/// The partition term of all instances of a projective program, for a cover of its sets with a packing of the same total: the
/// families are those of the arrays whose weight isn't 0, along source trees that keep the loops that stand in their
/// references. All that it claims holds, wherever it stands; it fits the program and the trees, and is within the limits of
/// certificates.
///
/// # Errors
///
/// Want of memory alone.
pub fn whole_term(
    alloc: Global,
    program: &Program,
    shape: &Projective,
    quasts: &Quasts,
    q: u8,
    weights: &[u8],
) -> Result<Partition, Memory>
    requires shown { CanBeShown program.now (trees_of quasts.now) q weights.now }
    requires shape { IsShapeOf (meaning program.now) shape.now }
    ensures whole { IfOk result (λ term. IsWholeTerm (meaning program.now) (trees_of quasts.now) q weights.now (partition_of term)) }
    ensures holds { IfOk result (λ term. (place : List Step) → AllHold (partition_claims (meaning program.now) (trees_of quasts.now) place (partition_of term))) }
    ensures fits { IfOk result (λ term. PartitionFits (meaning program.now) (trees_of quasts.now) (partition_of term)) }
    ensures small { IfOk result (λ term. IsSmallPartition term) }
{
    let term = term_of(alloc, program, shape, quasts, q, weights)?;
    Ok(term)
}
