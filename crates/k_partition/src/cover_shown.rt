//! Whether the families' sets cover the coordinates.
#![tactic(auto, using(claims::proofs::Found::in_a_row))]

ghost use Rattle.std.specs.Prelude.{◌≡◌, ◌≤◌, ◌<◌, ◌++◌, ◌∷◌, [], length, map, sum_by, IfOk, codes};
ghost use Rattle.claims.specs.Claims.{Decides};
ghost use Rattle.iolb_model.specs.Game.{stands_in};
ghost use Rattle.claims.specs.declared.place.Step.TheVariants.{Index, Key};
ghost use Rattle.k_partition.specs.PartitionClaims.{cover_claims, weight_at};
ghost use Rattle.k_partition.specs.TermLoads.{weight_of};
ghost use Rattle.k_partition.specs.View.{partition_of};
ghost use Rattle.reuse_paths.specs.Families.{family_of};
ghost use Rattle.reuse_paths.specs.declared.family.Family.{Family as family};
ghost use Rattle.iolb_model.specs.declared.limits.TheConstants.{NEST_VARIABLES, WEIGHTS};

use crate::term::Partition;
use affine_form::Memory;
use claims::{ObjectKey, Place, Refused, Step, refusal};
use reuse_paths::Family;
use std::alloc::Global;

/// Whether each coordinate lies in sets of a total weight of at least `q`.
pub(crate) fn cover_shown(alloc: Global, term: &Partition, place: &Place) -> Result<(), Refused>
    requires few { length term.now.nest ≤ NEST_VARIABLES }
    requires light { weight_of (partition_of term.now) ≤ WEIGHTS }
    ensures { Decides (cover_claims place.now (partition_of term.now)) result }
{
    let families = term.families.as_slice();
    let size = term.nest.bounds().len();
    for i in 0..size {
        if weight_at(families, i as u8) < term.q {
            let row = cover_place(alloc, place, i)?;
            return Err(refusal(alloc, 17, &row));
        }
    }
    Ok(())
}

/// The weights of the sets in which a coordinate lies.
fn weight_at(families: &[Family], coordinate: u8) -> u8
    requires { sum_by (λ (f : family). f.weight) families.now ≤ WEIGHTS }
    ensures { result ≡ weight_at (map family_of families.now) coordinate }
{
    let mut sum = 0;
    for family in families {
        if has(family, coordinate) {
            sum += family.weight;
        }
    }
    sum
}

/// Whether a coordinate lies in a family's set.
fn has(family: &Family, coordinate: u8) -> bool
    ensures { result ≡ stands_in family.now.set coordinate }
{
    family.set.coords().contains(&coordinate)
}

/// The place of a row of the matrix.
fn cover_place(alloc: Global, place: &Place, i: usize) -> Result<Place, Memory>
    ensures { IfOk result (λ row. row ≡ place.now ++ Key (codes "matrix") ∷ Index i ∷ []) }
{
    let list = place.within(alloc, Step::Key(ObjectKey("matrix")))?;
    list.within(alloc, Step::Index(i as u64))
}
