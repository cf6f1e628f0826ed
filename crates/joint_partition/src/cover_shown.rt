//! Whether the families' sets cover the coordinates.
#![tactic(auto, using(claims::proofs::Found::in_a_row))]

ghost use Rattle.std.specs.Prelude.{◌≡◌, ◌≤◌, ◌++◌, ◌∷◌, [], map, sum_by, IfOk, codes};
ghost use Rattle.claims.specs.Claims.{Decides};
ghost use Rattle.iolb_model.specs.Game.{stands_in};
ghost use Rattle.claims.specs.declared.place.Step.TheVariants.{Index, Key};
ghost use Rattle.joint_partition.specs.Claims.{cover_claims, weight_at};
ghost use Rattle.joint_partition.specs.JointLoads.{weight_of};
ghost use Rattle.joint_partition.specs.JointWords.{dimensions_of};
ghost use Rattle.joint_partition.specs.View.{family_of, joint_of};
ghost use Rattle.joint_partition.specs.declared.term.JointFamily.{JointFamily as family};
ghost use Rattle.iolb_model.specs.declared.limits.TheConstants.{NEST_VARIABLES, WEIGHTS};

use crate::dimensions::dimensions_of;
use crate::places::member_at;
use crate::term::{Joint, JointFamily};
use affine_form::Memory;
use claims::{ObjectKey, Place, Refused, refusal};
use std::alloc::Global;

/// Whether each coordinate lies in sets of a total weight of at least `q`.
pub(crate) fn cover_shown(alloc: Global, term: &Joint, place: &Place) -> Result<(), Refused>
    requires few { dimensions_of (joint_of term.now) ≤ NEST_VARIABLES }
    requires light { weight_of (joint_of term.now) ≤ WEIGHTS }
    ensures { Decides (cover_claims place.now (joint_of term.now)) result }
{
    let families = term.families.as_slice();
    let size = dimensions_of(term);
    for i in 0..size {
        if weight_at(families, i as u8) < term.q {
            let coordinate = coordinate_place(alloc, place, i)?;
            return Err(refusal(alloc, 17, &coordinate));
        }
    }
    Ok(())
}

/// The weights of the sets in which a coordinate lies.
fn weight_at(families: &[JointFamily], coordinate: u8) -> u8
    requires { sum_by (λ (f : family). f.weight) families.now ≤ WEIGHTS }
    ensures { result ≡ weight_at (map family_of families.now) coordinate }
{
    let mut sum = 0;
    for family in families {
        if has(family, coordinate) {
            sum += family.weight;
        }
    }
    sum
}

/// Whether a coordinate lies in a family's set.
fn has(family: &JointFamily, coordinate: u8) -> bool
    ensures { result ≡ stands_in family.now.set coordinate }
{
    family.set.coords().contains(&coordinate)
}

/// The place of a form of the first part's map.
fn coordinate_place(alloc: Global, place: &Place, i: usize) -> Result<Place, Memory>
    ensures { IfOk result (λ form. form ≡ place.now ++ Key (codes "parts") ∷ Index 0 ∷ Key (codes "map") ∷ Index i ∷ []) }
{
    let part = member_at(alloc, place, ObjectKey("parts"), 0)?;
    member_at(alloc, &part, ObjectKey("map"), i)
}
