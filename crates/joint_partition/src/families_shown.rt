//! Whether the walks of families are shown to keep their labels.
#![tactic(auto, using(claims::proofs::Found::in_a_row))]

ghost use Rattle.std.specs.Prelude.{◌≡◌, ◌+◌, ◌<◌, ◌^◌, [], length, map};
ghost use Rattle.std.specs.List.{AllByRecursion};
ghost use Rattle.affine_program.specs.Parts.{meaning};
ghost use Rattle.claims.specs.Claims.{Decides, numbered};
ghost use Rattle.dep_quast.specs.Quasts.{trees_of};
ghost use Rattle.joint_partition.specs.Claims.{families_claims, family_claims};
ghost use Rattle.joint_partition.specs.FamiliesFit.{FitsJoint, FitsFamily};
ghost use Rattle.joint_partition.specs.View.{family_of, joint_of};

use crate::places::member_at;
use crate::starts_shown::starts_shown;
use crate::term::{Joint, JointFamily};
use crate::ways_shown::ways_shown;
use affine_program::Program;
use claims::{ObjectKey, Place, Refused};
use domain_count::Nest;
use reuse_paths::Quasts;
use std::alloc::Global;

/// Whether the walks of a family, which has this number, are shown to keep their labels: those of the starts, then those of the
/// ways.
fn family_shown(
    alloc: Global,
    program: &Program,
    quasts: &Quasts,
    term: &Joint,
    place: &Place,
    index: usize,
    family: &JointFamily,
) -> Result<(), Refused>
    requires term { FitsJoint program.now (trees_of quasts.now) term.now }
    requires family { FitsFamily (meaning program.now) (trees_of quasts.now) (joint_of term.now) (family_of family.now) }
    ensures { Decides (family_claims (meaning program.now) (trees_of quasts.now) (joint_of term.now) place.now index (family_of family.now)) result }
{
    let here = member_at(alloc, place, ObjectKey("families"), index)?;
    let none = Nest::new(Vec::new(alloc));
    let parts = term.parts.as_slice();
    let starts = family.starts.as_slice();
    starts_shown(
        alloc, program, quasts, &none, term, family, &here, 0, parts, starts,
    )?;
    let ways = family.ways.as_slice();
    ways_shown(alloc, program, quasts, &none, term, family, &here, 0, ways)?;
    Ok(())
}

/// Whether the walks of families, of which the first has this number, are shown to keep their labels.
fn families_from(
    alloc: Global,
    program: &Program,
    quasts: &Quasts,
    term: &Joint,
    place: &Place,
    index: usize,
    families: &[JointFamily],
) -> Result<(), Refused>
    requires term { FitsJoint program.now (trees_of quasts.now) term.now }
    requires families { AllByRecursion (FitsFamily (meaning program.now) (trees_of quasts.now) (joint_of term.now)) (map family_of families.now) }
    requires room { index + length families.now < 2 ^ 64 }
    ensures { Decides (numbered (family_claims (meaning program.now) (trees_of quasts.now) (joint_of term.now) place.now) index (map family_of families.now)) result }
{
    let Some((family, families)) = families.split_first() else {
        return Ok(());
    };
    family_shown(alloc, program, quasts, term, place, index, family)?;
    let next = index + 1;
    families_from(alloc, program, quasts, term, place, next, families)
}

/// Whether the walks of a joint term's families are shown to keep their labels, family by family.
pub(crate) fn families_shown(
    alloc: Global,
    program: &Program,
    quasts: &Quasts,
    term: &Joint,
    place: &Place,
) -> Result<(), Refused>
    requires { FitsJoint program.now (trees_of quasts.now) term.now }
    ensures { Decides (families_claims (meaning program.now) (trees_of quasts.now) place.now (joint_of term.now)) result }
{
    let families = term.families.as_slice();
    families_from(alloc, program, quasts, term, place, 0, families)
}
