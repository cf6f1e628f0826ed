//! Whether the families of joint terms fit.
#![tactic(auto, using(claims::proofs::Found::in_a_row))]

ghost use Rattle.claims.specs.Claims.{Decides, numbered};
ghost use Rattle.std.specs.Prelude.{◌≡◌, map};
ghost use Rattle.affine_program.specs.Parts.{meaning};
ghost use Rattle.dep_quast.specs.Quasts.{trees_of};
ghost use Rattle.iolb_check.specs.JointFit.{group_family_at, group_family_fit, group_walks_fit};
ghost use Rattle.joint_partition.specs.JointWords.{dimensions_of};
ghost use Rattle.joint_partition.specs.Term.{credited_nests};
ghost use Rattle.joint_partition.specs.View.{family_of, joint_of};

use crate::family_walks::{FamilyWalks, blank_label};
use crate::fit_labelings::all_labelings_fit;
use crate::fit_starts::all_starts_fit;
use crate::fit_ways::all_ways_fit;
use affine_program::Program;
use certificate_fit::families::set_fits;
use claims::{ObjectKey, Place, Refused, Step};
use domain_count::Nest;
use joint_partition::{Joint, JointFamily};
use reuse_paths::Quasts;
use std::alloc::Global;

/// Whether what is said fits of a family's walks, at this place.
fn walks_fit(
    alloc: Global,
    program: &Program,
    quasts: &Quasts,
    term: &Joint,
    place: &Place,
    family: &JointFamily,
) -> Result<(), Refused>
    ensures { Decides (group_walks_fit (meaning program.now) (trees_of quasts.now) (credited_nests (joint_of term.now)) (joint_of term.now).parts place.now (family_of family.now)) result }
{
    let none = Nest::new(Vec::new(alloc));
    let label = blank_label(alloc, family)?;
    let walks = FamilyWalks {
        program,
        quasts,
        term,
        family,
        none: &none,
        reader: label.as_slice(),
    };
    all_starts_fit(alloc, &walks, place)?;
    let list = place.within(alloc, Step::Key(ObjectKey("ways")))?;
    all_ways_fit(alloc, &walks, &list, family.ways.as_slice())?;
    Ok(())
}

/// Whether what is said fits of a family of a term with so many dimensions, at this place.
fn family_fits(
    alloc: Global,
    program: &Program,
    quasts: &Quasts,
    term: &Joint,
    place: &Place,
    dimensions: usize,
    family: &JointFamily,
) -> Result<(), Refused>
    requires { dimensions ≡ dimensions_of (joint_of term.now) }
    ensures { Decides (group_family_fit (meaning program.now) (trees_of quasts.now) (joint_of term.now) place.now (family_of family.now)) result }
{
    let list = place.within(alloc, Step::Key(ObjectKey("labels")))?;
    let set = family.set.coords();
    all_labelings_fit(alloc, program, &list, set.len(), family.labels.as_slice())?;
    set_fits(alloc, place, dimensions, set)?;
    walks_fit(alloc, program, quasts, term, place, family)?;
    Ok(())
}

/// Whether what is said fits of families of a term with so many dimensions, in a list at this place.
pub(crate) fn all_joint_families_fit(
    alloc: Global,
    program: &Program,
    quasts: &Quasts,
    term: &Joint,
    list: &Place,
    dimensions: usize,
    families: &[JointFamily],
) -> Result<(), Refused>
    requires { dimensions ≡ dimensions_of (joint_of term.now) }
    ensures { Decides (numbered (group_family_at (meaning program.now) (trees_of quasts.now) (joint_of term.now) list.now) 0 (map family_of families.now)) result }
{
    for (index, family) in families.iter().enumerate() {
        let at = list.within(alloc, Step::Index(index as u64))?;
        family_fits(alloc, program, quasts, term, &at, dimensions, family)?;
    }
    Ok(())
}
