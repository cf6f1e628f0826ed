//! Whether what is said of how walks start fits.
#![tactic(auto, using(claims::proofs::Found::in_a_row))]

ghost use Rattle.claims.specs.Claims.{Decides};
ghost use Rattle.std.specs.Prelude.{◌≡◌, ◌+◌, ◌<◌, ◌^◌, ◌++◌, ◌∷◌, [], length, map, option_map, codes};
ghost use Rattle.affine_program.specs.Parts.{meaning};
ghost use Rattle.certificate_fit.specs.FitClaims.{names};
ghost use Rattle.certificate_fit.specs.WalkFit.{walk_fit};
ghost use Rattle.claims.specs.declared.place.Step.TheVariants.{Key};
ghost use Rattle.dep_quast.specs.Quasts.{trees_of};
ghost use Rattle.iolb_check.specs.JointFit.{all_starts_fit as starts_of_family};
ghost use Rattle.iolb_check.specs.JointWalks.{AreBare, setting_in, start_in, starts_in};
ghost use Rattle.joint_partition.specs.Term.{credited_nests, way_at};
ghost use Rattle.joint_partition.specs.View.{family_of, joint_of, part_of, start_of};
ghost use Rattle.reuse_paths.specs.Walks.{boxed_region};

use crate::family_walks::{FamilyWalks, walking_in};
use certificate_fit::lists::misfit;
use certificate_fit::walks::walk_fits;
use claims::{ObjectKey, Place, Refused, Step};
use joint_partition::{JointFamily, Part, Start};
use reuse_paths::Region;
use std::alloc::Global;

/// The regions of the way with this number: none where it isn't there.
fn regions_at(family: &JointFamily, number: u8) -> &[Option<Box<Region>>]
    ensures { map (option_map boxed_region) result.now ≡ (way_at (family_of family.now) number).regions }
{
    match family.ways.as_slice().get(usize::from(number)) {
        Some(way) => way.regions.as_slice(),
        None => &[],
    }
}

/// Whether what is said fits of how walks start from a part, at this place.
fn start_walk_fits(
    alloc: Global,
    walks: &FamilyWalks,
    place: &Place,
    statement: u16,
    start: &Start,
) -> Result<(), Refused>
    requires { AreBare walks.now }
    ensures { Decides (walk_fit (setting_in walks.now (way_at (family_of walks.now.family.now) start.now.way).regions) statement (place.now ++ Key (codes "tree") ∷ []) (start_of start.now).tree) result }
{
    let regions = regions_at(walks.family, start.way);
    let walking = walking_in(walks, regions);
    let tree = place.within(alloc, Step::Key(ObjectKey("tree")))?;
    walk_fits(alloc, &walking, statement, &tree, &start.tree)
}

/// Whether the way that walks enter is there.
fn way_is_there(
    alloc: Global,
    family: &JointFamily,
    place: &Place,
    start: &Start,
) -> Result<(), Refused>
    ensures { Decides (names (place.now ++ Key (codes "way") ∷ []) start.now.way (length (family_of family.now).ways) ∷ []) result }
{
    if usize::from(start.way) >= family.ways.as_slice().len() {
        return Err(misfit(alloc, place, Step::Key(ObjectKey("way"))));
    }
    Ok(())
}

/// Whether what is said fits of how walks start from a part, and of the way that they enter, at this place.
fn start_fits(
    alloc: Global,
    walks: &FamilyWalks,
    place: &Place,
    part: &Part,
    start: &Start,
) -> Result<(), Refused>
    requires { AreBare walks.now }
    ensures { Decides (start_in walks.now place.now (part_of part.now) (start_of start.now)) result }
{
    start_walk_fits(alloc, walks, place, part.statement, start)?;
    way_is_there(alloc, walks.family, place, start)?;
    Ok(())
}

/// Whether what is said fits of starts from an index on, one for each part, in a list at this place.
fn starts_fit(
    alloc: Global,
    walks: &FamilyWalks,
    list: &Place,
    index: usize,
    parts: &[Part],
    starts: &[Start],
) -> Result<(), Refused>
    requires bare { AreBare walks.now }
    requires room { index + length parts.now < 2 ^ 64 }
    ensures { Decides (starts_in walks.now list.now index (map part_of parts.now) (map start_of starts.now)) result }
{
    let Some((part, parts)) = parts.split_first() else {
        return Ok(());
    };
    let Some((start, starts)) = starts.split_first() else {
        return Ok(());
    };
    let at = list.within(alloc, Step::Index(index as u64))?;
    start_fits(alloc, walks, &at, part, start)?;
    starts_fit(alloc, walks, list, index + 1, parts, starts)
}

/// Whether what is said fits of the starts of a family, the list with the key `starts`.
pub(crate) fn all_starts_fit(
    alloc: Global,
    walks: &FamilyWalks,
    place: &Place,
) -> Result<(), Refused>
    requires { AreBare walks.now }
    ensures { Decides (starts_of_family (meaning walks.now.program.now) (trees_of walks.now.quasts.now) (credited_nests (joint_of walks.now.term.now)) (joint_of walks.now.term.now).parts
        (place.now ++ Key (codes "starts") ∷ []) (family_of walks.now.family.now)) result }
{
    let parts = walks.term.parts.as_slice();
    let starts = walks.family.starts.as_slice();
    if starts.len() != parts.len() {
        return Err(misfit(alloc, place, Step::Key(ObjectKey("starts"))));
    }
    let list = place.within(alloc, Step::Key(ObjectKey("starts")))?;
    starts_fit(alloc, walks, &list, 0, parts, starts)?;
    Ok(())
}
