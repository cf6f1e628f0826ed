//! Whether what is said of ways fits.
#![tactic(auto, using(claims::proofs::Found::in_a_row))]

ghost use Rattle.claims.specs.Claims.{Decides, numbered};
ghost use Rattle.std.specs.Prelude.{◌≡◌, ◌++◌, ◌∷◌, [], length, map, option_map, None, slice_index_or, codes};
ghost use Rattle.std.specs.Option.{is_some};
ghost use Rattle.claims.specs.declared.place.Step.TheVariants.{Key};
ghost use Rattle.iolb_check.specs.JointFit.{labeled_fit};
ghost use Rattle.iolb_check.specs.JointWalks.{AreBare, regions_in, way_in};
ghost use Rattle.joint_partition.specs.Term.{labels_of};
ghost use Rattle.joint_partition.specs.View.{family_of, way_of};
ghost use Rattle.reuse_paths.specs.WalkViews.{walk_of};
ghost use Rattle.reuse_paths.specs.Walks.{boxed_region};

use crate::family_walks::{FamilyWalks, walking_in};
use certificate_fit::lists::misfit;
use certificate_fit::walks::region_fits;
use claims::{ObjectKey, Place, Refused, Step};
use joint_partition::{JointFamily, Way};
use reuse_paths::{Region, Walking};
use std::alloc::Global;

/// Whether a statement has a label in the labeling with this number: none where that isn't there.
fn has_label(family: &JointFamily, number: u8, statement: usize) -> bool
    ensures { result ≡ is_some (slice_index_or (labels_of (family_of family.now) number).nodes statement None) }
{
    match family.labels.as_slice().get(usize::from(number)) {
        Some(labels) => matches!(labels.nodes.as_slice().get(statement), Some(Some(_))),
        None => false,
    }
}

/// Whether what is said fits of a statement's region in a way, in a list at this place.
fn labeled_fits(
    alloc: Global,
    walking: &Walking,
    family: &JointFamily,
    way: &Way,
    list: &Place,
    statement: u16,
    region: &Option<Box<Region>>,
) -> Result<(), Refused>
    ensures { Decides (labeled_fit (walk_of walking.now) (labels_of (family_of family.now) way.now.labels) list.now statement (option_map boxed_region region.now)) result }
{
    if region.is_none() {
        return Ok(());
    }
    let number = usize::from(statement);
    if !has_label(family, way.labels, number) {
        return Err(misfit(alloc, list, Step::Index(u64::from(statement))));
    }
    let at = list.within(alloc, Step::Index(u64::from(statement)))?;
    region_fits(alloc, walking, statement, &at, region)?;
    Ok(())
}

/// Whether what is said fits of the statements' regions in a way, in a list at this place.
fn all_regions_fit(
    alloc: Global,
    walking: &Walking,
    family: &JointFamily,
    way: &Way,
    list: &Place,
    regions: &[Option<Box<Region>>],
) -> Result<(), Refused>
    requires { length regions.now ≡ length walking.now.program.now.statements }
    ensures { Decides (numbered (labeled_fit (walk_of walking.now) (labels_of (family_of family.now) way.now.labels) list.now) 0 (map (option_map boxed_region) regions.now)) result }
{
    let _params = walking.program.params();
    for (statement, region) in regions.iter().enumerate() {
        labeled_fits(alloc, walking, family, way, list, statement as u16, region)?;
    }
    Ok(())
}

/// Whether what is said fits of the regions of a way, the list with the key `regions`.
fn way_regions_fit(
    alloc: Global,
    walks: &FamilyWalks,
    place: &Place,
    way: &Way,
) -> Result<(), Refused>
    requires { AreBare walks.now }
    ensures { Decides (regions_in walks.now (place.now ++ Key (codes "regions") ∷ []) (way_of way.now)) result }
{
    let regions = way.regions.as_slice();
    if regions.len() != walks.program.statements().len() {
        return Err(misfit(alloc, place, Step::Key(ObjectKey("regions"))));
    }
    let walking = walking_in(walks, regions);
    let list = place.within(alloc, Step::Key(ObjectKey("regions")))?;
    all_regions_fit(alloc, &walking, walks.family, way, &list, regions)?;
    Ok(())
}

/// Whether what is said fits of a way, in a list at this place.
fn way_fits(
    alloc: Global,
    walks: &FamilyWalks,
    list: &Place,
    index: usize,
    way: &Way,
) -> Result<(), Refused>
    requires { AreBare walks.now }
    ensures { Decides (way_in walks.now list.now index (way_of way.now)) result }
{
    let at = list.within(alloc, Step::Index(index as u64))?;
    if usize::from(way.labels) >= walks.family.labels.as_slice().len() {
        return Err(misfit(alloc, &at, Step::Key(ObjectKey("labels"))));
    }
    way_regions_fit(alloc, walks, &at, way)?;
    Ok(())
}

/// Whether what is said fits of the ways of a family, in a list at this place.
pub(crate) fn all_ways_fit(
    alloc: Global,
    walks: &FamilyWalks,
    list: &Place,
    ways: &[Way],
) -> Result<(), Refused>
    requires { AreBare walks.now }
    ensures { Decides (numbered (way_in walks.now list.now) 0 (map way_of ways.now)) result }
{
    for (index, way) in ways.iter().enumerate() {
        way_fits(alloc, walks, list, index, way)?;
    }
    Ok(())
}
