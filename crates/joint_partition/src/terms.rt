//! What sound joint terms are, and what they cost.

ghost use Rattle.joint_partition.specs.JointCosts.{JointClaimsAreSound, JointClaimsCost};
ghost use Rattle.joint_partition.specs.JointFits.{JointFamiliesAreSound, JointGroupsAreApart, PartsAreSound};
ghost use Rattle.joint_partition.specs.JointLoads.{JointTermsAreLoaded, JointTermsAreLoadedInRuns};
ghost use Rattle.joint_partition.specs.JointWords.{SoundJointTermsAreSound};

use crate::splits::splits_show;
use footprint_pieces::disjoint_pieces_are_apart;
use reuse_paths::law::{walk_pieces_cover, walks_are_sound};
use stretch_laws::pebblings::joints_are_loaded;
use stretch_laws::runs::runs_are_loaded;

/// A law: where what is claimed of a term's parts and of their images holds, the parts are sound, their images differ, and the
/// families' sets cover each coordinate.
pub fn parts_are_sound()
    ensures { PartsAreSound }
{
    splits_show();
}

/// A law: families whose claims hold, over true source trees, are sound: there is a start for each part, and its walks keep their
/// labels.
pub fn joint_families_are_sound()
    ensures { JointFamiliesAreSound }
{
    walks_are_sound();
}

/// A law: no two groups of a term whose claims hold, over true source trees, have a word in common, at all admitted parameter
/// values of any size.
pub fn joint_groups_are_apart()
    ensures { JointGroupsAreApart }
{
    walk_pieces_cover();
    disjoint_pieces_are_apart();
}

/// A law: at all admitted parameter values, of any size, a sound joint term whose groups are apart is a sound joint partition of
/// the computation graph.
pub fn joint_terms_are_sound()
    ensures { SoundJointTermsAreSound }
{}

/// A law: with the numbers of its bound's value it takes, in every red run, at least as many loads of its footprint and
/// computations of credited vertices as a stretch has events, once for each u of the images that are computed but the last; and
/// in every complete pebbling at least as many loads, less the credited points.
pub fn joint_terms_are_loaded()
    ensures runs { JointTermsAreLoadedInRuns }
    ensures pebblings { JointTermsAreLoaded }
{
    joint_terms_are_sound();
    runs_are_loaded();
    joints_are_loaded();
}

/// A law: a joint term whose claims hold, over true source trees, is sound, and no two of its groups have a word in common, at all
/// admitted parameter values of any size.
pub fn joint_claims_are_sound()
    ensures { JointClaimsAreSound }
{
    parts_are_sound();
    joint_families_are_sound();
    joint_groups_are_apart();
}

/// A law: of such a term, with the numbers of its bound's value, every complete pebbling makes at least as many loads as a stretch has
/// events, once for each u of its images but the last, less the credited points.
pub fn joint_claims_cost()
    ensures { JointClaimsCost }
{
    parts_are_sound();
    joint_families_are_sound();
    joint_groups_are_apart();
    joint_terms_are_loaded();
}
