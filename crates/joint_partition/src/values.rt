//! What joint terms cost, by the values of their bounds.

ghost use Rattle.joint_partition.specs.JointNumbers.{JointNumbersAreOne, JointNumbersArePositive};
ghost use Rattle.joint_partition.specs.JointValues.{JointPiecesCover, JointTermsCostTheirValue, JointTermsShareAmongRuns};

use crate::terms::{
    joint_claims_cost, joint_families_are_sound, joint_groups_are_apart, joint_terms_are_loaded,
    parts_are_sound,
};
use poly_tree::printed_law::terms_have_the_value;
use reuse_paths::law::walk_pieces_cover;
use stretch_laws::runs::different_computations_are_few;

/// A law: the pieces of a joint term whose claims hold, over true source trees, cover its footprint.
pub fn joint_pieces_cover()
    ensures { JointPiecesCover }
{
    parts_are_sound();
    joint_families_are_sound();
    joint_groups_are_apart();
    walk_pieces_cover();
}

/// A law: with the numbers of its bound, and polynomials that count its images and its credited points, a joint term whose claims
/// hold, over true source trees, costs its value: at all admitted parameter values, of any size, and for every number of red
/// pebbles, every complete pebbling makes at least as many loads of the term's footprint as the value says.
pub fn joint_terms_cost_their_value()
    ensures { JointTermsCostTheirValue }
{
    parts_are_sound();
    joint_families_are_sound();
    joint_groups_are_apart();
    joint_claims_cost();
    walk_pieces_cover();
    terms_have_the_value();
}

/// A law: the cost of a sound joint term, whose groups are apart, is shared among runs: a red run that computes a part of the images,
/// and no vertex again, makes as many loads of its footprint as the value would say of so many images.
pub fn joint_terms_share_among_runs()
    ensures { JointTermsShareAmongRuns }
{
    joint_terms_are_loaded();
    terms_have_the_value();
    different_computations_are_few();
}

/// A law: a joint term has one list of numbers, and their denominator is positive.
pub fn joint_numbers_are_one()
    ensures one { JointNumbersAreOne }
    ensures positive { JointNumbersArePositive }
{}
