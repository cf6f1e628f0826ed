//! How many coordinates an image has.
#![tactic(auto)]

ghost use Rattle.std.specs.Prelude.{◌≡◌};
ghost use Rattle.joint_partition.specs.JointWords.{dimensions_of};
ghost use Rattle.joint_partition.specs.View.{joint_of};

use crate::term::Joint;

/// How many coordinates an image of a term has: as many as the map of the first part has forms.
pub fn dimensions_of(term: &Joint) -> usize
    ensures { result ≡ dimensions_of (joint_of term.now) }
{
    match term.parts.as_slice().first() {
        Some(part) => part.image.as_slice().len(),
        None => 0,
    }
}
