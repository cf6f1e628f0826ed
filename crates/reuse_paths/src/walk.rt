//! Walks back along the sources of reads.

ghost use Rattle.std.specs.Prelude.{◌≡◌, ◌+◌, min};
ghost use Rattle.iolb_model.specs.declared.limits.TheConstants.{TREE_LEAVES};
ghost use Rattle.reuse_paths.specs.Walks.{entry_count, tree_of_walk};

use crate::leaf::Leaf;
use affine_form::Form;
use iolb_model::limits;

/// How a walk goes on from the instances of a statement: at a point it comes to one read, and takes its source.
#[derive(Debug, Drop)]
pub enum Walk {
    /// Goes to `yes` where the form is at least 0, and to `no` where it is at most -1.
    Test {
        form: Form,
        yes: Box<Walk>,
        no: Box<Walk>,
    },
    /// Takes the source of this read. There is a claim for each leaf of the read's source tree that isn't empty, `yes`
    /// before `no`.
    Take {
        read: u16,
        leaves: Vec<Leaf>,
    },
}

/// How many claims at leaves a walk has, or one more than it may have if they are more.
pub fn entry_count(walk: &Walk) -> usize
    ensures { result ≡ min (entry_count (tree_of_walk walk.now)) (TREE_LEAVES + 1) }
{
    match walk {
        Walk::Test { yes, no, .. } => {
            (entry_count(yes) + entry_count(no)).min(usize::from(limits::TREE_LEAVES) + 1)
        }
        Walk::Take { leaves, .. } => leaves
            .as_slice()
            .len()
            .min(usize::from(limits::TREE_LEAVES) + 1),
    }
}

/// The instances of a statement from which a walk goes on, as rows that are at least 0 there, and how it does.
#[derive(Debug, Drop)]
pub struct Region {
    pub rows: Vec<Form>,
    pub tree: Walk,
}
