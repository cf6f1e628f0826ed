//! Source trees.

ghost use Rattle.std.specs.Prelude.{◌≡◌, ◌+◌, min};
ghost use Rattle.dep_quast.specs.Tree.{leaf_count, tree_of};
ghost use Rattle.iolb_model.specs.declared.limits.TheConstants.{TREE_LEAVES};

use affine_form::{Form, Multipliers};
use iolb_model::limits;

/// A source tree of a read (a quasi-affine selection tree, Feautrier 1991). Its forms are over the parameters and the
/// loop values of the reading statement.
#[derive(Debug, Drop)]
pub enum Quast {
    /// Goes to `yes` where the form is at least 0, and to `no` where it is at most -1.
    Test {
        form: Form,
        yes: Box<Quast>,
        no: Box<Quast>,
    },
    /// The source is the instance of this statement at these loop values. The multipliers show that it is in its
    /// statement's domain, that it writes the cell that is read, that it comes before the reader at this level of the
    /// loops around both, and that no write of the cell lies between.
    Source {
        statement: u16,
        level: u8,
        point: Vec<Form>,
        domain: Vec<Multipliers>,
        cell: Vec<Multipliers>,
        before: Vec<Multipliers>,
        between: Vec<Multipliers>,
    },
    /// No earlier instance writes the cell. The multipliers show it, level by level of each writer of the array.
    Input {
        earlier: Vec<Multipliers>,
    },
    /// No point comes here. The multipliers show it.
    Empty {
        shown: Multipliers,
    },
    /// Nothing is claimed.
    Blank,
}

/// How many leaves a tree has, or one more than it may have if they are more.
pub fn leaf_count(quast: &Quast) -> u8
    ensures { result ≡ min (leaf_count (tree_of quast.now)) (TREE_LEAVES + 1) }
{
    match quast {
        Quast::Test { yes, no, .. } => (leaf_count(yes) + leaf_count(no)).min(
            limits::TREE_LEAVES + 1,
        ),
        _ => 1,
    }
}
