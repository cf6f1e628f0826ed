//! The source trees of a program's reads.

ghost use Rattle.std.specs.Prelude.{◌≡◌, MatchOption, Some, None};
ghost use Rattle.dep_quast.specs.Quasts.{tree_at, trees_of};
ghost use Rattle.dep_quast.specs.Tree.{tree_of};

use crate::Quast;

/// The source trees of a program's reads: for each statement, in order, a tree for each of its reads.
#[derive(Debug, Drop)]
pub struct Quasts {
    rows: Vec<Vec<Quast>>,
}

impl Quasts {
    /// The source trees in these rows.
    pub fn new(rows: Vec<Vec<Quast>>) -> Quasts
        ensures { result.rows ≡ rows }
    {
        Quasts { rows }
    }

    /// The rows, one for each statement.
    pub fn rows(&self) -> &[Vec<Quast>]
        ensures { result.now ≡ self.now.rows.items }
    {
        self.rows.as_slice()
    }

    /// The source tree of a read of a statement, where there is one.
    pub fn tree(&self, statement: u16, read: u16) -> Option<&Quast>
        ensures { MatchOption result (tree_at (trees_of self.now) statement read ≡ None) (λ quast. tree_at (trees_of self.now) statement read ≡ Some (tree_of quast.now)) }
    {
        let row = self.rows.get(usize::from(statement))?;
        row.get(usize::from(read))
    }
}
