//! Lists of rows.

ghost use Rattle.std.specs.Prelude.{◌≡◌, [], ◌++◌, ◌∷◌, length, OnOk, IfOk};

use crate::access::Row;
use std::alloc::{AllocError, Global};
use std::marker::Model;

/// Rows in order.
#[derive(Drop)]
pub(crate) struct Rows {
    rows: Vec<Row>,
}

impl Model for Rows {
    ghost use Rattle.std.specs.Prelude.{List, ℤ};

    ghost Value = { List (List ℤ) };

    ghost view = { λ r. r.rows.items };
}

impl Rows {
    /// No rows.
    pub fn new(alloc: Global) -> Rows
        ensures { result ≡ [] }
    {
        Rows {
            rows: Vec::new(alloc),
        }
    }

    /// How many rows there are.
    pub fn len(&self) -> usize
        ensures { result ≡ length self.now }
    {
        self.rows.len()
    }

    /// The rows.
    pub fn as_slice(&self) -> &[Row]
        ensures { result.now ≡ self.now }
    {
        self.rows.as_slice()
    }

    /// The rows.
    pub fn into_vec(self) -> Vec<Row>
        ensures { result.items ≡ self }
    {
        self.rows
    }

    /// One row more.
    pub fn push(&mut self, row: Row) -> Result<(), AllocError>
        ensures { OnOk result (self.new ≡ self.old ++ row ∷ []) }
    {
        self.rows.push(row)?;
        Ok(())
    }

    /// A copy.
    pub fn try_clone(&self, alloc: Global) -> Result<Rows, AllocError>
        ensures { IfOk result (λ rows. rows ≡ self.now) }
    {
        Ok(Rows {
            rows: copies(alloc, self.rows.as_slice())?,
        })
    }
}

/// Copies of the rows.
fn copies(alloc: Global, rows: &[Row]) -> Result<Vec<Row>, AllocError>
    ensures { IfOk result (λ copies. copies.items ≡ rows.now) }
{
    let mut copies = Vec::new(alloc);
    for row in rows {
        copies.push(row.try_clone(alloc)?)?;
    }
    Ok(copies)
}
