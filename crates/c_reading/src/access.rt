//! References and statements.

ghost use Rattle.std.specs.Prelude.{◌≡◌, IfOk};

use crate::rows::Rows;
use std::alloc::{AllocError, Global};
use std::marker::Model;

/// The numbers of a form: the constant, the coefficients of the parameters, and those of the loops, outermost first.
#[derive(Drop)]
pub struct Row {
    numbers: Vec<i32>,
}

impl Model for Row {
    ghost use Rattle.std.specs.Prelude.{List, ℤ};

    ghost Value = { List ℤ };

    ghost view = { λ row. row.numbers.items };
}

/// A reference: the number of an array, and a row for each subscript.
#[derive(Drop)]
pub struct Access {
    array: u16,
    subscripts: Rows,
}

impl Model for Access {
    ghost use Rattle.c_reading.specs.Access.{Access as SpecAccess};

    ghost Value = { SpecAccess };

    ghost view = { λ a. record { array = a.array; subscripts = a.subscripts } };
}

/// A statement: the reference that it writes, and those that it reads in order, repeats included.
#[derive(Drop)]
pub struct Statement {
    writes: Access,
    reads: Vec<Access>,
}

impl Model for Statement {
    ghost use Rattle.c_reading.specs.Access.{Statement as SpecStatement};

    ghost Value = { SpecStatement };

    ghost view = { λ s. record { writes = s.writes; reads = s.reads.items } };
}

impl Row {
    /// The row of these numbers.
    pub fn new(numbers: Vec<i32>) -> Row
        ensures { result ≡ numbers.items }
    {
        Row { numbers }
    }

    /// The numbers.
    pub fn numbers(&self) -> &[i32]
        ensures { result.now ≡ self.now }
    {
        self.numbers.as_slice()
    }

    /// A copy.
    pub fn try_clone(&self, alloc: Global) -> Result<Row, AllocError>
        ensures { IfOk result (λ row. row ≡ self.now) }
    {
        Ok(Row {
            numbers: Vec::from_slice(alloc, self.numbers.as_slice())?,
        })
    }
}

impl Access {
    /// The reference to this array by these subscripts.
    pub(crate) fn new(array: u16, subscripts: Rows) -> Access
        ensures { result ≡ record { array = array; subscripts = subscripts } }
    {
        Access { array, subscripts }
    }

    /// The number of the array.
    pub fn array(&self) -> u16
        ensures { result ≡ self.now.array }
    {
        self.array
    }

    /// The subscripts.
    pub fn subscripts(&self) -> &[Row]
        ensures { result.now ≡ self.now.subscripts }
    {
        self.subscripts.as_slice()
    }

    /// A copy.
    pub fn try_clone(&self, alloc: Global) -> Result<Access, AllocError>
        ensures { IfOk result (λ access. access ≡ self.now) }
    {
        Ok(Access {
            array: self.array,
            subscripts: self.subscripts.try_clone(alloc)?,
        })
    }
}

impl Statement {
    /// The statement that writes and reads these references.
    pub(crate) fn new(writes: Access, reads: Vec<Access>) -> Statement
        ensures { result ≡ record { writes = writes; reads = reads.items } }
    {
        Statement { writes, reads }
    }

    /// The reference that it writes.
    pub fn writes(&self) -> &Access
        ensures { result.now ≡ self.now.writes }
    {
        &self.writes
    }

    /// The references that it reads.
    pub fn reads(&self) -> &[Access]
        ensures { result.now ≡ self.now.reads }
    {
        self.reads.as_slice()
    }
}
