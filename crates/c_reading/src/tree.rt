//! The tree of a program.

ghost use Rattle.std.specs.Prelude.{◌≡◌, OnOk};
ghost use Rattle.c_reading.specs.Tree as spec;

use crate::access::{Row, Statement};
use crate::rows::Rows;
use std::alloc::{AllocError, Global};
use std::marker::Model;

/// A loop's header: the number of its name among the names, whether the loop runs downward, and the rows of its lower and
/// its upper bound, both included.
#[derive(Drop)]
pub struct Header {
    pub name: usize,
    pub down: bool,
    pub lower: Row,
    pub upper: Row,
}

/// An item of a program.
#[derive(Drop)]
pub enum Item {
    /// A loop over a row of items.
    Loop(Header, Vec<Item>),
    /// A guard: rows, each of which is to be at least 0, and a row of items.
    Guard(Vec<Row>, Vec<Item>),
    /// A statement.
    Assign(Statement),
}

/// Items in order.
#[derive(Drop)]
pub(crate) struct Items {
    items: Vec<Item>,
}

impl Model for Items {
    ghost use Rattle.std.specs.Coded.{codes};
    ghost use Rattle.c_reading.specs.Tree.{Items as SpecItems, items_of};
    ghost use Rattle.c_reading.specs.Marks.{items_code};

    ghost Value = { SpecItems };

    ghost coded = { items_code (Prim.hlevel (codes)) };

    ghost view = { λ i. items_of i.items.items };
}

impl Items {
    /// No items.
    pub fn new(alloc: Global) -> Items
        ensures { result ≡ spec.done }
    {
        Items {
            items: Vec::new(alloc),
        }
    }

    /// The items.
    pub fn as_slice(&self) -> &[Item]
        ensures { spec.items_of result.now ≡ self.now }
    {
        self.items.as_slice()
    }

    /// One item more.
    #[tactic(auto, using(crate::proofs::Trees::items_push))]
    fn push(&mut self, item: Item) -> Result<(), AllocError>
        ensures { OnOk result (self.new ≡ spec.with_item self.old (spec.item_of item)) }
    {
        self.items.push(item)?;
        Ok(())
    }

    /// One statement more.
    pub fn push_statement(&mut self, statement: Statement) -> Result<(), AllocError>
        ensures { OnOk result (self.new ≡ spec.with_item self.old (spec.assign statement)) }
    {
        self.push(Item::Assign(statement))
    }

    /// One loop more.
    pub fn push_loop(&mut self, header: Header, body: Items) -> Result<(), AllocError>
        ensures { OnOk result (self.new ≡ spec.with_item self.old (spec.loop header body)) }
    {
        self.push(Item::Loop(header, body.items))
    }

    /// One guard more.
    pub fn push_guard(&mut self, rows: Rows, body: Items) -> Result<(), AllocError>
        ensures { OnOk result (self.new ≡ spec.with_item self.old (spec.guard rows body)) }
    {
        self.push(Item::Guard(rows.into_vec(), body.items))
    }
}
