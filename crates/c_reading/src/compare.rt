//! Comparisons of affine expressions.

ghost use Rattle.std.specs.Prelude.{◌≡◌, ◌+◌, ◌<◌, ◌≤◌, length, IfOk};
ghost use Rattle.c_reading.specs.Input.{Reads, Gives};
ghost use Rattle.c_reading.specs.Compare as spec;

use crate::access::Row;
use crate::affine::Affine;
use crate::error::{ReadError, ReadFault};
use crate::input::Reader;
use crate::numbers::combined;
use crate::rows::Rows;
use iolb_model::limits::BRACKETS;
use std::alloc::Global;
use std::marker::Model;

/// How many brackets may be open at once.
pub(crate) const MOST_BRACKETS: u8 = BRACKETS;

/// How two expressions are compared.
#[derive(Clone, Copy)]
pub(crate) enum Comparison {
    AtLeast,
    Above,
    AtMost,
    Below,
    Equal,
}

/// The rows with those of a compare, and the expression that it ends with.
#[derive(Drop)]
pub(crate) struct Compared {
    pub rows: Rows,
    pub last: Affine,
}

impl Model for Compared {
    ghost use Rattle.c_reading.specs.Compare.{Compared as SpecCompared};

    ghost Value = { SpecCompared };

    ghost view = { λ c. record { rows = c.rows; last = c.last } };
}

impl Rows {
    /// The row a less b and this much, as one row more.
    #[tactic(auto, unfolding(crate::specs::Compare::with_row))]
    fn with_row(
        mut self,
        alloc: Global,
        start: usize,
        less: i32,
        a: &[i32],
        b: &[i32],
    ) -> Result<Rows, ReadError>
        ensures row { Gives (spec.with_row start self less a.now b.now) result }
        ensures more { IfOk result (λ rows. length rows ≡ length self + 1) }
    {
        let Some(row) = combined(alloc, -1, less, a, b)? else {
            return Err(ReadError::Fault(ReadFault {
                number: 11,
                place: start,
            }));
        };
        self.push(Row::new(row))?;
        Ok(self)
    }

    /// The rows with those of a comparison.
    #[tactic(auto, unfolding(crate::specs::Compare::with_compare))]
    fn with_compare(
        self,
        alloc: Global,
        start: usize,
        comparison: Comparison,
        a: &[i32],
        b: &[i32],
    ) -> Result<Rows, ReadError>
        ensures rows { Gives (spec.with_compare start self comparison a.now b.now) result }
        ensures more { IfOk result (λ rows. length rows ≡ length self + spec.row_count comparison) }
    {
        match comparison {
            Comparison::AtLeast => self.with_row(alloc, start, 0, a, b),
            Comparison::Above => self.with_row(alloc, start, 1, a, b),
            Comparison::AtMost => self.with_row(alloc, start, 0, b, a),
            Comparison::Below => self.with_row(alloc, start, 1, b, a),
            Comparison::Equal => {
                let rows = self.with_row(alloc, start, 0, a, b)?;
                rows.with_row(alloc, start, 0, b, a)
            }
        }
    }
}

/// How many rows a comparison means.
fn row_count(comparison: Comparison) -> usize
    ensures value { result ≡ spec.row_count comparison }
    ensures some { 1 ≤ result }
{
    match comparison {
        Comparison::Equal => 2,
        _ => 1,
    }
}

impl<'a> Reader<'a> {
    /// The comparison that the next token is.
    #[tactic(auto, unfolding(crate::specs::Compare::comparison))]
    fn comparison(&self) -> Option<Comparison>
        ensures { result ≡ spec.comparison self.now }
    {
        if self.sees(b">=") {
            Some(Comparison::AtLeast)
        } else if self.sees(b">") {
            Some(Comparison::Above)
        } else if self.sees(b"<=") {
            Some(Comparison::AtMost)
        } else if self.sees(b"<") {
            Some(Comparison::Below)
        } else if self.sees(b"==") {
            Some(Comparison::Equal)
        } else {
            None
        }
    }

    /// The comparison that has to follow the expression, where its rows beside so many aren't more than there may be.
    #[tactic(auto, unfolding(crate::specs::Compare::comparison_by))]
    fn comparison_after(
        &self,
        room: usize,
        start: usize,
        count: usize,
        a: &Affine,
    ) -> Result<Comparison, ReadError>
        ensures rule { Reads (spec.comparison_by room start count a.now (spec.comparison self.now) self.now) result self.now }
        ensures few { IfOk result (λ c. count + spec.row_count c ≤ room) }
    {
        let Some(comparison) = self.comparison() else {
            return Err(ReadError::Fault(self.refusal_after(a)));
        };
        if row_count(comparison) > room.saturating_sub(count) {
            return Err(ReadError::Fault(ReadFault {
                number: 10,
                place: start,
            }));
        }
        Ok(comparison)
    }

    /// A compare, whose rows come behind these, where so many brackets may still be opened and there may be so many rows.
    #[tactic(auto, unfolding(crate::specs::Compare::compare, crate::specs::Compare::compare_from))]
    fn compare(&mut self, brackets: u8, room: usize, rows: Rows) -> Result<Compared, ReadError>
        ensures rule { Reads (spec.compare brackets room rows self.old) result self.new }
        ensures more { IfOk result (λ c. length rows < length c.rows) }
        ensures few { IfOk result (λ c. length c.rows ≤ room) }
    {
        let start = self.place();
        let a = self.affine(brackets, None)?;
        let comparison = self.comparison_after(room, start, rows.len(), &a)?;
        self.pass();
        let last = self.affine(brackets, None)?;
        let rows = rows.with_compare(self.alloc(), start, comparison, a.numbers(), last.numbers())?;
        Ok(Compared { rows, last })
    }

    /// Compares with `&&` between them, whose rows come behind these.
    #[tactic(auto, using(crate::proofs::Turns::turns), unfolding(crate::specs::Compare::compares, crate::specs::Compare::all_compares))]
    pub fn compares(&mut self, brackets: u8, room: usize, rows: Rows) -> Result<Compared, ReadError>
        ensures rule { Reads (spec.all_compares brackets room rows self.old) result self.new }
        ensures more { IfOk result (λ c. length rows < length c.rows) }
        ensures few { IfOk result (λ c. length c.rows ≤ room) }
    {
        let mut rows = rows;
        for _turn in 0..self.left() {
            let compared = self.compare(brackets, room, rows)?;
            if !self.takes(b"&&") {
                return Ok(compared);
            }
            rows = compared.rows;
        }
        Err(ReadError::Fault(self.refusal()))
    }
}
