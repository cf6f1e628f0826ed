//! References: an array's name with its subscripts.

ghost use Rattle.std.specs.Prelude.{◌≡◌, ◌≤◌, length};
ghost use Rattle.c_reading.specs.Input.{Reads};
ghost use Rattle.c_reading.specs.Refs as spec;

use crate::access::{Access, Row};
use crate::error::{ReadError, ReadFault};
use crate::input::{Reader, is_short};
use crate::named::Kind;
use crate::rows::Rows;
use iolb_model::limits::{ARRAYS, SUBSCRIPTS};

/// An array's name that was read: its number, and its subscripts where it was seen before.
#[derive(Clone, Copy)]
pub(crate) struct Seen {
    array: u16,
    subscripts: Option<usize>,
}

impl<'a> Reader<'a> {
    /// A new name, which becomes an array.
    #[tactic(auto, unfolding(crate::specs::Refs::new_array))]
    fn new_array(&mut self) -> Result<Seen, ReadError>
        ensures { Reads (spec.new_array self.old) result self.new }
    {
        let name = self.spelling();
        let array = self.arrays();
        if !is_short(name) || usize::from(array) >= ARRAYS {
            return Err(self.fault(10));
        }
        self.add_name(name, Kind::Array(array, 0))?;
        self.set_arrays(array + 1);
        self.pass();
        Ok(Seen {
            array,
            subscripts: None,
        })
    }

    /// An array's name.
    #[tactic(auto, unfolding(crate::specs::Refs::array))]
    fn array(&mut self) -> Result<Seen, ReadError>
        ensures { Reads (spec.array self.old) result self.new }
    {
        match self.kind_of(self.spelling()) {
            None => self.new_array(),
            Some(Kind::Array(array, subscripts)) => {
                self.pass();
                Ok(Seen {
                    array,
                    subscripts: Some(subscripts),
                })
            }
            Some(Kind::Parameter(_) | Kind::OpenLoop(_) | Kind::ClosedLoop) => Err(self.fault(6)),
        }
    }

    /// A subscript behind its `[`.
    #[tactic(auto, unfolding(crate::specs::Refs::subscript))]
    fn subscript(&mut self, brackets: u8) -> Result<Row, ReadError>
        ensures { Reads (spec.subscript brackets self.old) result self.new }
    {
        self.pass();
        let a = self.affine(brackets, None)?;
        let a = self.closed_by(b"]", a)?;
        Ok(a.into_row())
    }

    /// Subscripts, where so many brackets may still be opened.
    #[tactic(auto, using(crate::proofs::Turns::turns), unfolding(crate::specs::Refs::subscripts, crate::specs::Refs::all_subscripts))]
    fn subscripts(&mut self, brackets: u8) -> Result<Rows, ReadError>
        ensures { Reads (spec.all_subscripts brackets self.old) result self.new }
    {
        let mut rows = Rows::new(self.alloc());
        for _turn in 0..self.left() {
            if !self.sees(b"[") {
                return Ok(rows);
            }
            if brackets == 0 {
                return Err(self.fault(9));
            }
            if rows.len() >= usize::from(SUBSCRIPTS) {
                return Err(self.fault(10));
            }
            rows.push(self.subscript(brackets - 1)?)?;
        }
        Err(ReadError::Fault(self.refusal()))
    }

    /// The reference that has these subscripts, which are as many as its array has; the first reference decides.
    #[tactic(auto, unfolding(crate::specs::Refs::access_by))]
    fn access_by(
        &mut self,
        place: usize,
        at: usize,
        seen: Seen,
        rows: Rows,
    ) -> Result<Access, ReadError>
        ensures { Reads (spec.access_by place at (seen) rows self.old) result self.new }
    {
        match seen.subscripts {
            None => self.set_kind(at, Kind::Array(seen.array, rows.len())),
            Some(count) => {
                if rows.len() != count {
                    return Err(ReadError::Fault(ReadFault { number: 8, place }));
                }
            }
        }
        Ok(Access::new(seen.array, rows))
    }

    /// A reference, where so many brackets may still be opened.
    #[tactic(auto, unfolding(crate::specs::Refs::access, crate::specs::Refs::access_from))]
    pub fn access(&mut self, brackets: u8) -> Result<Access, ReadError>
        ensures { Reads (spec.access brackets self.old) result self.new }
    {
        let place = self.place();
        let at = self.name_count();
        let seen = self.array()?;
        let rows = self.subscripts(brackets)?;
        self.access_by(place, at, seen, rows)
    }
}
