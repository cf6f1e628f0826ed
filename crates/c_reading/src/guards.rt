//! What an `if` asks, and what stands around it.

ghost use Rattle.std.specs.Prelude.{◌≡◌, ◌<◌, ◌≤◌, length, OnOk, IfOk};
ghost use Rattle.c_reading.specs.Input.{Reads};
ghost use Rattle.c_reading.specs.Guards as spec;

use crate::error::{ReadError, ReadFault};
use crate::input::Reader;
use crate::rows::Rows;

/// What isn't affine in the compares of an `if` that begins here is the fault of that `if`.
fn fault_in_if(start: usize, fault: ReadFault) -> ReadFault
    ensures { result ≡ spec.fault_in_if start fault }
{
    if fault.number == 4 {
        ReadFault {
            number: 12,
            place: start,
        }
    } else {
        fault
    }
}

impl<'a> Reader<'a> {
    /// `for` or `if`, and the bracket behind it.
    #[tactic(auto, unfolding(crate::specs::Guards::bracket_behind, crate::specs::Values::open_bracket))]
    pub fn bracket_behind(&mut self, brackets: u8) -> Result<(), ReadError>
        ensures bracket { Reads (spec.bracket_behind brackets self.old) result self.new }
        ensures opened { OnOk result (1 ≤ brackets) }
    {
        self.pass();
        if !self.sees(b"(") {
            return Err(ReadError::Fault(self.refusal()));
        }
        self.open_bracket(brackets)
    }

    /// The compares of an `if` behind its bracket, up to the one that closes it, where there may be so many rows.
    #[tactic(auto, unfolding(crate::specs::Guards::asked))]
    fn asked(&mut self, brackets: u8, room: usize) -> Result<Rows, ReadError>
        ensures rule { Reads (spec.asked brackets room self.old) result self.new }
        ensures some { IfOk result (λ rows. 0 < length rows) }
        ensures few { IfOk result (λ rows. length rows ≤ room) }
    {
        let compared = self.compares(brackets, room, Rows::new(self.alloc()))?;
        self.closed_by(b")", compared.last)?;
        Ok(compared.rows)
    }

    /// `if` and its bracket: the rows that it asks.
    #[tactic(auto, unfolding(crate::specs::Guards::conditions))]
    pub fn conditions(&mut self, brackets: u8, room: usize) -> Result<Rows, ReadError>
        ensures rule { Reads (spec.conditions brackets room self.old) result self.new }
        ensures some { IfOk result (λ rows. 0 < length rows) }
        ensures few { IfOk result (λ rows. length rows ≤ room) }
    {
        let start = self.place();
        self.bracket_behind(brackets)?;
        match self.asked(brackets - 1, room) {
            Err(ReadError::Fault(fault)) => Err(ReadError::Fault(fault_in_if(start, fault))),
            other => other,
        }
    }

    /// An `else` behind the item of an `if` isn't read.
    #[tactic(auto, unfolding(crate::specs::Guards::no_else))]
    pub fn no_else(&self) -> Result<(), ReadError>
        ensures { Reads (spec.no_else self.now) result self.now }
    {
        if self.sees(b"else") {
            return Err(self.fault(12));
        }
        Ok(())
    }
}
