//! The headers of loops.

ghost use Rattle.std.specs.Prelude.{◌≡◌, codes};
ghost use Rattle.c_reading.specs.Input.{Reads, Gives, and_then};
ghost use Rattle.c_reading.specs.Affine.{number_of};
ghost use Rattle.c_reading.specs.Items as spec;

use crate::access::Row;
use crate::error::{ReadError, ReadFault};
use crate::input::{Reader, is_short};
use crate::named::Kind;
use crate::numbers::{combined, zeros};
use crate::tree::Header;
use c_tokens::TokenKind;
use std::alloc::Global;

/// What a comparison says: whether the loop runs downward, and how much less than the expression the bound is.
#[derive(Clone, Copy)]
struct Limit {
    down: bool,
    less: i32,
}

/// The expression less this much, where its numbers are small.
#[tactic(auto, unfolding(crate::specs::Items::bound))]
fn bound(alloc: Global, start: usize, less: i32, numbers: &[i32]) -> Result<Row, ReadError>
    ensures { Gives (spec.bound start less numbers.now) result }
{
    let none = zeros(alloc)?;
    match combined(alloc, 1, less, none.as_slice(), numbers)? {
        Some(numbers) => Ok(Row::new(numbers)),
        None => Err(ReadError::Fault(ReadFault {
            number: 11,
            place: start,
        })),
    }
}

/// The header of a loop whose bounds stand in this order.
fn header(name: usize, down: bool, first: Row, last: Row) -> Header
    ensures { result ≡ spec.header_by name down first last }
{
    if down {
        Header {
            name,
            down,
            lower: last,
            upper: first,
        }
    } else {
        Header {
            name,
            down,
            lower: first,
            upper: last,
        }
    }
}

/// The symbol that steps by one.
fn twice(down: bool) -> &'static [u8]
    ensures { result.now ≡ spec.twice down }
{
    if down { b"--" } else { b"++" }
}

/// The symbol that steps by the number behind it.
fn updating(down: bool) -> &'static [u8]
    ensures { result.now ≡ spec.updating down }
{
    if down { b"-=" } else { b"+=" }
}

/// The sign of a step.
fn sign(down: bool) -> &'static [u8]
    ensures { result.now ≡ spec.sign down }
{
    if down { b"-" } else { b"+" }
}

/// Why no step goes on with a token of this kind there.
fn step_fault(start: usize, kind: TokenKind, place: usize) -> ReadFault
    ensures { result ≡ spec.step_fault start kind place }
{
    match kind {
        TokenKind::Bad => ReadFault { number: 2, place },
        TokenKind::Directive => ReadFault { number: 3, place },
        _ => ReadFault {
            number: 5,
            place: start,
        },
    }
}

impl<'a> Reader<'a> {
    /// The name of a loop: a new name, or that of a loop that was left. Its number among the names.
    #[tactic(auto, unfolding(crate::specs::Items::loop_name))]
    fn loop_name(&mut self) -> Result<usize, ReadError>
        ensures { Reads (spec.loop_name self.old) result self.new }
    {
        if !matches!(self.kind(), TokenKind::Name) {
            return Err(ReadError::Fault(self.refusal()));
        }
        let name = self.spelling();
        match self.kind_of(name) {
            None => self.new_loop(),
            Some(Kind::ClosedLoop) => self.loop_again(name),
            Some(Kind::Parameter(_) | Kind::OpenLoop(_) | Kind::Array(_, _)) => Err(self.fault(7)),
        }
    }

    /// A new name, which becomes a loop's.
    #[tactic(auto, unfolding(crate::specs::Items::new_loop))]
    fn new_loop(&mut self) -> Result<usize, ReadError>
        ensures { Reads (spec.new_loop self.old) result self.new }
    {
        let name = self.spelling();
        if !is_short(name) {
            return Err(self.fault(10));
        }
        let at = self.name_count();
        self.add_name(name, Kind::ClosedLoop)?;
        self.pass();
        Ok(at)
    }

    /// The name of a loop that was left.
    fn loop_again(&mut self, name: &[u8]) -> Result<usize, ReadError>
        ensures { Reads (spec.loop_again (number_of name.now self.old) self.old) result self.new }
    {
        let Some(at) = self.number_of(name) else {
            return Err(self.fault(7));
        };
        self.pass();
        Ok(at)
    }

    /// What the comparison says of the loop.
    #[tactic(auto, unfolding(crate::specs::Items::comparison))]
    fn limit(&mut self) -> Result<Limit, ReadError>
        ensures { Reads (spec.comparison self.old) result self.new }
    {
        if self.takes(b"<") {
            return Ok(Limit {
                down: false,
                less: 1,
            });
        }
        if self.takes(b"<=") {
            return Ok(Limit {
                down: false,
                less: 0,
            });
        }
        if self.takes(b">") {
            return Ok(Limit {
                down: true,
                less: -1,
            });
        }
        if self.takes(b">=") {
            return Ok(Limit {
                down: true,
                less: 0,
            });
        }
        Err(ReadError::Fault(self.refusal()))
    }

    /// Why no step goes on with the next token.
    #[tactic(auto, unfolding(crate::specs::Items::refusal_in_step))]
    fn refusal_in_step(&self, start: usize) -> ReadFault
        ensures { result ≡ spec.refusal_in_step start self.now }
    {
        step_fault(start, self.kind(), self.place())
    }

    /// Takes a token that has to follow in a step.
    #[tactic(auto, unfolding(crate::specs::Items::expect_in_step))]
    fn expect_in_step(&mut self, start: usize, word: &[u8]) -> Result<(), ReadError>
        ensures { Reads (spec.expect_in_step start word.now self.old) result self.new }
    {
        if self.takes(word) {
            Ok(())
        } else {
            Err(ReadError::Fault(self.refusal_in_step(start)))
        }
    }

    /// The loop's name, and one more or less, behind a `=` in a step.
    fn name_and_one(&mut self, start: usize, down: bool, name: &[u8]) -> Result<(), ReadError>
        ensures { Reads (and_then (and_then (spec.expect_in_step start name.now self.old) (λ _. spec.expect_in_step start (spec.sign down))) (λ _. spec.expect_in_step start (codes "1"))) result self.new }
    {
        self.expect_in_step(start, name)?;
        self.expect_in_step(start, sign(down))?;
        self.expect_in_step(start, b"1")
    }

    /// A step by one behind the loop's name.
    #[tactic(auto, unfolding(crate::specs::Items::step_behind_name))]
    fn step_behind_name(&mut self, start: usize, down: bool, name: &[u8]) -> Result<(), ReadError>
        ensures { Reads (spec.step_behind_name start down name.now self.old) result self.new }
    {
        if self.takes(twice(down)) {
            return Ok(());
        }
        if self.takes(updating(down)) {
            return self.expect_in_step(start, b"1");
        }
        if self.takes(b"=") {
            return self.name_and_one(start, down, name);
        }
        Err(ReadError::Fault(self.refusal_in_step(start)))
    }

    /// A step by one.
    #[tactic(auto, unfolding(crate::specs::Items::step))]
    fn step(&mut self, down: bool, name: &[u8]) -> Result<(), ReadError>
        ensures { Reads (spec.step down name.now self.old) result self.new }
    {
        let start = self.place();
        if self.takes(name) {
            return self.step_behind_name(start, down, name);
        }
        if self.takes(twice(down)) {
            return self.expect_in_step(start, name);
        }
        Err(ReadError::Fault(self.refusal_in_step(start)))
    }

    /// The first bound, behind a loop's name.
    #[tactic(auto, unfolding(crate::specs::Items::first_bound))]
    fn first_bound(&mut self, brackets: u8) -> Result<Row, ReadError>
        ensures { Reads (spec.first_bound brackets self.old) result self.new }
    {
        self.expect(b"=")?;
        let a = self.affine(brackets, None)?;
        let a = self.closed_by(b";", a)?;
        Ok(a.into_row())
    }

    /// The bound behind its comparison, which is this much less than the expression.
    #[tactic(auto, unfolding(crate::specs::Items::last_from))]
    fn last_from(&mut self, brackets: u8, start: usize, less: i32) -> Result<Row, ReadError>
        ensures { Reads (spec.last_from brackets start less self.old) result self.new }
    {
        let a = self.affine(brackets, None)?;
        let last = bound(self.alloc(), start, less, a.numbers())?;
        self.closed_by(b";", a)?;
        Ok(last)
    }

    /// The bounds of the loop of this name and number, the first of which this is.
    #[tactic(auto, unfolding(crate::specs::Items::header_from))]
    fn header_from(
        &mut self,
        brackets: u8,
        name: &[u8],
        at: usize,
        first: Row,
    ) -> Result<Header, ReadError>
        ensures { Reads (spec.header_from brackets name.now at first self.old) result self.new }
    {
        self.expect(name)?;
        let limit = self.limit()?;
        let last = self.last_from(brackets, self.place(), limit.less)?;
        self.step(limit.down, name)?;
        Ok(header(at, limit.down, first, last))
    }

    /// A header behind its bracket, of the loop of this name.
    #[tactic(auto, unfolding(crate::specs::Items::header_of))]
    pub fn header_of(&mut self, brackets: u8, name: &[u8]) -> Result<Header, ReadError>
        ensures { Reads (spec.header_of brackets name.now self.old) result self.new }
    {
        let at = self.loop_name()?;
        let first = self.first_bound(brackets)?;
        let header = self.header_from(brackets, name, at, first)?;
        self.expect(b")")?;
        Ok(header)
    }

    /// Passes the word `int`, where it stands there.
    #[tactic(auto, unfolding(crate::specs::Items::skip_int))]
    pub fn skip_int(&mut self)
        ensures { self.new ≡ spec.skip_int self.old }
    {
        self.takes(b"int");
    }
}
