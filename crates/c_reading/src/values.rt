//! Values: what a statement assigns.

ghost use Rattle.std.specs.Prelude.{◌≡◌, [], ◌∷◌, ◌++◌, length, OnOk, codes};
ghost use Rattle.c_reading.specs.Input.{Reads, and_then, pure, spelling};
ghost use Rattle.c_reading.specs.Affine.{kind_of};
ghost use Rattle.c_reading.specs.Values as spec;

use crate::access::Access;
use crate::error::ReadError;
use crate::input::{Reader, is_short};
use crate::named::Kind;
use c_tokens::TokenKind;
use iolb_model::limits::READS;
use std::alloc::{AllocError, Global};
use std::marker::Model;

/// References in order.
#[derive(Drop)]
pub(crate) struct Accesses {
    accesses: Vec<Access>,
}

impl Model for Accesses {
    ghost use Rattle.std.specs.Prelude.{List};
    ghost use Rattle.c_reading.specs.Access.{Access as SpecAccess};

    ghost Value = { List SpecAccess };

    ghost view = { λ a. a.accesses.items };
}

impl Accesses {
    /// No references.
    pub fn new(alloc: Global) -> Accesses
        ensures { result ≡ [] }
    {
        Accesses {
            accesses: Vec::new(alloc),
        }
    }

    /// How many references there are.
    pub fn len(&self) -> usize
        ensures { result ≡ length self.now }
    {
        self.accesses.len()
    }

    /// One reference more.
    pub fn push(&mut self, access: Access) -> Result<(), AllocError>
        ensures { OnOk result (self.new ≡ self.old ++ access ∷ []) }
    {
        self.accesses.push(access)?;
        Ok(())
    }

    /// The references.
    pub fn into_vec(self) -> Vec<Access>
        ensures { result.items ≡ self }
    {
        self.accesses
    }
}

impl<'a> Reader<'a> {
    /// Takes a token that has to follow.
    #[tactic(auto, unfolding(crate::specs::Values::expect))]
    pub fn expect(&mut self, word: &[u8]) -> Result<(), ReadError>
        ensures { Reads (spec.expect word.now self.old) result self.new }
    {
        if self.takes(word) {
            Ok(())
        } else {
            Err(ReadError::Fault(self.refusal()))
        }
    }

    /// Takes a bracket, where so many may still be opened.
    #[tactic(auto, unfolding(crate::specs::Values::open_bracket))]
    pub fn open_bracket(&mut self, brackets: u8) -> Result<(), ReadError>
        ensures { Reads (spec.open_bracket brackets self.old) result self.new }
    {
        if brackets == 0 {
            return Err(self.fault(9));
        }
        self.pass();
        Ok(())
    }

    /// A parameter or a loop, which is a plain number.
    #[tactic(auto, unfolding(crate::specs::Values::plain))]
    fn plain(&mut self, reads: Accesses) -> Result<Accesses, ReadError>
        ensures { Reads (spec.plain reads self.old) result self.new }
    {
        if self.sees_behind(b"[") {
            return Err(self.fault(6));
        }
        self.pass();
        Ok(reads)
    }

    /// One reference more.
    #[tactic(auto, unfolding(crate::specs::Values::one_read))]
    fn one_read(&mut self, brackets: u8, reads: Accesses) -> Result<Accesses, ReadError>
        ensures { Reads (spec.one_read brackets reads self.old) result self.new }
    {
        if reads.len() >= READS {
            return Err(self.fault(10));
        }
        let mut reads = reads;
        reads.push(self.access(brackets)?)?;
        Ok(reads)
    }

    /// A name that isn't called.
    fn uncalled(&mut self, brackets: u8, reads: Accesses) -> Result<Accesses, ReadError>
        ensures { Reads (spec.name_by brackets reads (kind_of (spelling self.old) self.old) self.old) result self.new }
    {
        match self.kind_of(self.spelling()) {
            None | Some(Kind::Array(_, _)) => self.one_read(brackets, reads),
            Some(Kind::Parameter(_) | Kind::OpenLoop(_)) => self.plain(reads),
            Some(Kind::ClosedLoop) => Err(self.fault(6)),
        }
    }

    /// Whether the next token is an operator of values.
    #[tactic(auto, unfolding(crate::specs::Values::is_operator))]
    fn is_operator(&self) -> bool
        ensures { result ≡ spec.is_operator self.now }
    {
        self.sees(b"+") || self.sees(b"-") || self.sees(b"*") || self.sees(b"/") || self.sees(b"%")
    }

    /// The references, where the closing bracket follows.
    fn closed_value(&mut self, reads: Accesses) -> Result<Accesses, ReadError>
        ensures { Reads (and_then (spec.expect (codes ")") self.old) (λ _. pure reads)) result self.new }
    {
        self.expect(b")")?;
        Ok(reads)
    }

    /// Values with commas between them, and the bracket that closes them.
    #[cycle(value)]
    #[tactic(auto, using(crate::proofs::Turns::turns), unfolding(crate::specs::Values::arguments, crate::specs::Values::all_arguments))]
    fn arguments(&mut self, brackets: u8, reads: Accesses) -> Result<Accesses, ReadError>
        ensures { Reads (spec.all_arguments (spec.inside brackets) reads self.old) result self.new }
    {
        let mut reads = reads;
        for _turn in 0..self.left() {
            reads = self.inside(brackets, reads)?;
            if !self.takes(b",") {
                return self.closed_value(reads);
            }
        }
        Err(ReadError::Fault(self.refusal()))
    }

    /// A call: the function's name, and its arguments.
    #[cycle(value)]
    #[tactic(auto, unfolding(crate::specs::Values::call, crate::specs::Values::called))]
    fn call(&mut self, brackets: u8, reads: Accesses) -> Result<Accesses, ReadError>
        ensures { Reads (spec.call (spec.inside brackets) brackets reads self.old) result self.new }
    {
        if !is_short(self.spelling()) {
            return Err(self.fault(10));
        }
        self.pass();
        self.open_bracket(brackets)?;
        if self.takes(b")") {
            return Ok(reads);
        }
        self.arguments(brackets, reads)
    }

    /// A value without its signs.
    #[cycle(value)]
    #[tactic(auto, unfolding(crate::specs::Values::primary, crate::specs::Values::named))]
    fn primary(&mut self, brackets: u8, reads: Accesses) -> Result<Accesses, ReadError>
        ensures { Reads (spec.primary (spec.inside brackets) brackets reads self.old) result self.new }
    {
        match self.kind() {
            TokenKind::Number => {
                self.pass();
                Ok(reads)
            }
            TokenKind::Name => {
                if self.sees_behind(b"(") {
                    self.call(brackets, reads)
                } else {
                    self.uncalled(brackets, reads)
                }
            }
            _ => {
                if self.sees(b"(") {
                    self.grouped(brackets, reads)
                } else {
                    Err(ReadError::Fault(self.refusal()))
                }
            }
        }
    }

    /// A value in brackets.
    #[cycle(value)]
    #[tactic(auto, unfolding(crate::specs::Values::grouped))]
    fn grouped(&mut self, brackets: u8, reads: Accesses) -> Result<Accesses, ReadError>
        ensures { Reads (spec.grouped (spec.inside brackets) brackets reads self.old) result self.new }
    {
        self.open_bracket(brackets)?;
        let more = self.inside(brackets, reads)?;
        self.closed_value(more)
    }

    /// A value with its signs.
    #[cycle(value)]
    #[tactic(auto, unfolding(crate::specs::Values::unary))]
    fn unary(&mut self, brackets: u8, reads: Accesses) -> Result<Accesses, ReadError>
        ensures { Reads (spec.unary (spec.inside brackets) brackets reads self.old) result self.new }
    {
        self.all_signs()?;
        self.primary(brackets, reads)
    }

    /// A value, where so many brackets may still be opened; its references behind these.
    #[cycle(value)]
    #[tactic(auto, using(crate::proofs::Turns::turns), unfolding(crate::specs::Values::value, crate::specs::Values::value_by, crate::specs::Values::operands))]
    pub fn value(&mut self, brackets: u8, reads: Accesses) -> Result<Accesses, ReadError>
        ensures { Reads (spec.value brackets reads self.old) result self.new }
    {
        let mut reads = self.unary(brackets, reads)?;
        for _turn in 0..self.left() {
            if !self.is_operator() {
                return Ok(reads);
            }
            self.pass();
            reads = self.unary(brackets, reads)?;
        }
        Err(ReadError::Fault(self.refusal()))
    }

    /// The value that brackets hold, where so many were left before them.
    #[cycle(value)]
    #[tactic(auto, using(crate::proofs::Turns::inside_none, crate::proofs::Turns::inside_some), unfolding(crate::specs::Values::inside, crate::specs::Values::value))]
    fn inside(&mut self, brackets: u8, reads: Accesses) -> Result<Accesses, ReadError>
        ensures { Reads (spec.inside brackets reads self.old) result self.new }
    {
        if brackets == 0 {
            return Err(ReadError::Fault(self.refusal()));
        }
        self.value(brackets - 1, reads)
    }
}
