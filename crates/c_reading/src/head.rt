//! The directives before a program.

ghost use Rattle.std.specs.Prelude.{◌≡◌};
ghost use Rattle.c_reading.specs.Input.{Reads, is_name_kind};
ghost use Rattle.c_reading.specs.Head as spec;

use crate::compare::{Compared, MOST_BRACKETS};
use crate::error::ReadError;
use crate::input::Reader;
use crate::rows::Rows;
use c_tokens::TokenKind;
use iolb_model::limits::ASSUMPTIONS;
use std::marker::Model;

/// What the directives say: the rows that are assumed, and whether a line assumes.
#[derive(Drop)]
pub(crate) struct Head {
    pub assumed: bool,
    pub rows: Rows,
}

impl Model for Head {
    ghost use Rattle.c_reading.specs.Head.{Head as SpecHead};

    ghost Value = { SpecHead };

    ghost view = { λ h. record { assumed = h.assumed; rows = h.rows } };
}

fn is_line_end(kind: TokenKind) -> bool
    ensures { result ≡ spec.is_line_end kind }
{
    matches!(kind, TokenKind::LineEnd)
}

fn is_name(kind: TokenKind) -> bool
    ensures { result ≡ is_name_kind kind }
{
    matches!(kind, TokenKind::Name)
}

fn is_parameters(kind: TokenKind) -> bool
    ensures { result ≡ spec.is_parameters kind }
{
    matches!(kind, TokenKind::Parameters)
}

fn is_assumptions(kind: TokenKind) -> bool
    ensures { result ≡ spec.is_assumptions kind }
{
    matches!(kind, TokenKind::Assumptions)
}

impl<'a> Reader<'a> {
    /// Names up to the line's end, each a parameter.
    #[tactic(auto, using(crate::proofs::Turns::turns), unfolding(crate::specs::Head::parameter_names, crate::specs::Head::all_parameter_names))]
    fn parameter_names(&mut self) -> Result<(), ReadError>
        ensures { Reads (spec.all_parameter_names self.old) result self.new }
    {
        for _turn in 0..self.left() {
            if is_line_end(self.kind()) {
                self.pass();
                return Ok(());
            }
            if !is_name(self.kind()) {
                return Err(ReadError::Fault(self.refusal()));
            }
            self.slot()?;
        }
        Err(ReadError::Fault(self.refusal()))
    }

    /// The rows, where the line ends behind its compares.
    #[tactic(auto, unfolding(crate::specs::Head::closed_line))]
    fn closed_line(&mut self, compared: Compared) -> Result<Rows, ReadError>
        ensures { Reads (spec.closed_line compared self.old) result self.new }
    {
        if !is_line_end(self.kind()) {
            return Err(ReadError::Fault(self.refusal_after(&compared.last)));
        }
        self.pass();
        Ok(compared.rows)
    }

    /// A line's compares, whose rows come behind these.
    #[tactic(auto, unfolding(crate::specs::Head::line_compares))]
    fn line_compares(&mut self, rows: Rows) -> Result<Rows, ReadError>
        ensures { Reads (spec.line_compares rows self.old) result self.new }
    {
        let compared = self.compares(MOST_BRACKETS, ASSUMPTIONS, rows)?;
        self.closed_line(compared)
    }

    /// The directives in front.
    #[tactic(auto, using(crate::proofs::Turns::turns), unfolding(crate::specs::Head::head, crate::specs::Head::directives))]
    pub fn head(&mut self) -> Result<Head, ReadError>
        ensures { Reads (spec.head self.old) result self.new }
    {
        let mut assumed = false;
        let mut rows = Rows::new(self.alloc());
        for _turn in 0..self.left() {
            if is_parameters(self.kind()) {
                self.pass();
                self.parameter_names()?;
            } else if is_assumptions(self.kind()) {
                self.pass();
                rows = self.line_compares(rows)?;
                assumed = true;
            } else {
                return Ok(Head { assumed, rows });
            }
        }
        Err(ReadError::Fault(self.refusal()))
    }
}
