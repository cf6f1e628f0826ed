//! Affine expressions.

ghost use Rattle.std.specs.Prelude.{◌≡◌, ◌<◌, IfOk, option_map, pos};
ghost use Rattle.c_reading.specs.Input.{Reads, Gives};
ghost use Rattle.c_reading.specs.Numbers as number;
ghost use Rattle.c_reading.specs.Affine as spec;

use crate::access::Row;
use crate::error::{ReadError, ReadFault};
use crate::input::Reader;
use crate::named::Kind;
use crate::numbers::{combined, constant_of, is_integer, single, value, zeros};
use c_tokens::TokenKind;
use iolb_model::limits::NUMBER_SIZE;
use std::alloc::{AllocError, Global};
use std::marker::Model;

/// An affine expression that was read.
#[derive(Drop)]
pub(crate) struct Affine {
    numbers: Vec<i32>,
    has_name: bool,
    ends_in_name: bool,
}

impl Model for Affine {
    ghost use Rattle.c_reading.specs.Affine.{Affine as SpecAffine};

    ghost Value = { SpecAffine };

    ghost view = { λ a. record { numbers = a.numbers.items; has_name = a.has_name; ends_in_name = a.ends_in_name } };
}

impl Affine {
    /// The expression that is a name.
    fn one_name(alloc: Global, slot: usize) -> Result<Affine, AllocError>
        ensures { IfOk result (λ a. a ≡ spec.one_name slot) }
    {
        Ok(Affine {
            numbers: single(alloc, slot, 1)?,
            has_name: true,
            ends_in_name: true,
        })
    }

    /// The expression that is a number.
    fn one_number(alloc: Global, n: i32) -> Result<Affine, AllocError>
        ensures { IfOk result (λ a. a ≡ spec.one_number n) }
    {
        Ok(Affine {
            numbers: single(alloc, 0, n)?,
            has_name: false,
            ends_in_name: false,
        })
    }

    /// The numbers: the constant, then the coefficients.
    pub fn numbers(&self) -> &[i32]
        ensures { result.now ≡ self.now.numbers }
    {
        self.numbers.as_slice()
    }

    /// The numbers as a row.
    pub fn into_row(self) -> Row
        ensures { result ≡ self.numbers }
    {
        Row::new(self.numbers)
    }

    /// The expression of these numbers, where they are small.
    fn small(
        start: usize,
        numbers: Option<Vec<i32>>,
        has_name: bool,
        ends_in_name: bool,
    ) -> Result<Affine, ReadError>
        ensures { Gives (spec.small start (option_map (λ ns. ns.items) numbers) has_name ends_in_name) result }
    {
        match numbers {
            Some(numbers) => Ok(Affine {
                numbers,
                has_name,
                ends_in_name,
            }),
            None => Err(ReadError::Fault(ReadFault {
                number: 11,
                place: start,
            })),
        }
    }

    /// The expression, or its negative.
    #[tactic(auto, unfolding(crate::specs::Affine::signed))]
    fn signed(&self, alloc: Global, start: usize, negative: bool) -> Result<Affine, ReadError>
        ensures { Gives (spec.signed start negative self.now) result }
    {
        let none = zeros(alloc)?;
        let numbers = combined(
            alloc,
            sign_of(negative),
            0,
            none.as_slice(),
            self.numbers.as_slice(),
        )?;
        Affine::small(start, numbers, self.has_name, self.ends_in_name)
    }

    /// The numbers of another expression, times the constant of this one, where they are small.
    fn times(&self, alloc: Global, other: &Affine) -> Result<Option<Vec<i32>>, AllocError>
        ensures { IfOk result (λ found. option_map (λ ns. ns.items) found ≡ number.combined (number.constant_of self.now.numbers) (pos 0) number.zeros other.now.numbers) }
    {
        let none = zeros(alloc)?;
        combined(
            alloc,
            constant_of(self.numbers.as_slice()),
            0,
            none.as_slice(),
            other.numbers.as_slice(),
        )
    }

    /// The product with another expression, of which at most one has a name.
    #[tactic(auto, unfolding(crate::specs::Affine::product))]
    fn product(&self, alloc: Global, start: usize, other: &Affine) -> Result<Affine, ReadError>
        ensures { Gives (spec.product start self.now other.now) result }
    {
        let numbers = if other.has_name {
            self.times(alloc, other)?
        } else {
            other.times(alloc, self)?
        };
        Affine::small(
            start,
            numbers,
            self.has_name || other.has_name,
            other.ends_in_name,
        )
    }

    /// The sum with another expression, or the difference.
    #[tactic(auto, unfolding(crate::specs::Affine::sum))]
    fn sum(
        &self,
        alloc: Global,
        start: usize,
        negative: bool,
        other: &Affine,
    ) -> Result<Affine, ReadError>
        ensures { Gives (spec.sum start negative self.now other.now) result }
    {
        let numbers = combined(
            alloc,
            sign_of(negative),
            0,
            self.numbers.as_slice(),
            other.numbers.as_slice(),
        )?;
        Affine::small(
            start,
            numbers,
            self.has_name || other.has_name,
            other.ends_in_name,
        )
    }
}

/// The sign as a factor.
fn sign_of(negative: bool) -> i32
    ensures { result ≡ spec.sign_of negative }
{
    if negative { -1 } else { 1 }
}

impl<'a> Reader<'a> {
    /// The signs in front of a factor, and whether they make it negative.
    #[tactic(auto, using(crate::proofs::Turns::turns), unfolding(crate::specs::Affine::signs, crate::specs::Affine::all_signs))]
    pub fn all_signs(&mut self) -> Result<bool, ReadError>
        ensures { Reads (spec.all_signs self.old) result self.new }
    {
        let mut negative = false;
        for _turn in 0..self.left() {
            if self.takes(b"-") {
                negative = !negative;
            } else if !self.takes(b"+") {
                return Ok(negative);
            }
        }
        Err(ReadError::Fault(self.refusal()))
    }

    /// A name where names may stand, or where the product has one before.
    fn name(&mut self, star: Option<usize>) -> Result<Affine, ReadError>
        ensures { Reads (spec.name_by star self.old) result self.new }
    {
        match star {
            None => {
                let slot = self.slot()?;
                Ok(Affine::one_name(self.alloc(), slot)?)
            }
            Some(place) => Err(ReadError::Fault(ReadFault { number: 4, place })),
        }
    }

    /// A number.
    fn number(&mut self) -> Result<Affine, ReadError>
        ensures { Reads (spec.number self.old) result self.new }
    {
        let digits = self.spelling();
        if !is_integer(digits) {
            return Err(self.fault(4));
        }
        let n = value(digits);
        if u128::from(n) >= NUMBER_SIZE {
            return Err(self.fault(11));
        }
        let number = Affine::one_number(self.alloc(), n as i32)?;
        self.pass();
        Ok(number)
    }

    /// Why nothing that may follow an expression does.
    #[tactic(auto, unfolding(crate::specs::Affine::refusal_after))]
    pub fn refusal_after(&self, a: &Affine) -> ReadFault
        ensures { result ≡ spec.refusal_after a.now self.now }
    {
        if self.sees(b"/")
            || self.sees(b"%")
            || self.sees(b"?")
            || self.sees(b".")
            || self.sees(b"[")
            || (self.sees(b"(") && a.ends_in_name)
        {
            ReadFault {
                number: 4,
                place: self.place(),
            }
        } else {
            self.refusal()
        }
    }

    /// Takes a symbol that has to follow the expression.
    #[tactic(auto, unfolding(crate::specs::Affine::closed_by))]
    pub fn closed_by(&mut self, word: &[u8], a: Affine) -> Result<Affine, ReadError>
        ensures { Reads (spec.closed_by word.now a self.old) result self.new }
    {
        if !self.takes(word) {
            return Err(ReadError::Fault(self.refusal_after(&a)));
        }
        Ok(Affine {
            ends_in_name: false,
            ..a
        })
    }

    /// A factor without its signs. No more than so many brackets may be opened.
    #[cycle(affine)]
    #[tactic(auto, unfolding(crate::specs::Affine::atom))]
    fn atom(&mut self, brackets: u8, star: Option<usize>) -> Result<Affine, ReadError>
        ensures { Reads (spec.atom (spec.bracketed brackets) star self.old) result self.new }
    {
        match self.kind() {
            TokenKind::Name => self.name(star),
            TokenKind::Number => self.number(),
            _ => {
                if self.sees(b"(") {
                    self.bracketed(brackets, star)
                } else {
                    Err(ReadError::Fault(self.refusal()))
                }
            }
        }
    }

    /// A factor with its signs.
    #[cycle(affine)]
    #[tactic(auto, unfolding(crate::specs::Affine::factor))]
    fn factor(
        &mut self,
        brackets: u8,
        start: usize,
        star: Option<usize>,
    ) -> Result<Affine, ReadError>
        ensures { Reads (spec.factor (spec.bracketed brackets) start star self.old) result self.new }
    {
        let negative = self.all_signs()?;
        let a = self.atom(brackets, star)?;
        a.signed(self.alloc(), start, negative)
    }

    /// A product of factors.
    #[cycle(affine)]
    #[tactic(auto, using(crate::proofs::Turns::turns), unfolding(crate::specs::Affine::term, crate::specs::Affine::products))]
    fn term(&mut self, brackets: u8, start: usize, star: Option<usize>) -> Result<Affine, ReadError>
        ensures { Reads (spec.term (spec.bracketed brackets) start star self.old) result self.new }
    {
        let mut a = self.factor(brackets, start, star)?;
        for _turn in 0..self.left() {
            if !self.sees(b"*") {
                return Ok(a);
            }
            let star = star_of(star, a.has_name, self.place());
            self.pass();
            let b = self.factor(brackets, start, star)?;
            a = a.product(self.alloc(), start, &b)?;
        }
        Err(ReadError::Fault(self.refusal()))
    }

    /// An affine expression: a sum of terms.
    #[cycle(affine)]
    #[tactic(auto, using(crate::proofs::Turns::turns), unfolding(crate::specs::Affine::affine, crate::specs::Affine::affine_by, crate::specs::Affine::sums))]
    pub fn affine(&mut self, brackets: u8, star: Option<usize>) -> Result<Affine, ReadError>
        ensures { Reads (spec.affine brackets star self.old) result self.new }
    {
        let start = self.place();
        let mut a = self.term(brackets, start, star)?;
        for _turn in 0..self.left() {
            let negative = self.sees(b"-");
            if !negative && !self.sees(b"+") {
                return Ok(a);
            }
            self.pass();
            let b = self.term(brackets, start, star)?;
            a = a.sum(self.alloc(), start, negative, &b)?;
        }
        Err(ReadError::Fault(self.refusal()))
    }

    /// An expression in brackets.
    #[cycle(affine)]
    #[tactic(auto, using(crate::proofs::Turns::bracketed_none), unfolding(crate::specs::Affine::bracketed, crate::specs::Affine::affine))]
    fn bracketed(&mut self, brackets: u8, star: Option<usize>) -> Result<Affine, ReadError>
        ensures { Reads (spec.bracketed brackets star self.old) result self.new }
    {
        if brackets == 0 {
            return Err(self.fault(9));
        }
        self.pass();
        let a = self.affine(brackets - 1, star)?;
        self.closed_by(b")", a)
    }
}

/// Where the factor behind a `*` may have no name: at the first such `*`.
fn star_of(star: Option<usize>, has_name: bool, place: usize) -> Option<usize>
    ensures { result ≡ spec.star_of star has_name place }
{
    match star {
        Some(star) => Some(star),
        None => { if has_name { Some(place) } else { None } }
    }
}
