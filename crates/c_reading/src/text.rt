//! What a whole text says.

ghost use Rattle.std.specs.Prelude.{◌≡◌, IfOk};
ghost use Rattle.c_reading.specs.Input.{Reads, Gives};
ghost use Rattle.c_reading.specs.Names.{parameters_among, arrays_among};
ghost use Rattle.c_reading.specs.Text as spec;
ghost use Rattle.c_reading.specs.Tree.{items_of};

use crate::access::Row;
use crate::among::{arrays_among, parameters_among};
use crate::error::{ReadError, ReadFault};
use crate::head::Head;
use crate::input::Reader;
use crate::named::Kind;
use crate::numbers::single;
use crate::rows::Rows;
use crate::tree::{Item, Items};
use affine_form::{Memory, Name};
use c_tokens::{Token, TokensError, tokens};
use std::alloc::{AllocError, Global};
use std::marker::Model;

/// What a text says: its names in order of first sight, with their kinds; the rows that are assumed; and its items.
#[derive(Drop)]
pub struct Reading {
    names: Vec<Name>,
    kinds: Vec<Kind>,
    assumptions: Rows,
    items: Items,
}

impl Model for Reading {
    ghost use Rattle.std.specs.Coded.{codes};
    ghost use Rattle.c_reading.specs.Marks.{items_code};
    ghost use Rattle.c_reading.specs.Text.{Reading as SpecReading};

    ghost Value = { SpecReading };

    ghost coded = { Prim.hlevel (codes, items_code (Prim.hlevel (codes))) };

    ghost view = { λ r. record { names = r.names.items; kinds = r.kinds.items; assumptions = r.assumptions; items = r.items } };
}

impl Reading {
    /// The names, in order of first sight.
    pub fn names(&self) -> &[Name]
        ensures { result.now ≡ self.now.names }
    {
        self.names.as_slice()
    }

    /// The kind of each name.
    pub fn kinds(&self) -> &[Kind]
        ensures { result.now ≡ self.now.kinds }
    {
        self.kinds.as_slice()
    }

    /// The parameters, in order of first sight.
    pub fn parameters(&self, alloc: Global) -> Result<Vec<Name>, Memory>
        ensures { IfOk result (λ names. names.items ≡ parameters_among self.now.names self.now.kinds) }
    {
        parameters_among(alloc, self.names.as_slice(), self.kinds.as_slice())
    }

    /// The arrays with their numbers of subscripts, in order of first sight.
    pub fn arrays(&self, alloc: Global) -> Result<Vec<(Name, usize)>, Memory>
        ensures { IfOk result (λ arrays. arrays.items ≡ arrays_among self.now.names self.now.kinds) }
    {
        arrays_among(alloc, self.names.as_slice(), self.kinds.as_slice())
    }

    /// The rows that are assumed to be at least 0.
    pub fn assumptions(&self) -> &[Row]
        ensures { result.now ≡ self.now.assumptions }
    {
        self.assumptions.as_slice()
    }

    /// The items.
    pub fn items(&self) -> &[Item]
        ensures { items_of result.now ≡ self.now.items }
    {
        self.items.as_slice()
    }
}

/// The row of a parameter less 1.
fn at_least_one(alloc: Global, k: u8) -> Result<Row, AllocError>
    ensures { IfOk result (λ row. row ≡ spec.at_least_one k) }
{
    let mut numbers = single(alloc, 0, -1)?;
    let slot = 1 + usize::from(k);
    if slot < numbers.len() {
        numbers[slot] = 1;
    }
    Ok(Row::new(numbers))
}

/// The rows of so many parameters less 1, in order.
fn all_at_least_one(alloc: Global, parameters: u8) -> Result<Rows, AllocError>
    ensures { IfOk result (λ rows. rows ≡ spec.all_at_least_one parameters) }
{
    let mut rows = Rows::new(alloc);
    for k in 0..parameters {
        rows.push(at_least_one(alloc, k)?)?;
    }
    Ok(rows)
}

impl<'a> Reader<'a> {
    /// What is assumed.
    #[tactic(auto, unfolding(crate::specs::Text::assumptions_of))]
    fn assumptions(&self, head: Head) -> Result<Rows, AllocError>
        ensures { IfOk result (λ rows. rows ≡ spec.assumptions_of head self.now) }
    {
        if head.assumed {
            Ok(head.rows)
        } else {
            all_at_least_one(self.alloc(), self.parameters())
        }
    }

    /// The directives, then the items up to the closing line.
    #[tactic(auto, unfolding(crate::specs::Text::text_rule))]
    fn text(&mut self) -> Result<(Head, Items), ReadError>
        ensures { Reads (spec.text_rule self.old) result self.new }
    {
        let head = self.head()?;
        let items = self.items()?;
        Ok((head, items))
    }
}

/// Reads the tokens of a text.
fn read_tokens(alloc: Global, bytes: &[u8], tokens: &[Token]) -> Result<Reading, ReadError>
    ensures { Gives (spec.reading_from (spec.text_rule (spec.start_of bytes.now tokens.now))) result }
{
    let mut reader = Reader::new(alloc, bytes, tokens);
    let (head, items) = reader.text()?;
    let assumptions = reader.assumptions(head)?;
    let (names, kinds) = reader.into_names();
    Ok(Reading {
        names,
        kinds,
        assumptions,
        items,
    })
}

/// Reads a whole C text: what it says, or the first fault that it has, with its number and its place. The lines before
/// the opening one may name parameters and assume; between the opening and the closing line stand loops with affine
/// bounds, which step by one, guards that ask affine comparisons, blocks, and assignments to cells with affine subscripts.
pub fn read_text(alloc: Global, bytes: &[u8]) -> Result<Reading, ReadError>
    ensures { Gives (spec.reading_of bytes.now) result }
{
    match tokens(alloc, bytes) {
        Ok(tokens) => read_tokens(alloc, bytes, tokens.as_slice()),
        Err(TokensError::NoScop) => Err(ReadError::Fault(ReadFault {
            number: 1,
            place: bytes.len(),
        })),
        Err(TokensError::Memory) => Err(ReadError::Memory),
    }
}
