//! The tokens of a text that are left, and the names that were seen.

ghost use Rattle.std.specs.Prelude.{◌≡◌, if◌then◌else◌, length, take, drop, OnOk, IfErr, ◌≤◌, ◌<◌, ◌+◌};
ghost use Rattle.c_reading.specs.Input as spec;
ghost use Rattle.c_reading.specs.Input.{Reads};
ghost use Rattle.c_reading.specs.Refs.{with_kind};
ghost use Rattle.c_reading.specs.Text.{start_of};
ghost use Rattle.c_reading.specs.Affine.{number_of, kind_of, with_name, is_short, new_parameter, slot};
ghost use Rattle.iolb_model.specs.declared.limits.TheConstants.{NAME_BYTES};

use crate::error::{ReadError, ReadFault};
use crate::named::Kind;
use crate::seen::Names;
use affine_form::Name;
use c_tokens::{Token, TokenKind};
use iolb_model::limits::{NAME_BYTES, PARAMETERS};
use std::alloc::Global;
use std::marker::Model;

/// The part of a text that is left, as tokens, with the names in the order of first sight.
#[derive(Drop)]
pub(crate) struct Reader<'a> {
    alloc: Global,
    text: &'a [u8],
    tokens: &'a [Token],
    names: Names<'a>,
    kinds: Vec<Kind>,
    parameters: u8,
    arrays: u16,
    statements: u8,
}

impl<'a> Model for Reader<'a> {
    ghost use Rattle.c_reading.specs.Input.{Input};

    ghost Value = { Input };

    ghost view = { λ r. record { text = r.text.now; tokens = r.tokens.now; names = r.names; kinds = r.kinds.items; parameters = r.parameters; arrays = r.arrays; statements = r.statements } };
}

/// The first token, or an end where none is left.
fn first_of(tokens: &[Token]) -> Token
    ensures { result ≡ spec.first_of tokens.now }
{
    match tokens.split_first() {
        Some((token, _)) => *token,
        None => Token {
            kind: TokenKind::End,
            place: 0,
            length: 0,
        },
    }
}

/// What follows so many bytes.
fn behind(bytes: &[u8], count: usize) -> &[u8]
    ensures { result.now ≡ drop count bytes.now }
{
    bytes.get(count..).unwrap_or(&[])
}

/// The first bytes, so many if there are.
fn front(bytes: &[u8], count: usize) -> &[u8]
    ensures { result.now ≡ take count bytes.now }
{
    bytes.get(..count).unwrap_or(bytes)
}

/// Whether a name has a byte, and not too many.
pub(crate) fn is_short(name: &[u8]) -> bool
    ensures { result ≡ is_short name.now }
{
    !name.is_empty() && name.len() <= NAME_BYTES
}

impl<'a> Reader<'a> {
    /// A text with all its tokens left.
    pub fn new(alloc: Global, text: &'a [u8], tokens: &'a [Token]) -> Reader<'a>
        ensures { result ≡ start_of text.now tokens.now }
    {
        Reader {
            alloc,
            text,
            tokens,
            names: Names::new(alloc),
            kinds: Vec::new(alloc),
            parameters: 0,
            arrays: 0,
            statements: 0,
        }
    }

    /// The names, and the kind of each.
    pub fn into_names(self) -> (Vec<Name>, Vec<Kind>)
        ensures names { result.0.items ≡ self.entry.names }
        ensures kinds { result.1.items ≡ self.entry.kinds }
    {
        (self.names.into_list(), self.kinds)
    }

    /// How many of the names are parameters.
    pub fn parameters(&self) -> u8
        ensures { result ≡ self.now.parameters }
    {
        self.parameters
    }

    /// Where memory comes from.
    pub fn alloc(&self) -> Global {
        self.alloc
    }

    /// The next token, or an end where none is left.
    fn next_token(&self) -> Token
        ensures { result ≡ spec.next_token self.now }
    {
        first_of(self.tokens)
    }

    /// What the next token is.
    pub fn kind(&self) -> TokenKind
        ensures { result ≡ spec.kind self.now }
    {
        self.next_token().kind
    }

    /// The place of the next token.
    pub fn place(&self) -> usize
        ensures { result ≡ spec.place self.now }
    {
        self.next_token().place
    }

    /// The bytes of a token.
    fn bytes_of(&self, token: Token) -> &'a [u8]
        ensures { result.now ≡ take token.length (drop token.place self.now.text) }
    {
        front(behind(self.text, token.place), token.length)
    }

    /// The bytes of the next token.
    #[tactic(auto, unfolding(crate::specs::Input::spelling))]
    pub fn spelling(&self) -> &'a [u8]
        ensures { result.now ≡ spec.spelling self.now }
    {
        self.bytes_of(self.next_token())
    }

    /// Whether the next token is this word or symbol.
    #[tactic(auto, unfolding(crate::specs::Input::sees))]
    pub fn sees(&self, word: &[u8]) -> bool
        ensures { result ≡ spec.sees word.now self.now }
    {
        self.spelling() == word
    }

    /// The token behind the next, or an end where none is left.
    #[tactic(auto, unfolding(crate::specs::Input::next))]
    fn token_behind(&self) -> Token
        ensures { result ≡ spec.next_token (spec.next self.now) }
    {
        first_of(self.tokens.get(1..).unwrap_or(&[]))
    }

    /// Whether the token behind the next is this word or symbol.
    #[tactic(auto, unfolding(crate::specs::Input::sees, crate::specs::Input::next, crate::specs::Input::spelling))]
    pub fn sees_behind(&self, word: &[u8]) -> bool
        ensures { result ≡ spec.sees word.now (spec.next self.now) }
    {
        self.bytes_of(self.token_behind()) == word
    }

    /// How many tokens are left.
    pub fn left(&self) -> usize
        ensures { result ≡ spec.left self.now }
    {
        self.tokens.len()
    }

    /// Takes the next token.
    #[tactic(auto, unfolding(crate::specs::Input::next))]
    pub fn pass(&mut self)
        ensures { self.new ≡ spec.next self.old }
    {
        self.tokens = self.tokens.get(1..).unwrap_or(&[]);
    }

    /// Takes the next token where it is this word or symbol, and answers whether it is.
    pub fn takes(&mut self, word: &[u8]) -> bool
        ensures seen { result ≡ spec.sees word.now self.old }
        ensures taken { self.new ≡ (if result then spec.next self.old else self.old) }
    {
        let seen = self.sees(word);
        if seen {
            self.pass();
        }
        seen
    }

    /// A fault of this number at the next token.
    pub fn fault(&self, number: u8) -> ReadError
        ensures { result ≡ ReadError.Fault (record { number = number; place = spec.place self.now }) }
    {
        ReadError::Fault(ReadFault {
            number,
            place: self.place(),
        })
    }

    /// Why no rule takes the next token.
    #[tactic(auto, unfolding(crate::specs::Input::refusal))]
    pub fn refusal(&self) -> ReadFault
        ensures { result ≡ spec.refusal self.now }
    {
        let number = match self.kind() {
            TokenKind::Bad => 2,
            _ => 3,
        };
        ReadFault {
            number,
            place: self.place(),
        }
    }

    /// The kind of a name, where it was seen.
    #[tactic(auto, unfolding(crate::specs::Affine::kind_of))]
    pub fn kind_of(&self, name: &[u8]) -> Option<Kind>
        ensures { result ≡ kind_of name.now self.now }
    {
        let at = self.names.number_of(name)?;
        self.kinds.get(at).copied()
    }

    /// One name more, of this kind.
    #[tactic(auto, unfolding(crate::specs::Affine::with_name))]
    pub fn add_name(&mut self, name: &'a [u8], kind: Kind) -> Result<(), ReadError>
        requires some { 1 ≤ length name.now }
        requires few { length name.now ≤ NAME_BYTES }
        ensures added { OnOk result (self.new ≡ with_name name.now kind self.old) }
        ensures memory { IfErr result (λ e. e ≡ ReadError.Memory) }
    {
        self.names.push(name)?;
        self.kinds.push(kind)?;
        Ok(())
    }

    /// The number of a name among those that were seen.
    pub fn number_of(&self, name: &[u8]) -> Option<usize>
        ensures { result ≡ number_of name.now self.now }
    {
        self.names.number_of(name)
    }

    /// How many statements there are.
    pub fn statements(&self) -> u8
        ensures { result ≡ self.now.statements }
    {
        self.statements
    }

    /// There are so many statements now.
    pub fn set_statements(&mut self, statements: u8)
        ensures { self.new ≡ record self.old { statements = statements } }
    {
        self.statements = statements;
    }

    /// How many names were seen.
    pub fn name_count(&self) -> usize
        ensures { result ≡ length self.now.names }
    {
        self.names.len()
    }

    /// How many of them are arrays.
    pub fn arrays(&self) -> u16
        ensures { result ≡ self.now.arrays }
    {
        self.arrays
    }

    /// There are so many arrays now.
    pub fn set_arrays(&mut self, arrays: u16)
        ensures { self.new ≡ record self.old { arrays = arrays } }
    {
        self.arrays = arrays;
    }

    /// The name of this number has this kind now, where it is there.
    #[tactic(auto, unfolding(crate::specs::Refs::with_kind))]
    pub fn set_kind(&mut self, at: usize, kind: Kind)
        ensures { self.new ≡ with_kind at kind self.old }
    {
        if at < self.kinds.len() {
            self.kinds[at] = kind;
        }
    }

    /// Takes a name that is new as a parameter, and gives the place of its coefficient.
    #[tactic(auto, unfolding(crate::specs::Affine::new_parameter))]
    fn new_parameter(&mut self) -> Result<usize, ReadError>
        ensures { Reads (new_parameter self.old) result self.new }
    {
        let name = self.spelling();
        if !is_short(name) || usize::from(self.parameters) >= PARAMETERS {
            return Err(self.fault(10));
        }
        let k = self.parameters;
        self.add_name(name, Kind::Parameter(k))?;
        self.parameters = k + 1;
        self.pass();
        Ok(1 + usize::from(k))
    }

    /// Takes a name, and gives the place of its coefficient: that of a parameter, or of a loop around it.
    #[tactic(auto, unfolding(crate::specs::Affine::slot))]
    pub fn slot(&mut self) -> Result<usize, ReadError>
        ensures { Reads (slot self.old) result self.new }
    {
        match self.kind_of(self.spelling()) {
            None => self.new_parameter(),
            Some(Kind::Parameter(k)) => {
                self.pass();
                Ok(1 + usize::from(k))
            }
            Some(Kind::OpenLoop(depth)) => {
                self.pass();
                Ok(1 + PARAMETERS + usize::from(depth))
            }
            Some(Kind::ClosedLoop | Kind::Array(_, _)) => Err(self.fault(6)),
        }
    }
}
