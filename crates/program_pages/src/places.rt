//! Where the loops and references of a program stand in its text.

use affine_form::{Memory, Name};
use c_tokens::{Token, TokenKind, TokensError, tokens};
use std::alloc::Global;

/// The places of a statement's references, as byte offsets from 0: of the one that it writes, and of those that it reads.
#[derive(Drop)]
pub struct StatementPlaces {
    pub writes: usize,
    pub reads: Vec<usize>,
}

/// The places of a program's loops, of the word `for` of each, and of its statements, both in the order of the text.
#[derive(Drop)]
pub struct Places {
    pub loops: Vec<usize>,
    pub statements: Vec<StatementPlaces>,
}

/// The part of a text in which a token stands. The header of a loop, or of an `if`, knows how many brackets are open.
#[derive(Clone, Copy)]
enum Part {
    Outside,
    Directive,
    Header(usize),
    Statement,
}

/// The bytes of a token.
fn spelling(text: &[u8], token: Token) -> &[u8] {
    match text.get(token.place..token.place.saturating_add(token.length)) {
        Some(word) => word,
        None => &[],
    }
}

/// Whether a word is the name of an array.
fn is_array(arrays: &[(Name, u8)], word: &[u8]) -> bool {
    for (name, _) in arrays {
        if name.bytes() == word {
            return true;
        }
    }
    false
}

/// Whether a word is an operator of assignment before which the cell that is written is read.
fn is_update(word: &[u8]) -> bool {
    word == b"+=".as_slice()
        || word == b"-=".as_slice()
        || word == b"*=".as_slice()
        || word == b"/=".as_slice()
}

/// The part behind a token of a header that has so many open brackets.
fn after_header(open: usize, word: &[u8]) -> Part {
    if word == b"(".as_slice() {
        return Part::Header(open.saturating_add(1));
    }
    if word != b")".as_slice() {
        return Part::Header(open);
    }
    if open > 1 {
        Part::Header(open - 1)
    } else {
        Part::Outside
    }
}

impl Places {
    /// Takes a token that stands outside of headers and statements: the part behind it.
    fn begin(&mut self, alloc: Global, token: Token, word: &[u8]) -> Result<Part, Memory> {
        match token.kind {
            TokenKind::Parameters | TokenKind::Assumptions => Ok(Part::Directive),
            TokenKind::Name => {
                self.statements.push(StatementPlaces {
                    writes: token.place,
                    reads: Vec::new(alloc),
                })?;
                Ok(Part::Statement)
            }
            _ => {
                if word == b"for".as_slice() {
                    self.loops.push(token.place)?;
                    return Ok(Part::Header(0));
                }
                if word == b"if".as_slice() {
                    return Ok(Part::Header(0));
                }
                Ok(Part::Outside)
            }
        }
    }

    /// Puts the place of a read behind those of the last statement.
    fn put_read(&mut self, place: usize) -> Result<(), Memory> {
        if let Some(last) = self.statements.last_mut() {
            last.reads.push(place)?;
        }
        Ok(())
    }

    /// Puts a read of the cell that the last statement writes.
    fn put_update(&mut self) -> Result<(), Memory> {
        if let Some(last) = self.statements.last_mut() {
            let place = last.writes;
            last.reads.push(place)?;
        }
        Ok(())
    }
}

/// Finds where the loops and references of a program with these arrays stand in its text.
pub fn find_places(alloc: Global, text: &[u8], arrays: &[(Name, u8)]) -> Result<Places, Memory> {
    let mut places = Places {
        loops: Vec::new(alloc),
        statements: Vec::new(alloc),
    };
    let all = match tokens(alloc, text) {
        Ok(all) => all,
        Err(TokensError::NoScop) => return Ok(places),
        Err(TokensError::Memory) => return Err(Memory),
    };
    let mut part = Part::Outside;
    for (number, token) in all.as_slice().iter().enumerate() {
        let calls = match all.as_slice().get(number.saturating_add(1)) {
            Some(next) => spelling(text, *next) == b"(".as_slice(),
            None => false,
        };
        part = places.take_token(alloc, text, arrays, part, *token, calls)?;
    }
    Ok(places)
}

impl Places {
    /// Takes a token in a part of the text, where a bracket follows or not: the part behind it.
    fn take_token(
        &mut self,
        alloc: Global,
        text: &[u8],
        arrays: &[(Name, u8)],
        part: Part,
        token: Token,
        calls: bool,
    ) -> Result<Part, Memory> {
        let word = spelling(text, token);
        match part {
            Part::Outside => self.begin(alloc, token, word),
            Part::Directive => {
                if matches!(token.kind, TokenKind::LineEnd) {
                    Ok(Part::Outside)
                } else {
                    Ok(part)
                }
            }
            Part::Header(open) => Ok(after_header(open, word)),
            Part::Statement => self.take_part_of_statement(arrays, token, word, calls),
        }
    }

    /// Takes a token of a statement: the part behind it.
    fn take_part_of_statement(
        &mut self,
        arrays: &[(Name, u8)],
        token: Token,
        word: &[u8],
        calls: bool,
    ) -> Result<Part, Memory> {
        if word == b";".as_slice() {
            return Ok(Part::Outside);
        }
        if is_update(word) {
            self.put_update()?;
        } else if !calls && is_array(arrays, word) {
            self.put_read(token.place)?;
        }
        Ok(Part::Statement)
    }
}
