//! The tokens of a part of a text.

ghost use Rattle.std.specs.Prelude.{◌≡◌, ◌<◌, ◌+◌, ◌^◌, ◌++◌, length, OnOk};
ghost use Rattle.c_tokens.specs.Pieces.{reach, piece_length};
ghost use Rattle.c_tokens.specs.Tokens.{end_kind, piece_tokens, tokens_in};

use crate::bytes::behind;
use crate::piece::{Piece, Region, first_piece};
use crate::token::{Token, TokenKind};
use std::alloc::AllocError;

/// The kind of the token that stands at the end.
fn end_kind(region: Region) -> TokenKind
    ensures { result ≡ end_kind region }
{
    match region {
        Region::Line => TokenKind::LineEnd,
        Region::Scop => TokenKind::End,
    }
}

/// Adds the token of a piece at this place, where it gives one.
fn push_piece(tokens: &mut Vec<Token>, place: usize, piece: Piece) -> Result<(), AllocError>
    requires { place + reach piece < 2 ^ 64 }
    ensures { OnOk result (tokens.new.items ≡ tokens.old.items ++ piece_tokens place piece) }
{
    match piece {
        Piece::Blank(_) => {}
        Piece::Whole(kind, length) => tokens.push(Token {
            kind,
            place,
            length,
        })?,
        Piece::Last(kind, length) => tokens.push(Token {
            kind,
            place: place + length,
            length: 0,
        })?,
    }
    Ok(())
}

/// How many bytes a piece has, where it isn't the last.
fn piece_length(piece: Piece) -> Option<usize>
    ensures { result ≡ piece_length piece }
{
    match piece {
        Piece::Blank(length) | Piece::Whole(_, length) => Some(length),
        Piece::Last(_, _) => None,
    }
}

/// Adds the tokens of bytes that stand at this place, and the end's token.
#[tactic(auto, using(crate::proofs::Scanned::steps))]
pub(crate) fn push_tokens(
    tokens: &mut Vec<Token>,
    region: Region,
    start: usize,
    bytes: &[u8],
) -> Result<(), AllocError>
    requires { start + length bytes.now < 2 ^ 64 }
    ensures { OnOk result (tokens.new.items ≡ tokens.old.items ++ tokens_in region 0 start bytes.now) }
{
    let mut rest = bytes;
    let mut place = start;
    while !rest.is_empty() {
        let piece = first_piece(region, rest);
        push_piece(tokens, place, piece)?;
        let Some(length) = piece_length(piece) else {
            return Ok(());
        };
        rest = behind(rest, length);
        place += length;
    }
    tokens.push(Token {
        kind: end_kind(region),
        place,
        length: 0,
    })?;
    Ok(())
}
