//! The piece in front of a text.

ghost use Rattle.std.specs.Prelude.{◌≡◌, ◌≤◌, ◌+◌, length, map, bytes_eq, IfSome};
ghost use Rattle.std.specs.List.{list_any, prefix_len};
ghost use Rattle.c_tokens.specs.Pieces.{is_among, is_keyword, name_kind, name_at, has_first, has_digit, begins_number, number_rest, is_pair, begins_pair, symbol_at, ends_comment, comment_end, slash_at, newline_at, hash_line, has_comments, piece_of, IsWithin};
ghost use Rattle.c_tokens.specs.Bytes.{is_name_byte};

use crate::bytes::{
    first_line, is_digit, is_name_start, is_number_byte, is_space, line_length, name_length, spaces,
};
use crate::token::TokenKind;
use crate::words::begins_with;

/// A part of a text.
#[derive(Clone, Copy)]
pub(crate) enum Region {
    /// A directive's line, behind its head.
    Line,
    /// What stands between the opening and the closing line. Comments may stand there.
    Scop,
}

/// What stands in front of a text, with its number of bytes.
#[derive(Clone, Copy)]
pub(crate) enum Piece {
    /// Bytes that give no token.
    Blank(usize),
    /// A token.
    Whole(TokenKind, usize),
    /// The last token, which has no bytes and stands behind so many.
    Last(TokenKind, usize),
}

/// The words of C that are no names.
const KEYWORDS: [&[u8]; 11] = [
    b"for",
    b"if",
    b"else",
    b"int",
    b"while",
    b"do",
    b"return",
    b"goto",
    b"break",
    b"continue",
    b"switch",
];

/// Whether a byte is one of these.
fn is_among(set: &[u8], b: u8) -> bool
    ensures { result ≡ is_among set.now b }
{
    for c in set {
        if *c == b {
            return true;
        }
    }
    false
}

/// Whether a word is one of these.
fn is_one_of(words: &[&[u8]], word: &[u8]) -> bool
    ensures { result ≡ list_any (bytes_eq word.now) (map (λ other. other.now) words.now) }
{
    for other in words {
        if word == *other {
            return true;
        }
    }
    false
}

/// Whether C keeps a word for itself.
pub(crate) fn is_keyword(word: &[u8]) -> bool
    ensures { result ≡ is_keyword word.now }
{
    is_one_of(&KEYWORDS, word)
}

/// A name, or a word that C keeps for itself.
fn name_kind(word: &[u8]) -> TokenKind
    ensures { result ≡ name_kind word.now }
{
    if is_keyword(word) {
        TokenKind::Word
    } else {
        TokenKind::Name
    }
}

/// The longest name in front.
fn name(bytes: &[u8]) -> Piece
    requires { 1 ≤ prefix_len is_name_byte bytes.now }
    ensures piece { result ≡ name_at bytes.now }
    ensures within { IsWithin result (length bytes.now) }
{
    let length = name_length(bytes);
    Piece::Whole(name_kind(&bytes[..length]), length)
}

/// Whether this byte stands in front.
fn has_first(c: u8, bytes: &[u8]) -> bool
    ensures { result ≡ has_first c bytes.now }
{
    match bytes.split_first() {
        Some((b, _)) => *b == c,
        None => false,
    }
}

/// Whether a digit stands in front.
fn has_digit(bytes: &[u8]) -> bool
    ensures { result ≡ has_digit bytes.now }
{
    match bytes.split_first() {
        Some((b, _)) => is_digit(*b),
        None => false,
    }
}

/// Whether a number begins with this byte.
fn begins_number(b: u8, rest: &[u8]) -> bool
    ensures { result ≡ begins_number b rest.now }
{
    is_digit(b) || (b == b'.' && has_digit(rest))
}

/// How many bytes go on with a number whose last byte is `before`.
fn number_rest(before: u8, bytes: &[u8]) -> usize
    ensures count { result ≡ number_rest before bytes.now }
    ensures within { result ≤ length bytes.now }
{
    let mut last = before;
    for (i, b) in bytes.iter().enumerate() {
        if !is_number_byte(last, *b) {
            return i;
        }
        last = *b;
    }
    bytes.len()
}

/// Whether two bytes are one symbol.
fn is_pair(b: u8, c: u8) -> bool
    ensures { result ≡ is_pair b c }
{
    (c == b'=' && is_among(b"+-*/<>=!", b)) || (c == b && is_among(b"+-&|", b))
}

/// Whether the second byte makes a symbol of two.
fn begins_pair(b: u8, rest: &[u8]) -> bool
    ensures { result ≡ begins_pair b rest.now }
{
    match rest.split_first() {
        Some((c, _)) => is_pair(b, *c),
        None => false,
    }
}

/// A symbol as long as can be, or a byte that begins no token.
fn symbol(b: u8, rest: &[u8]) -> Piece
    ensures piece { result ≡ symbol_at b rest.now }
    ensures within { IsWithin result (1 + length rest.now) }
{
    if begins_pair(b, rest) {
        Piece::Whole(TokenKind::Symbol, 2)
    } else if is_among(b"()[]{};,=+-*/%<>!&|?:.", b) {
        Piece::Whole(TokenKind::Symbol, 1)
    } else {
        Piece::Last(TokenKind::Bad, 0)
    }
}

/// Whether this byte and those behind it begin with `*/`.
fn ends_comment(b: u8, rest: &[u8]) -> bool
    ensures { result ≡ ends_comment b rest.now }
{
    b == b'*' && has_first(b'/', rest)
}

/// The place behind the first `*/` in these bytes.
fn comment_end(bytes: &[u8]) -> Option<usize>
    ensures end { result ≡ comment_end 0 bytes.now }
    ensures within { IfSome result (λ end. end ≤ length bytes.now) }
{
    for (i, b) in bytes.iter().enumerate() {
        if ends_comment(*b, &bytes[i + 1..]) {
            return Some(i + 2);
        }
    }
    None
}

/// What a `/` begins where comments may stand.
fn slash(rest: &[u8]) -> Piece
    ensures piece { result ≡ slash_at rest.now }
    ensures within { IsWithin result (1 + length rest.now) }
{
    let Some((b, bytes)) = rest.split_first() else {
        return symbol(b'/', rest);
    };
    if *b == b'/' {
        return Piece::Blank(2 + line_length(bytes));
    }
    if *b != b'*' {
        return symbol(b'/', rest);
    }
    match comment_end(bytes) {
        Some(end) => Piece::Blank(2 + end),
        None => Piece::Last(TokenKind::Bad, 0),
    }
}

/// A line between the opening and the closing one that begins with `#`, behind its newline.
fn hash_line(line: &[u8]) -> Piece
    ensures piece { result ≡ hash_line line.now }
    ensures within { IsWithin result (1 + length line.now) }
{
    if begins_with(b"#pragma iolb", line) {
        Piece::Last(TokenKind::Directive, 1 + spaces(line))
    } else if begins_with(b"#pragma", line) {
        Piece::Blank(1 + line.len())
    } else {
        Piece::Last(TokenKind::Bad, 1 + spaces(line))
    }
}

/// A newline, and what it decides about the line behind it.
fn newline(rest: &[u8]) -> Piece
    ensures piece { result ≡ newline_at rest.now }
    ensures within { IsWithin result (1 + length rest.now) }
{
    let line = first_line(rest);
    if begins_with(b"#", line) {
        hash_line(line)
    } else {
        Piece::Blank(1)
    }
}

/// Whether comments may stand there.
fn has_comments(region: Region) -> bool
    ensures { result ≡ has_comments region }
{
    match region {
        Region::Line => false,
        Region::Scop => true,
    }
}

/// The piece that stands in front.
pub(crate) fn first_piece(region: Region, bytes: &[u8]) -> Piece
    requires { 1 ≤ length bytes.now }
    ensures piece { result ≡ piece_of region bytes.now }
    ensures within { IsWithin result (length bytes.now) }
{
    let Some((first, rest)) = bytes.split_first() else {
        return Piece::Blank(0);
    };
    let b = *first;
    if is_space(b) {
        Piece::Blank(1)
    } else if b == b'\n' {
        newline(rest)
    } else if is_name_start(b) {
        name(bytes)
    } else if begins_number(b, rest) {
        Piece::Whole(TokenKind::Number, 1 + number_rest(b, rest))
    } else if b == b'/' && has_comments(region) {
        slash(rest)
    } else {
        symbol(b, rest)
    }
}
