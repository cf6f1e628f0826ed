//! The tokens of the lines before the opening one.

ghost use Rattle.std.specs.Prelude.{◌≡◌, ◌<◌, ◌≤◌, ◌+◌, ◌-◌, ◌^◌, ◌++◌, length, OnOk};
ghost use Rattle.c_tokens.specs.Lines.{lines_from};
ghost use Rattle.c_tokens.specs.Text.{directive_of, line_tokens, head_tokens};

use crate::bytes::{behind, first_line};
use crate::piece::Region;
use crate::scan::push_tokens;
use crate::token::{Token, TokenKind};
use crate::words::{past_head, reads_as};
use std::alloc::AllocError;

/// Adds the tokens of a directive at this place, of which `rest` stands behind its head.
fn push_directive(
    tokens: &mut Vec<Token>,
    kind: TokenKind,
    place: usize,
    line: &[u8],
    rest: &[u8],
) -> Result<(), AllocError>
    requires behind { length rest.now ≤ length line.now }
    requires place { place + length line.now < 2 ^ 64 }
    ensures { OnOk result (tokens.new.items ≡ tokens.old.items ++ directive_of kind (record { place = place; bytes = line.now }) rest.now) }
{
    let length = line.len() - rest.len();
    tokens.push(Token {
        kind,
        place,
        length,
    })?;
    push_tokens(tokens, Region::Line, place + length, rest)
}

/// Adds the tokens of a line at this place.
fn push_line(tokens: &mut Vec<Token>, place: usize, line: &[u8]) -> Result<(), AllocError>
    requires { place + length line.now < 2 ^ 64 }
    ensures { OnOk result (tokens.new.items ≡ tokens.old.items ++ line_tokens (record { place = place; bytes = line.now })) }
{
    if let Some(rest) = past_head(b"#pragma iolb param", line) {
        return push_directive(tokens, TokenKind::Parameters, place, line, rest);
    }
    if let Some(rest) = past_head(b"#pragma iolb assume", line) {
        return push_directive(tokens, TokenKind::Assumptions, place, line, rest);
    }
    Ok(())
}

/// Adds the tokens of the lines before the first one that opens the program.
pub(crate) fn push_directives(tokens: &mut Vec<Token>, bytes: &[u8]) -> Result<(), AllocError>
    ensures { OnOk result (tokens.new.items ≡ tokens.old.items ++ head_tokens (lines_from bytes.now 0)) }
{
    let mut start = 0;
    loop {
        let line = first_line(behind(bytes, start));
        let end = start + line.len();
        if reads_as(b"#pragma scop", line) {
            return Ok(());
        }
        push_line(tokens, start, line)?;
        if end == bytes.len() {
            return Ok(());
        }
        start = end + 1;
    }
}
