//! The tokens of a whole text.

ghost use Rattle.std.specs.Prelude.{◌≡◌, Some, None, IfOk, IfErr};
ghost use Rattle.c_tokens.specs.Text.{tokens_of, IfNoScop};

use crate::directives::push_directives;
use crate::error::TokensError;
use crate::lines::find_line;
use crate::piece::Region;
use crate::scan::push_tokens;
use crate::token::Token;
use std::alloc::Global;

/// The tokens of a C text: first those of its directives, each begun by its head and ended by its newline, then those
/// from its opening line to its closing one, ended by the closing line. The first line that reads `#pragma scop` opens
/// the program, and the first later line that reads `#pragma endscop` closes it; where there is none the answer is
/// `NoScop`. Takes time linear in the text's length.
pub fn tokens(alloc: Global, bytes: &[u8]) -> Result<Vec<Token>, TokensError>
    ensures tokens { IfOk result (λ tokens. tokens_of bytes.now ≡ Some tokens.items) }
    ensures fault { IfErr result (λ error. IfNoScop error (tokens_of bytes.now ≡ None)) }
{
    let Some(opening) = find_line(bytes, 0, b"#pragma scop") else {
        return Err(TokensError::NoScop);
    };
    if opening.end == bytes.len() {
        return Err(TokensError::NoScop);
    }
    let Some(closing) = find_line(bytes, opening.end + 1, b"#pragma endscop") else {
        return Err(TokensError::NoScop);
    };
    let mut tokens = Vec::new(alloc);
    push_directives(&mut tokens, bytes)?;
    push_tokens(
        &mut tokens,
        Region::Scop,
        opening.end,
        &bytes[opening.end..closing.start],
    )?;
    Ok(tokens)
}
