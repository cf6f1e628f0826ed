//! Texts with each token's kind, place and length.

use c_tokens::TokenKind::{
    Assumptions, Bad, Directive, End, LineEnd, Name, Number, Parameters, Symbol, Word,
};
use c_tokens::{TokenKind, TokensError, tokens};
use std::alloc::Global;
use std::test::Fail;

/// Texts with their tokens, each with its kind, place and length.
const TOKENS: [(&[u8], &[(TokenKind, usize, usize)]); 6] = [
    // A directive, and a statement; a line before the opening one that is no directive is passed over.
    (
        b"@ \n#pragma iolb params N\r\n#pragma  scop\nfor _x1+=.5e-3<=a--\n#pragma endscop",
        &[
            (Parameters, 3, 18),
            (Name, 21, 1),
            (Name, 23, 1),
            (LineEnd, 25, 0),
            (Word, 40, 3),
            (Name, 44, 3),
            (Symbol, 47, 2),
            (Number, 49, 5),
            (Symbol, 54, 2),
            (Name, 56, 1),
            (Symbol, 57, 2),
            (End, 60, 0),
        ],
    ),
    // In a directive there are no comments.
    (
        b"\t#pragma iolb assume N//\n#pragma scop\n#pragma endscop\nx",
        &[
            (Assumptions, 0, 20),
            (Name, 21, 1),
            (Symbol, 22, 1),
            (Symbol, 23, 1),
            (LineEnd, 24, 0),
            (End, 38, 0),
        ],
    ),
    // Comments and lines of other pragmas are passed over; the closing line begins with its blanks.
    (
        b"#pragma scop\n/*\n#*/a// #\n #pragma omp /*\n1.e+5-2\n  #pragma\tendscop\r\n",
        &[
            (Name, 19, 1),
            (Number, 41, 5),
            (Symbol, 46, 1),
            (Number, 47, 1),
            (End, 49, 0),
        ],
    ),
    // A comment that the closing line leaves open.
    (
        b"#pragma scop\na /* \n#pragma endscop\n*/\n#pragma endscop",
        &[(Name, 13, 1), (Bad, 15, 0)],
    ),
    // A directive between the two lines, and another line that begins with `#`.
    (
        b"#pragma scop\n;\n #pragma iolbx\n#pragma endscop",
        &[(Symbol, 13, 1), (Directive, 16, 0)],
    ),
    (b"#pragma scop\n # pragma\n#pragma endscop", &[(Bad, 14, 0)]),
];

/// Texts without a program.
const NO_PROGRAM: [&[u8]; 5] = [
    b"",
    b"#pragma scop",
    b"#pragma endscop\n#pragma scop\n",
    b"#pragma scop x\n#pragma endscop\n",
    b"#pragma scop\n#pragma endscop;\n",
];

/// Whether the text has these tokens.
fn has(
    alloc: Global,
    text: &[u8],
    expected: &[(TokenKind, usize, usize)],
) -> Result<bool, TokensError> {
    let found = tokens(alloc, text)?;
    for (token, (kind, place, length)) in found.iter().zip(expected) {
        if token.kind != *kind || token.place != *place || token.length != *length {
            return Ok(false);
        }
    }
    Ok(found.len() == expected.len())
}

/// The first text that hasn't its tokens.
fn first_missed(alloc: Global) -> Result<Option<usize>, TokensError> {
    for (i, (text, expected)) in TOKENS.iter().enumerate() {
        if !has(alloc, text, expected)? {
            return Ok(Some(i));
        }
    }
    Ok(None)
}

/// The first text in which a program is found where there is none.
fn first_found(alloc: Global) -> Option<usize> {
    for (i, text) in NO_PROGRAM.iter().enumerate() {
        if !matches!(tokens(alloc, text), Err(TokensError::NoScop)) {
            return Some(i);
        }
    }
    None
}

#[test]
fn texts_have_their_tokens(rt: HostRuntime) -> Result<(), Fail> {
    assert_eq!(rt; first_missed(rt.alloc())?, None);
    assert_eq!(rt; first_found(rt.alloc()), None);
    Ok(())
}
