//! Kinds of bytes.

ghost use Rattle.std.specs.Prelude.{◌≡◌, ◌+◌, ◌≤◌, length, drop};
ghost use Rattle.std.specs.List.{prefix_len, list_any};
ghost use Rattle.c_tokens.specs.Bytes.{is_blank, is_space, is_in_line, is_letter, is_digit, is_name_start, is_name_byte, is_exponent, is_sign, is_number_byte, first_line};

/// A space or a tab.
pub(crate) fn is_blank(b: u8) -> bool
    ensures { result ≡ is_blank b }
{
    b == b' ' || b == b'\t'
}

/// A space, a tab or a carriage return.
pub(crate) fn is_space(b: u8) -> bool
    ensures { result ≡ is_space b }
{
    is_blank(b) || b == b'\r'
}

fn is_letter(b: u8) -> bool
    ensures { result ≡ is_letter b }
{
    (b'a' <= b && b <= b'z') || (b'A' <= b && b <= b'Z')
}

pub(crate) fn is_digit(b: u8) -> bool
    ensures { result ≡ is_digit b }
{
    b'0' <= b && b <= b'9'
}

/// A letter or `_`.
pub(crate) fn is_name_start(b: u8) -> bool
    ensures { result ≡ is_name_start b }
{
    is_letter(b) || b == b'_'
}

/// A letter, a digit or `_`.
pub(crate) fn is_name_byte(b: u8) -> bool
    ensures { result ≡ is_name_byte b }
{
    is_name_start(b) || is_digit(b)
}

/// A byte that goes on with a number whose last byte is `before`.
pub(crate) fn is_number_byte(before: u8, b: u8) -> bool
    ensures { result ≡ is_number_byte before b }
{
    is_letter(b)
        || is_digit(b)
        || b == b'.'
        || ((b == b'+' || b == b'-') && (before == b'e' || before == b'E'))
}

/// How many blanks stand in front.
pub(crate) fn blanks(bytes: &[u8]) -> usize
    ensures count { result ≡ prefix_len is_blank bytes.now }
    ensures within { result ≤ length bytes.now }
{
    for (i, b) in bytes.iter().enumerate() {
        if !is_blank(*b) {
            return i;
        }
    }
    bytes.len()
}

/// How many spaces stand in front.
pub(crate) fn spaces(bytes: &[u8]) -> usize
    ensures count { result ≡ prefix_len is_space bytes.now }
    ensures within { result ≤ length bytes.now }
{
    for (i, b) in bytes.iter().enumerate() {
        if !is_space(*b) {
            return i;
        }
    }
    bytes.len()
}

/// How many bytes stand in front of the first newline.
pub(crate) fn line_length(bytes: &[u8]) -> usize
    ensures count { result ≡ prefix_len is_in_line bytes.now }
    ensures within { result ≤ length bytes.now }
{
    for (i, b) in bytes.iter().enumerate() {
        if *b == b'\n' {
            return i;
        }
    }
    bytes.len()
}

/// How many letters, digits and `_` stand in front.
pub(crate) fn name_length(bytes: &[u8]) -> usize
    ensures count { result ≡ prefix_len is_name_byte bytes.now }
    ensures within { result ≤ length bytes.now }
{
    for (i, b) in bytes.iter().enumerate() {
        if !is_name_byte(*b) {
            return i;
        }
    }
    bytes.len()
}

/// What stands behind so many bytes.
pub(crate) fn behind(bytes: &[u8], count: usize) -> &[u8]
    requires { count ≤ length bytes.now }
    ensures { result.now ≡ drop count bytes.now }
{
    &bytes[count..]
}

/// The line in front, without its newline.
pub(crate) fn first_line(bytes: &[u8]) -> &[u8]
    ensures line { result.now ≡ first_line bytes.now }
    ensures count { length result.now ≡ prefix_len is_in_line bytes.now }
    ensures within { length result.now ≤ length bytes.now }
{
    &bytes[..line_length(bytes)]
}
