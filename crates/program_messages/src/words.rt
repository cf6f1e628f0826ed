//! Words of a text.

ghost use Rattle.std.specs.Prelude.{◌≤◌, length};

/// Whether a byte stands in names and numbers.
fn is_word_byte(byte: u8) -> bool {
    byte.is_ascii_alphanumeric() || byte == b'_'
}

/// The name or number in front of a text, or else its first byte; nothing where the text is empty.
pub(crate) fn first_word(text: &[u8]) -> &[u8]
    ensures { length result.now ≤ length text.now }
{
    for (count, byte) in text.iter().enumerate() {
        if !is_word_byte(*byte) {
            return if count == 0 {
                &text[..1]
            } else {
                &text[..count]
            };
        }
    }
    text
}

/// The text without the spaces at its end.
pub(crate) fn without_spaces(text: &[u8]) -> &[u8] {
    text.trim_ascii_end()
}

/// The name or number at the end of a text; nothing where there is none.
pub(crate) fn last_word(text: &[u8]) -> &[u8] {
    let mut start = text.len();
    for _turn in 0..text.len() {
        if start == 0 || !is_word_byte(text[start - 1]) {
            return &text[start..];
        }
        start -= 1;
    }
    text
}

/// Whether a word is one of those in a list that has spaces between them.
pub(crate) fn is_listed(list: &str, word: &[u8]) -> bool {
    list.split(' ').any(|listed| listed.as_bytes() == word)
}
