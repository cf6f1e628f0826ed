//! Numbers on the command line.

ghost use Rattle.std.specs.Prelude.{◌≡◌, ◌≤◌, ◌<◌, ◌^◌, [], ◌∷◌, length, min, pos, option_map, unsigned_abs, IfSome};
ghost use Rattle.std.specs.Char.{is_ascii_digit};
ghost use Rattle.std.specs.List.{list_all};
ghost use Rattle.command_words.specs.Numbers.{memory_in, processors_in, products_in, small_in, natural_in, whole_in as whole_in_word, with_digits};
ghost use Rattle.iolb_model.specs.declared.limits.TheConstants.{PROCESSORS, STATEMENTS, VALUE_SIZE};

use iolb_model::limits;

/// No number that is read reaches this one.
const LIMIT: u128 = 1 << 64;

/// Whether all bytes are digits.
fn are_digits(word: &[u8]) -> bool
    ensures { result ≡ list_all is_ascii_digit word.now }
{
    for byte in word {
        if !byte.is_ascii_digit() {
            return false;
        }
    }
    true
}

/// A number with one digit more, or 2^64 if that is less.
fn with_digit(number: u128, byte: u8) -> u128
    requires { number ≤ 2 ^ 64 }
    ensures { result ≡ min (with_digits number (byte ∷ [])) (2 ^ 64) }
{
    let digit = u128::from(byte.saturating_sub(48));
    (number * 10 + digit).min(LIMIT)
}

/// The number of a word's digits, or 2^64 if that is less.
fn value_of(word: &[u8]) -> u128
    ensures { result ≡ min (with_digits 0 word.now) (2 ^ 64) }
{
    let mut number = 0;
    for byte in word {
        number = with_digit(number, *byte);
    }
    number
}

/// The number of a word of 1 to so many digits, or 2^64 if that is less.
fn natural_of(word: &[u8], most: usize) -> Option<u128>
    ensures { result ≡ option_map (λ n. min n (2 ^ 64)) (natural_in most word.now) }
{
    if word.is_empty() || word.len() > most || !are_digits(word) {
        return None;
    }
    Some(value_of(word))
}

/// How many red pebbles a word says: 1 to 19 digits, from 1 to 2^63 - 1.
pub(crate) fn memory_of(word: &[u8]) -> Option<u64>
    ensures memory { result ≡ memory_in word.now }
    ensures some { IfSome result (λ s. 1 ≤ s) }
    ensures few { IfSome result (λ s. s < 2 ^ 63) }
{
    let number = natural_of(word, 19)?;
    if 1 <= number && number < 1 << 63 {
        Some(number as u64)
    } else {
        None
    }
}

/// How many processors a word says: 1 to 7 digits, from 1 to 2^20.
pub(crate) fn processors_of(word: &[u8]) -> Option<u32>
    ensures processors { result ≡ processors_in word.now }
    ensures some { IfSome result (λ p. 1 ≤ p) }
    ensures few { IfSome result (λ p. p ≤ PROCESSORS) }
{
    let number = natural_of(word, 7)?;
    if 1 <= number && number <= u128::from(limits::PROCESSORS) {
        Some(number as u32)
    } else {
        None
    }
}

/// How many matrix products a word says: digits, as many as there are, from 1 to 32.
pub(crate) fn products_of(word: &[u8]) -> Option<u8>
    ensures products { result ≡ products_in word.now }
    ensures some { IfSome result (λ n. 1 ≤ n) }
    ensures few { IfSome result (λ n. n ≤ STATEMENTS) }
{
    let number = natural_of(word, word.len())?;
    if 1 <= number && number <= limits::STATEMENTS as u128 {
        Some(number as u8)
    } else {
        None
    }
}

/// The number of a word of 1 to 13 digits, where it is below 2^40.
fn small_of(word: &[u8]) -> Option<i64>
    ensures number { result ≡ option_map pos (small_in word.now) }
    ensures small { IfSome result (λ n. unsigned_abs n < VALUE_SIZE) }
{
    let number = natural_of(word, 13)?;
    if number < limits::VALUE_SIZE {
        Some(number as i64)
    } else {
        None
    }
}

/// A whole number of size below 2^40: 1 to 13 digits, which may have `-` in front.
pub(crate) fn whole_in(word: &[u8]) -> Option<i64>
    ensures number { result ≡ whole_in_word word.now }
    ensures small { IfSome result (λ n. unsigned_abs n < VALUE_SIZE) }
{
    match word.first() {
        Some(45) => {
            let number = small_of(&word[1..])?;
            Some(0 - number)
        }
        Some(_) => small_of(word),
        None => None,
    }
}
