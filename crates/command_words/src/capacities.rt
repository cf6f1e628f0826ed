//! Capacities of fast levels on the command line.

ghost use Rattle.std.specs.Prelude.{◌≡◌, ◌==◌, ◌≤◌, ◌<◌, ◌^◌, length, min, sum, map, option_map, string_bytes, IfOk, IfSome, OnOk};
ghost use Rattle.std.specs.List.{AllByRecursion, slice_split};
ghost use Rattle.command_words.specs.Numbers.{capacities_in, memories_in};
ghost use Rattle.command_words.specs.Settings.{AreSmallLevels};

use crate::number::memory_of;
use affine_form::Memory;
use iolb_model::limits;
use std::alloc::{AllocError, Global};

/// The pieces of a word between commas.
fn pieces<'a>(alloc: Global, word: &'a str) -> Result<Vec<&'a str>, AllocError>
    ensures { IfOk result (λ pieces. map (λ piece. piece.now) pieces.items ≡ slice_split (λ byte. byte == 44) word.now) }
{
    word.split(',').collect(alloc)
}

/// The numbers of red pebbles that words say, and `None` where a word says none.
fn memories_of(alloc: Global, words: &[&str]) -> Result<Option<Vec<u64>>, Memory>
    ensures numbers { IfOk result (λ found. option_map (λ numbers. numbers.items) found ≡ memories_in (map (λ word. word.now) words.now)) }
    ensures each { IfOk result (λ found. IfSome found (λ numbers. AllByRecursion (λ number. 1 ≤ number) numbers.items)) }
    ensures one_each { IfOk result (λ found. IfSome found (λ numbers. length numbers.items ≡ length words.now)) }
{
    let mut numbers = Vec::new(alloc);
    for word in words {
        match memory_of(word.as_bytes()) {
            Some(number) => numbers.push(number)?,
            None => return Ok(None),
        }
    }
    Ok(Some(numbers))
}

/// The sum of some numbers, or 2^64 if that is less.
fn sum_of(numbers: &[u64]) -> u128
    ensures { result ≡ min (sum numbers.now) (2 ^ 64) }
{
    let mut sum: u128 = 0;
    for number in numbers {
        sum = (sum + u128::from(*number)).min(1 << 64);
    }
    sum
}

/// The capacities of fast levels that a word says: 1 to 4 numbers from 1 to 2^63 - 1, joined by commas, which are no more than
/// that together.
pub(crate) fn capacities_of(alloc: Global, word: &str) -> Result<Option<Vec<u64>>, Memory>
    ensures capacities { IfOk result (λ found. option_map (λ capacities. capacities.items) found ≡ capacities_in word.now) }
    ensures small { IfOk result (λ found. IfSome found (λ capacities. AreSmallLevels capacities.items)) }
{
    let words = pieces(alloc, word)?;
    let Some(numbers) = memories_of(alloc, words.as_slice())? else {
        return Ok(None);
    };
    if numbers.len() <= limits::LEVELS && sum_of(numbers.as_slice()) < 1 << 63 {
        Ok(Some(numbers))
    } else {
        Ok(None)
    }
}
