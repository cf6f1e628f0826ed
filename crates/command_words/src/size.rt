//! Sizes on the command line.

ghost use Rattle.std.specs.Prelude.{◌≡◌, ◌+◌, ◌<◌, take, drop, length, map, None, Some, unsigned_abs, option_map, string_bytes, IfOk, IfSome, MatchOption};
ghost use Rattle.std.specs.List.{AllByRecursion};
ghost use Rattle.command_words.specs.Sizes.{named_of, size_in, sizes_in, split_word};
ghost use Rattle.iolb_model.specs.declared.limits.TheConstants.{VALUE_SIZE};

use crate::number::whole_in;
use affine_form::Memory;
use std::alloc::Global;

/// A name and its number, of size below 2^40.
#[derive(Debug, Drop)]
pub struct Size {
    pub name: Vec<u8>,
    pub value: i64,
}

/// The place of the first `=` in a word.
fn equals_at(word: &[u8]) -> Option<usize>
    ensures inside { IfSome result (λ place. place < length word.now) }
    ensures split { MatchOption result (split_word word.now ≡ None) (λ place. split_word word.now ≡ Some (take place word.now, drop (place + 1) word.now)) }
{
    for (place, byte) in word.iter().enumerate() {
        if *byte == b'=' {
            return Some(place);
        }
    }
    None
}

/// The size that a word NAME=NUMBER gives.
fn size_of(alloc: Global, word: &[u8]) -> Result<Option<Size>, Memory>
    ensures size { IfOk result (λ size. option_map named_of size ≡ size_in word.now) }
    ensures small { IfOk result (λ found. IfSome found (λ size. unsigned_abs size.value < VALUE_SIZE)) }
{
    let Some(place) = equals_at(word) else {
        return Ok(None);
    };
    let Some(value) = whole_in(&word[place + 1..]) else {
        return Ok(None);
    };
    let name = Vec::from_slice(alloc, &word[..place])?;
    Ok(Some(Size { name, value }))
}

/// The sizes that words NAME=NUMBER give, and `None` where a word is of another form.
pub(crate) fn sizes_of(alloc: Global, words: &[String]) -> Result<Option<Vec<Size>>, Memory>
    ensures sizes { IfOk result (λ found. option_map (λ sizes. map named_of sizes.items) found ≡ sizes_in (map (λ word. string_bytes word) words.now)) }
    ensures small { IfOk result (λ found. IfSome found (λ sizes. AllByRecursion (λ size. unsigned_abs size.value < VALUE_SIZE) sizes.items)) }
{
    let mut sizes = Vec::new(alloc);
    for word in words {
        match size_of(alloc, word.as_bytes())? {
            Some(size) => sizes.push(size)?,
            None => return Ok(None),
        }
    }
    Ok(Some(sizes))
}
