//! Reading moves from a text.

ghost use Rattle.std.specs.Prelude.{◌≡◌, ◌≢◌, ◌<◌, ◌≤◌, ◌++◌, ◌∷◌, ◌^◌, ℕ, List, length, option_copied, decimal, MatchOption};
ghost use Rattle.memory_levels.specs.MovesText.{AreDigitsInFront, BeginsWithMove, CanBeWritten, ReadsMoves, behind, move_line, place_words};

use crate::moves_error::MovesError;
use iolb_model::tower::TowerMove;
use std::alloc::Global;

/// The moves that lines say, one on each: `bring I V`, `send I V`, `compute V` and `drop I V`, with single spaces; the level I is
/// one digit, the vertex V decimal digits without a leading 0 unless it is 0, below 2^32; each line ends in a newline.
///
/// # Errors
///
/// `Line` names the first byte, from 0, of the first line that isn't of this form.
pub fn read_moves(alloc: Global, bytes: &[u8]) -> Result<Vec<TowerMove>, MovesError>
    ensures { ReadsMoves bytes.now result }
{
    let mut moves = Vec::new(alloc);
    let mut rest = bytes;
    while !rest.is_empty() {
        let Some((step, behind)) = first_line(rest) else {
            return Err(MovesError::Line((bytes.len() - rest.len()) as u64));
        };
        if moves.push(step).is_err() {
            return Err(MovesError::Memory);
        }
        rest = behind;
    }
    Ok(moves)
}

/// The move that the first line says, and what stands behind the line.
fn first_line(bytes: &[u8]) -> Option<(TowerMove, &[u8])>
    ensures { MatchOption result (¬ BeginsWithMove bytes.now) (λ read. CanBeWritten read.0 × (bytes.now ≡ move_line read.0 ++ read.1.now)) }
{
    if let Some(place) = after(b"bring ", bytes) {
        let (i, v, rest) = place_in(place)?;
        return Some((TowerMove::Bring(i, v), rest));
    }
    if let Some(place) = after(b"send ", bytes) {
        let (i, v, rest) = place_in(place)?;
        return Some((TowerMove::Send(i, v), rest));
    }
    if let Some(number) = after(b"compute ", bytes) {
        let (v, rest) = number_in(number)?;
        return Some((TowerMove::Compute(v), rest));
    }
    let place = after(b"drop ", bytes)?;
    let (i, v, rest) = place_in(place)?;
    Some((TowerMove::Drop(i, v), rest))
}

/// What follows a word in front.
fn after<'a>(word: &[u8], line: &'a [u8]) -> Option<&'a [u8]>
    ensures { option_copied result ≡ behind word.now line.now }
{
    if line.len() < word.len() {
        return None;
    }
    for (place, w) in word.iter().enumerate() {
        if line[place] != *w {
            return None;
        }
    }
    Some(&line[word.len()..])
}

/// A level and a vertex, a space between them, up to the end of the line, and what stands behind it.
fn place_in(bytes: &[u8]) -> Option<(u8, u32, &[u8])>
    ensures { MatchOption result ((i v : ℕ) (later : List ℕ) → i < 10 → v < 2 ^ 32 → bytes.now ≢ place_words i v ++ 10 ∷ later) (λ read. (read.0 < 10) × (read.1 < 2 ^ 32) × (bytes.now ≡ place_words read.0 read.1 ++ 10 ∷ read.2.now)) }
{
    if bytes.len() < 2 {
        return None;
    }
    if !bytes[0].is_ascii_digit() {
        return None;
    }
    if bytes[1] != b' ' {
        return None;
    }
    let (v, rest) = number_in(&bytes[2..])?;
    Some((bytes[0] - b'0', v, rest))
}

/// The number below 2^32 that the line writes, and what stands behind the line.
fn number_in(bytes: &[u8]) -> Option<(u32, &[u8])>
    ensures { MatchOption result ((v : ℕ) (later : List ℕ) → v < 2 ^ 32 → bytes.now ≢ decimal v ++ 10 ∷ later) (λ read. (read.0 < 2 ^ 32) × (bytes.now ≡ decimal read.0 ++ 10 ∷ read.1.now)) }
{
    // A number below 2^32 has ten digits at most, so of eleven bytes one ends it.
    let (many, value) = digits_in(&bytes[..bytes.len().min(11)]);
    if many == bytes.len() {
        return None;
    }
    if bytes[many] != b'\n' {
        return None;
    }
    if many == 0 {
        return None;
    }
    if bytes[0] == b'0' && many != 1 {
        return None;
    }
    if value > u64::from(u32::MAX) {
        return None;
    }
    Some((value as u32, &bytes[many + 1..]))
}

/// How many digits stand in front, and their value.
fn digits_in(bytes: &[u8]) -> (usize, u64)
    requires { length bytes.now ≤ 11 }
    ensures { AreDigitsInFront bytes.now result.0 result.1 }
{
    let mut value: u64 = 0;
    for (place, b) in bytes.iter().enumerate() {
        if !b.is_ascii_digit() {
            return (place, value);
        }
        value = value * 10 + (u64::from(*b) - 48);
    }
    (bytes.len(), value)
}
