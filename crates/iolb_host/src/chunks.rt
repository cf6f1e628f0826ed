//! Whole files and whole pieces, by reads and writes that each move a part.
ghost use Rattle.std.specs.Prelude.{◌≡◌, ℕ, ◌+◌, ◌<◌, ◌≤◌, List, ◌++◌, take, length, vec_len, IfSome, IfOk, OnOk, OnErr, IsErrOf};
ghost use Rattle.std.specs.Io.KnownBytes.{Appends, Consumes, IsAtEnd};
ghost use Rattle.iolb_host.specs.Chunks.{TakesAtMost};

use crate::{FileFault, SinkFault};
use std::alloc::Global;
use std::io::{Read, Write};

const CHUNK: usize = 8192;

/// Reads a source to its end, which gives at most `most` bytes. It takes no more than one byte past them, and at least
/// one byte at each turn. An interrupted read is a failed one.
pub(crate) fn read_whole<S: Read>(
    alloc: Global,
    source: &mut S,
    most: u64,
) -> Result<Vec<u8>, FileFault>
    ensures whole { IfOk result (λ bytes.
        IfSome (S.remaining source.old) (λ rest. bytes.items ≡ rest)) }
    ensures within { IfOk result (λ bytes. length bytes.items ≤ most) }
    ensures too_long { IsErrOf result FileFault.TooLong →
        IfSome (S.remaining source.old) (λ rest. most < length rest) }
    ensures never_missing { ¬ IsErrOf result FileFault.Missing }
    // Whatever comes of it, no more is taken than is needed to see that the source is too long.
    ensures stops { TakesAtMost (most + 1) (S.remaining source.old) (S.remaining source.new) }
{
    let mut bytes = Vec::new(alloc);
    while bytes.len() as u64 <= most {
        let spare = most - bytes.len() as u64;
        if read_chunk(source, &mut bytes, spare)? == 0 {
            return Ok(bytes);
        }
    }
    Err(FileFault::TooLong)
}

// One read of at most `spare` bytes and one, which are put behind those that were read before.
fn read_chunk<S: Read>(source: &mut S, bytes: &mut Vec<u8>, spare: u64) -> Result<usize, FileFault>
    ensures grows { IfOk result (λ count. vec_len bytes.new ≡ vec_len bytes.old + count) }
    ensures stops { TakesAtMost (spare + 1) (S.remaining source.old) (S.remaining source.new) }
    ensures taken { OnOk result ((chunk : List ℕ) × (bytes.new.items ≡ bytes.old.items ++ chunk)
        × (length chunk ≤ spare + 1) × Consumes (S.remaining source.old) (S.remaining source.new) chunk) }
    ensures end { IfOk result (λ count. count ≡ 0 → IsAtEnd (S.remaining source.new)) }
    ensures never_missing { ¬ IsErrOf result FileFault.Missing }
    ensures never_long { ¬ IsErrOf result FileFault.TooLong }
{
    let mut chunk = [0u8; CHUNK];
    let room = if spare < CHUNK as u64 {
        spare as usize + 1
    } else {
        CHUNK
    };
    match source.read(&mut chunk[..room]) {
        Ok(count) => {
            bytes.extend_from_slice(&chunk[..count])?;
            Ok(count)
        }
        Err(_) => Err(FileFault::Failed),
    }
}

/// Writes the whole piece, at least one byte at each turn. A write that takes nothing and an interrupted one are failed ones.
pub(crate) fn write_whole<W: Write>(stream: &mut W, piece: &[u8]) -> Result<(), SinkFault>
    ensures ok { OnOk result (Appends (W.contents stream.old) (W.contents stream.new) piece.now) }
    ensures failed { OnErr result ((count : ℕ)
        × Appends (W.contents stream.old) (W.contents stream.new) (take count piece.now)) }
    ensures never_memory { ¬ IsErrOf result SinkFault.Memory }
{
    let mut rest = piece;
    while !rest.is_empty() {
        match stream.write(rest) {
            Err(_) => return Err(SinkFault::Failed),
            Ok(0) => return Err(SinkFault::Failed),
            Ok(count) => rest = &rest[count..],
        }
    }
    Ok(())
}
