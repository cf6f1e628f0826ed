//! Files that a map in memory holds.
ghost use Rattle.std.specs.Prelude.{◌≤◌, length, IsOkAnd, IsSomeAnd, IfOk, IsErrOf};
ghost use Rattle.iolb_host.specs.Files.{content_of, Answers};
ghost use Rattle.iolb_host.specs.MemFiles.{files_of};

use crate::FileFault;
use std::alloc::Global;
use std::collections::BTreeMap;

/// The bytes of the file of this name, copied.
pub(crate) fn copy_of(
    alloc: Global,
    files: &BTreeMap<String, Vec<u8>>,
    name: &str,
    most: u64,
) -> Result<Vec<u8>, FileFault>
    ensures answers { Answers (content_of (files_of files.now) name.now) most result }
    ensures never_fails { ¬ IsErrOf result FileFault.Failed }
    // Memory is wanted for a copy alone.
    ensures memory { IsErrOf result FileFault.Memory →
        IsSomeAnd (content_of (files_of files.now) name.now) (λ bytes. length bytes ≤ most) }
{
    match files.get(name) {
        None => Err(FileFault::Missing),
        Some(bytes) => {
            if bytes.len() as u64 > most {
                Err(FileFault::TooLong)
            } else {
                Ok(Vec::from_slice(alloc, bytes)?)
            }
        }
    }
}
