//! The files of the system.
ghost use Rattle.std.specs.Prelude.{◌≡◌, ◌≤◌, ◌<◌, ◌↔◌, [], length, None, IfSome, IfOk, IfErr, IsErrOf, IsOkAnd, IsErrAnd};
ghost use Rattle.std.specs.IoError.{error_kind};

use crate::chunks::read_whole;
use crate::fault_list::noted;
use crate::{FileFault, Files};
use std::alloc::Global;
use std::io::{ErrorKind, Read};
use std::{fs, io, rt};

/// The files of the system. They tell no bytes.
#[derive(Drop)]
pub struct StdFiles<'a, R> {
    rt: &'a R,
    faults: Vec<(String, FileFault)>,
}

impl<'a, R: rt::Files + AllocGlobal> StdFiles<'a, R> {
    /// The files that a runtime reaches.
    pub fn new(rt: &'a R) -> Self
        ensures told { ⟦<StdFiles<'a, R> as Files>⟧.told result ≡ None }
        ensures faults { ⟦<StdFiles<'a, R> as Files>⟧.faults result ≡ [] }
    {
        StdFiles {
            rt,
            faults: Vec::new(rt.alloc()),
        }
    }
}

impl<R: rt::Files + AllocGlobal> Files for StdFiles<'_, R> {
    ghost use Rattle.iolb_host.specs.Faults.{after_read};
    ghost use Rattle.iolb_host.specs.StdFiles.{faults_of};

    ghost told = { λ _. None };

    ghost faults = { λ store. faults_of store };

    fn read(&mut self, name: &str, most: u64) -> Result<Vec<u8>, FileFault>
        ensures faults { faults_of self.new ≡ after_read (faults_of self.old) name.now result }
        ensures within { IfOk result (λ bytes. length bytes.items ≤ most) }

        // Where it is known what an open file has left, the bytes are those of a file, whole, and a file that is too long
        // has more than `most`.
        ensures whole { IfOk result (λ bytes. (file : R.File)
            × IfSome (R.File.remaining file) (λ rest. bytes.items ≡ rest)) }
        ensures too_long { IsErrOf result FileFault.TooLong → (file : R.File)
            × IfSome (R.File.remaining file) (λ rest. most < length rest) }
    {
        let alloc = self.rt.alloc();
        let outcome = bytes_of(alloc, fs::open(self.rt, name), most);
        noted(alloc, &mut self.faults, name, outcome)
    }
}

/// The bytes of a file, at most `most`, by what opening it gave.
fn bytes_of<S: Read + Drop>(
    alloc: Global,
    opened: io::Result<S>,
    most: u64,
) -> Result<Vec<u8>, FileFault>
    ensures within { IfOk result (λ bytes. length bytes.items ≤ most) }
    ensures whole { IfOk result (λ bytes. IsOkAnd opened (λ file.
        IfSome (S.remaining file) (λ rest. bytes.items ≡ rest))) }
    ensures too_long { IsErrOf result FileFault.TooLong → IsOkAnd opened (λ file.
        IfSome (S.remaining file) (λ rest. most < length rest)) }
    ensures missing { IsErrOf result FileFault.Missing
        ↔ IsErrAnd opened (λ error. error_kind error ≡ ErrorKind.NotFound) }
{
    match opened {
        Ok(mut file) => read_whole(alloc, &mut file, most),
        Err(error) if error.kind() == ErrorKind::NotFound => Err(FileFault::Missing),
        Err(_) => Err(FileFault::Failed),
    }
}
