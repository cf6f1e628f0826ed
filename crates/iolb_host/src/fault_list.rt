//! The faults of reads so far.
ghost use Rattle.std.specs.Prelude.{◌≡◌, ◌⊎◌, IsErrOf};
ghost use Rattle.iolb_host.specs.Faults.{after_read, faults_in};

use crate::FileFault;
use std::alloc::Global;

/// Puts the fault of a read of the file of this name behind the earlier ones, if it has one, and hands its outcome on. Where
/// there is no memory for the name, that is the outcome.
pub(crate) fn noted(
    alloc: Global,
    faults: &mut Vec<(String, FileFault)>,
    name: &str,
    outcome: Result<Vec<u8>, FileFault>,
) -> Result<Vec<u8>, FileFault>
    ensures same { (result ≡ outcome) ⊎ (IsErrOf result FileFault.Memory) }
    ensures noted { faults_in faults.new.items ≡ after_read (faults_in faults.old.items) name.now result }
{
    let fault = match outcome {
        Ok(bytes) => return Ok(bytes),
        Err(FileFault::Memory) => return Err(FileFault::Memory),
        Err(fault) => fault,
    };
    let name = name.to_string(alloc)?;
    match faults.push((name, fault)) {
        Ok(()) => Err(fault),
        Err(_) => Err(FileFault::Memory),
    }
}
