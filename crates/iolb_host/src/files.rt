//! Files as the program sees them.
ghost use Rattle.std.specs.Prelude.{◌≡◌, ◌≤◌, List, length, Option, IfSome, IfOk};
ghost use Rattle.iolb_host.specs.declared.files.FileFault.TheVariants.{Memory};
ghost use Rattle.iolb_host.specs.Faults.{NamedFault, after_read};
ghost use Rattle.iolb_host.specs.Files.{FileMap, content_of, Answers};

use std::alloc::AllocError;

/// Why a read gave no bytes.
#[derive(Clone, Copy, Debug, PartialEq, Eq)]
pub enum FileFault {
    /// There is no file of this name.
    Missing,
    /// The file has more bytes than were asked for.
    TooLong,
    /// The file could not be read.
    Failed,
    /// The memory for the bytes was refused.
    Memory,
}

impl From<AllocError> for FileFault {
    ghost from_gives = { λ _ fault. fault ≡ Memory };

    fn from(_: AllocError) -> Self {
        FileFault::Memory
    }
}

/// Named files, whose bytes are read whole.
pub trait Files {
    /// The files by their names, where that is told.
    ghost told: { Self → Option FileMap };

    /// The faults of reads so far, each with the name of its file.
    ghost faults: { Self → List NamedFault };

    /// Reads the file of this name, of at most `most` bytes.
    fn read(&mut self, name: &str, most: u64) -> Result<Vec<u8>, FileFault>
        ensures told_stays { told self.new ≡ told self.old }
        ensures faults { faults self.new ≡ after_read (faults self.old) name.now result }
        ensures within { IfOk result (λ bytes. length bytes.items ≤ most) }
        ensures answers { IfSome (told self.old) (λ files.
            Answers (content_of files name.now) most result) };
}
