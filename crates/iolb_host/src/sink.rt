//! Sinks as the program sees them.
ghost use Rattle.std.specs.Prelude.{◌≡◌, ℕ, List, Option, OnOk, IsErrOf};
ghost use Rattle.iolb_host.specs.declared.sink.SinkFault.TheVariants.{Memory};
ghost use Rattle.iolb_host.specs.Sink.{AppendsPiece, AppendsPart, after_want, after_write};

use std::alloc::AllocError;

/// Why a piece was not written.
#[derive(Clone, Copy, Debug, PartialEq, Eq)]
pub enum SinkFault {
    /// The write failed. The first bytes of the piece may have been written.
    Failed,
    /// The memory for the piece was refused. Nothing of it was written.
    Memory,
}

impl From<AllocError> for SinkFault {
    ghost from_gives = { λ _ fault. fault ≡ Memory };

    fn from(_: AllocError) -> Self {
        SinkFault::Memory
    }
}

/// Where bytes are written, piece after piece.
pub trait Sink {
    /// The bytes written so far, where they are told.
    ghost written: { Self → Option (List ℕ) };

    /// How often a write failed.
    ghost faults: { Self → ℕ };

    /// How often memory was wanted for a write.
    ghost wants: { Self → ℕ };

    /// Writes the piece behind what was written before.
    fn put(&mut self, bytes: &[u8]) -> Result<(), SinkFault>
        // A count rises where it is for this answer, and stays else.
        ensures faults { faults self.new ≡ after_write (faults self.old) result }
        ensures wants { wants self.new ≡ after_want (wants self.old) result }

        ensures ok { OnOk result (AppendsPiece (written self.old) (written self.new) bytes.now) }
        ensures failed { IsErrOf result SinkFault.Failed →
            AppendsPart (written self.old) (written self.new) bytes.now }
        ensures memory { IsErrOf result SinkFault.Memory → written self.new ≡ written self.old };
}
