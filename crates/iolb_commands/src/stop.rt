//! Why the program stops.

ghost use Rattle.std.specs.Prelude.{◌≡◌};
ghost use Rattle.iolb_commands.specs.Stop.{file_status, stop_status};

use crate::status::Status;
use affine_c::ProgramFault;
use claims::FailedCondition;
use iolb_cert::CertFault;
use iolb_host::FileFault;
use memory_levels::TowerIllegal;
use tile_sched::{SchedFault, Unplayed};

/// A fault of a text other than the program's.
#[derive(Debug, Drop)]
pub enum OtherFault {
    Certificate(CertFault),
    Schedule(SchedFault),
    /// The first line that is none of a move begins at this byte.
    Moves(u64),
    Stores(CertFault),
}

/// Why what was read isn't answered.
#[derive(Debug, Drop)]
pub enum Refusal {
    /// The certificate fails a condition.
    Condition(FailedCondition),
    /// The stores fail a condition.
    StoresCondition(FailedCondition),
    /// The assumption of this number is false at the sizes.
    Assumption(u16),
    /// The schedule can't be played.
    Unplayed(Unplayed),
    /// The computation graph is out of reach.
    TooMany,
    /// The move on this line, counted from 1, is the first that isn't allowed.
    Illegal { line: u64, illegal: TowerIllegal },
    /// The play leaves this instance unfinished, the first such.
    NotComplete(u32),
}

/// Why a call of the program stops before it is done.
#[derive(Debug, Drop)]
pub enum Stop {
    /// The words of the command line ask for nothing that the program does, or don't name the program's parameters.
    Words,
    /// The file at this place of the words wasn't read.
    File { place: usize, fault: FileFault },
    /// The program's text has a fault.
    ProgramText(ProgramFault),
    /// Another text has a fault.
    OtherText(OtherFault),
    /// What was read isn't answered.
    Refused(Refusal),
    /// A value is beyond 128 bits.
    Wide,
    /// There was no memory.
    Memory,
}

/// The status of a file that wasn't read.
fn status_of_file(fault: FileFault) -> Status
    ensures { result ≡ file_status fault }
{
    match fault {
        FileFault::Missing | FileFault::TooLong => Status::FileAbsent,
        FileFault::Failed => Status::ReadFault,
        FileFault::Memory => Status::NoMemory,
    }
}

impl Stop {
    /// The status that the program ends with.
    pub fn status(&self) -> Status
        ensures { result ≡ stop_status self.now }
    {
        match self {
            Stop::Words => Status::Words,
            Stop::File { fault, .. } => status_of_file(*fault),
            Stop::ProgramText(_) => Status::ProgramText,
            Stop::OtherText(_) => Status::OtherText,
            Stop::Refused(_) => Status::Refused,
            Stop::Wide => Status::Wide,
            Stop::Memory => Status::NoMemory,
        }
    }
}
