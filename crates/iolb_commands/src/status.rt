//! The status that the program ends with.

ghost use Rattle.std.specs.Prelude.{◌≡◌};
ghost use Rattle.iolb_commands.specs.Status.{status_number};

/// How a call of the program ended.
#[derive(Clone, Copy, Debug, PartialEq, Eq)]
pub enum Status {
    /// The job is done, and all was written.
    Done,
    /// The certificate or the stores fail a condition, the schedule or the moves can't be played, or an assumption is false.
    Refused,
    /// The words of the command line ask for nothing that the program does.
    Words,
    /// The program's text has a fault.
    ProgramText,
    /// The text of the certificate, the schedule, the moves or the stores has a fault.
    OtherText,
    /// A file is missing or too long.
    FileAbsent,
    /// A file was not read.
    ReadFault,
    /// A write failed.
    WriteFault,
    /// A value is beyond 128 bits.
    Wide,
    /// There was no memory.
    NoMemory,
}

impl Status {
    /// The status's number, from 0 to 9.
    pub fn number(self) -> u8
        ensures { result ≡ status_number self }
    {
        match self {
            Status::Done => 0,
            Status::Refused => 1,
            Status::Words => 2,
            Status::ProgramText => 3,
            Status::OtherText => 4,
            Status::FileAbsent => 5,
            Status::ReadFault => 6,
            Status::WriteFault => 7,
            Status::Wide => 8,
            Status::NoMemory => 9,
        }
    }
}
