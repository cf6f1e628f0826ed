//! The status that the program ends with.

ghost use Rattle.std.specs.Prelude.{◌≤◌};

/// How a call of the program ended.
#[derive(Clone, Copy, Debug, PartialEq, Eq)]
pub enum Status {
    /// What was asked is answered.
    Done,
    /// Something was found wrong, and was told.
    Wrong,
    /// The words of the command line ask for nothing that the program does.
    Words,
    /// A file wasn't read, a write failed, or there was no memory.
    Failed,
}

impl Status {
    /// The status's number.
    pub fn number(self) -> u8
        ensures { result ≤ 3 }
    {
        match self {
            Status::Done => 0,
            Status::Wrong => 1,
            Status::Words => 2,
            Status::Failed => 3,
        }
    }
}
