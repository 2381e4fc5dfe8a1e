//! The statuses that a run ends with, each with the number that the system is handed.
ghost use Rattle.std.specs.Prelude.{◌≡◌};

/// How a run ends.
#[derive(Clone, Copy, Debug, PartialEq, Eq)]
pub enum Status {
    /// The trace was run, and no answer is a finding; or the text is a journal of legal and drawn histories.
    Clean,
    /// The trace was run, and an answer is a finding; or the text is no such journal.
    Finding,
    /// The words after the program's name are not accepted.
    Usage,
    /// The bytes are no trace.
    NoTrace,
    /// The source failed.
    ReadFault,
    /// The sink failed.
    WriteFault,
    /// There was no memory.
    NoMemory,
    /// The source has more bytes than are read.
    TooLong,
    /// The words could not be taken from the system.
    NoWords,
}

impl Status {
    ghost use Rattle.hm_run.specs.Statuses.{code_of};

    /// The exit status that the system is handed: the number, from 0 to 7 or 9, that the table of statuses in README.md
    /// has for it.
    pub fn code(self) -> u8
        ensures { result ≡ code_of self }
    {
        match self {
            Status::Clean => 0,
            Status::Finding => 1,
            Status::Usage => 2,
            Status::NoTrace => 3,
            Status::ReadFault => 4,
            Status::WriteFault => 5,
            Status::NoMemory => 6,
            Status::TooLong => 7,
            Status::NoWords => 9,
        }
    }
}
