//! Why a run is refused before its text is looked at: the status it ends with and the line it writes.
ghost use Rattle.std.specs.Prelude.{◌≡◌};

use crate::status::Status;

/// Why a run is refused.
#[derive(Clone, Copy, Debug, PartialEq, Eq)]
pub enum Refusal {
    /// The words after the program's name are not accepted.
    Usage,
    /// The source failed.
    ReadFault,
    /// The source has more bytes than are read.
    TooLong,
}

impl Refusal {
    ghost use Rattle.hm_run.specs.Endings.{status_of, line_of};
    ghost use Rattle.hm_run.specs.Statuses.{code_of};

    /// The status that the program ends with, unless the sink fails.
    pub fn status(self) -> Status
        ensures { code_of result ≡ status_of self }
    {
        match self {
            Refusal::Usage => Status::Usage,
            Refusal::ReadFault => Status::ReadFault,
            Refusal::TooLong => Status::TooLong,
        }
    }

    /// The line, with its line feed.
    pub fn line(self) -> &'static [u8]
        ensures { result.now ≡ line_of self }
    {
        match self {
            Refusal::Usage => b"fault: usage\n",
            Refusal::ReadFault => b"fault: read\n",
            Refusal::TooLong => b"fault: too long\n",
        }
    }
}
