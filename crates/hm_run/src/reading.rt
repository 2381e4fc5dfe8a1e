//! Reading a source to its end, in pieces, up to a limit.
ghost use Rattle.std.specs.Prelude.{◌≡◌, ◌≤◌, length, IfOk, IsErrOf};
ghost use Rattle.hm_run.specs.declared.reading.ReadStop.{ReadStop};
ghost use Rattle.hm_run.specs.Streams.{MetFault, IsSound, IsReadToEnd, IsTakenPast, IsTakenWithin, source_of};
ghost use Rattle.hm_run.specs.Limits.{most_bytes, most_taken, most_piece};

use hm_outside::{Source, SourceFault};
use std::alloc::{AllocError, Global};

/// The most bytes that are read.
const LIMIT: usize = 67_108_864;

/// The most bytes of a piece.
const PIECE: usize = 65_536;

/// Why a source was not read to its end.
#[derive(Clone, Copy, Debug, PartialEq, Eq)]
pub enum ReadStop {
    /// There was no memory for the bytes.
    NoMemory,
    /// The source failed.
    Fault,
    /// The source has more bytes than are read.
    TooLong,
}

impl From<AllocError> for ReadStop {
    ghost from_gives = { λ _ e. e ≡ ReadStop.NoMemory };

    fn from(_error: AllocError) -> ReadStop {
        ReadStop::NoMemory
    }
}

impl From<SourceFault> for ReadStop {
    ghost from_gives = { λ _ e. e ≡ ReadStop.Fault };

    fn from(_fault: SourceFault) -> ReadStop {
        ReadStop::Fault
    }
}

/// All bytes of the source. Each turn but the last takes at least one byte, and at most one byte past
/// the limit is taken.
pub fn read_all<S: Source>(alloc: Global, source: &mut S) -> Result<Vec<u8>, ReadStop>
    ensures whole { IfOk result (λ v. IsReadToEnd (source_of S.Source source.old source.new) v.items) }
    ensures within { IfOk result (λ v. length v.items ≤ most_bytes) }
    ensures sound { IfOk result (λ _. IsSound (source_of S.Source source.old source.new)) }
    ensures memory { IsErrOf result ReadStop.NoMemory → IsSound (source_of S.Source source.old source.new) }
    ensures fault { IsErrOf result ReadStop.Fault → MetFault (source_of S.Source source.old source.new) }
    ensures before_fault { IsErrOf result ReadStop.Fault
        → IsTakenWithin most_bytes (source_of S.Source source.old source.new) }
    ensures bound { IsTakenWithin most_taken (source_of S.Source source.old source.new) }
    ensures long { IsErrOf result ReadStop.TooLong
        → IsTakenPast most_bytes (source_of S.Source source.old source.new) }
    ensures sound_long { IsErrOf result ReadStop.TooLong → IsSound (source_of S.Source source.old source.new) }
{
    let mut piece = vec![in alloc; 0u8; PIECE]?;
    read_by(alloc, source, &mut piece)
}

// All bytes of the source, each piece of them by way of a buffer.
fn read_by<S: Source>(alloc: Global, source: &mut S, piece: &mut [u8]) -> Result<Vec<u8>, ReadStop>
    requires { length piece.old ≡ most_piece }
    ensures whole { IfOk result (λ v. IsReadToEnd (source_of S.Source source.old source.new) v.items) }
    ensures within { IfOk result (λ v. length v.items ≤ most_bytes) }
    ensures sound { IfOk result (λ _. IsSound (source_of S.Source source.old source.new)) }
    ensures memory { IsErrOf result ReadStop.NoMemory → IsSound (source_of S.Source source.old source.new) }
    ensures fault { IsErrOf result ReadStop.Fault → MetFault (source_of S.Source source.old source.new) }
    ensures before_fault { IsErrOf result ReadStop.Fault
        → IsTakenWithin most_bytes (source_of S.Source source.old source.new) }
    ensures bound { IsTakenWithin most_taken (source_of S.Source source.old source.new) }
    ensures long { IsErrOf result ReadStop.TooLong
        → IsTakenPast most_bytes (source_of S.Source source.old source.new) }
    ensures sound_long { IsErrOf result ReadStop.TooLong → IsSound (source_of S.Source source.old source.new) }
{
    let mut bytes = Vec::new(alloc);
    'turns: while bytes.len() <= LIMIT {
        let room = (LIMIT + 1 - bytes.len()).min(PIECE);
        match source.take(&mut piece[..room])? {
            0 => return Ok(bytes),
            count => bytes.extend_from_slice(&piece[..count])?,
        }
    }
    Err(ReadStop::TooLong)
}
