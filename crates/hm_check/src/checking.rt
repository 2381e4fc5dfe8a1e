//! The verdict on a text, which is read line by line.
ghost use Rattle.std.specs.Prelude.{IfOk};
ghost use Rattle.hm_check.specs.Verdicts.{IsVerdict};

use crate::lines::first_line;
use crate::progress::Progress;
use crate::verdict::Verdict;
use hm_base::NoMemory;
use std::alloc::Global;

/// Whether a text is a journal of legal and drawn histories of all regions, or which line is at fault first and why.
pub fn check_journal(alloc: Global, bytes: &[u8]) -> Result<Verdict, NoMemory>
    ensures { IfOk result (IsVerdict bytes.now) }
{
    let mut progress = Progress::start();
    let mut number = 1u64;
    let mut rest = bytes;
    'lines: while let Some((line, after)) = first_line(rest) {
        if let Some(fault) = progress.line(alloc, line)? {
            return Ok(Verdict::No {
                line: number,
                fault,
            });
        }
        number += 1;
        rest = after;
    }
    Ok(progress.end(rest, number))
}
