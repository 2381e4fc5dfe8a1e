//! Journals of whole runs: how many lines they have and where a region begins, and the lines of one region, byte for
//! byte, over pages in memory.

use crate::test_runs::{run_plain, text_of};
use hm_fakes::VecSink;
use std::alloc::Global;
use std::sync::Wait;
use std::test::Fail;
use std::thread::Threads;

// The journal of a text, and its status.
fn journal_of<R: Threads + Wait + Sync>(
    rt: &R,
    alloc: Global,
    text: &[u8],
) -> Result<(Vec<u8>, u8), Fail> {
    let mut sink = VecSink::build(alloc, 65_536, 999, Vec::new(alloc))?;
    let run = run_plain(rt, alloc, "journal", text, &mut sink)?;
    Ok((sink.held, run.status))
}

// How many lines there are, and which one begins region 7, counted from 0.
fn lines_of(journal: &[u8]) -> (usize, Option<usize>) {
    let lines = journal.iter().filter(|byte| **byte == b'\n').count();
    let position = journal
        .split(|byte| *byte == b'\n')
        .position(|line| line.starts_with(b"region 7 "));
    (lines, position)
}

#[test]
fn journals(rt: HostRuntime) -> Result<(), Fail> {
    let alloc = rt.alloc();
    let (none, status) = journal_of(&rt, alloc, b"hmtrace 1\nend\n")?;
    assert_eq!(rt; status, 0);
    assert_eq!(rt; lines_of(&none), (398, Some(17)));
    let text = text_of(alloc, "malloc x 100\nfree x\n")?;
    let (one, status) = journal_of(&rt, alloc, text.as_bytes())?;
    assert_eq!(rt; status, 0);
    assert_eq!(rt; lines_of(&one), (400, Some(17)));
    Ok(())
}

/// Region 7 of the journal of a double free: the gap, the canary, slot 24 and the array's index are those of the words
/// that ChaCha8 gives of seed 0 in stream 7.
const DOUBLE_FREE: &[u8] = b"\nregion 7 1592101122048 4\n\
1 1 1 1 1 0 0 3 3231088256 3392945114 2935142444 14572588304984079872 0 - - - - - allot 100 1 : 1 1592101124736 104\n\
1 1 1 2 1 0 0 1 2409532924 0 0 - - - - - - - giveback 1592101124736 - : 7\n\
1 1 1 3 1 0 0 0 0 0 0 - - - - - - - giveback 1592101124736 - : 10\n\
1 1 1 4 1 0 0 0 0 0 0 - - - - - - - measure 1592101124736 : 10\n\
closed 0\nregion 8 ";

#[test]
fn journal_of_a_double_free(rt: HostRuntime) -> Result<(), Fail> {
    let alloc = rt.alloc();
    let text = text_of(alloc, "malloc x 100\nfree x\nfree x\nsize x\n")?;
    let (journal, status) = journal_of(&rt, alloc, text.as_bytes())?;
    assert_eq!(rt; status, 1);
    assert!(rt;
        journal
            .windows(DOUBLE_FREE.len())
            .any(|window| window == DOUBLE_FREE)
    );
    Ok(())
}
