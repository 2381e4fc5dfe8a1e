//! What the histories of whole runs come to, line by line, over pages in memory.

use crate::test_runs::{run_plain, text_of};
use hm_fakes::VecSink;
use std::alloc::Global;
use std::sync::Wait;
use std::test::Fail;
use std::thread::Threads;

// The statistics of a text, and the status of its run.
fn stats_of<R: Threads + Wait + Sync>(
    rt: &R,
    alloc: Global,
    text: &[u8],
) -> Result<(Vec<u8>, u8), Fail> {
    let mut sink = VecSink::build(alloc, 65_536, 999, Vec::new(alloc))?;
    let run = run_plain(rt, alloc, "stats", text, &mut sink)?;
    Ok((sink.held, run.status))
}

#[test]
fn stats_of_one_block(rt: HostRuntime) -> Result<(), Fail> {
    let alloc = rt.alloc();
    let text = text_of(alloc, "malloc x 100\nfree x\n")?;
    let (stats, status) = stats_of(&rt, alloc, text.as_bytes())?;
    assert_eq!(rt; status, 0);
    let wanted: &[u8] = b"stats: entries 2 given 1 freed 1 findings 0 refused 0 bytes 104\n\
thread 1 entries 2 given 1 freed 1 findings 0 refused 0 bytes 104\n\
region 7 entries 2 live 0 peak 1\n";
    assert_eq!(rt; stats.as_slice(), wanted);
    Ok(())
}

/// Two threads free the block that a round before has given: one of them frees it, the other's is a double free.
#[test]
fn stats_of_a_race(rt: HostRuntime) -> Result<(), Fail> {
    let alloc = rt.alloc();
    let text =
        b"hmtrace 1\nround\nthread 1\nmalloc x 100\nround\nthread 1\nfree x\nthread 2\nfree x\nend\n";
    let (stats, status) = stats_of(&rt, alloc, text)?;
    assert_eq!(rt; status, 1);
    let mut lines = stats.split(|byte| *byte == b'\n');
    let first: &[u8] = b"stats: entries 3 given 1 freed 1 findings 1 refused 0 bytes 104";
    assert_eq!(rt; lines.next(), Some(first));
    assert!(rt;
        lines
            .next()
            .is_some_and(|line| line.starts_with(b"thread 1 entries 2 "))
    );
    assert!(rt;
        lines
            .next()
            .is_some_and(|line| line.starts_with(b"thread 2 entries 1 "))
    );
    let last: &[u8] = b"region 7 entries 3 live 0 peak 1";
    assert_eq!(rt; lines.next(), Some(last));
    let none: &[u8] = b"";
    assert_eq!(rt; lines.next(), Some(none));
    assert_eq!(rt; lines.next(), None);
    Ok(())
}
