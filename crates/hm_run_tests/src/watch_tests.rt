//! The sums of the sizes of large blocks after each round, over pages in memory.

use crate::test_runs::run_plain;
use hm_fakes::VecSink;
use std::alloc::Global;
use std::sync::Wait;
use std::test::Fail;
use std::thread::Threads;

/// Words, a text, what is written, and the status. The third text's blocks have 229376 and 327680 bytes; then the first
/// one is moved to one of 458752, one of 4096 is given beside it, and the second one freed.
const WATCHED: [(&str, &[u8], &[u8], u8); 5] = [
    (
        "watch",
        b"hmtrace 1\nround\nthread 1\nmalloc y 200000\nround\nthread 1\nfree y\nend\n",
        b"round 1 large 229376\nround 2 large 0\n",
        0,
    ),
    ("watch --seed 7", b"hmtrace 1\nend\n", b"", 0),
    (
        "watch --config light",
        b"hmtrace 2\nround\nthread 1\nmalloc a 200000\nmalloc s 100\nthread 2\ncalloc b 3 100000\n\
round\nnote no thread\n\
round\nthread 1\nrealloc a a 400000\naligned c 8192 1000\nthread 2\nfree b\nfree b\n\
round\nthread 1\nfree a\nfree s\nmalloc d 1073741825\nthread 2\nfree c\nend\n",
        b"round 1 large 557056\nround 2 large 557056\nround 3 large 462848\nround 4 large 0\n",
        1,
    ),
    (
        "watch",
        b"hmtrace 1\nround\nend",
        b"fault: trace line 3 NoEnd\n",
        3,
    ),
    ("watch 7", b"hmtrace 1\nend\n", b"fault: usage\n", 2),
];

// What a text's run writes, and its status.
fn watched<R: Threads + Wait + Sync>(
    rt: &R,
    alloc: Global,
    asked: &str,
    text: &[u8],
) -> Result<(Vec<u8>, u8), Fail> {
    let mut sink = VecSink::build(alloc, 65_536, 999, Vec::new(alloc))?;
    let run = run_plain(rt, alloc, asked, text, &mut sink)?;
    Ok((sink.held, run.status))
}

#[test]
fn sums_after_each_round(rt: HostRuntime) -> Result<(), Fail> {
    for (asked, text, lines, status) in WATCHED {
        let (written, ended) = watched(&rt, rt.alloc(), asked, text)?;
        assert_eq!(rt; written.as_slice(), lines);
        assert_eq!(rt; ended, status);
    }
    Ok(())
}
