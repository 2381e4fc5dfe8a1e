//! Long runs with ample memory: texts of more than 20 mebibytes, thousands of changes of large blocks in one round, and
//! thousands of scripts. A want of memory that nothing caused would meet every clause, so only a run shows that there is
//! none.

use crate::check_tests::checked;
use crate::test_runs::run_plain;
use hm_fakes::VecSink;
use std::alloc::{AllocError, Global};
use std::fmt::Write;
use std::sync::Wait;
use std::test::Fail;
use std::thread::Threads;

/// How many bytes each long text passes.
const LONG: usize = 20_971_520;

// What the run of a text writes, and its status.
fn written<R: Threads + Wait + Sync>(
    rt: &R,
    alloc: Global,
    asked: &str,
    text: &[u8],
) -> Result<(Vec<u8>, u8), Fail> {
    let mut sink = VecSink::build(alloc, 33_554_432, 65_536, Vec::new(alloc))?;
    let run = run_plain(rt, alloc, asked, text, &mut sink)?;
    Ok((sink.held, run.status))
}

/// A step of 109 bytes, which is skipped, since its name is not set.
const SKIPPED: &str =
    "realloc abcdefghijklmnopqrstuvwxyz_12345 abcdefghijklmnopqrstuvwxyz_12345+1099511627776 \
18446744073709551615\n";

// As many such steps as a trace of version 1 may have, and their report.
fn most_steps(alloc: Global) -> Result<(String, String), AllocError> {
    let mut text = String::from_str(alloc, "hmtrace 1\nround\nthread 1\n")?;
    let mut report = String::new(alloc);
    for step in 1..200_001 {
        text.push_str(SKIPPED)?;
        writeln!(report, "1.1.{step} skipped")?;
    }
    text.push_str("end\n")?;
    Ok((text, report))
}

#[test]
fn long_trace(rt: HostRuntime) -> Result<(), Fail> {
    let alloc = rt.alloc();
    let (text, report) = most_steps(alloc)?;
    assert!(rt; text.len() > LONG);
    let (written, status) = written(&rt, alloc, "run", text.as_bytes())?;
    assert_eq!(rt; status, 0);
    assert!(rt; written.as_slice() == report.as_bytes());
    Ok(())
}

// Every second byte of 3,000 is written, and all are read 1,400 times: each read has 3,000 runs of one byte.
fn many_runs(alloc: Global) -> Result<String, AllocError> {
    let mut text = String::from_str(alloc, "hmtrace 1\nround\nthread 1\nmalloc b 3000\n")?;
    for pair in 0..1500u32 {
        writeln!(text, "write b+{} 1 41", 2 * pair + 1)?;
    }
    for _ in 0..1400 {
        text.push_str("read b 3000\n")?;
    }
    text.push_str("end\n")?;
    Ok(text)
}

#[test]
fn check_of_a_long_journal(rt: HostRuntime) -> Result<(), Fail> {
    let alloc = rt.alloc();
    let text = many_runs(alloc)?;
    let (journal, status) = written(&rt, alloc, "journal", text.as_bytes())?;
    assert_eq!(rt; status, 0);
    assert!(rt; journal.len() > LONG);
    let (verdict, status) = checked(&rt, alloc, &journal)?;
    assert_eq!(rt; verdict.as_slice(), b"check: yes 2901 entries\n".as_slice());
    assert_eq!(rt; status, 0);
    Ok(())
}

// In the first round 1,500 large blocks of 4,096 bytes are given and 500 of them freed, in the second the others.
fn many_changes(alloc: Global) -> Result<String, AllocError> {
    let mut text = String::from_str(alloc, "hmtrace 1\nround\nthread 1\n")?;
    for block in 0..1500 {
        writeln!(text, "aligned y{block} 8192 1")?;
    }
    for block in 0..500 {
        writeln!(text, "free y{block}")?;
    }
    text.push_str("round\nthread 1\n")?;
    for block in 500..1500 {
        writeln!(text, "free y{block}")?;
    }
    text.push_str("end\n")?;
    Ok(text)
}

#[test]
fn many_changes_in_one_round(rt: HostRuntime) -> Result<(), Fail> {
    let alloc = rt.alloc();
    let text = many_changes(alloc)?;
    let (sums, status) = written(&rt, alloc, "watch", text.as_bytes())?;
    let wanted: &[u8] = b"round 1 large 4096000\nround 2 large 0\n";
    assert_eq!(rt; sums.as_slice(), wanted);
    assert_eq!(rt; status, 0);
    Ok(())
}

// A round of 64 threads, each of which allots a block and frees it, and its report.
fn push_round(text: &mut String, report: &mut String, round: u8) -> Result<(), AllocError> {
    text.push_str("round\n")?;
    for thread in 1..65 {
        write!(
            text,
            "thread {thread}\nmalloc t{thread} 100\nfree t{thread}\n"
        )?;
        write!(
            report,
            "{round}.{thread}.1 given 104\n{round}.{thread}.2 freed\n"
        )?;
    }
    Ok(())
}

// So many rounds of 64 scripts, and their report.
fn many_scripts(alloc: Global, rounds: u8) -> Result<(String, String), AllocError> {
    let mut text = String::from_str(alloc, "hmtrace 2\n")?;
    let mut report = String::new(alloc);
    for before in 0..rounds {
        push_round(&mut text, &mut report, before + 1)?;
    }
    text.push_str("end\n")?;
    Ok((text, report))
}

#[test]
fn two_thousand_scripts(rt: HostRuntime) -> Result<(), Fail> {
    let alloc = rt.alloc();
    let (text, report) = many_scripts(alloc, 32)?;
    let (told, status) = written(&rt, alloc, "run", text.as_bytes())?;
    assert_eq!(rt; status, 0);
    assert!(rt; told.as_slice() == report.as_bytes());
    let (journal, status) = written(&rt, alloc, "journal", text.as_bytes())?;
    assert_eq!(rt; status, 0);
    let (verdict, status) = checked(&rt, alloc, &journal)?;
    assert_eq!(rt; verdict.as_slice(), b"check: yes 4096 entries\n".as_slice());
    assert_eq!(rt; status, 0);
    Ok(())
}
