//! Checks of journals: those that runs write, those with one place changed, and how a check ends by its source and its
//! sink.

use crate::test_runs::{replay_plain, run_plain, source, text_of, words};
use hm_fakes::VecSink;
use std::alloc::Global;
use std::sync::Wait;
use std::test::Fail;
use std::thread::Threads;

// The journal of a text's run.
pub(crate) fn journal_of<R: Threads + Wait + Sync>(
    rt: &R,
    alloc: Global,
    asked: &str,
    text: &[u8],
) -> Result<Vec<u8>, Fail> {
    let mut sink = VecSink::build(alloc, 65_536, 65_536, Vec::new(alloc))?;
    let _ = run_plain(rt, alloc, asked, text, &mut sink)?;
    Ok(sink.held)
}

// What the check of a text writes, and its status; nothing may be closed.
pub(crate) fn checked<R: Threads + Wait + Sync>(
    rt: &R,
    alloc: Global,
    text: &[u8],
) -> Result<(Vec<u8>, u8), Fail> {
    let mut sink = VecSink::build(alloc, 999, 9, Vec::new(alloc))?;
    let run = run_plain(rt, alloc, "check", text, &mut sink)?;
    if run.closed.is_some() || run.results.is_some() {
        return Err(Fail::new("closed"));
    }
    Ok((sink.held, run.status))
}

// Adds a line, of which one word, counted from 1, is another one.
fn push_changed(out: &mut Vec<u8>, line: &[u8], word: usize, to: &str) -> Result<(), Fail> {
    for (index, old) in line.split(|byte| *byte == b' ').enumerate() {
        if index > 0 {
            out.push(b' ')?;
        }
        if Some(index) == word.checked_sub(1) {
            out.extend_from_slice(to.as_bytes())?;
        } else {
            out.extend_from_slice(old)?;
        }
    }
    Ok(())
}

// A text of which one word of one line, both counted from 1, is another one.
pub(crate) fn changed(
    alloc: Global,
    text: &[u8],
    line: usize,
    word: usize,
    to: &str,
) -> Result<Vec<u8>, Fail> {
    let mut out = Vec::new(alloc);
    for (index, old) in text.split(|byte| *byte == b'\n').enumerate() {
        if index > 0 {
            out.push(b'\n')?;
        }
        if Some(index) == line.checked_sub(1) {
            push_changed(&mut out, old, word, to)?;
        } else {
            out.extend_from_slice(old)?;
        }
    }
    Ok(out)
}

// Whether the check of a text writes this line, with the status that goes with it.
fn says<R: Threads + Wait + Sync>(
    rt: &R,
    alloc: Global,
    text: &[u8],
    line: &str,
) -> Result<bool, Fail> {
    let (written, status) = checked(rt, alloc, text)?;
    let wanted = if line.starts_with("check: yes") { 0 } else { 1 };
    Ok(written.as_slice() == line.as_bytes() && status == wanted)
}

#[test]
fn checks_of_journals(rt: HostRuntime) -> Result<(), Fail> {
    let alloc = rt.alloc();
    let none = journal_of(&rt, alloc, "journal", b"hmtrace 1\nend\n")?;
    assert!(rt; says(&rt, alloc, &none, "check: yes 0 entries\n")?);
    let text = text_of(alloc, "malloc x 100\nfree x\nmalloc y 200000\nfree y\n")?;
    let light = journal_of(
        &rt,
        alloc,
        "journal --config light --seed 7",
        text.as_bytes(),
    )?;
    assert!(rt; says(&rt, alloc, &light, "check: yes 4 entries\n")?);
    Ok(())
}

#[test]
fn checks_of_changed_journals(rt: HostRuntime) -> Result<(), Fail> {
    let alloc = rt.alloc();
    let text = text_of(alloc, "malloc x 100\nfree x\n")?;
    let journal = journal_of(&rt, alloc, "journal", text.as_bytes())?;
    assert!(rt; says(&rt, alloc, &journal, "check: yes 2 entries\n")?);
    let refused = changed(alloc, &journal, 20, 23, "10")?;
    assert!(rt; says(&rt, alloc, &refused, "check: no line 20 NotLegal\n")?);
    let undrawn = changed(alloc, &journal, 19, 9, "1")?;
    assert!(rt; says(&rt, alloc, &undrawn, "check: no line 19 NotDrawn\n")?);
    let cut = journal.split_last().ok_or("journal")?.1;
    assert!(rt; says(&rt, alloc, cut, "check: no line 400 BadText\n")?);
    assert!(rt; says(&rt, alloc, b"", "check: no line 1 BadText\n")?);
    Ok(())
}

/// The bytes of a source and the call of it that fails, or 0; the room of the sink and the most that it takes at a time;
/// what is written, and the status.
const ENDINGS: [(&[u8], u64, usize, usize, &[u8], u8); 5] = [
    (b"hmjournal 1\n", 0, 99, 3, b"check: no line 2 BadText\n", 1),
    (b"hmjournal 1\n", 2, 99, 99, b"fault: read\n", 4),
    (b"hmjournal 1\n", 0, 9, 5, b"check: no", 5),
    (b"hmjournal 1\n", 0, 99, 0, b"", 5),
    (b"hmjournal 1\n", 1, 6, 99, b"fault:", 5),
];

#[test]
fn endings_of_checks(rt: HostRuntime) -> Result<(), Fail> {
    let alloc = rt.alloc();
    let asked = words(alloc, "check")?;
    for (bytes, source_fails, room, piece, output, status) in ENDINGS {
        let mut source = source(alloc, bytes, 8, source_fails)?;
        let mut sink = VecSink::build(alloc, room, piece, Vec::new(alloc))?;
        let run = replay_plain(&rt, alloc, &asked, &mut source, &mut sink);
        assert_eq!(rt; sink.held.as_slice(), output);
        assert_eq!(rt; run.status, status);
        assert!(rt; run.closed.is_none());
    }
    Ok(())
}

#[test]
fn check_of_a_long_text(rt: HostRuntime) -> Result<(), Fail> {
    let alloc = rt.alloc();
    let bytes = vec![in alloc; 0x23u8; 67_108_865]?;
    let (written, status) = checked(&rt, alloc, &bytes)?;
    assert_eq!(rt; status, 7);
    assert_eq!(rt; written.as_slice(), b"fault: too long\n".as_slice());
    Ok(())
}
