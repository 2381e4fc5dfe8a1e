//! Texts that are traces, the first faults of texts that are none, and stress traces.
use crate::{
    FaultKind, Name, Place, ReadRefusal, Script, Step, Trace, TraceFault, read_trace, stress_trace,
    write_trace,
};
use std::alloc::{AllocError, Global};
use std::process::Abort;
use std::test::Fail;

/// Texts, each with its first fault.
const FAULTS: [(&str, u64, FaultKind); 53] = [
    ("", 1, FaultKind::NoEnd),
    ("hmtrace 1", 1, FaultKind::NoEnd),
    ("hmtrace 1\n", 2, FaultKind::NoEnd),
    ("hmtrace 1\nend", 2, FaultKind::NoEnd),
    ("hmtrace 1\nround\n\t", 3, FaultKind::NoEnd),
    ("hmtrace 1\nend\nx", 3, FaultKind::AfterEnd),
    ("hmtrace 1\nend\n\n", 3, FaultKind::AfterEnd),
    ("hmtrace 1\nend\nend\n", 3, FaultKind::AfterEnd),
    ("hmtrace 1\r\n", 1, FaultKind::NotAscii),
    ("hmtrace 1\nround\r\n", 2, FaultKind::NotAscii),
    ("hmtrace 1\n\u{e9}\n", 2, FaultKind::NotAscii),
    ("hmtrace 1\n\u{7f}\n", 2, FaultKind::NotAscii),
    ("hmtrace 1\nround\tx\n", 2, FaultKind::NotAscii),
    ("\n", 1, FaultKind::BadHeader),
    ("hmtrace 3\n", 1, FaultKind::BadHeader),
    ("hmtrace 2 \n", 1, FaultKind::BadHeader),
    ("hmtrace 2", 1, FaultKind::NoEnd),
    ("hmtrace 2\nend\nx", 3, FaultKind::AfterEnd),
    ("hmtrace 1 \n", 1, FaultKind::BadHeader),
    ("hmtrace 1\n\n", 2, FaultKind::BadWord),
    ("hmtrace 1\n round\n", 2, FaultKind::BadWord),
    ("hmtrace 1\nround \n", 2, FaultKind::BadWord),
    ("hmtrace 1\nend x\n", 2, FaultKind::BadWord),
    ("hmtrace 1\nthread 1\n", 2, FaultKind::BadWord),
    ("hmtrace 1\nround\nfree x\n", 3, FaultKind::BadWord),
    ("hmtrace 1\nround\nthread 0\n", 3, FaultKind::BadNumber),
    ("hmtrace 1\nround\nthread \n", 3, FaultKind::BadNumber),
    ("hmtrace 1\nround\nthread 01\n", 3, FaultKind::BadNumber),
    ("hmtrace 1\nround\nthread 017\n", 3, FaultKind::BadNumber),
    (
        "hmtrace 1\nround\nthread 17\n",
        3,
        FaultKind::TooManyThreads,
    ),
    (
        "hmtrace 1\nround\nthread 99999999999999999999\n",
        3,
        FaultKind::TooManyThreads,
    ),
    (
        "hmtrace 1\nround\nthread 2\nthread 2\n",
        4,
        FaultKind::BadNumber,
    ),
    (
        "hmtrace 1\nround\nthread 1\nmalloc x 8\nthread 2\nmalloc x 8\n",
        6,
        FaultKind::NameSetTwice,
    ),
    (
        "hmtrace 1\nround\nthread 1\ncalloc x 1 8\nthread 2\naligned x 8 8\n",
        6,
        FaultKind::NameSetTwice,
    ),
    (
        "hmtrace 1\nround\nthread 1\naligned x 8 8\nthread 2\nrealloc x x 8\n",
        6,
        FaultKind::NameSetTwice,
    ),
    (
        "hmtrace 1\nround\nthread 1\nrealloc x null 8\nthread 2\ncalloc x 1 08\n",
        6,
        FaultKind::BadNumber,
    ),
    (
        "hmtrace 1\nround\nthread 64\n",
        3,
        FaultKind::TooManyThreads,
    ),
    (
        "hmtrace 2\nround\nthread 65\n",
        3,
        FaultKind::TooManyThreads,
    ),
    (
        "hmtrace 2\nround\nthread 64\nthread 64\n",
        4,
        FaultKind::BadNumber,
    ),
    ("hmtrace 2\nround\nthread 17\n", 4, FaultKind::NoEnd),
    ("hmtrace 1\nround\nnote warm up\n", 3, FaultKind::BadWord),
    ("hmtrace 2\nnote a\n", 2, FaultKind::BadWord),
    (
        "hmtrace 2\nround\nthread 1\nnote a\n",
        4,
        FaultKind::BadWord,
    ),
    ("hmtrace 2\nround\nnote\n", 3, FaultKind::BadWord),
    ("hmtrace 2\nround\nnote \n", 3, FaultKind::BadWord),
    ("hmtrace 2\nround\nnote a \n", 3, FaultKind::BadWord),
    ("hmtrace 2\nround\nnote  a\n", 3, FaultKind::BadWord),
    ("hmtrace 2\nround\nnote a  b\n", 3, FaultKind::BadWord),
    ("hmtrace 2\nround\nnotea\n", 3, FaultKind::BadWord),
    ("hmtrace 2\nround\nnote a\tb\n", 3, FaultKind::NotAscii),
    ("hmtrace 2\nround\nnote \u{e9}\n", 3, FaultKind::NotAscii),
    ("hmtrace 2\nround\nnote ~ ! 0\n", 4, FaultKind::NoEnd),
    ("hmtrace 2\nround\nnote note\nround\n", 5, FaultKind::NoEnd),
];

/// Lines in the place of a step, each with its fault.
const STEP_FAULTS: [(&str, FaultKind); 31] = [
    ("free x 8", FaultKind::BadWord),
    ("free x ", FaultKind::BadWord),
    ("malloc x  8", FaultKind::BadWord),
    ("Free x", FaultKind::BadWord),
    ("free null+1", FaultKind::BadName),
    ("free null-", FaultKind::BadName),
    ("free ", FaultKind::BadName),
    ("free 1x", FaultKind::BadName),
    ("malloc null 8", FaultKind::BadName),
    ("malloc  8", FaultKind::BadName),
    (
        "malloc a23456789_123456789_123456789_123 8",
        FaultKind::BadName,
    ),
    ("realloc X y 08", FaultKind::BadName),
    ("malloc x 08", FaultKind::BadNumber),
    ("malloc x ", FaultKind::BadNumber),
    ("malloc x -1", FaultKind::BadNumber),
    ("malloc x 18446744073709551616", FaultKind::BadNumber),
    ("calloc x 1 18446744073709551617", FaultKind::BadNumber),
    ("aligned x 01 8", FaultKind::BadNumber),
    ("free x+0", FaultKind::BadNumber),
    ("free x+1099511627777", FaultKind::BadNumber),
    ("free x-1099511627777", FaultKind::BadNumber),
    ("free @", FaultKind::BadNumber),
    ("free @00", FaultKind::BadNumber),
    ("free @10000000000000000", FaultKind::BadNumber),
    ("size @A", FaultKind::BadNumber),
    ("sfree x+01 y", FaultKind::BadNumber),
    ("read x 0", FaultKind::BadNumber),
    ("write x 1048577 41", FaultKind::BadNumber),
    ("write x 1 4", FaultKind::BadNumber),
    ("write x 1 041", FaultKind::BadNumber),
    ("write x 1 4G", FaultKind::BadNumber),
];

/// Texts of a header, of a piece so many times, and of a tail, each with its first fault.
const LONG_FAULTS: [(&str, usize, &str, u64, FaultKind); 4] = [
    ("a", 257, "\n", 2, FaultKind::LineTooLong),
    ("a", 256, "\n", 2, FaultKind::BadWord),
    ("a", 257, "", 2, FaultKind::NoEnd),
    ("round\n", 1025, "", 1026, FaultKind::TooManyRounds),
];

/// A trace with each kind of step and of place.
const STEPS: &str = "hmtrace 1
round
round
thread 3
malloc x 8
calloc nullx 0 18446744073709551615
aligned a23456789_123456789_123456789_12 64 100
realloc y x 16
free null
free @0
sfree @ffffffffffffffff 8
write y-1099511627776 1048576 0f
read y+1099511627776 1
size y+1
malloc x 0
malloc z 18446744073709551615
free z+1099511627776
thread 16
round
thread 1
malloc x 1
end
";

/// A trace of version 2 with notes and with the greatest thread.
const NOTES: &str = "hmtrace 2
round
note warm up
note ~!0 round thread 1
thread 64
malloc x 100
round
round
note end
end
";

/// The head, so many times the piece, and the tail.
fn text(
    alloc: Global,
    head: &str,
    piece: &str,
    times: usize,
    tail: &str,
) -> Result<Vec<u8>, AllocError> {
    let mut bytes = Vec::from_slice(alloc, head.as_bytes())?;
    for _ in 0..times {
        bytes.extend_from_slice(piece.as_bytes())?;
    }
    bytes.extend_from_slice(tail.as_bytes())?;
    Ok(bytes)
}

/// The text has this first fault. `row` names it where it has another.
fn expect_fault(
    rt: &impl Abort,
    alloc: Global,
    row: &str,
    text: &[u8],
    line: u64,
    kind: FaultKind,
) {
    let found = read_trace(alloc, text).err();
    let fault = ReadRefusal::Fault(TraceFault { line, kind });
    assert_eq!(rt; found, Some(fault), "{row}");
}

#[test]
fn first_faults_of_texts(rt: HostRuntime) -> Result<(), Fail> {
    for (text, line, kind) in FAULTS {
        expect_fault(&rt, rt.alloc(), text, text.as_bytes(), line, kind);
    }
    Ok(())
}

#[test]
fn faults_of_a_step(rt: HostRuntime) -> Result<(), Fail> {
    let alloc = rt.alloc();
    for (step, kind) in STEP_FAULTS {
        let text = text(alloc, "hmtrace 1\nround\nthread 1\n", step, 1, "\n")?;
        expect_fault(&rt, alloc, step, &text, 4, kind);
    }
    Ok(())
}

#[test]
fn first_faults_of_long_texts(rt: HostRuntime) -> Result<(), Fail> {
    let alloc = rt.alloc();
    for (piece, times, tail, line, kind) in LONG_FAULTS {
        let text = text(alloc, "hmtrace 1\n", piece, times, tail)?;
        expect_fault(&rt, alloc, piece, &text, line, kind);
    }
    Ok(())
}

#[test]
fn one_step_too_many(rt: HostRuntime) -> Result<(), Fail> {
    let alloc = rt.alloc();
    let head = "hmtrace 1\nround\nthread 1\nmalloc x 8\n";
    let tail = "thread 2\nmalloc x 8\n";
    let text = text(alloc, head, "size x\n", 199_999, tail)?;
    expect_fault(&rt, alloc, tail, &text, 200_005, FaultKind::TooManySteps);
    Ok(())
}

fn expect_same(rt: &impl Abort, alloc: Global, text: &[u8]) -> Result<(), Fail> {
    let trace = read_trace(alloc, text)?;
    let written = write_trace(alloc, &trace)?;
    assert_eq!(rt; written.as_slice(), text);
    Ok(())
}

#[test]
fn traces_are_written_as_they_were_read(rt: HostRuntime) -> Result<(), Fail> {
    let alloc = rt.alloc();
    expect_same(&rt, alloc, b"hmtrace 1\nend\n")?;
    expect_same(&rt, alloc, STEPS.as_bytes())?;
    expect_same(&rt, alloc, b"hmtrace 2\nend\n")?;
    expect_same(&rt, alloc, NOTES.as_bytes())?;
    let rounds = text(alloc, "hmtrace 1\n", "round\n", 1024, "end\n")?;
    expect_same(&rt, alloc, &rounds)?;
    let steps = text(
        alloc,
        "hmtrace 1\nround\nthread 1\n",
        "size x\n",
        200_000,
        "end\n",
    )?;
    expect_same(&rt, alloc, &steps)?;
    let notes = text(alloc, "hmtrace 2\nround\n", "note a\n", 1024, "end\n")?;
    expect_same(&rt, alloc, &notes)?;
    let long = text(alloc, "hmtrace 2\nround\nnote ", "a", 251, "\nend\n")?;
    expect_same(&rt, alloc, &long)?;
    let steps = text(
        alloc,
        "hmtrace 2\nround\nthread 1\n",
        "size x\n",
        400_000,
        "end\n",
    )?;
    expect_same(&rt, alloc, &steps)
}

#[test]
fn version_and_notes(rt: HostRuntime) -> Result<(), Fail> {
    let alloc = rt.alloc();
    let trace = read_trace(alloc, b"hmtrace 1\nend\n")?;
    assert_eq!(rt; trace.version(), 1);
    let trace = read_trace(alloc, NOTES.as_bytes())?;
    assert_eq!(rt; trace.version(), 2);
    let round = trace.rounds().first().ok_or("no round")?;
    assert_eq!(rt; round.notes().len(), 2);
    let note = round.notes().first().ok_or("no note")?;
    assert_eq!(rt; note.bytes(), b"warm up".as_slice());
    Ok(())
}

#[test]
fn one_too_many_in_version_two(rt: HostRuntime) -> Result<(), Fail> {
    let alloc = rt.alloc();
    let head = "hmtrace 2\nround\nthread 1\n";
    let steps = text(alloc, head, "size x\n", 400_001, "")?;
    expect_fault(&rt, alloc, head, &steps, 400_004, FaultKind::TooManySteps);
    let head = "hmtrace 2\nround\n";
    let notes = text(alloc, head, "note a\n", 1025, "")?;
    expect_fault(&rt, alloc, head, &notes, 1027, FaultKind::TooManyNotes);
    let long = text(alloc, "hmtrace 2\nround\nnote ", "a", 252, "\n")?;
    expect_fault(&rt, alloc, "a long note", &long, 3, FaultKind::LineTooLong);
    Ok(())
}

/// Groups of the stress traces of 0 and of 2^64 - 1: the thread, the group's number, its name, its size, and the
/// name that it frees. In the first, x(1) is 7806831264735756412 and v is 908834774; in the last, x(0) is 0.
const GROUPS: [(u64, u32, usize, &str, u64, &str); 7] = [
    (0, 1, 0, "t1n0", 2007, "t1n25"),
    (0, 1, 1, "t1n1", 858, "t1n26"),
    (0, 1, 2, "t1n2", 205, "t1n27"),
    (0, 1, 111, "t1n11", 200_000, "t1n36"),
    (0, 16, 2499, "t16n49", 1239, "t16n24"),
    (u64::MAX, 1, 0, "t1n0", 1644, "t1n25"),
    (u64::MAX, 16, 0, "t16n0", 3520, "t16n25"),
];

/// The steps of a group.
fn group(name: &str, size: u64, other: &str) -> Option<[Step; 5]> {
    let name = Name::of(name.as_bytes())?;
    let other = Name::of(other.as_bytes())?;
    let place = Place::Named { name, offset: 0 };
    Some([
        Step::Malloc { name, size },
        Step::Write {
            place,
            len: 1,
            byte: 0x41,
        },
        Step::Size { place },
        Step::Read { place, len: 1 },
        Step::Free {
            place: Place::Named {
                name: other,
                offset: 0,
            },
        },
    ])
}

/// The steps of a thread.
fn steps_of(scripts: &[Script], thread: u32) -> Option<&[Step]> {
    let script = scripts.iter().find(|script| script.thread() == thread)?;
    Some(script.steps())
}

#[test]
fn stress_traces(rt: HostRuntime) -> Result<(), Fail> {
    for (seed, thread, j, name, size, other) in GROUPS {
        let trace = stress_trace(rt.alloc(), seed)?;
        let expected = group(name, size, other).ok_or("no name")?;
        expect_group(&rt, &trace, thread, j, &expected)?;
    }
    Ok(())
}

/// A stress trace has one round of sixteen scripts, and this group stands at this position of a thread's.
fn expect_group(
    rt: &impl Abort,
    trace: &Trace,
    thread: u32,
    j: usize,
    expected: &[Step],
) -> Result<(), Fail> {
    assert_eq!(rt; trace.rounds().len(), 1);
    let scripts = trace.rounds().first().ok_or("no round")?.scripts();
    assert_eq!(rt; scripts.len(), 16);
    let steps = steps_of(scripts, thread).ok_or("no thread")?;
    assert_eq!(rt; steps.len(), 12_500);
    let found = steps.chunks(5).nth(j).ok_or("no group")?;
    assert_eq!(rt; found, expected);
    Ok(())
}
