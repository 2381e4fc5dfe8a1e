//! Runs of traces of version 2: their notes and threads, the faults of either version, and that a trace of version 1
//! runs alike with the header of version 2.

use crate::test_runs::{run_plain, run_text};
use hm_fakes::VecSink;
use hm_frames::FrameMaker;
use hm_outside::NoGate;
use hm_run::Machine;
use std::alloc::{AllocError, Global};
use std::fmt::Write;
use std::sync::Wait;
use std::test::Fail;
use std::thread::Threads;

/// A text, what its run writes, and the status.
struct Row {
    text: &'static str,
    output: &'static str,
    status: u8,
}

const ROWS: [Row; 10] = [
    Row {
        text: "hmtrace 2\nround\nnote warm up\nthread 64\nmalloc x 100\nend\n",
        output: "1 note warm up\n1.64.1 given 104\n",
        status: 0,
    },
    Row {
        text: "hmtrace 2\nround\nnote ~ 1.1.1 freed\nnote end\nround\nnote b\nthread 1\nmalloc x 100\nround\nthread 2\n\
            free x+8\nround\nnote c\nend\n",
        output: "1 note ~ 1.1.1 freed\n1 note end\n2 note b\n2.1.1 given 104\n3.2.1 no slot\n4 note c\n",
        status: 1,
    },
    Row {
        text: "hmtrace 2\nround\nthread 1\nmalloc buf 4096\nmalloc s 13\nwrite s 13 61\nthread 2\ncalloc tab 10 24\n\
            aligned page 4096 8192\nround\nthread 1\nrealloc tab tab 480\nfree page\nthread 2\nread s 14\nsize buf\n\
            free s\nfree buf\nend\n",
        output: "1.1.1 given 5112\n1.1.2 given 24\n1.1.3 written\n1.2.1 given 248\n1.2.2 given 12280\n\
            2.1.1 given 504\n2.1.2 freed\n2.2.1 bytes 61*13 00*1\n2.2.2 size 5112\n2.2.3 freed\n2.2.4 freed\n",
        status: 0,
    },
    Row {
        text: "hmtrace 3\nend\n",
        output: "fault: trace line 1 BadHeader\n",
        status: 3,
    },
    Row {
        text: "hmtrace 1\nround\nthread 64\nmalloc x 100\nend\n",
        output: "fault: trace line 3 TooManyThreads\n",
        status: 3,
    },
    Row {
        text: "hmtrace 1\nround\nnote warm up\nend\n",
        output: "fault: trace line 3 BadWord\n",
        status: 3,
    },
    Row {
        text: "hmtrace 2\nround\nthread 65\nmalloc x 100\nend\n",
        output: "fault: trace line 3 TooManyThreads\n",
        status: 3,
    },
    Row {
        text: "hmtrace 2\nround\nthread 065\nmalloc x 100\nend\n",
        output: "fault: trace line 3 BadNumber\n",
        status: 3,
    },
    Row {
        text: "hmtrace 2\nround\nthread 1\nnote a\nend\n",
        output: "fault: trace line 4 BadWord\n",
        status: 3,
    },
    Row {
        text: "hmtrace 2\nround\nnote\nend\n",
        output: "fault: trace line 3 BadWord\n",
        status: 3,
    },
];

// Whether the text of a row ends as told.
fn check_row<R: Threads + Wait + Sync>(rt: &R, alloc: Global, row: &Row) -> Result<bool, Fail> {
    let mut sink = VecSink::build(alloc, 999, 99, Vec::new(alloc))?;
    let run = run_plain(rt, alloc, "run", row.text.as_bytes(), &mut sink)?;
    Ok(run.status == row.status && sink.held.as_slice() == row.output.as_bytes())
}

#[test]
fn texts_of_both_versions(rt: HostRuntime) -> Result<(), Fail> {
    for row in &ROWS {
        assert!(rt; check_row(&rt, rt.alloc(), row)?, "{}", row.text);
    }
    Ok(())
}

#[test]
fn one_note_too_many(rt: HostRuntime) -> Result<(), Fail> {
    let alloc = rt.alloc();
    let mut text = String::from_str(alloc, "hmtrace 2\nround\n")?;
    for _ in 0u32..1025 {
        text.push_str("note a\n")?;
    }
    let mut sink = VecSink::build(alloc, 99, 99, Vec::new(alloc))?;
    let run = run_plain(&rt, alloc, "run", text.as_bytes(), &mut sink)?;
    assert_eq!(rt; run.status, 3);
    assert_eq!(rt;
        sink.held.as_slice(),
        b"fault: trace line 1027 TooManyNotes\n".as_slice()
    );
    Ok(())
}

// A thread that allots a block, writes it and frees it, and its report.
fn push_thread(text: &mut String, report: &mut String, thread: u8) -> Result<(), AllocError> {
    write!(
        text,
        "thread {thread}\nmalloc t{thread} 100\nwrite t{thread} 104 41\nfree t{thread}\n"
    )?;
    write!(
        report,
        "1.{thread}.1 given 104\n1.{thread}.2 written\n1.{thread}.3 freed\n"
    )
}

// A round of so many such threads, and its report.
fn many_threads(alloc: Global, version: u8, threads: u8) -> Result<(String, String), Fail> {
    let mut text = format!(in alloc; "hmtrace {version}\nround\n")?;
    let mut report = String::new(alloc);
    for before in 0..threads {
        push_thread(&mut text, &mut report, before + 1)?;
    }
    text.push_str("end\n")?;
    Ok((text, report))
}

// Whether a round of so many threads ends as told.
fn runs_many<R: Threads + Wait + Sync>(
    rt: &R,
    alloc: Global,
    version: u8,
    threads: u8,
) -> Result<bool, Fail> {
    let (text, report) = many_threads(alloc, version, threads)?;
    let mut sink = VecSink::build(alloc, 65_536, 999, Vec::new(alloc))?;
    let machine = Machine {
        rt,
        alloc,
        gate: &NoGate,
    };
    let run = run_text(machine, "run", text.as_bytes(), &mut sink, &mut FrameMaker)?;
    Ok(run.status == 0 && sink.held.as_slice() == report.as_bytes())
}

#[test]
fn as_many_threads_as_a_version_has(rt: HostRuntime) -> Result<(), Fail> {
    assert!(rt; runs_many(&rt, rt.alloc(), 1, 16)?);
    assert!(rt; runs_many(&rt, rt.alloc(), 2, 16)?);
    assert!(rt; runs_many(&rt, rt.alloc(), 2, 64)?);
    Ok(())
}
