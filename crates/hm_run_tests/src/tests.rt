//! Runs over objects in memory: the table of traces, how a run ends by its words, its source and its sink, the threads
//! of a round, what the seed moves, and what is asked of a source.
ghost use Rattle.std.specs.Prelude.{None};

use crate::test_runs::{
    failing_maker, replay_plain, report_of, run_plain, run_text, source, text_of, words,
};
use hm_fakes::{Meeting, PlainMaker, VecSink};
use hm_frames::FrameMaker;
use hm_outside::{NoGate, PageMaker, Source, SourceFault};
use hm_run::{Machine, Run, replay};
use hm_trace::{read_trace, write_trace};
use std::alloc::{AllocError, Global};
use std::fmt::Write;
use std::process::Abort;
use std::sync::Wait;
use std::test::Fail;
use std::thread::Threads;

/// Words, the steps of thread 1 of round 1 with what may follow them, the report, another one where threads race,
/// and the status. The traces of `examples/` are among them.
struct Row {
    words: &'static str,
    steps: &'static str,
    output: &'static str,
    other: Option<&'static str>,
    status: u8,
}

const ROWS: [Row; 22] = [
    Row {
        words: "run",
        steps: "malloc x 100\nfree x\n",
        output: "1.1.1 given 104\n1.1.2 freed\n",
        other: None,
        status: 0,
    },
    Row {
        words: "run",
        steps: "malloc x 0\nwrite x 1 41\nfree x\n",
        output: "1.1.1 given 0\n1.1.2 trap at +0\n1.1.3 freed\n",
        other: None,
        status: 1,
    },
    Row {
        words: "run",
        steps: "malloc a 8\nmalloc b 9\nmalloc c 120\nmalloc d 121\n",
        output: "1.1.1 given 8\n1.1.2 given 24\n1.1.3 given 120\n1.1.4 given 152\n",
        other: None,
        status: 0,
    },
    Row {
        words: "run",
        steps: "malloc a 131064\nmalloc b 131065\nmalloc c 1073741825\n",
        output: "1.1.1 given 131064\n1.1.2 given 163840\n1.1.3 too large\n",
        other: None,
        status: 0,
    },
    Row {
        words: "run",
        steps: "malloc x 100\nfree x\nfree x\nsize x\n",
        output: "1.1.1 given 104\n1.1.2 freed\n1.1.3 double free\n1.1.4 double free\n",
        other: None,
        status: 1,
    },
    Row {
        words: "run",
        steps: "malloc x 100\nfree x+8\nfree x\n",
        output: "1.1.1 given 104\n1.1.2 no slot\n1.1.3 freed\n",
        other: None,
        status: 1,
    },
    Row {
        words: "run",
        steps: "malloc x 20000\nfree x+20480\nfree x+40960\n",
        output: "1.1.1 given 20472\n1.1.2 no slot\n1.1.3 unused\n",
        other: None,
        status: 1,
    },
    Row {
        words: "run",
        steps: "malloc x 100\nwrite x+104 1 00\nfree x\n",
        output: "1.1.1 given 104\n1.1.2 written\n1.1.3 freed\n",
        other: None,
        status: 0,
    },
    Row {
        words: "run",
        steps: "malloc x 100\nwrite x+104 8 41\nfree x\nfree x\n",
        output: "1.1.1 given 104\n1.1.2 written\n1.1.3 canary at 0\n1.1.4 canary at 0\n",
        other: None,
        status: 1,
    },
    Row {
        words: "run",
        steps: "malloc a 130000\nmalloc b 130000\nmalloc c 130000\nfree a\nwrite a 4 41\nfree b\n\
            free c\nmalloc d 130000\nmalloc e 130000\n",
        output: "1.1.1 given 131064\n1.1.2 given 131064\n1.1.3 given 131064\n1.1.4 freed\n1.1.5 written\n\
            1.1.6 freed\n1.1.7 freed\n1.1.8 overwritten at 0 found 41\n1.1.9 given 131064\n",
        other: None,
        status: 1,
    },
    Row {
        words: "run",
        steps: "malloc z 130000\nmalloc a 130000\nmalloc b 130000\nmalloc c 130000\nfree z\nfree a\n\
            write a 4 41\nfree b\nfree c\nmalloc d 130000\nmalloc e 130000\nread a 1\n",
        output: "1.1.1 given 131064\n1.1.2 given 131064\n1.1.3 given 131064\n1.1.4 given 131064\n\
            1.1.5 freed\n1.1.6 freed\n1.1.7 written\n1.1.8 freed\n1.1.9 freed\n1.1.10 given 131064\n\
            1.1.11 given 131064\n1.1.12 trap at +0\n",
        other: None,
        status: 1,
    },
    Row {
        words: "run --class-region 1048576",
        steps: "malloc a 130000\nmalloc b 130000\nmalloc c 130000\nmalloc d 130000\nmalloc e 130000\n",
        output: "1.1.1 given 131064\n1.1.2 given 131064\n1.1.3 given 131064\n1.1.4 given 131064\n\
            1.1.5 exhausted\n",
        other: None,
        status: 0,
    },
    Row {
        words: "run --large-space 1048576",
        steps: "malloc x 500000\nmalloc y 500000\nfree x\nmalloc z 500000\n",
        output: "1.1.1 given 524288\n1.1.2 no space\n1.1.3 freed\n1.1.4 no space\n",
        other: None,
        status: 0,
    },
    Row {
        words: "run",
        steps: "malloc x 100\nsfree x 105\nsfree x 97\nmalloc y 200000\nsfree y 100000\nsfree y 220000\n",
        output: "1.1.1 given 104\n1.1.2 wrong size 112 128\n1.1.3 freed\n1.1.4 given 229376\n\
            1.1.5 wrong size 229376 114688\n1.1.6 freed\n",
        other: None,
        status: 1,
    },
    Row {
        words: "run",
        steps: "malloc x 100\nwrite x 3 41\nrealloc y x 104\nrealloc z y 105\nread z 105\n\
            aligned p 64 100\naligned q 4096 1\naligned r 3 10\ncalloc s 9223372036854775808 2\n",
        output: "1.1.1 given 104\n1.1.2 written\n1.1.3 kept 104\n1.1.4 given 120\n\
            1.1.5 bytes 41*3 00*102\n1.1.6 given 120\n1.1.7 given 4088\n1.1.8 bad alignment\n\
            1.1.9 overflow\n",
        other: None,
        status: 0,
    },
    Row {
        words: "run",
        steps: "malloc x 100\nround\nthread 1\nfree x\nthread 2\nfree x\n",
        output: "1.1.1 given 104\n2.1.1 freed\n2.2.1 double free\n",
        other: Some("1.1.1 given 104\n2.1.1 double free\n2.2.1 freed\n"),
        status: 1,
    },
    Row {
        words: "run",
        steps: "free null\nfree @1000\nfree q\nsize null\n",
        output: "1.1.1 nothing\n1.1.2 outside\n1.1.3 skipped\n1.1.4 size 0\n",
        other: None,
        status: 1,
    },
    Row {
        words: "run",
        steps: "malloc x 100\nwrite x+104 8 41\nrealloc y x 200\n",
        output: "1.1.1 given 104\n1.1.2 written\n1.1.3 half moved 216: canary at 0\n",
        other: None,
        status: 1,
    },
    Row {
        words: "run",
        steps: "malloc y 200000\nread y+229376 1\nfree y+8\nfree y\nfree y\n",
        output: "1.1.1 given 229376\n1.1.2 trap at +0\n1.1.3 not live\n1.1.4 freed\n1.1.5 not live\n",
        other: None,
        status: 1,
    },
    Row {
        words: "run",
        steps: "malloc buf 4096\nmalloc s 13\nwrite s 13 61\nthread 2\ncalloc tab 10 24\n\
            aligned page 4096 8192\nround\nthread 1\nrealloc tab tab 480\nfree page\nthread 2\n\
            read s 14\nsize buf\nfree s\nfree buf\n",
        output: "1.1.1 given 5112\n1.1.2 given 24\n1.1.3 written\n1.2.1 given 248\n1.2.2 given 12280\n\
            2.1.1 given 504\n2.1.2 freed\n2.2.1 bytes 61*13 00*1\n2.2.2 size 5112\n2.2.3 freed\n\
            2.2.4 freed\n",
        other: None,
        status: 0,
    },
    Row {
        words: "run --config light",
        steps: "malloc x 100\nfree x\nwrite x 4 41\nmalloc y 100\nread y 5\nfree x\nfree y\n",
        output: "1.1.1 given 104\n1.1.2 freed\n1.1.3 written\n1.1.4 given 104\n1.1.5 bytes 41*4 00*1\n\
            1.1.6 freed\n1.1.7 double free\n",
        other: None,
        status: 1,
    },
    Row {
        words: "run --config light",
        steps: "malloc a 20000\nfree a+20480\nfree a+163840\n",
        output: "1.1.1 given 20472\n1.1.2 unused\n1.1.3 no slot\n",
        other: None,
        status: 1,
    },
];

// Runs the steps of a row with these words behind its own, and compares what is written with its reports.
fn check_row<R: Threads + Wait + Sync, M: PageMaker>(
    rt: &R,
    alloc: Global,
    row: &Row,
    more: &str,
    maker: &mut M,
) -> Result<bool, Fail> {
    let mut sink = VecSink::build(alloc, 999, 99, Vec::new(alloc))?;
    let text = text_of(alloc, row.steps)?;
    let asked = format!(in alloc; "{}{more}", row.words)?;
    let machine = Machine {
        rt,
        alloc,
        gate: &NoGate,
    };
    let run = run_text(machine, asked.as_str(), text.as_bytes(), &mut sink, maker)?;
    let written = sink.held.as_slice();
    let is_other = match row.other {
        Some(other) => written == other.as_bytes(),
        None => false,
    };
    let is_told = written == row.output.as_bytes() || is_other;
    Ok(is_told && run.status == row.status && run.closed.is_some())
}

// Checks each row, with these words behind its own.
fn check_rows<R: Threads + Wait + Sync + Abort, M: PageMaker>(
    rt: &R,
    alloc: Global,
    more: &str,
    maker: &mut M,
) -> Result<(), Fail> {
    for row in &ROWS {
        assert!(rt; check_row(rt, alloc, row, more, maker)?, "{}", row.steps);
    }
    Ok(())
}

// Pages in raw memory and plain ones give the same bytes.
#[test]
fn traces(rt: HostRuntime) -> Result<(), Fail> {
    check_rows(&rt, rt.alloc(), "", &mut PlainMaker)?;
    check_rows(&rt, rt.alloc(), "", &mut FrameMaker)
}

// What is written hangs on no seed.
#[test]
fn traces_of_other_seeds(rt: HostRuntime) -> Result<(), Fail> {
    check_rows(&rt, rt.alloc(), " --seed 7", &mut FrameMaker)?;
    check_rows(
        &rt,
        rt.alloc(),
        " --seed 18446744073709551615",
        &mut FrameMaker,
    )
}

// Every second slab is a guard, and the region's slabs end with the fourth.
#[test]
fn opened_slabs(rt: HostRuntime) -> Result<(), Fail> {
    let alloc = rt.alloc();
    let text = text_of(
        alloc,
        "malloc a 130000\nmalloc b 130000\nmalloc c 130000\nmalloc d 130000\nmalloc e 130000\n",
    )?;
    let mut sink = VecSink::build(alloc, 99, 99, Vec::new(alloc))?;
    let machine = Machine {
        rt: &rt,
        alloc,
        gate: &NoGate,
    };
    let run = run_text(
        machine,
        "run --class-region 1048576",
        text.as_bytes(),
        &mut sink,
        &mut FrameMaker,
    )?;
    let closed = run.closed.ok_or("closed")?;
    let history = closed.histories.items().get(48).ok_or("region 48")?;
    let mut opened = Vec::new(alloc);
    for entry in history.entries.items() {
        opened.push(entry.choices.opened)?;
    }
    assert_eq!(rt;
        opened.as_slice(),
        [Some(0), Some(2), Some(4), Some(6), None].as_slice()
    );
    Ok(())
}

/// Words and a text, the call of the source that fails, or 0, the room of the sink and the most that it takes at
/// a time, what is written, and the status.
struct Ending {
    words: &'static str,
    text: &'static [u8],
    source_fails: u64,
    room: usize,
    piece: usize,
    output: &'static [u8],
    status: u8,
}

const ENDINGS: [Ending; 6] = [
    Ending {
        words: "run",
        text: b"hmtrace 1\nend\n",
        source_fails: 0,
        room: 99,
        piece: 99,
        output: b"",
        status: 0,
    },
    Ending {
        words: "run",
        text: b"hmtrace 1\nround\n",
        source_fails: 0,
        room: 99,
        piece: 3,
        output: b"fault: trace line 3 NoEnd\n",
        status: 3,
    },
    Ending {
        words: "run",
        text: b"hmtrace 1\nround\nthread 1\nmalloc x 100\nfree x\nend\n",
        source_fails: 2,
        room: 99,
        piece: 99,
        output: b"fault: read\n",
        status: 4,
    },
    Ending {
        words: "run",
        text: b"hmtrace 1\nround\nthread 1\nmalloc x 100\nfree x\nend\n",
        source_fails: 0,
        room: 5,
        piece: 5,
        output: b"1.1.1",
        status: 5,
    },
    Ending {
        words: "runn",
        text: b"hmtrace 1\nend\n",
        source_fails: 0,
        room: 99,
        piece: 1,
        output: b"fault: usage\n",
        status: 2,
    },
    Ending {
        words: "runn",
        text: b"hmtrace 1\nend\n",
        source_fails: 0,
        room: 99,
        piece: 0,
        output: b"",
        status: 5,
    },
];

// Whether a run ends so.
fn check_ending<R: Threads + Wait + Sync, M: PageMaker>(
    rt: &R,
    alloc: Global,
    ending: &Ending,
    maker: &mut M,
) -> Result<bool, Fail> {
    let asked = words(alloc, ending.words)?;
    let mut source = source(alloc, ending.text, 8, ending.source_fails)?;
    let mut sink = VecSink::build(alloc, ending.room, ending.piece, Vec::new(alloc))?;
    let machine = Machine {
        rt,
        alloc,
        gate: &NoGate,
    };
    let run = replay(machine, &asked, &mut source, &mut sink, maker);
    Ok(run.status == ending.status && sink.held.as_slice() == ending.output)
}

#[test]
fn endings(rt: HostRuntime) -> Result<(), Fail> {
    let alloc = rt.alloc();
    for ending in &ENDINGS {
        assert!(rt;
            check_ending(&rt, alloc, ending, &mut PlainMaker)?,
            "status {} over plain pages",
            ending.status
        );
        assert!(rt;
            check_ending(&rt, alloc, ending, &mut FrameMaker)?,
            "status {} over raw memory",
            ending.status
        );
    }
    Ok(())
}

// Whether the trace of these steps is written as it was read.
fn comes_back(alloc: Global, steps: &str) -> Result<bool, Fail> {
    let text = text_of(alloc, steps)?;
    let trace = read_trace(alloc, text.as_bytes())?;
    let written = write_trace(alloc, &trace)?;
    Ok(written.as_slice() == text.as_bytes())
}

#[test]
fn texts_come_back(rt: HostRuntime) -> Result<(), Fail> {
    for row in &ROWS {
        assert!(rt; comes_back(rt.alloc(), row.steps)?, "{}", row.steps);
    }
    Ok(())
}

/// What each run of the trace that 7 makes writes. Its 16 scripts have 2,500 groups each, of a block that is given,
/// written, measured and read, and of a block of 25 groups before that is freed, which the first 25 groups do not have:
/// 16 * 25 steps are skipped.
const SEVEN: &[u8] =
    b"stress 7: steps 200000 given 40000 written 40000 size 40000 bytes 40000 freed 39600 skipped 400\n";

// Whether these words run that trace: no call is made on the source, whose first one would fail.
fn runs_seven<R: Threads + Wait + Sync>(rt: &R, alloc: Global, line: &str) -> Result<bool, Fail> {
    let asked = words(alloc, line)?;
    let mut source = source(alloc, b"", 8, 1)?;
    let mut sink = VecSink::build(alloc, 999, 99, Vec::new(alloc))?;
    let machine = Machine {
        rt,
        alloc,
        gate: &NoGate,
    };
    let run = replay(machine, &asked, &mut source, &mut sink, &mut FrameMaker);
    Ok(run.status == 0 && source.calls == 0 && sink.held.as_slice() == SEVEN)
}

#[test]
fn stress_of_seven(rt: HostRuntime) -> Result<(), Fail> {
    assert!(rt; runs_seven(&rt, rt.alloc(), "stress 7")?);
    Ok(())
}

#[test]
fn stress_of_seven_at_another_seed(rt: HostRuntime) -> Result<(), Fail> {
    assert!(rt; runs_seven(&rt, rt.alloc(), "stress 0007 --seed 1")?);
    Ok(())
}

#[test]
fn stress_of_seven_with_the_light_configuration(rt: HostRuntime) -> Result<(), Fail> {
    assert!(rt; runs_seven(&rt, rt.alloc(), "stress 7 --config light")?);
    Ok(())
}

// A block of 64 MiB and one of a GiB, written at both ends, over the pages of the program.
#[test]
fn great_blocks(rt: HostRuntime) -> Result<(), Fail> {
    let alloc = rt.alloc();
    let text = text_of(
        alloc,
        "malloc a 67108864\nwrite a 4097 41\nwrite a+67104769 4095 42\nread a 4098\n\
        read a+67104768 4096\nread a+67108864 1\nfree a\nread a 1\n\
        malloc b 1073741824\nwrite b 1 43\nwrite b+1073741823 1 44\nread b 2\n\
        read b+1073741822 2\nread b+536870912 1048576\nread b+1073741823 2\nfree b\nfree b\n",
    )?;
    let (status, written) = report_of(&rt, alloc, &text, &mut FrameMaker, &NoGate)?;
    assert_eq!(rt; status, 1);
    assert_eq!(rt;
        written.as_slice(),
        b"1.1.1 given 67108864\n1.1.2 written\n1.1.3 written\n1.1.4 bytes 41*4097 00*1\n\
        1.1.5 bytes 00*1 42*4095\n1.1.6 trap at +0\n1.1.7 freed\n1.1.8 trap at +0\n\
        1.1.9 given 1073741824\n1.1.10 written\n1.1.11 written\n1.1.12 bytes 43*1 00*1\n\
        1.1.13 bytes 00*1 44*1\n1.1.14 bytes 00*1048576\n1.1.15 trap at +1\n1.1.16 freed\n\
        1.1.17 not live\n"
            .as_slice()
    );
    Ok(())
}

#[test]
fn too_long(rt: HostRuntime) -> Result<(), Fail> {
    let alloc = rt.alloc();
    let bytes = vec![in alloc; 0x23u8; 67_108_865]?;
    let mut sink = VecSink::build(alloc, 99, 99, Vec::new(alloc))?;
    let run = run_plain(&rt, alloc, "run", &bytes, &mut sink)?;
    assert_eq!(rt; run.status, 7);
    assert_eq!(rt; sink.held.as_slice(), b"fault: too long\n".as_slice());
    Ok(())
}

#[test]
fn page_fault(rt: HostRuntime) -> Result<(), Fail> {
    let alloc = rt.alloc();
    let text = text_of(alloc, "malloc x 100\nmalloc y 100\n")?;
    let mut sink = VecSink::build(alloc, 99, 99, Vec::new(alloc))?;
    let mut maker = failing_maker(alloc, 7, 1)?;
    let machine = Machine {
        rt: &rt,
        alloc,
        gate: &NoGate,
    };
    let run = run_text(machine, "run", text.as_bytes(), &mut sink, &mut maker)?;
    assert_eq!(rt; run.status, 0);
    assert_eq!(rt;
        sink.held.as_slice(),
        b"1.1.1 pages failed\n1.1.2 given 104\n".as_slice()
    );
    let counts = faults_of(alloc, &run, 7)?;
    assert_eq!(rt; counts.as_slice(), [(0, 1), (1, 1)].as_slice());
    Ok(())
}

// The counts of page faults at the start and the end of each call of a region.
fn faults_of<P>(alloc: Global, run: &Run<P>, place: usize) -> Result<Vec<(u64, u64)>, Fail> {
    let closed = run.closed.as_ref().ok_or("closed")?;
    let history = closed.histories.items().get(place).ok_or("region")?;
    let mut counts = Vec::new(alloc);
    for entry in history.entries.items() {
        counts.push((entry.faults_before, entry.faults_after))?;
    }
    Ok(counts)
}

#[test]
fn threads_of_a_round_run_at_once(rt: HostRuntime) -> Result<(), Fail> {
    let alloc = rt.alloc();
    let gate = Meeting::of(2);
    let text = text_of(alloc, "malloc a 8\nthread 2\nmalloc b 4000\n")?;
    let (status, written) = report_of(&rt, alloc, &text, &mut PlainMaker, &gate)?;
    assert_eq!(rt; status, 0);
    assert_eq!(rt; gate.counts(), (2, 0));
    assert_eq!(rt;
        written.as_slice(),
        b"1.1.1 given 8\n1.2.1 given 4088\n".as_slice()
    );
    Ok(())
}

// The steps of a thread that allots 50 blocks and then frees them, and their report.
fn push_thread(text: &mut String, report: &mut String, thread: u8) -> Result<(), AllocError> {
    write!(text, "thread {thread}\n")?;
    for step in 1..101 {
        let block = step % 50;
        if step <= 50 {
            write!(text, "malloc t{thread}n{block} 100\n")?;
            write!(report, "1.{thread}.{step} given 104\n")?;
        } else {
            write!(text, "free t{thread}n{block}\n")?;
            write!(report, "1.{thread}.{step} freed\n")?;
        }
    }
    Ok(())
}

// A round of 16 such threads, and its report.
fn many_threads(alloc: Global) -> Result<(String, String), Fail> {
    let mut text = String::new(alloc);
    let mut report = String::new(alloc);
    text.push_str("hmtrace 1\nround\n")?;
    for thread in 1..17 {
        push_thread(&mut text, &mut report, thread)?;
    }
    text.push_str("end\n")?;
    Ok((text, report))
}

#[test]
fn sixteen_threads(rt: HostRuntime) -> Result<(), Fail> {
    let alloc = rt.alloc();
    let (text, expected) = many_threads(alloc)?;
    let mut sink = VecSink::build(alloc, 65_536, 999, Vec::new(alloc))?;
    let machine = Machine {
        rt: &rt,
        alloc,
        gate: &NoGate,
    };
    let run = run_text(machine, "run", text.as_bytes(), &mut sink, &mut FrameMaker)?;
    assert_eq!(rt; run.status, 0);
    assert_eq!(rt; sink.held.as_slice(), expected.as_bytes());
    let closed = run.closed.ok_or("closed")?;
    let mut entries = 0usize;
    for history in closed.histories.items() {
        entries = entries.saturating_add(history.entries.items().len());
    }
    assert_eq!(rt; closed.histories.items().len(), 197);
    assert_eq!(rt; entries, 1_600);
    Ok(())
}

// The report of a run, and where region 7 begins.
fn run_seeded<R: Threads + Wait + Sync>(
    rt: &R,
    alloc: Global,
    asked: &str,
) -> Result<(Vec<u8>, u64), Fail> {
    let text = text_of(alloc, "malloc x 100\nfree x\nmalloc y 100\nsize y\n")?;
    let mut sink = VecSink::build(alloc, 99, 99, Vec::new(alloc))?;
    let run = run_plain(rt, alloc, asked, text.as_bytes(), &mut sink)?;
    let closed = run.closed.ok_or("closed")?;
    let history = closed.histories.items().get(7).ok_or("region 7")?;
    Ok((sink.held, history.first))
}

#[test]
fn the_seed_moves_blocks(rt: HostRuntime) -> Result<(), Fail> {
    let alloc = rt.alloc();
    let expected = b"1.1.1 given 104\n1.1.2 freed\n1.1.3 given 104\n1.1.4 size 104\n".as_slice();
    let (plain, first) = run_seeded(&rt, alloc, "run")?;
    let (zero, at_zero) = run_seeded(&rt, alloc, "run --seed 0")?;
    let (seven, at_seven) = run_seeded(&rt, alloc, "run --seed 7")?;
    let (last, at_last) = run_seeded(&rt, alloc, "run --seed 18446744073709551615")?;
    assert!(rt; plain.as_slice() == expected && zero.as_slice() == expected);
    assert!(rt; seven.as_slice() == expected && last.as_slice() == expected);
    assert_eq!(rt; (first, at_zero), (1_592_101_122_048, 1_592_101_122_048));
    assert!(rt; at_zero != at_seven && at_seven != at_last && at_last != at_zero);
    Ok(())
}

/// A source that notes the longest buffer that it was handed, and fails where it is called after its
/// end. Its count of faults stands at its last value.
#[derive(Drop)]
struct NotingSource<'a> {
    left: &'a [u8],
    longest: usize,
    ended: bool,
}

impl Source for NotingSource<'_> {
    ghost left = { λ s. None };

    ghost faults = { λ s. 18446744073709551615 };

    fn take(&mut self, into: &mut [u8]) -> Result<usize, SourceFault> {
        if self.ended {
            return Err(SourceFault);
        }
        self.longest = self.longest.max(into.len());
        let count = self.left.len().min(into.len());
        let (front, rest) = self.left.split_at(count);
        into[..count].copy_from_slice(front);
        self.left = rest;
        self.ended = count == 0;
        Ok(count)
    }
}

// A buffer has at most 65,536 bytes, and the end is asked for once.
#[test]
fn what_is_asked(rt: HostRuntime) -> Result<(), Fail> {
    let alloc = rt.alloc();
    let text = vec![in alloc; 0x23u8; 200_000]?;
    let asked = words(alloc, "run")?;
    let mut source = NotingSource {
        left: &text,
        longest: 0,
        ended: false,
    };
    let mut sink = VecSink::build(alloc, 99, 99, Vec::new(alloc))?;
    let run = replay_plain(&rt, alloc, &asked, &mut source, &mut sink);
    assert_eq!(rt; run.status, 3);
    assert!(rt; source.longest <= 65_536);
    Ok(())
}
