//! Runs over pages, sources and sinks that fail, over broken texts, and at the ends of regions.

use crate::test_runs::{failing_maker, replay_plain, run_plain, run_text, source, text_of, words};
use hm_fakes::{FailingMaker, VecSink};
use hm_outside::NoGate;
use hm_run::Machine;
use std::alloc::Global;
use std::sync::Wait;
use std::test::Fail;
use std::thread::Threads;

/// A block of 100 bytes that is given and freed: 49 bytes, of which the report has 28.
const TEXT: &[u8] = b"hmtrace 1\nround\nthread 1\nmalloc x 100\nfree x\nend\n";

const REPORT: &[u8] = b"1.1.1 given 104\n1.1.2 freed\n";

/// Steps of thread 1, what is written, and the status.
struct Steps {
    steps: &'static str,
    output: &'static str,
    status: u8,
}

// Runs steps over the maker, and compares. The answer is the count of faults of the region.
fn faults_after<R: Threads + Wait + Sync>(
    rt: &R,
    alloc: Global,
    steps: &Steps,
    maker: &mut FailingMaker,
    place: usize,
) -> Result<u64, Fail> {
    let text = text_of(alloc, steps.steps)?;
    let mut sink = VecSink::build(alloc, 999, 99, Vec::new(alloc))?;
    let machine = Machine {
        rt,
        alloc,
        gate: &NoGate,
    };
    let run = run_text(machine, "run", text.as_bytes(), &mut sink, maker)?;
    if run.status != steps.status || sink.held.as_slice() != steps.output.as_bytes() {
        return Err(Fail::new(steps.steps));
    }
    let closed = run.closed.ok_or("closed")?;
    let history = closed.histories.items().get(place).ok_or("region")?;
    Ok(history.faults)
}

const OVERWRITTEN: &str =
    "malloc a 130000\nmalloc b 130000\nmalloc c 130000\nfree a\nwrite a 4 41\nfree b\nfree c\n\
    malloc d 130000\nmalloc e 130000\n";

/// The pages of class 48 fail at their first call, and so on to the fourth.
const FAULTS_AT_OPENINGS: [Steps; 4] = [
    Steps {
        steps: OVERWRITTEN,
        output: "1.1.1 pages failed\n1.1.2 given 131064\n1.1.3 given 131064\n1.1.4 skipped\n1.1.5 skipped\n\
            1.1.6 freed\n1.1.7 freed\n1.1.8 given 131064\n1.1.9 given 131064\n",
        status: 0,
    },
    Steps {
        steps: OVERWRITTEN,
        output: "1.1.1 given 131064\n1.1.2 pages failed\n1.1.3 given 131064\n1.1.4 freed\n1.1.5 written\n\
            1.1.6 skipped\n1.1.7 freed\n1.1.8 given 131064\n1.1.9 given 131064\n",
        status: 0,
    },
    Steps {
        steps: OVERWRITTEN,
        output: "1.1.1 given 131064\n1.1.2 given 131064\n1.1.3 pages failed\n1.1.4 freed\n1.1.5 written\n\
            1.1.6 freed\n1.1.7 skipped\n1.1.8 given 131064\n1.1.9 given 131064\n",
        status: 0,
    },
    Steps {
        steps: OVERWRITTEN,
        output: "1.1.1 given 131064\n1.1.2 given 131064\n1.1.3 given 131064\n1.1.4 freed\n1.1.5 written\n\
            1.1.6 freed\n1.1.7 freed\n1.1.8 overwritten at 0 found 41\n1.1.9 pages failed\n",
        status: 1,
    },
];

#[test]
fn faults_at_openings(rt: HostRuntime) -> Result<(), Fail> {
    let alloc = rt.alloc();
    for (index, steps) in FAULTS_AT_OPENINGS.iter().enumerate() {
        let mut maker = failing_maker(alloc, 48, index as u64 + 1)?;
        assert_eq!(rt; faults_after(&rt, alloc, steps, &mut maker, 48)?, 1);
    }
    Ok(())
}

/// A large block whose pages do not go stays live, and its next free goes.
const FAULT_AT_A_FREE: Steps = Steps {
    steps: "malloc y 200000\nwrite y 1 41\nfree y\nread y 1\nfree y\nread y 1\n",
    output: "1.1.1 given 229376\n1.1.2 written\n1.1.3 pages failed\n1.1.4 bytes 41*1\n1.1.5 freed\n1.1.6 trap at +0\n",
    status: 1,
};

#[test]
fn fault_at_a_free_of_a_large_block(rt: HostRuntime) -> Result<(), Fail> {
    let alloc = rt.alloc();
    let mut maker = failing_maker(alloc, 196, 2)?;
    assert_eq!(rt;
        faults_after(&rt, alloc, &FAULT_AT_A_FREE, &mut maker, 196)?,
        1
    );
    Ok(())
}

/// Addresses at the ends of regions and of a slab, and sizes at the end of their type.
const ENDS: [Steps; 3] = [
    Steps {
        steps: "free @ffffffffff\nfree @10000000000\nread @10000000000 1\nsize @d3fffffffff\nread @d3fffffffff 2\n\
            free @d4000000000\nfree @400000000000\nfree @40ffffffffff\nfree @410000000000\n\
            write @ffffffffffffffff 2 00\n",
        output: "1.1.1 outside\n1.1.2 no slot\n1.1.3 trap at +0\n1.1.4 no slot\n1.1.5 trap at +0\n1.1.6 outside\n\
            1.1.7 not live\n1.1.8 not live\n1.1.9 outside\n1.1.10 outside\n",
        status: 1,
    },
    Steps {
        steps: "malloc a 18446744073709551615\ncalloc b 18446744073709551615 1\ncalloc c 4294967296 4294967296\n\
            malloc x 100\nsfree x 18446744073709551615\n",
        output: "1.1.1 too large\n1.1.2 too large\n1.1.3 overflow\n1.1.4 given 104\n\
            1.1.5 wrong size 112 18446744073709551615\n",
        status: 1,
    },
    // The block is slot 24, 2,688 bytes behind the beginning of a slab of 4,096, and the next slab is a guard.
    Steps {
        steps: "malloc x 100\nread x+1300 108\nread x+1300 109\nwrite x+1407 2 41\nread x+1407 1\n",
        output: "1.1.1 given 104\n1.1.2 bytes 00*108\n1.1.3 trap at +108\n1.1.4 trap at +1\n1.1.5 bytes 00*1\n",
        status: 1,
    },
];

#[test]
fn ends_of_regions_of_slabs_and_of_sizes(rt: HostRuntime) -> Result<(), Fail> {
    let alloc = rt.alloc();
    for steps in &ENDS {
        let mut maker = failing_maker(alloc, 0, 0)?;
        assert_eq!(rt; faults_after(&rt, alloc, steps, &mut maker, 0)?, 0);
    }
    Ok(())
}

#[test]
fn prefixes_have_no_end(rt: HostRuntime) -> Result<(), Fail> {
    let alloc = rt.alloc();
    for len in 0..49 {
        let prefix = &TEXT[..len];
        let line = prefix
            .iter()
            .filter(|byte| **byte == b'\n')
            .count()
            .saturating_add(1);
        let told = format!(in alloc; "fault: trace line {line} NoEnd\n")?;
        let mut sink = VecSink::build(alloc, 99, 99, Vec::new(alloc))?;
        let run = run_plain(&rt, alloc, "run", prefix, &mut sink)?;
        assert_eq!(rt; run.status, 3);
        assert_eq!(rt; sink.held.as_slice(), told.as_bytes());
    }
    Ok(())
}

// The text goes in seven pieces of 8 bytes, and the eighth call finds the end.
#[test]
fn source_fails_at_each_call(rt: HostRuntime) -> Result<(), Fail> {
    let alloc = rt.alloc();
    let asked = words(alloc, "run")?;
    for call in 1..10 {
        let mut source = source(alloc, TEXT, 8, call)?;
        let mut sink = VecSink::build(alloc, 99, 99, Vec::new(alloc))?;
        let run = replay_plain(&rt, alloc, &asked, &mut source, &mut sink);
        let (status, told): (u8, &[u8]) = if call < 9 {
            (4, b"fault: read\n")
        } else {
            (0, REPORT)
        };
        assert_eq!(rt; run.status, status);
        assert_eq!(rt; sink.held.as_slice(), told);
    }
    Ok(())
}

// The status of a run over a sink that takes so many bytes at a time and fails at one call, or at none where that is
// 0, and what the sink holds. The heap is closed in any case.
fn ending_of<R: Threads + Wait + Sync>(
    rt: &R,
    alloc: Global,
    piece: usize,
    call: u64,
) -> Result<(u8, Vec<u8>), Fail> {
    let mut fail_calls = Vec::new(alloc);
    fail_calls.push(call)?;
    let mut sink = VecSink::build(alloc, 99, piece, fail_calls)?;
    let run = run_plain(rt, alloc, "run", TEXT, &mut sink)?;
    let _closed = run.closed.ok_or("closed")?;
    Ok((run.status, sink.held))
}

// The report goes in seven pieces of 4 bytes.
#[test]
fn sink_fails_at_each_call(rt: HostRuntime) -> Result<(), Fail> {
    for call in 1..9 {
        let (status, held) = ending_of(&rt, rt.alloc(), 4, call as u64)?;
        let len = if call < 8 { 4 * (call - 1) } else { 28 };
        assert_eq!(rt; status, if call < 8 { 5 } else { 0 });
        assert_eq!(rt; held.as_slice(), &REPORT[..len]);
    }
    Ok(())
}

#[test]
fn sink_takes_nothing(rt: HostRuntime) -> Result<(), Fail> {
    let (status, held) = ending_of(&rt, rt.alloc(), 0, 0)?;
    assert_eq!(rt; status, 5);
    assert!(rt; held.is_empty());
    Ok(())
}
