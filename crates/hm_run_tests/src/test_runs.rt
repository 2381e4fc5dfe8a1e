//! What the tests share: words, sources, texts and makers of pages from literals, and runs over objects in memory. A
//! text is run over any pages and gate, a source over plain pages; what a run writes is in its sink.

use hm_base::RegionId;
use hm_fakes::{FailingMaker, PlainMaker, PlainPages, VecSink, VecSource};
use hm_outside::{Gate, NoGate, PageMaker, Source};
use hm_run::{Machine, Run, replay};
use std::alloc::Global;
use std::sync::Wait;
use std::test::Fail;
use std::thread::Threads;

// The words of a line, each behind one space.
pub(crate) fn words(alloc: Global, words: &str) -> Result<Vec<String>, Fail> {
    let mut all = Vec::new(alloc);
    for word in words.split(' ') {
        all.push(String::from_str(alloc, word)?)?;
    }
    Ok(all)
}

// A source of these bytes in pieces, which fails at one call, or at none where that is 0.
pub(crate) fn source(
    alloc: Global,
    bytes: &[u8],
    piece: usize,
    fails: u64,
) -> Result<VecSource, Fail> {
    let mut fail_calls = Vec::new(alloc);
    fail_calls.push(fails)?;
    Ok(VecSource {
        bytes: Vec::from_slice(alloc, bytes)?,
        piece,
        fail_calls,
        calls: 0,
        faults: 0,
        at: 0,
    })
}

// A text of one round and one thread, with these steps and what may follow them.
pub(crate) fn text_of(alloc: Global, steps: &str) -> Result<String, Fail> {
    Ok(format!(in alloc; "hmtrace 1\nround\nthread 1\n{steps}end\n")?)
}

// A maker whose pages of a region fail at one call, or at none where that is 0.
pub(crate) fn failing_maker(alloc: Global, region: u32, call: u64) -> Result<FailingMaker, Fail> {
    let mut fail_calls = Vec::new(alloc);
    fail_calls.push(call)?;
    Ok(FailingMaker {
        region: RegionId(region),
        fail_calls,
    })
}

// Runs a text.
pub(crate) fn run_text<R: Threads + Wait + Sync, M: PageMaker, G: Gate>(
    machine: Machine<'_, R, G>,
    asked: &str,
    text: &[u8],
    sink: &mut VecSink,
    maker: &mut M,
) -> Result<Run<M::P>, Fail> {
    let words = words(machine.alloc, asked)?;
    let mut source = source(machine.alloc, text, 65_536, 0)?;
    Ok(replay(machine, &words, &mut source, sink, maker))
}

// The status of a run of a text, and what it wrote.
pub(crate) fn report_of<R: Threads + Wait + Sync, M: PageMaker, G: Gate>(
    rt: &R,
    alloc: Global,
    text: &str,
    maker: &mut M,
    gate: &G,
) -> Result<(u8, Vec<u8>), Fail> {
    let mut sink = VecSink::build(alloc, 65_536, 999, Vec::new(alloc))?;
    let machine = Machine { rt, alloc, gate };
    let run = run_text(machine, "run", text.as_bytes(), &mut sink, maker)?;
    Ok((run.status, sink.held))
}

// Runs a text over plain pages.
pub(crate) fn run_plain<R: Threads + Wait + Sync>(
    rt: &R,
    alloc: Global,
    asked: &str,
    text: &[u8],
    sink: &mut VecSink,
) -> Result<Run<PlainPages>, Fail> {
    let machine = Machine {
        rt,
        alloc,
        gate: &NoGate,
    };
    run_text(machine, asked, text, sink, &mut PlainMaker)
}

// Runs what a source holds, over plain pages.
pub(crate) fn replay_plain<R: Threads + Wait + Sync, S: Source>(
    rt: &R,
    alloc: Global,
    words: &[String],
    source: &mut S,
    sink: &mut VecSink,
) -> Run<PlainPages> {
    let machine = Machine {
        rt,
        alloc,
        gate: &NoGate,
    };
    replay(machine, words, source, sink, &mut PlainMaker)
}
