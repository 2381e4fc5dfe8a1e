//! Traces that are run round by round, and what they answered.
ghost use Rattle.std.specs.Prelude.{◌≡◌, ◌+◌, ◌-◌, ◌^◌, ◌<◌, ◌≤◌, length};
ghost use Rattle.hm_heap.specs.Passes.{AreOf};

use hm_base::NoMemory;
use hm_fakes::PlainMaker;
use hm_heap::{Heap, Pass};
use hm_model::{Answer, Entry, Reply};
use hm_outside::{Gate, NoGate, Pages};
use hm_replay::{Env, Setting, run_round, run_script, small_rounds};
use hm_report::{Results, StepResult, report};
use hm_sizes::{CLASSES, Config};
use hm_trace::{Round, Script, read_trace};
use std::alloc::Global;
use std::process::Abort;
use std::slice;
use std::sync::Wait;
use std::test::Fail;
use std::thread::Threads;

/// Runs the rounds in order.
fn run_rounds<R: Threads + Wait + Sync, P: Pages, G: Gate>(
    rt: &R,
    alloc: Global,
    heap: &Heap<P, G>,
    root: &mut Pass,
    rounds: &[Round],
) -> Result<Vec<Results>, NoMemory>
    requires of { AreOf heap.now.locks root.old.turns }
    requires root { (root.old.caller ≡ 0) × (root.old.splits ≡ 0) }
    requires few { length rounds.now ≤ 1024 }
    ensures of { AreOf heap.now.locks root.new.turns }
    ensures root { (root.new.caller ≡ 0) × (root.new.out ≡ root.old.out) }
{
    let setting = Setting { rt, alloc, heap };
    let mut env = Env::build(alloc);
    let mut all = Vec::new(alloc);
    for (index, round) in rounds.iter().enumerate() {
        // Both are called for their contracts: these are the scripts of a round, so there are at most 64.
        let _ = round.scripts();
        small_rounds();
        let mut results = run_round(&setting, root, index as u32 + 1, round, &mut env)?;
        all.append(&mut results)?;
    }
    Ok(all)
}

/// The reports of the scripts of a trace, one after another.
fn report_of<R: Threads + Wait + Sync>(rt: &R, alloc: Global, text: &str) -> Result<Vec<u8>, Fail> {
    let trace = read_trace(alloc, text.as_bytes())?;
    let (heap, mut root) = Heap::build(alloc, Config::standard(), 1, &mut PlainMaker, &NoGate)?;
    let results = run_rounds(rt, alloc, &heap, &mut root, trace.rounds())?;
    let mut told = Vec::new(alloc);
    for of_script in &results {
        let lines = report(alloc, &[], slice::from_ref(of_script))?;
        told.extend_from_slice(&lines)?;
    }
    Ok(told)
}

/// A trace and its report.
const TABLE: [(&str, &str); 6] = [
    ("hmtrace 1\nend\n", ""),
    (
        "hmtrace 1\nround\nthread 1\nmalloc x 100\nwrite x 3 41\nrealloc y x 104\nrealloc z y 105\nread z 105\n\
         aligned p 64 100\naligned r 3 10\ncalloc s 9223372036854775808 2\nfree s\nsfree z 106\nsize x-8\nend\n",
        "1.1.1 given 104\n1.1.2 written\n1.1.3 kept 104\n1.1.4 given 120\n1.1.5 bytes 41*3 00*102\n\
         1.1.6 given 120\n1.1.7 bad alignment\n1.1.8 overflow\n1.1.9 skipped\n1.1.10 freed\n1.1.11 no slot\n",
    ),
    (
        "hmtrace 1\nround\nthread 1\nfree null\nfree @1000\nfree q\nsize null\nend\n",
        "1.1.1 nothing\n1.1.2 outside\n1.1.3 skipped\n1.1.4 size 0\n",
    ),
    (
        "hmtrace 1\nround\nthread 1\nmalloc a 100\nround\nthread 1\nmalloc b 100\nsize a\nthread 2\nsize a\nround\n\
         thread 1\nfree a\nsize b\nend\n",
        "1.1.1 given 104\n2.1.1 given 104\n2.1.2 size 104\n2.2.1 size 104\n3.1.1 freed\n3.1.2 size 104\n",
    ),
    (
        "hmtrace 1\nround\nthread 1\nmalloc a 100\nround\nthread 1\naligned a 3 10\nsize a\nthread 2\nsize a\nround\n\
         thread 1\nsize a\nend\n",
        "1.1.1 given 104\n2.1.1 bad alignment\n2.1.2 skipped\n2.2.1 size 104\n3.1.1 skipped\n",
    ),
    (
        "hmtrace 2\nround\nnote warm up\nthread 64\nmalloc x 100\nend\n",
        "1.64.1 given 104\n",
    ),
];

/// A trace, and two reports of which one is its, as the scripts of its second round come to run.
const EITHER: [(&str, &str, &str); 2] = [
    (
        "hmtrace 1\nround\nthread 1\nmalloc x 100\nround\nthread 1\nfree x\nthread 2\nfree x\nend\n",
        "1.1.1 given 104\n2.1.1 freed\n2.2.1 double free\n",
        "1.1.1 given 104\n2.1.1 double free\n2.2.1 freed\n",
    ),
    (
        "hmtrace 1\nround\nthread 1\nmalloc buf 4096\nmalloc s 13\nwrite s 13 61\nthread 2\ncalloc tab 10 24\n\
         aligned page 4096 8192\nfree s\nround\nthread 1\nrealloc tab tab 480\nfree page\nthread 2\nread s 14\n\
         size buf\nfree s\nfree buf\nsize tab\nround\nthread 7\nsize tab\nend\n",
        "1.1.1 given 5112\n1.1.2 given 24\n1.1.3 written\n1.2.1 given 248\n1.2.2 given 12280\n1.2.3 skipped\n\
         2.1.1 given 504\n2.1.2 freed\n2.2.1 bytes 61*13 00*1\n2.2.2 size 5112\n2.2.3 freed\n2.2.4 freed\n\
         2.2.5 size 248\n3.7.1 size 504\n",
        "1.1.1 given 5112\n1.1.2 given 24\n1.1.3 written\n1.2.1 given 248\n1.2.2 given 12280\n1.2.3 skipped\n\
         2.1.1 given 504\n2.1.2 freed\n2.2.1 bytes 61*13 00*1\n2.2.2 size 5112\n2.2.3 freed\n2.2.4 freed\n\
         2.2.5 double free\n3.7.1 size 504\n",
    ),
];

#[test]
fn reports_of_rounds(rt: HostRuntime) -> Result<(), Fail> {
    for (text, report) in &TABLE {
        let told = report_of(&rt, rt.alloc(), text)?;
        assert!(rt; told.as_slice() == report.as_bytes(), "{text}");
    }
    for (text, one, other) in &EITHER {
        let told = report_of(&rt, rt.alloc(), text)?;
        let is_either = told.as_slice() == one.as_bytes() || told.as_slice() == other.as_bytes();
        assert!(rt; is_either, "{text}");
    }
    Ok(())
}

/// Runs a script alone, under a pass of its own.
fn run_alone<R: Wait, P: Pages, G: Gate>(
    rt: &R,
    alloc: Global,
    heap: &Heap<P, G>,
    root: &mut Pass,
    script: &Script,
    env: &mut Env,
) -> Result<Results, NoMemory>
    requires of { AreOf heap.now.locks root.old.turns }
    requires root { root.old.caller ≡ 0 }
    requires few { root.old.splits < 2 ^ 32 - 1 }
    ensures of { AreOf heap.now.locks root.new.turns }
    ensures root { (root.new.caller ≡ 0) × (root.new.splits ≤ root.old.splits + 1) }
{
    let mut pass = heap.split(alloc, root, 1, script.thread())?;
    let setting = Setting { rt, alloc, heap };
    let results = run_script(&setting, &mut pass, script, env);
    heap.join(root, pass);
    results
}

/// The reports of two scripts of a round, each run alone, one after the other.
fn reports_alone<R: Wait, P: Pages, G: Gate>(
    rt: &R,
    alloc: Global,
    heap: &Heap<P, G>,
    root: &mut Pass,
    first: &Script,
    second: &Script,
) -> Result<(Vec<u8>, Vec<u8>), NoMemory>
    requires of { AreOf heap.now.locks root.old.turns }
    requires root { (root.old.caller ≡ 0) × (root.old.splits ≡ 0) }
{
    let mut env = Env::build(alloc);
    let set = run_alone(rt, alloc, heap, root, first, &mut env)?;
    let seen = run_alone(rt, alloc, heap, root, second, &mut env)?;
    let told = report(alloc, &[], slice::from_ref(&set))?;
    Ok((told, report(alloc, &[], slice::from_ref(&seen))?))
}

#[test]
fn a_script_sees_and_sets_names(rt: HostRuntime) -> Result<(), Fail> {
    let alloc = rt.alloc();
    let text =
        b"hmtrace 1\nround\nthread 1\nmalloc a 100\nsize a\nthread 2\nsize a\nfree a\nsize b\nend\n";
    let trace = read_trace(alloc, text)?;
    let [round] = trace.rounds() else {
        return Err(Fail::new("not one round"));
    };
    let [first, second] = round.scripts() else {
        return Err(Fail::new("not two scripts"));
    };
    let (heap, mut root) = Heap::build(alloc, Config::standard(), 1, &mut PlainMaker, &NoGate)?;
    let (set, seen) = reports_alone(&rt, alloc, &heap, &mut root, first, second)?;
    assert_eq!(rt;
        set.as_slice(),
        b"1.1.1 given 104\n1.1.2 size 104\n".as_slice()
    );
    assert_eq!(rt;
        seen.as_slice(),
        b"1.2.1 size 104\n1.2.2 freed\n1.2.3 skipped\n".as_slice()
    );
    Ok(())
}

/// A round of this version with so many scripts: each allots a block and gives it back, so many times.
fn many_scripts(alloc: Global, version: u8, scripts: u8, pairs: u32) -> Result<Vec<u8>, NoMemory> {
    let mut text = Vec::new(alloc);
    let header = format!(in alloc; "hmtrace {version}\nround\n")?;
    text.extend_from_slice(header.as_bytes())?;
    for before in 0..scripts {
        let thread = before + 1;
        let head = format!(in alloc; "thread {thread}\n")?;
        let pair = format!(in alloc; "malloc n{thread} 100\nfree n{thread}\n")?;
        text.extend_from_slice(head.as_bytes())?;
        for _ in 0..pairs {
            text.extend_from_slice(pair.as_bytes())?;
        }
    }
    text.extend_from_slice(b"end\n")?;
    Ok(text)
}

/// The place of the region that serves the script at an index of the round: the threads, 1, 2 and so on, go to the
/// four arenas in turn, and a block of 100 bytes is of class 7.
fn place_of_script(index: usize) -> usize {
    let arena = index % 4;
    arena * CLASSES as usize + 7
}

/// Whether a result is that of an entry.
fn is_of(told: &StepResult, entry: &Entry) -> bool {
    match (&told.answer, &entry.reply) {
        (
            Some(Answer::Reply(Reply::Given { addr, usable })),
            Reply::Given {
                addr: kept,
                usable: size,
            },
        ) => addr == kept && usable == size,
        (Some(Answer::Reply(Reply::Freed)), Reply::Freed) => true,
        _ => false,
    }
}

/// How many results of a script are those of the next entries of its caller in a history.
fn agreeing(results: &Results, entries: &[Entry], caller: u32) -> usize {
    let own = entries.iter().filter(|entry| entry.who.caller == caller);
    results
        .items
        .items()
        .iter()
        .zip(own)
        .filter(|(told, entry)| is_of(told, entry))
        .count()
}

/// The text is a round of so many scripts, each of so many steps, and its results are those of the histories.
fn expect_agreeing<R: Threads + Wait + Sync + Abort>(
    rt: &R,
    alloc: Global,
    text: &[u8],
    scripts: u8,
    steps: usize,
) -> Result<(), Fail> {
    let trace = read_trace(alloc, text)?;
    let (heap, mut root) = Heap::build(alloc, Config::standard(), 1, &mut PlainMaker, &NoGate)?;
    let results = run_rounds(rt, alloc, &heap, &mut root, trace.rounds())?;
    let closed = heap.close(alloc, root)?;
    assert_eq!(rt; results.len(), scripts as usize);
    for (index, of_script) in results.iter().enumerate() {
        let history = closed.histories.items().get(place_of_script(index));
        let entries = history
            .map(|history| history.entries.items())
            .unwrap_or(&[]);
        assert_eq!(rt; of_script.items.items().len(), steps);
        assert_eq!(rt; agreeing(of_script, entries, index as u32 + 1), steps);
    }
    Ok(())
}

#[test]
fn many_scripts_at_once(rt: HostRuntime) -> Result<(), Fail> {
    let text = many_scripts(rt.alloc(), 1, 16, 500)?;
    expect_agreeing(&rt, rt.alloc(), &text, 16, 1000)
}

#[test]
fn sixty_four_scripts_at_once(rt: HostRuntime) -> Result<(), Fail> {
    let text = many_scripts(rt.alloc(), 2, 64, 50)?;
    expect_agreeing(&rt, rt.alloc(), &text, 64, 100)
}
