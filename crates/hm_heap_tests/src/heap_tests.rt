//! Tables of calls of a heap on one pass, each call with its answer; calls of several passes, and the end
//! of a heap.
ghost use Rattle.std.specs.Prelude.{◌≡◌, Some, OnOk};
ghost use Rattle.hm_heap.specs.Passes.{AreOf};

use hm_base::{NoMemory, RegionId};
use hm_fakes::{Holding, Meeting, PlainMaker, PlainPages, SilentMaker, comes_to};
use hm_heap::{Closed, Heap, Pass};
use hm_model::{Answer, Reply, Runs, SizeChange};
use hm_outside::{Gate, NoGate, PageMaker, Pages};
use hm_sizes::Config;
use std::alloc::Global;
use std::sync::Wait;
use std::sync::atomic::Ordering;
use std::test::Fail;
use std::thread::{Threads, join};

/// A call. The block of row k is number k, from 1; block 0 is address 0. An offset is added to its address.
#[derive(Clone, Copy)]
enum Ask {
    Malloc(u64),
    Calloc(u64, u64),
    Aligned(u64, u64),
    Realloc(usize, u64),
    Free(usize, u64),
    Sized(usize, u64),
    Usable(usize, u64),
    Read(usize, u64),
    Write(usize, u64, u64),
    TryMalloc(u64),
    TryFree(usize, u64),
}

/// The address of a block, with an offset.
fn at(blocks: &[u64], block: usize, offset: u64) -> u64 {
    blocks.get(block).copied().unwrap_or(0).wrapping_add(offset)
}

/// Makes one call. A read is of one byte, and a write of up to 1,000 bytes 65.
fn make<R: Wait, P: Pages, G: Gate>(
    rt: &R,
    alloc: Global,
    heap: &Heap<P, G>,
    pass: &mut Pass,
    blocks: &[u64],
    ask: Ask,
) -> Result<Answer, NoMemory>
    requires { AreOf heap.now.locks pass.old.turns }
    ensures { OnOk result (AreOf heap.entry.now.locks pass.new.turns) }
{
    match ask {
        Ask::Malloc(size) => heap.malloc(rt, pass, 1, size),
        Ask::Calloc(count, size) => heap.calloc(rt, pass, 1, count, size),
        Ask::Aligned(align, size) => heap.aligned(rt, pass, 1, align, size),
        Ask::Realloc(block, size) => heap.realloc(rt, pass, 1, at(blocks, block, 0), size),
        Ask::Free(block, offset) => heap.free(rt, pass, 1, at(blocks, block, offset)),
        Ask::Sized(block, size) => heap.free_sized(rt, pass, 1, at(blocks, block, 0), size),
        Ask::Usable(block, offset) => heap.usable(rt, pass, 1, at(blocks, block, offset)),
        Ask::Read(block, offset) => heap.read(rt, pass, 1, at(blocks, block, offset), 1),
        Ask::Write(block, offset, len) => {
            let runs = Runs::same(alloc, 65, len.clamp(1, 1000))?;
            heap.write(rt, pass, 1, at(blocks, block, offset), &runs)
        }
        Ask::TryMalloc(size) => heap.try_malloc(pass, 1, size),
        Ask::TryFree(block, offset) => heap.try_free(pass, 1, at(blocks, block, offset)),
    }
}

/// What an answer says: its kind, and of some the size or the place that it names.
#[derive(Clone, Copy, Debug, PartialEq, Eq)]
enum Told {
    Given(u64),
    Overwritten(u64),
    Exhausted,
    NoSpace,
    PagesFailed,
    Freed,
    NoSlot,
    Unused,
    DoubleFree,
    WrongSize(u64),
    Canary,
    Usable(u64),
    Bytes,
    Filled,
    Trap,
    NotLive,
    Overflow,
    BadAlignment,
    TooLarge,
    Outside,
    Busy,
    HalfMoved(u64),
    Kept(u64),
    Nothing,
}

fn told_by(answer: &Answer) -> Told {
    match answer {
        Answer::Reply(Reply::Given { usable, .. }) => Told::Given(*usable),
        Answer::Reply(Reply::Overwritten { at, .. }) => Told::Overwritten(*at),
        Answer::Reply(Reply::Exhausted) => Told::Exhausted,
        Answer::Reply(Reply::NoSpace) => Told::NoSpace,
        Answer::Reply(Reply::PagesFailed) => Told::PagesFailed,
        Answer::Reply(Reply::Freed) => Told::Freed,
        Answer::Reply(Reply::NoSlot) => Told::NoSlot,
        Answer::Reply(Reply::Unused) => Told::Unused,
        Answer::Reply(Reply::DoubleFree) => Told::DoubleFree,
        Answer::Reply(Reply::WrongSize { block, .. }) => Told::WrongSize(*block),
        Answer::Reply(Reply::Canary { .. }) => Told::Canary,
        Answer::Reply(Reply::Usable(size)) => Told::Usable(*size),
        Answer::Reply(Reply::Bytes(_runs)) => Told::Bytes,
        Answer::Reply(Reply::Filled) => Told::Filled,
        Answer::Reply(Reply::Trap { .. }) => Told::Trap,
        Answer::Reply(Reply::NotLive) => Told::NotLive,
        Answer::Overflow => Told::Overflow,
        Answer::BadAlignment => Told::BadAlignment,
        Answer::TooLarge => Told::TooLarge,
        Answer::Outside => Told::Outside,
        Answer::Busy => Told::Busy,
        Answer::HalfMoved { usable, .. } => Told::HalfMoved(*usable),
        Answer::Kept { usable, .. } => Told::Kept(*usable),
        Answer::Nothing => Told::Nothing,
    }
}

/// The address of the block in an answer.
fn block_of(answer: &Answer) -> Option<u64> {
    match answer {
        Answer::Reply(Reply::Given { addr, .. }) => Some(*addr),
        Answer::Kept { addr, .. } => Some(*addr),
        Answer::HalfMoved { addr, .. } => Some(*addr),
        _ => None,
    }
}

/// The number of the first row whose answer is another. A row without a block has address 0 for one.
fn first_other<R: Wait, P: Pages, G: Gate>(
    rt: &R,
    alloc: Global,
    heap: &Heap<P, G>,
    pass: &mut Pass,
    table: &[(Ask, Told)],
) -> Result<Option<usize>, NoMemory>
    requires { AreOf heap.now.locks pass.old.turns }
{
    let mut blocks = vec![in alloc; 0; 1]?;
    for (ask, want) in table {
        let answer = make(rt, alloc, heap, pass, &blocks, *ask)?;
        if told_by(&answer) != *want {
            return Ok(Some(blocks.len()));
        }
        blocks.push(block_of(&answer).unwrap_or(0))?;
    }
    Ok(None)
}

const TABLE: [(Ask, Told); 68] = [
    (Ask::Malloc(8), Told::Given(8)),
    (Ask::Malloc(9), Told::Given(24)),
    (Ask::Malloc(120), Told::Given(120)),
    (Ask::Malloc(121), Told::Given(152)),
    (Ask::Malloc(131064), Told::Given(131064)),
    (Ask::Malloc(131065), Told::Given(163840)),
    (Ask::Malloc(1073741825), Told::TooLarge),
    // a guard slab, an unused slot, and a block that is freed twice
    (Ask::Malloc(20000), Told::Given(20472)),
    (Ask::Free(8, 20480), Told::NoSlot),
    (Ask::Free(8, 40960), Told::Unused),
    (Ask::Free(8, 0), Told::Freed),
    (Ask::Free(8, 0), Told::DoubleFree),
    (Ask::Usable(8, 0), Told::DoubleFree),
    // a canary, and a block of no bytes
    (Ask::Malloc(100), Told::Given(104)),
    (Ask::Write(14, 104, 8), Told::Filled),
    (Ask::Free(14, 0), Told::Canary),
    (Ask::Realloc(14, 200), Told::HalfMoved(216)),
    (Ask::Malloc(0), Told::Given(0)),
    (Ask::Write(18, 0, 1), Told::Trap),
    (Ask::Free(18, 0), Told::Freed),
    // stated sizes
    (Ask::Malloc(100), Told::Given(104)),
    (Ask::Sized(21, 105), Told::WrongSize(112)),
    (Ask::Sized(21, 97), Told::Freed),
    (Ask::Malloc(200000), Told::Given(229376)),
    (Ask::Sized(24, 100000), Told::WrongSize(229376)),
    (Ask::Read(24, 229376), Told::Trap),
    (Ask::Free(24, 8), Told::NotLive),
    (Ask::Sized(24, 220000), Told::Freed),
    (Ask::Free(24, 0), Told::NotLive),
    // moved and kept
    (Ask::Malloc(100), Told::Given(104)),
    (Ask::Write(30, 0, 3), Told::Filled),
    (Ask::Realloc(30, 104), Told::Kept(104)),
    (Ask::Realloc(30, 105), Told::Given(120)),
    (Ask::Read(33, 2), Told::Bytes),
    (Ask::Usable(33, 0), Told::Usable(120)),
    (Ask::Realloc(33, 200000), Told::Given(229376)),
    (Ask::Realloc(36, 229376), Told::Kept(229376)),
    (Ask::Realloc(36, 10), Told::Given(24)),
    (Ask::Realloc(0, 10), Told::Given(24)),
    (Ask::Realloc(30, 104), Told::DoubleFree),
    (Ask::Realloc(39, 1073741825), Told::TooLarge),
    (Ask::Realloc(0, 1073741825), Told::TooLarge),
    // alignments and products
    (Ask::Aligned(64, 100), Told::Given(120)),
    (Ask::Aligned(4096, 1), Told::Given(4088)),
    (Ask::Aligned(2097152, 1), Told::Given(4096)),
    (Ask::Aligned(3, 10), Told::BadAlignment),
    (Ask::Aligned(4194304, 1), Told::BadAlignment),
    (Ask::Aligned(64, 1073741825), Told::TooLarge),
    (Ask::Calloc(10, 24), Told::Given(248)),
    (Ask::Calloc(1 << 63, 2), Told::Overflow),
    // addresses of no region
    (Ask::Free(0, 0), Told::Nothing),
    (Ask::Free(0, 1000), Told::Outside),
    (Ask::Free(0, u64::MAX), Told::Outside),
    (Ask::Free(0, 1 << 40), Told::NoSlot),
    (Ask::Free(0, (1 << 46) - 1), Told::Outside),
    (Ask::Free(0, 1 << 46), Told::NotLive),
    (Ask::Usable(0, 0), Told::Usable(0)),
    (Ask::Read(0, 0), Told::Outside),
    (Ask::Write(0, 0, 1), Told::Outside),
    // without waiting
    (Ask::TryMalloc(8), Told::Given(8)),
    (Ask::TryFree(60, 0), Told::Freed),
    (Ask::TryFree(0, 0), Told::Nothing),
    // both ends of the regions of classes and of the large space
    (Ask::Free(0, (1 << 40) - 1), Told::Outside),
    (Ask::Free(0, (1 << 40) + (1 << 36)), Told::NoSlot),
    (Ask::Free(0, (1 << 40) + 196 * (1 << 36) - 1), Told::NoSlot),
    (Ask::Free(0, (1 << 40) + 196 * (1 << 36)), Told::Outside),
    (Ask::Free(0, (1 << 46) + (1 << 40) - 1), Told::NotLive),
    (Ask::Free(0, (1 << 46) + (1 << 40)), Told::Outside),
];

#[test]
fn calls_of_one_pass(rt: HostRuntime) -> Result<(), Fail> {
    let config = Config::standard();
    let (heap, mut pass) = Heap::build(rt.alloc(), config, 1, &mut PlainMaker, &NoGate)?;
    let other = first_other(&rt, rt.alloc(), &heap, &mut pass, &TABLE)?;
    assert_eq!(rt; other, None, "the first row that is answered otherwise");
    Ok(())
}

const SMALL: [(Ask, Told); 9] = [
    (Ask::Malloc(130000), Told::Given(131064)),
    (Ask::Malloc(130000), Told::Given(131064)),
    (Ask::Malloc(130000), Told::Given(131064)),
    (Ask::Malloc(130000), Told::Given(131064)),
    (Ask::Malloc(130000), Told::Exhausted),
    (Ask::Malloc(100), Told::Given(104)),
    (Ask::Realloc(6, 130000), Told::Exhausted),
    (Ask::Malloc(500000), Told::Given(524288)),
    (Ask::Malloc(500000), Told::NoSpace),
];

#[test]
fn small_regions_end(rt: HostRuntime) -> Result<(), Fail> {
    let config = Config {
        class_region: 1 << 20,
        large_space: 1 << 20,
        ..Config::standard()
    };
    let (heap, mut pass) = Heap::build(rt.alloc(), config, 7, &mut PlainMaker, &NoGate)?;
    let other = first_other(&rt, rt.alloc(), &heap, &mut pass, &SMALL)?;
    assert_eq!(rt; other, None, "the first row that is answered otherwise");
    Ok(())
}

const AFTER_A_FREE: [(Ask, Told); 9] = [
    (Ask::Malloc(130000), Told::Given(131064)),
    (Ask::Malloc(130000), Told::Given(131064)),
    (Ask::Malloc(130000), Told::Given(131064)),
    (Ask::Free(1, 0), Told::Freed),
    (Ask::Write(1, 0, 4), Told::Filled),
    (Ask::Free(2, 0), Told::Freed),
    (Ask::Free(3, 0), Told::Freed),
    (Ask::Malloc(130000), Told::Overwritten(0)),
    (Ask::Malloc(130000), Told::Given(131064)),
];

#[test]
fn a_write_after_a_free_is_found(rt: HostRuntime) -> Result<(), Fail> {
    let config = Config::standard();
    let (heap, mut pass) = Heap::build(rt.alloc(), config, 3, &mut PlainMaker, &NoGate)?;
    let other = first_other(&rt, rt.alloc(), &heap, &mut pass, &AFTER_A_FREE)?;
    assert_eq!(rt; other, None, "the first row that is answered otherwise");
    Ok(())
}

/// While the first pass is held inside the region of blocks of 8 bytes, the second asks there and elsewhere.
fn second_asks<P: Pages>(
    heap: &Heap<P, Holding>,
    gate: &Holding,
    second: Pass,
) -> (Result<Answer, NoMemory>, Result<Answer, NoMemory>)
    requires { AreOf heap.now.locks second.turns }
{
    let mut second = second;
    comes_to(&gate.inside, 1);
    let held = heap.try_malloc(&mut second, 1, 8);
    let free = heap.try_malloc(&mut second, 2, 4000);
    gate.let_go.fetch_add(1, Ordering::SeqCst);
    (held, free)
}

/// A pass asks once, and waits where it has to.
fn asks<R: Wait, P: Pages, G: Gate>(
    rt: &R,
    heap: &Heap<P, G>,
    pass: Pass,
    size: u64,
) -> Result<Answer, NoMemory>
    requires { AreOf heap.now.locks pass.turns }
{
    let mut pass = pass;
    heap.malloc(rt, &mut pass, 1, size)
}

fn both_ask<R: Threads + Wait + Sync, P: Pages>(
    rt: &R,
    heap: &Heap<P, Holding>,
    gate: &Holding,
    first: Pass,
    second: Pass,
) -> (
    Result<Answer, NoMemory>,
    (Result<Answer, NoMemory>, Result<Answer, NoMemory>),
)
    requires { AreOf heap.now.locks first.turns × AreOf heap.now.locks second.turns }
{
    join(
        rt,
        ||
            requires { AreOf heap.now.locks first.turns }
        { asks(rt, heap, first, 8) },
        ||
            requires { AreOf heap.now.locks second.turns }
        { second_asks(heap, gate, second) },
    )
}

#[test]
fn a_region_is_busy_by_itself(rt: HostRuntime) -> Result<(), Fail> {
    let gate = Holding::new();
    let config = Config::standard();
    let (heap, mut root) = Heap::build(rt.alloc(), config, 1, &mut PlainMaker, &gate)?;
    let first = heap.split(rt.alloc(), &mut root, 1, 1)?;
    let second = heap.split(rt.alloc(), &mut root, 1, 5)?;
    let (given, (held, free)) = both_ask(&rt, &heap, &gate, first, second);
    assert_eq!(rt; told_by(&given?), Told::Given(8));
    assert_eq!(rt; told_by(&held?), Told::Busy);
    assert_eq!(rt; told_by(&free?), Told::Given(4088));
    Ok(())
}

fn both_wait<R: Threads + Wait + Sync, P: Pages>(
    rt: &R,
    heap: &Heap<P, Meeting>,
    first: Pass,
    second: Pass,
) -> (Result<Answer, NoMemory>, Result<Answer, NoMemory>)
    requires { AreOf heap.now.locks first.turns × AreOf heap.now.locks second.turns }
{
    join(
        rt,
        ||
            requires { AreOf heap.now.locks first.turns }
        { asks(rt, heap, first, 8) },
        ||
            requires { AreOf heap.now.locks second.turns }
        { asks(rt, heap, second, 4000) },
    )
}

/// Two calls that may wait, each in a thread of its own, are inside two regions at once.
#[test]
fn waiting_calls_meet(rt: HostRuntime) -> Result<(), Fail> {
    let gate = Meeting::of(2);
    let config = Config::standard();
    let (heap, mut root) = Heap::build(rt.alloc(), config, 1, &mut PlainMaker, &gate)?;
    let first = heap.split(rt.alloc(), &mut root, 1, 1)?;
    let second = heap.split(rt.alloc(), &mut root, 1, 2)?;
    let (small, great) = both_wait(&rt, &heap, first, second);
    assert_eq!(rt; told_by(&small?), Told::Given(8));
    assert_eq!(rt; told_by(&great?), Told::Given(4088));
    assert_eq!(rt; gate.counts(), (2, 0));
    Ok(())
}

/// A maker that tells for which regions it made pages.
#[derive(Drop)]
struct NotingMaker {
    made: Vec<u32>,
}

impl PageMaker for NotingMaker {
    type P = PlainPages;

    ghost made = { λ m. Some m.made.items };

    fn make(&mut self, alloc: Global, region: RegionId) -> Result<PlainPages, NoMemory> {
        let mut maker = PlainMaker;
        let pages = maker.make(alloc, region)?;
        self.made.push(region.0)?;
        Ok(pages)
    }
}

#[test]
fn each_region_has_pages_and_a_history(rt: HostRuntime) -> Result<(), Fail> {
    let mut maker = NotingMaker {
        made: Vec::new(rt.alloc()),
    };
    let config = Config::standard();
    let (heap, pass) = Heap::build(rt.alloc(), config, 1, &mut maker, &NoGate)?;
    assert!(rt; pass.caller() == 0 && pass.round() == 0 && pass.thread() == 1 && pass.out() == 0);
    assert!(rt; maker.made.len() == 197);
    assert!(rt;
        (0..197u32)
            .zip(&maker.made)
            .all(|(region, made)| region == *made)
    );
    let closed = heap.close(rt.alloc(), pass)?;
    assert!(rt; closed.histories.items().len() == 197 && closed.pages.items().len() == 197);
    Ok(())
}

/// Two passes are split off, each asks for 100 bytes, and both are joined.
fn two_passes<R: Wait, P: Pages, G: Gate>(
    rt: &R,
    alloc: Global,
    heap: &Heap<P, G>,
    root: &mut Pass,
) -> Result<(Answer, Answer), NoMemory>
    requires of { AreOf heap.now.locks root.old.turns }
    requires root { (root.old.caller ≡ 0) × (root.old.splits ≡ 0) × (root.old.out ≡ 0) }
    ensures of { OnOk result (AreOf heap.entry.now.locks root.new.turns) }
    ensures root { OnOk result ((root.new.caller ≡ 0) × (root.new.out ≡ 0)) }
{
    let mut first = heap.split(alloc, root, 1, 1)?;
    let mut second = heap.split(alloc, root, 1, 2)?;
    let given = heap.malloc(rt, &mut first, 1, 100)?;
    let other = heap.malloc(rt, &mut second, 1, 100)?;
    heap.join(root, first);
    heap.join(root, second);
    Ok((given, other))
}

/// How many entries the history of a region has.
fn entries_of<P>(closed: &Closed<P>, region: usize) -> Option<usize> {
    let history = closed.histories.items().get(region)?;
    Some(history.entries.items().len())
}

#[test]
fn passes_are_joined_and_closed(rt: HostRuntime) -> Result<(), Fail> {
    let config = Config::standard();
    let (heap, mut root) = Heap::build(rt.alloc(), config, 1, &mut PlainMaker, &NoGate)?;
    let (given, other) = two_passes(&rt, rt.alloc(), &heap, &mut root)?;
    assert_eq!(rt;
        (told_by(&given), told_by(&other)),
        (Told::Given(104), Told::Given(104))
    );
    let freed = heap.free(&rt, &mut root, 1, block_of(&given).unwrap_or(0))?;
    assert_eq!(rt; told_by(&freed), Told::Freed);
    assert_eq!(rt; (root.caller(), root.out()), (0, 0));
    let closed = heap.close(rt.alloc(), root)?;
    assert_eq!(rt; entries_of(&closed, 7), Some(2));
    assert_eq!(rt; entries_of(&closed, 56), Some(1));
    assert_eq!(rt; entries_of(&closed, 196), Some(0));
    Ok(())
}

/// The root makes calls before a pass is split off and after it was joined.
#[test]
fn a_root_goes_on_round_a_split(rt: HostRuntime) -> Result<(), Fail> {
    let config = Config::standard();
    let (heap, mut root) = Heap::build(rt.alloc(), config, 1, &mut PlainMaker, &NoGate)?;
    let given = heap.malloc(&rt, &mut root, 1, 100)?;
    assert_eq!(rt; told_by(&given), Told::Given(104));
    let pass = heap.split(rt.alloc(), &mut root, 1, 1)?;
    assert_eq!(rt; (root.caller(), root.out(), pass.caller()), (0, 1, 1));
    heap.join(&mut root, pass);
    let freed = heap.free(&rt, &mut root, 2, block_of(&given).unwrap_or(0))?;
    assert_eq!(rt; told_by(&freed), Told::Freed);
    let again = heap.split(rt.alloc(), &mut root, 1, 2)?;
    assert_eq!(rt; again.caller(), 2);
    heap.join(&mut root, again);
    assert_eq!(rt; (root.caller(), root.out()), (0, 0));
    Ok(())
}

/// A large block is given and freed: two changes of its size, which no entry of the look itself joins.
#[test]
fn changes_of_large_blocks(rt: HostRuntime) -> Result<(), Fail> {
    let config = Config::standard();
    let (heap, mut root) = Heap::build(rt.alloc(), config, 1, &mut PlainMaker, &NoGate)?;
    let given = heap.malloc(&rt, &mut root, 1, 200_000)?;
    let addr = block_of(&given).ok_or("a block")?;
    let freed = heap.free(&rt, &mut root, 2, addr)?;
    assert_eq!(rt; told_by(&freed), Told::Freed);
    let seen = heap.large_changes(&rt, rt.alloc(), &mut root, 0)?;
    assert_eq!(rt; seen.upto, 2);
    assert_eq!(rt;
        seen.list.as_slice(),
        [
            SizeChange::Put {
                addr,
                size: 229_376
            },
            SizeChange::Gone { addr }
        ]
        .as_slice()
    );
    Ok(())
}

const GREATEST: [(Ask, Told); 5] = [
    (Ask::Malloc(1 << 30), Told::Given(1 << 30)),
    (Ask::Malloc((1 << 30) + 1), Told::TooLarge),
    (Ask::Usable(1, 0), Told::Usable(1 << 30)),
    (Ask::Sized(1, 1 << 30), Told::Freed),
    (Ask::Free(1, 0), Told::NotLive),
];

#[test]
fn greatest_block(rt: HostRuntime) -> Result<(), Fail> {
    let config = Config::standard();
    let (heap, mut pass) = Heap::build(rt.alloc(), config, 1, &mut SilentMaker, &NoGate)?;
    let other = first_other(&rt, rt.alloc(), &heap, &mut pass, &GREATEST)?;
    assert_eq!(rt; other, None, "the first row that is answered otherwise");
    Ok(())
}
