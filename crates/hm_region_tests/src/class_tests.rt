//! Examples of regions over pages in memory. A test names the class by the size of its requests, and
//! looks at replies and at what the entries chose and drew. Where it looks at more than a little, a function
//! over any pages does so: it has no region to drop, so its proof is short.
ghost use Rattle.std.specs.Prelude.{◌≡◌, ◌≤◌, ◌<◌, IsTrue};
ghost use Rattle.std.specs.FinMap as map;
ghost use Rattle.hm_outside.specs.Makers.{IsOwned};
ghost use Rattle.hm_sizes.specs.Classes.{class_count};
ghost use Rattle.hm_sizes.specs.Origins.{class_region_number};

use hm_base::{NoMemory, RegionId};
use hm_class::ClassHeap;
use hm_fakes::{FailingPages, PlainPages, SilentPages};
use hm_model::{Draws, Reply, Runs, Who};
use hm_outside::Pages;
use hm_sizes::{ClassId, Config, Kind, class_of};
use std::alloc::Global;
use std::process::Abort;
use std::test::Fail;

/// Where slab 0 of class 7 begins in arena 0 of seed 0, and the first block there. These addresses, and the words and
/// the canary of `words_of_run_zero`, were computed by another program from the definition of ChaCha8. They are those
/// of `first_region` and `first_entries` in `hm_class_rules`.
const FIRST: u64 = 1_592_101_122_048;

const BLOCK: u64 = 1_592_101_124_736;

/// Seed 0 and a few more.
const RUNS: [u64; 4] = [0, 1, 2, u64::MAX];

/// The last address that a call may name.
const LAST: u64 = (1 << 47) - 1;

const WHO: Who = Who {
    caller: 1,
    round: 1,
    thread: 1,
    step: 1,
    part: 1,
};

/// A region in arena 0 of a seed, whose quarantine has this base. Its number is that of its class.
fn region_of<P: Pages>(
    alloc: Global,
    run: u64,
    class: u8,
    base: u32,
    pages: P,
) -> Result<ClassHeap<P>, NoMemory>
    requires class { class < class_count }
    requires base { base ≤ 1 }
    requires nothing { IsTrue (P.told pages) → P.runs pages ≡ map.empty }
    requires count { P.faults pages ≡ 0 }
    requires owned { IsOwned (P.owner pages) (class_region_number 0 (record { 0 = class })) }
{
    let config = Config {
        array_base: base,
        ring_base: base,
        ..Config::standard()
    };
    ClassHeap::build(alloc, &config, run, 0, ClassId(class), pages)
}

/// The same in run 0.
fn region<P: Pages>(alloc: Global, class: u8, base: u32, pages: P) -> Result<ClassHeap<P>, NoMemory>
    requires class { class < class_count }
    requires base { base ≤ 1 }
    requires nothing { IsTrue (P.told pages) → P.runs pages ≡ map.empty }
    requires count { P.faults pages ≡ 0 }
    requires owned { IsOwned (P.owner pages) (class_region_number 0 (record { 0 = class })) }
{
    region_of(alloc, 0, class, base, pages)
}

/// A region in arena 0 of seed 0, in the light configuration.
fn light_region<P: Pages>(alloc: Global, class: u8, pages: P) -> Result<ClassHeap<P>, NoMemory>
    requires class { class < class_count }
    requires nothing { IsTrue (P.told pages) → P.runs pages ≡ map.empty }
    requires count { P.faults pages ≡ 0 }
    requires owned { IsOwned (P.owner pages) (class_region_number 0 (record { 0 = class })) }
{
    ClassHeap::build(alloc, &Config::light(), 0, 0, ClassId(class), pages)
}

/// The reply to a request, which must be one of the region's class.
fn allot<P: Pages>(region: &mut ClassHeap<P>, asked: u64) -> Result<Reply, Fail> {
    match class_of(asked) {
        Kind::Small(class) if class.0 == region.shape().class.0 => Ok(region.allot(WHO, asked)?),
        _ => Err(Fail::new("a request of another class")),
    }
}

/// The address of the block that is given.
fn given<P: Pages>(region: &mut ClassHeap<P>, asked: u64) -> Result<u64, Fail> {
    match allot(region, asked)? {
        Reply::Given { addr, .. } => Ok(addr),
        _ => Err(Fail::new("no block")),
    }
}

/// Takes a block back.
fn free<P: Pages>(region: &mut ClassHeap<P>, addr: u64) -> Result<(), Fail> {
    match region.give_back(WHO, addr, None)? {
        Reply::Freed => Ok(()),
        _ => Err(Fail::new("not freed")),
    }
}

/// Writes the byte 0x41 at an address.
fn stain<P: Pages>(alloc: Global, region: &mut ClassHeap<P>, addr: u64) -> Result<(), Fail> {
    let runs = Runs::same(alloc, 0x41, 1)?;
    match region.fill(WHO, addr.min(LAST), &runs)? {
        Reply::Filled => Ok(()),
        _ => Err(Fail::new("not written")),
    }
}

/// A byte and how often it stands in a row.
type Run = Option<(u8, u64)>;

/// The first two runs of five bytes from an address on.
fn two_runs<P: Pages>(region: &mut ClassHeap<P>, addr: u64) -> Result<(Run, Run), Fail> {
    match region.fetch(WHO, addr.min(LAST), 5)? {
        Reply::Bytes(runs) => Ok((runs.pairs().first().copied(), runs.pairs().get(1).copied())),
        _ => Err(Fail::new("not read")),
    }
}

/// Whether a write of one byte is answered by a trap at its address.
fn write_traps<P: Pages>(
    alloc: Global,
    region: &mut ClassHeap<P>,
    addr: u64,
) -> Result<bool, Fail> {
    let runs = Runs::same(alloc, 0x41, 1)?;
    let reply = region.fill(WHO, addr.min(LAST), &runs)?;
    Ok(matches!(reply, Reply::Trap { addr: at } if at == addr))
}

/// The slabs that a call opened, retired and purged.
type Moved = (Option<u64>, Option<u64>, Option<u64>);

/// What the call of this number did to slabs, the first call being 0.
fn moved<P: Pages>(region: &ClassHeap<P>, at: usize) -> Option<Moved> {
    let choices = region.entries().get(at)?.choices;
    Some((choices.opened, choices.retired, choices.purged))
}

/// The slab that left its parking index in a call.
fn unparked<P: Pages>(region: &ClassHeap<P>, at: usize) -> Option<Option<u64>> {
    Some(region.entries().get(at)?.choices.unparked)
}

/// The address that left the quarantine in a call.
fn released<P: Pages>(region: &ClassHeap<P>, at: usize) -> Option<u64> {
    region.entries().get(at)?.choices.released
}

/// The canary of the slab that a call opened.
fn canary<P: Pages>(region: &ClassHeap<P>, at: usize) -> Option<u64> {
    region.entries().get(at)?.choices.canary
}

/// The words that a call drew.
fn drawn<P: Pages>(region: &ClassHeap<P>, at: usize) -> Option<Draws> {
    Some(region.entries().get(at)?.draws)
}

/// The counts of page faults at the start and the end of a call.
fn faults<P: Pages>(region: &ClassHeap<P>, at: usize) -> Option<(u64, u64)> {
    let entry = region.entries().get(at)?;
    Some((entry.faults_before, entry.faults_after))
}

/// The block that a request of 130,000 bytes is given, where no page fault occurs.
fn block<P: Pages>(region: &mut ClassHeap<P>) -> Result<Option<u64>, Fail> {
    match allot(region, 130_000)? {
        Reply::Given { addr, .. } => Ok(Some(addr)),
        Reply::PagesFailed => Ok(None),
        _ => Err(Fail::new("no block")),
    }
}

/// Takes a block back, if there is one.
fn free_some<P: Pages>(region: &mut ClassHeap<P>, block: Option<u64>) -> Result<(), Fail> {
    match block {
        Some(addr) => free(region, addr),
        None => Ok(()),
    }
}

/// Takes a block back and then writes to it, if there is one.
fn free_and_stain<P: Pages>(
    alloc: Global,
    region: &mut ClassHeap<P>,
    block: Option<u64>,
) -> Result<(), Fail> {
    match block {
        Some(addr) => {
            free(region, addr)?;
            stain(alloc, region, addr)
        }
        None => Ok(()),
    }
}

/// Three blocks are given and taken back, and the first one is written to once it is free. Two more
/// requests follow, the replies to which are answered.
fn stained_block<P: Pages>(
    alloc: Global,
    region: &mut ClassHeap<P>,
) -> Result<(Reply, Reply), Fail> {
    let a = block(region)?;
    let b = block(region)?;
    let c = block(region)?;
    free_and_stain(alloc, region, a)?;
    free_some(region, b)?;
    free_some(region, c)?;
    let d = allot(region, 130_000)?;
    let e = allot(region, 130_000)?;
    Ok((d, e))
}

/// The same, with a page fault at the call on the pages of this number. The count of faults is answered too.
fn fault_once(alloc: Global, call: u64) -> Result<(Reply, Reply, u64), Fail> {
    let mut fail_calls = Vec::new(alloc);
    fail_calls.push(call)?;
    let pages = FailingPages::build(alloc, RegionId(48), fail_calls);
    let mut region = region(alloc, 48, 1, pages)?;
    let (d, e) = stained_block(alloc, &mut region)?;
    Ok((d, e, region.faults()))
}

/// Gives so many blocks of no bytes, and takes them back in the same order.
fn come_and_go<P: Pages>(
    alloc: Global,
    region: &mut ClassHeap<P>,
    count: usize,
) -> Result<(), Fail> {
    let blocks = empty_blocks(alloc, region, count)?;
    for addr in &blocks {
        free(region, *addr)?;
    }
    Ok(())
}

/// So many blocks of no bytes.
fn empty_blocks<P: Pages>(
    alloc: Global,
    region: &mut ClassHeap<P>,
    count: usize,
) -> Result<Vec<u64>, Fail> {
    let mut blocks = Vec::new(alloc);
    for _ in 0..count {
        blocks.push(given(region, 0)?)?;
    }
    Ok(blocks)
}

/// Two blocks are given.
fn two_given<P: Pages>(region: &mut ClassHeap<P>) -> Result<(u64, u64), Fail> {
    let a = given(region, 130_000)?;
    let b = given(region, 130_000)?;
    Ok((a, b))
}

/// Two blocks are given and taken back, and two more are given.
fn two_and_two<P: Pages>(region: &mut ClassHeap<P>) -> Result<[u64; 4], Fail> {
    let (a, b) = two_given(region)?;
    free(region, a)?;
    free(region, b)?;
    let (c, d) = two_given(region)?;
    Ok([a, b, c, d])
}

/// Four blocks are given and taken back, and the second one is written to once it is free. Two more are
/// given. The first, the second and the fifth are answered.
fn stained_second<P: Pages>(
    alloc: Global,
    region: &mut ClassHeap<P>,
) -> Result<(u64, u64, u64), Fail> {
    let (z, a) = two_given(region)?;
    let (b, c) = two_given(region)?;
    free(region, z)?;
    free_and_stain(alloc, region, Some(a))?;
    free(region, b)?;
    free(region, c)?;
    let (d, _) = two_given(region)?;
    Ok((z, a, d))
}

/// The first address of a byte that cannot be read, if it cannot.
fn trap<P: Pages>(region: &mut ClassHeap<P>, addr: u64) -> Result<Option<u64>, Fail> {
    match region.fetch(WHO, addr.min(LAST), 1)? {
        Reply::Trap { addr } => Ok(Some(addr)),
        _ => Ok(None),
    }
}

/// A block of 100 bytes is given and taken back.
fn one_block<P: Pages>(region: &mut ClassHeap<P>) -> Result<u64, Fail> {
    let block = given(region, 100)?;
    free(region, block)?;
    Ok(block)
}

/// Why an address is not taken back.
#[derive(Clone, Copy, Debug, PartialEq, Eq, Drop)]
enum Refused {
    NoSlot,
    Unused,
    DoubleFree,
}

/// Why giving back an address is refused.
fn refusal_of<P: Pages>(region: &mut ClassHeap<P>, addr: u64) -> Result<Refused, Fail> {
    match region.give_back(WHO, addr, None)? {
        Reply::NoSlot => Ok(Refused::NoSlot),
        Reply::Unused => Ok(Refused::Unused),
        Reply::DoubleFree => Ok(Refused::DoubleFree),
        _ => Err(Fail::new("not refused")),
    }
}

/// Why a freed block of seed 0, an address within it and the first slot, which was never given, are refused over
/// these pages.
fn refusals_over<P: Pages>(alloc: Global, pages: P) -> Result<(Refused, Refused, Refused), Fail>
    requires nothing { IsTrue (P.told pages) → P.runs pages ≡ map.empty }
    requires count { P.faults pages ≡ 0 }
    requires owned { IsOwned (P.owner pages) 7 }
{
    let mut region = region(alloc, 7, 1, pages)?;
    let block = one_block(&mut region)?;
    let again = refusal_of(&mut region, block)?;
    let inside = refusal_of(&mut region, block.wrapping_add(8))?;
    let unused = refusal_of(&mut region, FIRST)?;
    Ok((again, inside, unused))
}

#[test]
fn first_block_of_run_zero(rt: HostRuntime) -> Result<(), Fail> {
    let alloc = rt.alloc();
    let mut region = region(alloc, 7, 1, PlainPages::new(alloc, RegionId(7)))?;
    expect_first_block(&rt, &mut region)
}

fn expect_first_block<P: Pages>(rt: &impl Abort, region: &mut ClassHeap<P>) -> Result<(), Fail> {
    assert_eq!(rt; given(region, 100)?, BLOCK);
    assert!(rt; matches!(region.measure(WHO, BLOCK)?, Reply::Usable(104)));
    Ok(())
}

#[test]
fn words_of_run_zero(rt: HostRuntime) -> Result<(), Fail> {
    let alloc = rt.alloc();
    let mut region = region(alloc, 7, 1, PlainPages::new(alloc, RegionId(7)))?;
    let _block = one_block(&mut region)?;
    expect_words(&rt, &region);
    Ok(())
}

fn expect_words<P: Pages>(rt: &impl Abort, region: &ClassHeap<P>) {
    let opened = Draws {
        used: 3,
        w0: 3_231_088_256,
        w1: 3_392_945_114,
        w2: 2_935_142_444,
    };
    assert_eq!(rt; drawn(region, 0), Some(opened));
    let freed = Draws {
        used: 1,
        w0: 2_409_532_924,
        w1: 0,
        w2: 0,
    };
    assert_eq!(rt; drawn(region, 1), Some(freed));
    assert_eq!(rt; canary(region, 0), Some(14_572_588_304_984_079_872));
    assert_eq!(rt; released(region, 1), None);
}

#[test]
fn light_block_of_run_zero(rt: HostRuntime) -> Result<(), Fail> {
    let alloc = rt.alloc();
    let mut region = light_region(alloc, 7, PlainPages::new(alloc, RegionId(7)))?;
    expect_light_block(&rt, alloc, &mut region)?;
    expect_light_words(&rt, &region);
    Ok(())
}

/// The first slot is given, released at its own free, and given again with the byte that was written to it since.
fn expect_light_block<P: Pages>(
    rt: &impl Abort,
    alloc: Global,
    region: &mut ClassHeap<P>,
) -> Result<(), Fail> {
    assert_eq!(rt; one_block(region)?, FIRST);
    stain(alloc, region, FIRST)?;
    assert_eq!(rt; given(region, 100)?, FIRST);
    assert_eq!(rt; two_runs(region, FIRST)?, (Some((0x41, 1)), Some((0, 4))));
    free(region, FIRST)?;
    assert_eq!(rt; refusal_of(region, FIRST)?, Refused::DoubleFree);
    Ok(())
}

/// Only the canary is drawn.
fn expect_light_words<P: Pages>(rt: &impl Abort, region: &ClassHeap<P>) {
    let opened = Draws {
        used: 2,
        w0: 3_231_088_256,
        w1: 3_392_945_114,
        w2: 0,
    };
    assert_eq!(rt; drawn(region, 0), Some(opened));
    assert_eq!(rt; released(region, 1), Some(FIRST));
    for at in 1..7 {
        assert_eq!(rt; drawn(region, at), Some(Draws::none()), "call {at}");
    }
}

#[test]
fn another_size_is_stated(rt: HostRuntime) -> Result<(), Fail> {
    let alloc = rt.alloc();
    let mut region = region(alloc, 7, 1, PlainPages::new(alloc, RegionId(7)))?;
    let block = given(&mut region, 100)?;
    assert!(rt;
        matches!(
            region.give_back(WHO, block, Some(105))?,
            Reply::WrongSize {
                block: 112,
                stated: 128
            }
        )
    );
    Ok(())
}

#[test]
fn refused_frees(rt: HostRuntime) -> Result<(), Fail> {
    let alloc = rt.alloc();
    let expected = (Refused::DoubleFree, Refused::NoSlot, Refused::Unused);
    let plain = refusals_over(alloc, PlainPages::new(alloc, RegionId(7)))?;
    assert_eq!(rt; plain, expected, "plain pages");
    let failing = refusals_over(
        alloc,
        FailingPages::build(alloc, RegionId(7), Vec::new(alloc)),
    )?;
    assert_eq!(rt; failing, expected, "pages that may fail");
    let silent = refusals_over(alloc, SilentPages::new(alloc))?;
    assert_eq!(rt; silent, expected, "pages that lend nothing");
    Ok(())
}

#[test]
fn guard_is_no_slot(rt: HostRuntime) -> Result<(), Fail> {
    let alloc = rt.alloc();
    let mut region = region(alloc, 7, 1, PlainPages::new(alloc, RegionId(7)))?;
    let _block = one_block(&mut region)?;
    assert_eq!(rt; refusal_of(&mut region, FIRST + 4096)?, Refused::NoSlot);
    Ok(())
}

#[test]
fn readings(rt: HostRuntime) -> Result<(), Fail> {
    let alloc = rt.alloc();
    let mut region = region(alloc, 7, 1, PlainPages::new(alloc, RegionId(7)))?;
    let block = given(&mut region, 100)?;
    assert_eq!(rt; region.shape().class, ClassId(7));
    assert_eq!(rt; region.shape().first, FIRST);
    assert_eq!(rt; region.faults(), 0);
    assert!(rt; region.spare() >= 1, "room for the free");
    assert!(rt; region.pages().holds(block, 112));
    let (entries, pages) = region.into_entries();
    assert_eq!(rt; entries.items().len(), 1);
    assert!(rt; !pages.holds(FIRST, 4097), "a guard");
    Ok(())
}

/// What two requests, two frees and two requests do to slabs, where the second slab that is empty is retired.
const SECOND_RETIRED: [Moved; 6] = [
    (Some(0), None, None),
    (Some(2), None, None),
    (None, None, None),
    (None, Some(2), None),
    (None, None, None),
    (Some(4), None, None),
];

#[test]
fn second_empty_slab_is_retired(rt: HostRuntime) -> Result<(), Fail> {
    let alloc = rt.alloc();
    for run in RUNS {
        let mut region = region_of(alloc, run, 48, 0, PlainPages::new(alloc, RegionId(48)))?;
        expect_second_retired(&rt, &mut region, run)?;
    }
    Ok(())
}

fn expect_second_retired<P: Pages>(
    rt: &impl Abort,
    region: &mut ClassHeap<P>,
    run: u64,
) -> Result<(), Fail> {
    let [a, b, c, _d] = two_and_two(region)?;
    assert_eq!(rt; c, a, "run {run}");
    assert_eq!(rt; released(region, 2), Some(a), "run {run}");
    assert_eq!(rt; released(region, 3), Some(b), "run {run}");
    for (at, expected) in SECOND_RETIRED.into_iter().enumerate() {
        assert_eq!(rt; moved(region, at), Some(expected), "run {run}, call {at}");
    }
    assert_eq!(rt; unparked(region, 2), Some(None), "run {run}");
    assert_eq!(rt; unparked(region, 3), Some(None), "run {run}");
    Ok(())
}

#[test]
fn frees_are_refused_in_each_run(rt: HostRuntime) -> Result<(), Fail> {
    let alloc = rt.alloc();
    for run in RUNS {
        let mut region = region_of(alloc, run, 7, 1, PlainPages::new(alloc, RegionId(7)))?;
        expect_refused(&rt, &mut region, run)?;
    }
    Ok(())
}

fn expect_refused<P: Pages>(
    rt: &impl Abort,
    region: &mut ClassHeap<P>,
    run: u64,
) -> Result<(), Fail> {
    let block = one_block(region)?;
    let again = refusal_of(region, block)?;
    let inside = refusal_of(region, block.wrapping_add(8))?;
    assert_eq!(rt; again, Refused::DoubleFree, "run {run}");
    assert_eq!(rt; inside, Refused::NoSlot, "run {run}");
    Ok(())
}

/// What the same six calls do where the second slab stays after a page fault, and is purged.
const SECOND_PURGED: [Moved; 6] = [
    (Some(0), None, None),
    (Some(2), None, None),
    (None, None, None),
    (None, None, Some(2)),
    (None, None, None),
    (None, None, None),
];

#[test]
fn slab_that_stays_is_purged(rt: HostRuntime) -> Result<(), Fail> {
    let alloc = rt.alloc();
    for run in RUNS {
        let pages = FailingPages::build(alloc, RegionId(48), vec![in alloc; 3]?);
        let mut region = region_of(alloc, run, 48, 0, pages)?;
        expect_second_purged(&rt, &mut region, run)?;
    }
    Ok(())
}

fn expect_second_purged<P: Pages>(
    rt: &impl Abort,
    region: &mut ClassHeap<P>,
    run: u64,
) -> Result<(), Fail> {
    let [a, b, c, d] = two_and_two(region)?;
    assert_eq!(rt; (c, d), (b, a), "run {run}");
    for (at, expected) in SECOND_PURGED.into_iter().enumerate() {
        assert_eq!(rt; moved(region, at), Some(expected), "run {run}, call {at}");
    }
    assert_eq!(rt; faults(region, 3), Some((0, 1)), "run {run}");
    Ok(())
}

#[test]
fn write_after_a_free_is_found(rt: HostRuntime) -> Result<(), Fail> {
    let alloc = rt.alloc();
    for run in RUNS {
        let mut region = region_of(alloc, run, 48, 1, PlainPages::new(alloc, RegionId(48)))?;
        expect_found(&rt, alloc, &mut region, run)?;
    }
    Ok(())
}

fn expect_found<P: Pages>(
    rt: &impl Abort,
    alloc: Global,
    region: &mut ClassHeap<P>,
    run: u64,
) -> Result<(), Fail> {
    let (d, e) = stained_block(alloc, region)?;
    assert!(rt;
        matches!(
            d,
            Reply::Overwritten {
                at: 0,
                found: 0x41,
                ..
            }
        ),
        "run {run}"
    );
    assert!(rt;
        matches!(
            e,
            Reply::Given {
                usable: 131_064,
                ..
            }
        ),
        "run {run}"
    );
    assert_eq!(rt; moved(region, 8), Some((Some(6), None, None)), "run {run}");
    Ok(())
}

#[test]
fn retired_slab_forgets_its_bytes(rt: HostRuntime) -> Result<(), Fail> {
    let alloc = rt.alloc();
    let mut region = region(alloc, 48, 1, PlainPages::new(alloc, RegionId(48)))?;
    expect_forgotten(&rt, alloc, &mut region)
}

fn expect_forgotten<P: Pages>(
    rt: &impl Abort,
    alloc: Global,
    region: &mut ClassHeap<P>,
) -> Result<(), Fail> {
    let (z, a, d) = stained_second(alloc, region)?;
    assert_eq!(rt; d, z);
    assert_eq!(rt; moved(region, 10), Some((Some(8), None, None)));
    assert_eq!(rt; trap(region, a)?, Some(a));
    Ok(())
}

#[test]
fn page_fault_at_each_opening(rt: HostRuntime) -> Result<(), Fail> {
    let alloc = rt.alloc();
    for call in 1..4 {
        let (d, e, faults) = fault_once(alloc, call)?;
        assert!(rt;
            matches!(
                d,
                Reply::Given {
                    usable: 131_064,
                    ..
                }
            ),
            "call {call}"
        );
        assert!(rt;
            matches!(
                e,
                Reply::Given {
                    usable: 131_064,
                    ..
                }
            ),
            "call {call}"
        );
        assert_eq!(rt; faults, 1, "call {call}");
    }
    Ok(())
}

#[test]
fn page_fault_at_the_last_opening(rt: HostRuntime) -> Result<(), Fail> {
    let (d, e, faults) = fault_once(rt.alloc(), 4)?;
    assert!(rt;
        matches!(
            d,
            Reply::Overwritten {
                at: 0,
                found: 0x41,
                ..
            }
        )
    );
    assert!(rt; matches!(e, Reply::PagesFailed));
    assert_eq!(rt; faults, 1);
    Ok(())
}

#[test]
fn page_fault_draws_nothing(rt: HostRuntime) -> Result<(), Fail> {
    let alloc = rt.alloc();
    let pages = FailingPages::build(alloc, RegionId(7), vec![in alloc; 1]?);
    let mut region = region(alloc, 7, 1, pages)?;
    expect_nothing_drawn(&rt, &mut region)
}

fn expect_nothing_drawn<P: Pages>(rt: &impl Abort, region: &mut ClassHeap<P>) -> Result<(), Fail> {
    assert!(rt; matches!(allot(region, 100)?, Reply::PagesFailed));
    assert_eq!(rt; given(region, 100)?, BLOCK);
    assert_eq!(rt; faults(region, 0), Some((0, 1)));
    assert_eq!(rt; faults(region, 1), Some((1, 1)));
    Ok(())
}

// A slab of class 0 counts as one page: 32 of them stay empty.
#[test]
fn slabs_of_no_bytes(rt: HostRuntime) -> Result<(), Fail> {
    let alloc = rt.alloc();
    let mut region = region(alloc, 0, 0, PlainPages::new(alloc, RegionId(0)))?;
    come_and_go(alloc, &mut region, 40 * 256)?;
    assert_eq!(rt; canary(&region, 0), None);
    assert_eq!(rt; moved(&region, 18_431), Some((None, None, None)));
    assert_eq!(rt; moved(&region, 18_687), Some((None, Some(64), None)));
    Ok(())
}

#[test]
fn bytes_that_were_written_are_read(rt: HostRuntime) -> Result<(), Fail> {
    let alloc = rt.alloc();
    let mut region = region(alloc, 7, 1, PlainPages::new(alloc, RegionId(7)))?;
    let stained = stained_bytes(alloc, &mut region)?;
    assert_eq!(rt; stained, (Some((0x41, 1)), Some((0, 4))));
    Ok(())
}

/// The first two runs of five bytes of a block whose first byte was written.
fn stained_bytes<P: Pages>(alloc: Global, region: &mut ClassHeap<P>) -> Result<(Run, Run), Fail> {
    let block = given(region, 100)?;
    stain(alloc, region, block)?;
    two_runs(region, block)
}

#[test]
fn pages_that_lend_nothing(rt: HostRuntime) -> Result<(), Fail> {
    let alloc = rt.alloc();
    let mut region = region(alloc, 7, 1, SilentPages::new(alloc))?;
    expect_nothing_lent(&rt, alloc, &mut region)
}

fn expect_nothing_lent<P: Pages>(
    rt: &impl Abort,
    alloc: Global,
    region: &mut ClassHeap<P>,
) -> Result<(), Fail> {
    let block = given(region, 100)?;
    assert_eq!(rt; trap(region, block)?, Some(block));
    assert!(rt; write_traps(alloc, region, block)?);
    free(region, block)
}
