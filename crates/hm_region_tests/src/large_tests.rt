//! Examples of the large region over pages in memory. A test makes the region, and a function over any pages looks at
//! its replies: so each has few ways out while a region is to be dropped, and its proof is short.
ghost use Rattle.std.specs.Prelude.{◌≡◌, ◌≤◌, ◌^◌, IsTrue};
ghost use Rattle.std.specs.FinMap as map;
ghost use Rattle.hm_outside.specs.Makers.{IsOwned};
ghost use Rattle.hm_sizes.specs.Origins.{large_region_number};

use crate::lending_pages::LendingPages;
use hm_base::{NoMemory, RegionId};
use hm_fakes::{FailingPages, PlainPages, SilentPages};
use hm_large::LargeHeap;
use hm_model::{Reply, Runs, Who};
use hm_outside::Pages;
use hm_sizes::{Config, LARGE_START};
use std::alloc::Global;
use std::process::Abort;
use std::test::Fail;

const WHO: Who = Who {
    caller: 1,
    round: 1,
    thread: 1,
    step: 1,
    part: 1,
};

/// The large region.
const REGION: RegionId = RegionId(196);

/// The last address that a call may name.
const LAST: u64 = (1 << 47) - 1;

/// A region with the least large space.
fn region_of<P: Pages>(alloc: Global, pages: P) -> Result<LargeHeap<P>, NoMemory>
    requires nothing { IsTrue (P.told pages) → P.runs pages ≡ map.empty }
    requires count { P.faults pages ≡ 0 }
    requires owned { IsOwned (P.owner pages) large_region_number }
{
    let config = Config {
        large_space: 1 << 20,
        ..Config::standard()
    };
    LargeHeap::build(alloc, &config, 0, pages)
}

/// A region of the standard configuration.
fn standard<P: Pages>(alloc: Global, pages: P) -> Result<LargeHeap<P>, NoMemory>
    requires nothing { IsTrue (P.told pages) → P.runs pages ≡ map.empty }
    requires count { P.faults pages ≡ 0 }
    requires owned { IsOwned (P.owner pages) large_region_number }
{
    LargeHeap::build(alloc, &Config::standard(), 0, pages)
}

/// The address and the usable bytes of the block that is given at any page.
fn given<P: Pages>(region: &mut LargeHeap<P>, asked: u64) -> Result<(u64, u64), Fail>
    requires { asked ≤ 2 ^ 30 }
{
    block_of(region.allot(WHO, asked, 1)?)
}

/// Whether no range is free for a block.
fn is_full<P: Pages>(region: &mut LargeHeap<P>, asked: u64) -> Result<bool, NoMemory>
    requires { asked ≤ 2 ^ 30 }
{
    Ok(matches!(region.allot(WHO, asked, 1)?, Reply::NoSpace))
}

/// Whether a page fault occurs as a block is allotted.
fn faults_at_allot<P: Pages>(region: &mut LargeHeap<P>, asked: u64) -> Result<bool, NoMemory>
    requires { asked ≤ 2 ^ 30 }
{
    Ok(matches!(region.allot(WHO, asked, 1)?, Reply::PagesFailed))
}

/// Takes a block back.
fn free<P: Pages>(region: &mut LargeHeap<P>, addr: u64) -> Result<(), Fail> {
    match region.give_back(WHO, addr, None)? {
        Reply::Freed => Ok(()),
        _ => Err(Fail::new("not freed")),
    }
}

/// Whether a page fault occurs as a block is taken back.
fn faults_at_free<P: Pages>(region: &mut LargeHeap<P>, addr: u64) -> Result<bool, NoMemory> {
    Ok(matches!(region.give_back(WHO, addr, None)?, Reply::PagesFailed))
}

/// The usable bytes of a live block that starts here.
fn measured<P: Pages>(region: &mut LargeHeap<P>, addr: u64) -> Result<Option<u64>, Fail> {
    match region.measure(WHO, addr)? {
        Reply::Usable(bytes) => Ok(Some(bytes)),
        Reply::NotLive => Ok(None),
        _ => Err(Fail::new("not measured")),
    }
}

/// The first address of a byte that cannot be read, if it cannot.
fn trap<P: Pages>(region: &mut LargeHeap<P>, addr: u64) -> Result<Option<u64>, Fail> {
    match region.fetch(WHO, addr.min(LAST), 1)? {
        Reply::Bytes(_) => Ok(None),
        Reply::Trap { addr } => Ok(Some(addr)),
        _ => Err(Fail::new("not read")),
    }
}

/// The first address of a hundred bytes that cannot be written, if they cannot.
fn write_trap<P: Pages>(
    alloc: Global,
    region: &mut LargeHeap<P>,
    addr: u64,
) -> Result<Option<u64>, Fail> {
    let runs = Runs::same(alloc, 7, 100)?;
    match region.fill(WHO, addr.min(LAST), &runs)? {
        Reply::Filled => Ok(None),
        Reply::Trap { addr } => Ok(Some(addr)),
        _ => Err(Fail::new("not written")),
    }
}

/// How many words the last entry holds, and what it released.
fn last_draws<P: Pages>(region: &LargeHeap<P>) -> Option<(u8, Option<u64>)> {
    let entry = region.entries().last()?;
    Some((entry.draws.used, entry.choices.released))
}

/// The address and the usable bytes that a reply tells.
fn block_of(reply: Reply) -> Result<(u64, u64), Fail> {
    match reply {
        Reply::Given { addr, usable } => Ok((addr, usable)),
        _ => Err(Fail::new("no block")),
    }
}

#[test]
fn readings(rt: HostRuntime) -> Result<(), Fail> {
    let alloc = rt.alloc();
    let mut region = region_of(alloc, PlainPages::new(alloc, REGION))?;
    let (block, _) = given(&mut region, 163_840)?;
    assert!(rt; region.spare() >= 1, "room for the free");
    assert!(rt; region.pages().holds(block, 163_840));
    let (entries, pages) = region.into_entries();
    assert_eq!(rt; entries.items().len(), 1);
    assert!(rt; !pages.holds(block, 163_841), "a guard");
    Ok(())
}

#[test]
fn size_of_a_block(rt: HostRuntime) -> Result<(), Fail> {
    let alloc = rt.alloc();
    let mut region = standard(alloc, PlainPages::new(alloc, REGION))?;
    expect_size_of_a_block(&rt, &mut region)
}

fn expect_size_of_a_block<P: Pages>(
    rt: &impl Abort,
    region: &mut LargeHeap<P>,
) -> Result<(), Fail> {
    let (addr, usable) = given(region, 200_000)?;
    assert_eq!(rt; usable, 229_376);
    assert_eq!(rt; addr % 4096, 0);
    assert!(rt; addr > LARGE_START);
    assert_eq!(rt; measured(region, addr)?, Some(229_376));
    Ok(())
}

#[test]
fn trap_at_the_end(rt: HostRuntime) -> Result<(), Fail> {
    let alloc = rt.alloc();
    let mut region = standard(alloc, PlainPages::new(alloc, REGION))?;
    expect_trap_at_the_end(&rt, &mut region)
}

fn expect_trap_at_the_end<P: Pages>(
    rt: &impl Abort,
    region: &mut LargeHeap<P>,
) -> Result<(), Fail> {
    let (addr, usable) = given(region, 200_000)?;
    let end = addr.wrapping_add(usable);
    assert_eq!(rt; trap(region, end)?, Some(end));
    assert_eq!(rt; trap(region, end.wrapping_sub(1))?, None);
    Ok(())
}

#[test]
fn refused_frees(rt: HostRuntime) -> Result<(), Fail> {
    let alloc = rt.alloc();
    let mut region = standard(alloc, PlainPages::new(alloc, REGION))?;
    expect_refused_frees(&rt, &mut region)
}

fn expect_refused_frees<P: Pages>(rt: &impl Abort, region: &mut LargeHeap<P>) -> Result<(), Fail> {
    let (addr, _) = given(region, 200_000)?;
    let inside = addr.wrapping_add(8);
    assert!(rt; matches!(region.give_back(WHO, inside, None)?, Reply::NotLive));
    assert!(rt;
        matches!(
            region.give_back(WHO, addr, Some(100_000))?,
            Reply::WrongSize {
                block: 229_376,
                stated: 114_688
            }
        )
    );
    Ok(())
}

#[test]
fn freed_block(rt: HostRuntime) -> Result<(), Fail> {
    let alloc = rt.alloc();
    let mut region = standard(alloc, PlainPages::new(alloc, REGION))?;
    expect_freed_block(&rt, &mut region)
}

fn expect_freed_block<P: Pages>(rt: &impl Abort, region: &mut LargeHeap<P>) -> Result<(), Fail> {
    let (addr, _) = given(region, 200_000)?;
    assert!(rt; matches!(region.give_back(WHO, addr, Some(220_000))?, Reply::Freed));
    assert_eq!(rt; measured(region, addr)?, None);
    Ok(())
}

#[test]
fn great_block_draws_no_place(rt: HostRuntime) -> Result<(), Fail> {
    let alloc = rt.alloc();
    let mut region = standard(alloc, PlainPages::new(alloc, REGION))?;
    expect_great_block_draws_no_place(&rt, &mut region)
}

fn expect_great_block_draws_no_place<P: Pages>(
    rt: &impl Abort,
    region: &mut LargeHeap<P>,
) -> Result<(), Fail> {
    let (addr, _) = given(region, 40_000_000)?;
    assert_eq!(rt; last_draws(region), Some((1, None)));
    free(region, addr)?;
    assert_eq!(rt; last_draws(region), Some((0, None)));
    Ok(())
}

#[test]
fn space_stays_in_quarantine(rt: HostRuntime) -> Result<(), Fail> {
    let alloc = rt.alloc();
    let mut region = region_of(alloc, PlainPages::new(alloc, REGION))?;
    expect_space_stays_in_quarantine(&rt, &mut region)
}

fn expect_space_stays_in_quarantine<P: Pages>(
    rt: &impl Abort,
    region: &mut LargeHeap<P>,
) -> Result<(), Fail> {
    let (addr, usable) = given(region, 500_000)?;
    assert_eq!(rt; usable, 524_288);
    assert!(rt; is_full(region, 500_000)?);
    free(region, addr)?;
    assert!(rt; is_full(region, 500_000)?);
    Ok(())
}

#[test]
fn aligned_blocks(rt: HostRuntime) -> Result<(), Fail> {
    let alloc = rt.alloc();
    let mut region = standard(alloc, PlainPages::new(alloc, REGION))?;
    expect_aligned_blocks(&rt, &mut region)
}

fn expect_aligned_blocks<P: Pages>(rt: &impl Abort, region: &mut LargeHeap<P>) -> Result<(), Fail> {
    let (page, _) = block_of(region.allot(WHO, 5_000, 4096)?)?;
    assert_eq!(rt; page % 4096, 0);
    let (block, usable) = block_of(region.allot(WHO, 5_000, 1 << 21)?)?;
    assert_eq!(rt; usable, 8192);
    assert_eq!(rt; block % (1 << 21), 0);
    Ok(())
}

#[test]
fn written_bytes(rt: HostRuntime) -> Result<(), Fail> {
    let alloc = rt.alloc();
    let mut region = standard(alloc, PlainPages::new(alloc, REGION))?;
    expect_written_bytes(&rt, alloc, &mut region)
}

fn expect_written_bytes<P: Pages>(
    rt: &impl Abort,
    alloc: Global,
    region: &mut LargeHeap<P>,
) -> Result<(), Fail> {
    let (addr, _) = given(region, 10_000)?;
    assert_eq!(rt; write_trap(alloc, region, addr)?, None);
    match region.fetch(WHO, addr.min(LAST), 101)? {
        Reply::Bytes(bytes) => assert_eq!(rt; bytes.pairs(), [(7, 100), (0, 1)].as_slice()),
        _ => return Err(Fail::new("not read")),
    }
    Ok(())
}

#[test]
fn page_fault_gives_nothing(rt: HostRuntime) -> Result<(), Fail> {
    let alloc = rt.alloc();
    let pages = FailingPages::build(alloc, REGION, vec![in alloc; 1]?);
    let mut region = standard(alloc, pages)?;
    expect_page_fault_gives_nothing(&rt, &mut region)
}

fn expect_page_fault_gives_nothing<P: Pages>(
    rt: &impl Abort,
    region: &mut LargeHeap<P>,
) -> Result<(), Fail> {
    assert!(rt; faults_at_allot(region, 200_000)?);
    assert_eq!(rt; region.faults(), 1);
    let _block = given(region, 200_000)?;
    Ok(())
}

#[test]
fn fault_at_a_drop_leaves_the_block(rt: HostRuntime) -> Result<(), Fail> {
    let alloc = rt.alloc();
    let pages = FailingPages::build(alloc, REGION, vec![in alloc; 2]?);
    let mut region = standard(alloc, pages)?;
    expect_fault_at_a_drop_leaves_the_block(&rt, &mut region)
}

fn expect_fault_at_a_drop_leaves_the_block<P: Pages>(
    rt: &impl Abort,
    region: &mut LargeHeap<P>,
) -> Result<(), Fail> {
    let (addr, _) = given(region, 200_000)?;
    assert!(rt; faults_at_free(region, addr)?);
    assert_eq!(rt; measured(region, addr)?, Some(229_376));
    free(region, addr)
}

#[test]
fn pages_that_lend_nothing(rt: HostRuntime) -> Result<(), Fail> {
    let alloc = rt.alloc();
    let mut region = standard(alloc, SilentPages::new(alloc))?;
    expect_pages_that_lend_nothing(&rt, alloc, &mut region)
}

fn expect_pages_that_lend_nothing<P: Pages>(
    rt: &impl Abort,
    alloc: Global,
    region: &mut LargeHeap<P>,
) -> Result<(), Fail> {
    let (block, _) = given(region, 200_000)?;
    assert_eq!(rt; trap(region, block)?, Some(block));
    assert_eq!(rt; write_trap(alloc, region, block)?, Some(block));
    free(region, block)
}

#[test]
fn freed_block_that_pages_lend(rt: HostRuntime) -> Result<(), Fail> {
    let alloc = rt.alloc();
    let mut region = standard(alloc, LendingPages::build(alloc)?)?;
    expect_freed_block_that_pages_lend(&rt, alloc, &mut region)
}

fn expect_freed_block_that_pages_lend<P: Pages>(
    rt: &impl Abort,
    alloc: Global,
    region: &mut LargeHeap<P>,
) -> Result<(), Fail> {
    let (block, _) = given(region, 200_000)?;
    assert_eq!(rt; write_trap(alloc, region, block)?, None);
    assert_eq!(rt; trap(region, block)?, None);
    free(region, block)?;
    assert_eq!(rt; trap(region, block)?, Some(block));
    assert_eq!(rt; write_trap(alloc, region, block)?, Some(block));
    Ok(())
}
