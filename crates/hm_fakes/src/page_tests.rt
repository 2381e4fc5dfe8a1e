//! What pages in memory hold, step by step, and that a list gives its items back.
ghost use Rattle.std.specs.Prelude.{◌≡◌, ◌≤◌, ◌+◌, ◌*◌, ◌%◌, ◌^◌, ℕ, IfOk, IsTrue};
ghost use Rattle.std.specs.FinMap as map;
ghost use Rattle.hm_outside.specs.PageRuns.{IsPageRun};

use crate::{FailingMaker, FailingPages, PlainMaker, PlainPages};
use hm_base::{List, RegionId};
use hm_outside::{PageFault, PageMaker, PageRefusal, Pages, Piece};
use std::alloc::Global;
use std::process::Abort;
use std::test::Fail;

// Three runs, made out of order; each begins 8,192 bytes after the last.
fn three_runs(alloc: Global, low: u64, count: u32) -> Result<PlainPages, PageRefusal>
    requires whole { low % 4096 ≡ 0 }
    requires some { 1 ≤ count }
    requires few { count ≤ 2 }
    requires below { low + 24576 ≤ 2 ^ 47 }
    ensures { IfOk result (λ p. IsPageRun p.runs (low + 8192) (4096 * count)) }
{
    let mut pages = PlainPages::new(alloc, RegionId(7));
    pages.make_accessible(low + 16384, count)?;
    pages.make_accessible(low, count)?;
    pages.make_accessible(low + 8192, count)?;
    Ok(pages)
}

// Writes the bytes, if their range can be written.
fn write_at(pages: &mut PlainPages, addr: u64, bytes: &[u8])
    ensures { (q n : ℕ) → IsPageRun pages.old.runs q n → IsPageRun pages.new.runs q n }
{
    if pages.holds(addr, bytes.len()) {
        pages.bytes_mut(addr, bytes.len()).copy_from_slice(bytes);
    }
}

// Writes one byte over a range, if it can be written.
fn fill_at(pages: &mut PlainPages, addr: u64, len: usize, byte: u8) {
    pages.fill(addr, len, byte);
}

// Whether the piece stands in memory and has these bytes.
fn is_bytes(piece: Option<Piece<'_>>, wanted: &[u8]) -> bool {
    match piece {
        Some(Piece::Bytes(bytes)) => bytes == wanted,
        _ => false,
    }
}

fn is_zero(piece: Option<Piece<'_>>) -> bool {
    match piece {
        Some(Piece::Bytes(bytes)) => bytes.iter().all(|b| *b == 0),
        _ => false,
    }
}

// The three runs, of which the middle one is written, purged and dropped.
fn walk(rt: &impl Abort, alloc: Global, low: u64, count: u32) -> Result<(), PageRefusal>
    requires whole { low % 4096 ≡ 0 }
    requires some { 1 ≤ count }
    requires few { count ≤ 2 }
    requires below { low + 24576 ≤ 2 ^ 47 }
{
    let size = count as usize * 4096;
    let middle = low + 8192;
    let mut pages = three_runs(alloc, low, count)?;
    assert!(rt; is_zero(pages.piece(low, size, 0)));
    assert!(rt; is_zero(pages.piece(middle, size, 0)));
    assert!(rt; is_zero(pages.piece(low + 16384, size, 0)));
    assert!(rt; pages.piece(low, size + 1, 0).is_none(), "across two runs");
    assert!(rt; pages.piece(low + 8191, 2, 0).is_none(), "across two runs");
    assert_eq!(rt; pages.holds(low + 8191, 1), count == 2, "between two runs");
    assert!(rt; !pages.holds(low, 0), "an empty range");
    assert!(rt; !pages.holds(low + 24576, 1), "past the last run");
    write_at(&mut pages, middle + 2, b"ab");
    assert!(rt; is_bytes(pages.piece(middle, 5, 0), b"\0\0ab\0"));
    assert!(rt; is_zero(pages.piece(middle + 4, size - 4, 0)));
    assert!(rt; is_zero(pages.piece(low, size, 0)));
    assert!(rt; is_zero(pages.piece(low + 16384, size, 0)));
    pages.purge(middle, count);
    assert!(rt; is_zero(pages.piece(middle, size, 0)));
    assert_eq!(rt; pages.drop_contents(middle, count), Ok(()));
    assert!(rt;
        pages.piece(middle, 1, 0).is_none(),
        "a run that was dropped"
    );
    assert!(rt; is_zero(pages.piece(low, size, 0)));
    assert!(rt; is_zero(pages.piece(low + 16384, size, 0)));
    assert_eq!(rt; pages.faults(), 0);
    Ok(())
}

#[test]
fn runs_in_memory(rt: HostRuntime) -> Result<(), Fail> {
    walk(&rt, rt.alloc(), 4096, 1)?;
    walk(&rt, rt.alloc(), 1099511627776, 2)?;
    Ok(())
}

// A fill by a byte, and one by zero over some of it, in the middle run of three.
fn filled(rt: &impl Abort, alloc: Global, low: u64) -> Result<(), PageRefusal>
    requires whole { low % 4096 ≡ 0 }
    requires below { low + 24576 ≤ 2 ^ 47 }
{
    let middle = low + 8192;
    let mut pages = three_runs(alloc, low, 1)?;
    fill_at(&mut pages, middle + 1, 5, 7);
    assert!(rt; is_bytes(pages.piece(middle, 7, 0), b"\0\x07\x07\x07\x07\x07\0"));
    fill_at(&mut pages, middle + 2, 3, 0);
    assert!(rt; is_bytes(pages.piece(middle, 7, 0), b"\0\x07\0\0\0\x07\0"));
    assert!(rt; is_zero(pages.piece(middle + 6, 4090, 0)));
    fill_at(&mut pages, middle + 4095, 2, 7);
    assert!(rt; is_zero(pages.piece(middle + 6, 4090, 0)), "past the run");
    assert!(rt; is_zero(pages.piece(low, 4096, 0)));
    assert!(rt; is_zero(pages.piece(low + 16384, 4096, 0)));
    Ok(())
}

#[test]
fn fills_in_memory(rt: HostRuntime) -> Result<(), Fail> {
    filled(&rt, rt.alloc(), 4096)?;
    Ok(())
}

// Two runs are made and one is dropped, by calls of which the second and the fourth fail.
fn failing_walk(rt: &impl Abort, alloc: Global, low: u64, count: u32) -> Result<(), Fail>
    requires whole { low % 4096 ≡ 0 }
    requires some { 1 ≤ count }
    requires few { count ≤ 2 }
    requires below { low + 24576 ≤ 2 ^ 47 }
{
    let fail_calls = Vec::from_slice(alloc, &[0, 2, 4, u64::MAX])?;
    let mut pages = FailingPages::build(alloc, RegionId(7), fail_calls);
    pages.make_accessible(low, count)?;
    assert_eq!(rt; pages.faults(), 0);
    match pages.make_accessible(low + 8192, count) {
        Ok(()) => panic!(rt; "the second call"),
        Err(refusal) => assert_eq!(rt; refusal, PageRefusal::Failed),
    }
    assert!(rt; !pages.holds(low + 8192, 1));
    pages.make_accessible(low + 8192, count)?;
    assert_eq!(rt; pages.faults(), 1);
    match pages.drop_contents(low, count) {
        Ok(()) => panic!(rt; "the fourth call"),
        Err(PageFault) => assert_eq!(rt; pages.faults(), 2),
    }
    assert!(rt; pages.holds(low, 1));
    assert_eq!(rt; pages.drop_contents(low, count), Ok(()));
    assert!(rt; !pages.holds(low, 1));
    assert!(rt; is_zero(pages.piece(low + 8192, 4096, 0)));
    assert_eq!(rt; pages.faults(), 2);
    Ok(())
}

#[test]
fn runs_that_fail(rt: HostRuntime) -> Result<(), Fail> {
    failing_walk(&rt, rt.alloc(), 4096, 1)
}

// What the first call on fresh pages answers.
fn first_answer<P: Pages>(mut pages: P, first: u64, count: u32) -> Result<(), PageRefusal>
    requires nothing { IsTrue (P.told pages) → P.runs pages ≡ map.empty }
    requires whole { first % 4096 ≡ 0 }
    requires some { 1 ≤ count }
    requires few { count ≤ 2 }
    requires below { first + 4096 * count ≤ 2 ^ 47 }
{
    pages.make_accessible(first, count)
}

#[test]
fn makers(rt: HostRuntime) -> Result<(), Fail> {
    let alloc = rt.alloc();
    let plain = PlainMaker.make(alloc, RegionId(7))?;
    assert_eq!(rt; first_answer(plain, 4096, 1), Ok(()));
    let fail_calls = Vec::from_slice(alloc, &[1])?;
    let mut maker = FailingMaker {
        region: RegionId(7),
        fail_calls,
    };
    let other = maker.make(alloc, RegionId(8))?;
    assert_eq!(rt; first_answer(other, 4096, 1), Ok(()));
    let named = maker.make(alloc, RegionId(7))?;
    assert_eq!(rt; first_answer(named, 4096, 1), Err(PageRefusal::Failed));
    let again = maker.make(alloc, RegionId(7))?;
    assert_eq!(rt; first_answer(again, 4096, 1), Err(PageRefusal::Failed));
    Ok(())
}

#[test]
fn a_list_gives_its_items_back(rt: HostRuntime) -> Result<(), Fail> {
    let list = List::of(Vec::from_slice(rt.alloc(), &[3, 1, 2])?);
    assert_eq!(rt; list.items(), [3, 1, 2].as_slice());
    assert_eq!(rt; list.into_items().as_slice(), [3, 1, 2].as_slice());
    Ok(())
}
