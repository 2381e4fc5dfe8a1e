//! The table's calls once each, and many keys with one home.
use crate::probe::home;
use crate::{Block, RegionTable};
use std::test::Fail;

fn block(asked: u64) -> Block {
    Block {
        asked,
        size: 4096,
        guard: 1,
        quarantined: false,
        failed: false,
    }
}

fn put(table: &mut RegionTable, addr: u64, asked: u64) -> bool {
    if table.reserve_one().is_err() {
        return false;
    }
    match table.get(addr) {
        Some(_) => false,
        None => {
            table.insert(addr, block(asked));
            true
        }
    }
}

// The next page whose home is the first of 64 cells, and so of 32 and of 16 too.
fn colliding(after: u64) -> u64 {
    for pages in 1..10_000u64 {
        let addr = after.wrapping_add(pages * 4096);
        if home(addr, 64) == 0 {
            return addr;
        }
    }
    after
}

#[test]
fn one_block(rt: HostRuntime) -> Result<(), Fail> {
    let mut table = RegionTable::build(rt.alloc())?;
    assert!(rt; put(&mut table, 4096, 7));
    assert_eq!(rt; table.get(4096), Some(block(7)));
    assert_eq!(rt; table.get(8192), None);
    assert_eq!(rt; table.remove(4096), Some(block(7)));
    assert_eq!(rt; table.remove(4096), None);
    Ok(())
}

#[test]
fn one_home(rt: HostRuntime) -> Result<(), Fail> {
    let mut table = RegionTable::build(rt.alloc())?;
    let mut first = colliding(0);
    let mut last = first;
    for i in 0..10_000u64 {
        assert!(rt; put(&mut table, last, i));
        last = colliding(last);
        if 24 <= i {
            assert_eq!(rt; table.get(first), Some(block(i - 24)));
            assert_eq!(rt; table.remove(first), Some(block(i - 24)));
            assert_eq!(rt; table.get(first), None);
            first = colliding(first);
        }
    }
    for i in 9_976..10_000u64 {
        assert_eq!(rt; table.get(first), Some(block(i)));
        first = colliding(first);
    }
    assert_eq!(rt; first, last);
    Ok(())
}
