//! The calls once each, on slabs of one and of two slots.
//! Expected answers follow from the calls before.
use crate::{Place, SlabLists};
use std::test::Fail;

#[test]
fn guards_are_left_out(rt: HostRuntime) -> Result<(), Fail> {
    let mut lists = SlabLists::build(rt.alloc(), 8, 1, 32, 1)?;
    assert!(rt; matches!(lists.next_source(), Place::Fresh(0)));
    assert!(rt; lists.meta(0).is_none());
    lists.reserve_one()?;
    lists.open_fresh(0);
    assert_eq!(rt; lists.empty_count(), 1);
    assert!(rt; matches!(lists.next_source(), Place::Empty(0)));
    if let Some(meta) = lists.meta_mut(0) {
        meta.give(0);
    }
    lists.after_take(0);
    assert_eq!(rt; lists.empty_count(), 0);
    assert!(rt; matches!(lists.next_source(), Place::Fresh(2)));
    assert!(rt; lists.meta(0).is_some());
    assert!(rt; lists.meta(1).is_none());
    assert!(rt; lists.is_open(0));
    assert!(rt; !lists.is_open(1));
    assert!(rt; !lists.is_open(2));
    Ok(())
}

#[test]
fn retired_slabs_are_parked_first(rt: HostRuntime) -> Result<(), Fail> {
    let mut lists = SlabLists::build(rt.alloc(), 8, 1, 1, 2)?;
    lists.reserve_one()?;
    lists.open_fresh(0);
    assert_eq!(rt; lists.retire(0, 0), None);
    assert!(rt; !lists.is_open(0));
    assert!(rt;
        matches!(lists.next_source(), Place::Fresh(2)),
        "slab 0 is parked"
    );
    lists.reserve_one()?;
    lists.open_fresh(2);
    assert_eq!(rt; lists.retire(2, 0), Some(0));
    assert!(rt; matches!(lists.next_source(), Place::Retired(0)));
    assert!(rt; !lists.is_open(0));
    lists.open_retired(0);
    assert!(rt; lists.is_open(0));
    assert!(rt; matches!(lists.next_source(), Place::Empty(0)));
    lists.after_release(0);
    assert!(rt; matches!(lists.next_source(), Place::Empty(0)));
    Ok(())
}
