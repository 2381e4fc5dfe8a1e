//! Each call once, on slabs of one slot and of 256, and the search round the end.
//! Expected answers follow from the calls before.
ghost use Rattle.std.specs.Prelude.{◌≡◌, ◌<◌, length};

use crate::{SlabMeta, SlotState};
use std::test::Fail;

#[test]
fn one_slot(rt: HostRuntime) -> Result<(), Fail> {
    let mut meta = SlabMeta::fresh(1);
    assert_eq!(rt; meta.canary(), 0);
    meta.set_canary(7);
    assert_eq!(rt; meta.canary(), 7);
    assert!(rt; meta.state(0) == SlotState::Never);
    assert!(rt; !meta.was_given(0));
    assert!(rt; meta.is_all_free());
    meta.give(0);
    assert!(rt; meta.state(0) == SlotState::Live);
    assert_eq!(rt; meta.first_free_from(0), None);
    meta.quarantine(0);
    assert!(rt; meta.state(0) == SlotState::Quarantined);
    assert!(rt; !meta.is_all_free());
    meta.release(0);
    assert!(rt; meta.state(0) == SlotState::Free);
    assert!(rt; meta.is_all_free());
    meta.condemn(0);
    assert!(rt; meta.state(0) == SlotState::Condemned);
    assert!(rt; meta.was_given(0));
    assert_eq!(rt; meta.first_free_from(0), None);
    Ok(())
}

// Gives the first free slot from one on.
fn give_next(meta: &mut SlabMeta, start: u32) -> Option<u32>
    requires { start < length meta.old.slots }
    ensures { length meta.new.slots ≡ length meta.old.slots }
{
    let slot = meta.first_free_from(start)?;
    meta.give(slot);
    Some(slot)
}

#[test]
fn across_words(rt: HostRuntime) -> Result<(), Fail> {
    let mut meta = SlabMeta::fresh(256);
    assert_eq!(rt; give_next(&mut meta, 63), Some(63));
    assert_eq!(rt; give_next(&mut meta, 63), Some(64));
    assert_eq!(rt; give_next(&mut meta, 62), Some(62));
    assert_eq!(rt; give_next(&mut meta, 62), Some(65));
    assert_eq!(rt; give_next(&mut meta, 255), Some(255));
    assert_eq!(rt; give_next(&mut meta, 255), Some(0), "round the end");
    Ok(())
}

#[test]
fn the_last_slot_before_the_end(rt: HostRuntime) -> Result<(), Fail> {
    let mut meta = SlabMeta::fresh(65);
    assert_eq!(rt; give_next(&mut meta, 64), Some(64));
    assert_eq!(rt; give_next(&mut meta, 64), Some(0), "round the end");
    assert_eq!(rt; give_next(&mut meta, 0), Some(1));
    Ok(())
}
