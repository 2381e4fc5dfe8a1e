//! What a quarantine releases, with and without an array and a ring.

use crate::Quarantine;
use std::test::Fail;

#[test]
fn array_then_ring(rt: HostRuntime) -> Result<(), Fail> {
    let mut quarantine = Quarantine::build(rt.alloc(), 2, 1)?;
    assert_eq!(rt; quarantine.pass(1, 0), None);
    assert_eq!(rt; quarantine.pass(2, 1), None);
    assert_eq!(rt; quarantine.pass(3, 0), None);
    assert_eq!(rt; quarantine.pass(4, 0), Some(1));
    Ok(())
}

#[test]
fn ring_alone(rt: HostRuntime) -> Result<(), Fail> {
    let mut quarantine = Quarantine::build(rt.alloc(), 0, 2)?;
    assert_eq!(rt; quarantine.pass(1, 0), None);
    assert_eq!(rt; quarantine.pass(2, 0), None);
    assert_eq!(rt; quarantine.pass(3, 0), Some(1));
    Ok(())
}

#[test]
fn array_alone(rt: HostRuntime) -> Result<(), Fail> {
    let mut quarantine = Quarantine::build(rt.alloc(), 1, 0)?;
    assert_eq!(rt; quarantine.pass(1, 0), None);
    assert_eq!(rt; quarantine.pass(2, 0), Some(1));
    Ok(())
}

#[test]
fn no_array_and_no_ring(rt: HostRuntime) -> Result<(), Fail> {
    let mut quarantine = Quarantine::build(rt.alloc(), 0, 0)?;
    assert_eq!(rt; quarantine.pass(1, 0), Some(1));
    Ok(())
}
