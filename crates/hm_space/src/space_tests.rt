//! What a space answers, step by step.
use crate::Space;
use std::test::Fail;

#[test]
fn finds_takes_and_puts_back(rt: HostRuntime) -> Result<(), Fail> {
    let mut space = Space::build(rt.alloc(), 0, 1048576)?;
    assert_eq!(rt; space.find(1048576, 4096, 0), Some(0));
    assert_eq!(rt; space.find(1048577, 4096, 0), None);
    space.reserve_two()?;
    space.take(0, 4096);
    assert_eq!(rt; space.find(4096, 8192, 0), Some(8192));
    assert_eq!(rt; space.find(8192, 8192, 4096), Some(4096), "the front");
    assert_eq!(rt; space.find(1044480, 1, 0), Some(4096));
    assert_eq!(rt; space.find(1044481, 1, 0), None);
    assert_eq!(rt; space.find(8192, 2097152, 8192), None, "no multiple");
    space.put_back(0, 4096);
    assert_eq!(rt; space.find(1048576, 1, 0), Some(0));
    Ok(())
}

#[test]
fn joins_on_both_sides(rt: HostRuntime) -> Result<(), Fail> {
    let mut space = Space::build(rt.alloc(), 4096, 65536)?;
    space.reserve_two()?;
    space.take(8192, 4096);
    assert_eq!(rt; space.find(4097, 1, 0), Some(12288));
    space.reserve_two()?;
    space.take(12288, 4096);
    space.put_back(8192, 4096);
    assert_eq!(rt; space.find(8192, 1, 0), Some(4096), "joined below");
    assert_eq!(rt; space.find(8193, 1, 0), Some(16384));
    space.put_back(12288, 4096);
    assert_eq!(rt; space.find(65536, 1, 0), Some(4096), "joined on both sides");
    assert_eq!(rt;
        Space::build(rt.alloc(), 4096, 0)?.find(1, 1, 0),
        None,
        "an empty space"
    );
    Ok(())
}
