//! A range of two pages, of which three bytes were written, is gathered; one past its end is not.

use hm_base::RegionId;
use hm_fakes::PlainPages;
use hm_model::Runs;
use hm_outside::{PageRefusal, Pages, append_range};
use std::alloc::Global;
use std::test::Fail;

fn two_pages(alloc: Global) -> Result<PlainPages, PageRefusal> {
    let mut pages = PlainPages::new(alloc, RegionId(7));
    pages.make_accessible(4096, 2)?;
    Ok(pages)
}

// Writes the bytes, if their range can be written.
fn write_at(pages: &mut PlainPages, addr: u64, bytes: &[u8]) {
    if pages.holds(addr, bytes.len()) {
        pages.bytes_mut(addr, bytes.len()).copy_from_slice(bytes);
    }
}

#[test]
fn a_range_is_gathered(rt: HostRuntime) -> Result<(), Fail> {
    let mut pages = two_pages(rt.alloc())?;
    write_at(&mut pages, 4106, b"AAA");
    let mut runs = Runs::new(rt.alloc());
    assert!(rt; append_range(&pages, 4096, 8192, &mut runs)?);
    assert_eq!(rt; runs.pairs(), [(0, 10), (0x41, 3), (0, 8179)].as_slice());
    let mut past = Runs::new(rt.alloc());
    assert!(rt; !append_range(&pages, 4096, 8193, &mut past)?);
    Ok(())
}
