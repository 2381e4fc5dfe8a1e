//! What one thread publishes another one reads, and what a reader counts once the writer is gone.
use crate::{ReaderRefusal, SizeReader, SizeWriter, Unread};
use hm_base::NoMemory;
use hm_model::SizeChange;
use std::sync::Wait;
use std::test::Fail;
use std::thread::{Threads, join};

/// Two sizes and the sum.
type Found = (
    Result<Option<u64>, Unread>,
    Result<Option<u64>, Unread>,
    Result<u128, Unread>,
);

fn look(reader: &mut SizeReader) -> Found {
    (reader.size(4096), reader.size(8192), reader.total())
}

/// A reader, once a block is published.
fn reader_of_one<R: Wait>(rt: &R, writer: &mut SizeWriter) -> Result<SizeReader, NoMemory> {
    let put = SizeChange::Put {
        addr: 4096,
        size: 8192,
    };
    writer.publish(rt, &[put])?;
    writer.reader().map_err(|_| NoMemory)
}

/// What another thread reads, beside its count.
fn look_elsewhere<R: Threads + Wait + Sync>(
    rt: &R,
    writer: &mut SizeWriter,
) -> Result<(Found, u64), NoMemory> {
    let mut reader = reader_of_one(rt, writer)?;
    let (found, _) = join(rt, move || (look(&mut reader), reader.faults()), || ());
    Ok(found)
}

#[test]
fn another_thread_reads_the_published_sizes(rt: HostRuntime) -> Result<(), Fail> {
    let mut writer = SizeWriter::build(rt.alloc(), 1)?;
    let found = look_elsewhere(&rt, &mut writer);
    writer.end(&rt);
    assert_eq!(rt; found?, ((Ok(Some(8192)), Ok(None), Ok(8192)), 0));
    Ok(())
}

#[test]
fn each_refused_entry_is_counted(rt: HostRuntime) -> Result<(), Fail> {
    let mut writer = SizeWriter::build(rt.alloc(), 1)?;
    let reader = reader_of_one(&rt, &mut writer);
    writer.end(&rt);
    let mut reader = reader?;
    assert_eq!(rt; look(&mut reader), (Err(Unread), Err(Unread), Err(Unread)));
    assert_eq!(rt; reader.faults(), 3);
    Ok(())
}

#[test]
fn a_place_serves_one_reader_at_a_time(rt: HostRuntime) -> Result<(), Fail> {
    let mut writer = SizeWriter::build(rt.alloc(), 1)?;
    let first = writer.reader();
    let second = writer.reader().err();
    drop(first);
    let third = writer.reader().err();
    writer.end(&rt);
    assert_eq!(rt; second, Some(ReaderRefusal::NoPlace));
    assert_eq!(rt; third, None);
    Ok(())
}

/// Publishes this many blocks, one at a time, each at an address of its own.
fn publish_each<R: Wait>(rt: &R, writer: &mut SizeWriter, count: u64) -> Result<(), NoMemory> {
    for addr in 0..count {
        writer.publish(rt, &[SizeChange::Put { addr, size: 1 }])?;
    }
    Ok(())
}

/// Reads the sum again and again. It says whether no sum was below the one before, and the last one.
fn read_many(mut reader: SizeReader, looks: u64) -> (bool, u128) {
    let mut last = 0;
    for _ in 0..looks {
        let total = reader.total().unwrap_or(last);
        if total < last {
            return (false, total);
        }
        last = total;
    }
    (true, last)
}

/// Reads while another thread publishes this many blocks.
fn read_beside<R: Threads + Wait + Sync>(
    rt: &R,
    writer: &mut SizeWriter,
    count: u64,
) -> Result<(bool, u128), NoMemory> {
    let reader = writer.reader().map_err(|_| NoMemory)?;
    let (published, found) = join(
        rt,
        || publish_each(rt, &mut *writer, count),
        move || read_many(reader, 100000),
    );
    published?;
    Ok(found)
}

#[test]
fn sums_never_go_back_while_another_thread_publishes(rt: HostRuntime) -> Result<(), Fail> {
    let mut writer = SizeWriter::build(rt.alloc(), 1)?;
    let found = read_beside(&rt, &mut writer, 2000);
    writer.end(&rt);
    let (rose, last) = found?;
    assert!(rt; rose && last <= 2000);
    Ok(())
}
