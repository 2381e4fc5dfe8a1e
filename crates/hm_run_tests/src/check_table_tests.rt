//! One journal, of which one word is changed: for each kind of call, in the region of a class and in that of large blocks,
//! each fault that it may have; and the faults of the other lines.

use crate::check_tests::{changed, checked, journal_of};
use crate::test_runs::text_of;
use std::alloc::Global;
use std::process::Abort;
use std::sync::Wait;
use std::test::Fail;
use std::thread::Threads;

/// The line of region 7 is 18, and its entries are lines 19 to 23; those of region 196 are lines 402 to 406.
const STEPS: &str = "malloc x 100\nwrite x 3 41\nread x 4\nsize x\nfree x\n\
    malloc y 200000\nwrite y 3 41\nread y 4\nsize y\nfree y\n";

/// A line and one of its words, both counted from 1, what stands in its place, and the verdict.
type Change = (usize, usize, &'static str, &'static str);

/// The header, the configuration, the seed, region 7's lines and the end.
const OTHER_LINES: [Change; 12] = [
    (1, 2, "2", "no line 1 BadText"),
    (2, 2, "5", "no line 2 BadText"),
    (3, 2, "00", "no line 3 BadText"),
    (3, 2, "1", "no line 4 NotDrawn"),
    (18, 2, "8", "no line 18 BadText"),
    (18, 3, "0", "no line 18 NotDrawn"),
    (18, 4, "4", "no line 23 BadText"),
    (18, 4, "6", "no line 24 BadText"),
    (24, 2, "00", "no line 24 BadText"),
    (24, 2, "1", "no line 24 NotLegal"),
    (407, 2, "1", "no line 407 NotLegal"),
    (408, 1, "ends", "no line 408 BadText"),
];

/// The block of class 7 is given, filled, fetched, measured and given back: slot 24 of slab 0, of 104 usable bytes.
const CLASS_LINES: [Change; 36] = [
    (19, 1, "4294967296", "no line 19 BadText"),
    (19, 23, "3", "no line 19 BadText"),
    (19, 6, "1", "no line 19 NotLegal"),
    (19, 7, "1", "no line 20 NotLegal"),
    (19, 8, "2", "no line 19 NotLegal"),
    (19, 13, "2", "no line 19 NotLegal"),
    (19, 18, "1", "no line 19 NotLegal"),
    (19, 20, "105", "no line 19 NotLegal"),
    (19, 21, "2", "no line 19 NotLegal"),
    (19, 25, "112", "no line 19 NotLegal"),
    (19, 9, "0", "no line 19 NotDrawn"),
    (19, 12, "0", "no line 19 NotDrawn"),
    (19, 20, "104", "yes 10 entries"),
    (20, 21, "41*0", "no line 20 BadText"),
    (20, 21, "41*1,41*2", "no line 20 BadText"),
    (20, 9, "1", "no line 20 NotLegal"),
    (20, 20, "0", "no line 20 NotLegal"),
    (20, 21, "-", "no line 20 NotLegal"),
    (20, 23, "16 1592101124736", "no line 20 NotLegal"),
    (20, 8, "1", "no line 20 NotDrawn"),
    (21, 24, "4A*3,00*1", "no line 21 BadText"),
    (21, 21, "0", "no line 21 NotLegal"),
    (21, 21, "3", "no line 21 NotLegal"),
    (21, 24, "41*4", "no line 21 NotLegal"),
    (21, 8, "1", "no line 21 NotDrawn"),
    (22, 8, "256", "no line 22 BadText"),
    (22, 19, "size", "no line 22 BadText"),
    (22, 23, "105", "no line 22 NotLegal"),
    (22, 8, "4", "no line 22 NotDrawn"),
    (23, 23, "6", "no line 23 BadText"),
    (23, 14, "1592101124736", "no line 23 NotLegal"),
    (23, 15, "0", "no line 23 NotLegal"),
    (23, 21, "105", "no line 23 NotLegal"),
    (23, 23, "10", "no line 23 NotLegal"),
    (23, 9, "1", "no line 23 NotDrawn"),
    (23, 21, "97", "yes 10 entries"),
];

/// So is the large block, of 229376 bytes, with a guard of two pages on each side.
const LARGE_LINES: [Change; 25] = [
    (402, 20, "0200000", "no line 402 BadText"),
    (402, 18, "-", "no line 402 NotLegal"),
    (402, 18, "3", "no line 402 NotLegal"),
    (402, 20, "1073741825", "no line 402 NotLegal"),
    (402, 21, "3", "no line 402 NotLegal"),
    (402, 25, "200000", "no line 402 NotLegal"),
    (402, 9, "0", "no line 402 NotDrawn"),
    (402, 21, "4096", "yes 10 entries"),
    (403, 21, "41*0", "no line 403 BadText"),
    (403, 21, "41*229377", "no line 403 NotLegal"),
    (403, 8, "1", "no line 403 NotDrawn"),
    (404, 21, "-", "no line 404 BadText"),
    (404, 21, "1073741825", "no line 404 NotLegal"),
    (404, 24, "-", "no line 404 NotLegal"),
    (404, 8, "1", "no line 404 NotDrawn"),
    (405, 22, "18", "no line 405 BadText"),
    (405, 20, "70368744185857", "no line 405 NotLegal"),
    (405, 23, "229375", "no line 405 NotLegal"),
    (405, 8, "255", "no line 405 NotDrawn"),
    (406, 21, "00", "no line 406 BadText"),
    (406, 14, "70368744185856", "no line 406 NotLegal"),
    (406, 21, "100000", "no line 406 NotLegal"),
    (406, 23, "17", "no line 406 NotLegal"),
    (406, 9, "0", "no line 406 NotDrawn"),
    (406, 21, "200000", "yes 10 entries"),
];

// Whether the check of the changed journal writes the verdict.
fn is_told<R: Threads + Wait + Sync>(
    rt: &R,
    alloc: Global,
    journal: &[u8],
    change: Change,
) -> Result<bool, Fail> {
    let (line, word, to, verdict) = change;
    let text = changed(alloc, journal, line, word, to)?;
    let (written, _) = checked(rt, alloc, &text)?;
    let wanted = format!(in alloc; "check: {verdict}\n")?;
    Ok(written.as_slice() == wanted.as_bytes())
}

// Checks the journal with each of these changes.
fn check_changes<R: Threads + Wait + Sync + Abort>(
    rt: &R,
    alloc: Global,
    changes: &[Change],
) -> Result<(), Fail> {
    let text = text_of(alloc, STEPS)?;
    let journal = journal_of(rt, alloc, "journal", text.as_bytes())?;
    for change in changes {
        let (line, word, to, _) = *change;
        assert!(rt;
            is_told(rt, alloc, &journal, *change)?,
            "line {line}, word {word}: {to}"
        );
    }
    Ok(())
}

#[test]
fn changes_of_other_lines(rt: HostRuntime) -> Result<(), Fail> {
    check_changes(&rt, rt.alloc(), &OTHER_LINES)
}

#[test]
fn changes_of_calls_in_a_class_region(rt: HostRuntime) -> Result<(), Fail> {
    check_changes(&rt, rt.alloc(), &CLASS_LINES)
}

#[test]
fn changes_of_calls_in_the_large_region(rt: HostRuntime) -> Result<(), Fail> {
    check_changes(&rt, rt.alloc(), &LARGE_LINES)
}
