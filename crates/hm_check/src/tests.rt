//! Texts by hand, and the first line of each at fault. Where region 0 begins was computed by another program.
use crate::{JournalFault, Verdict, check_journal};
use std::alloc::Global;
use std::test::Fail;

/// Texts with which some journals begin, and the line that is missing or lacks its line feed: they are no journals.
const BEGINNINGS: [(&str, u64); 4] = [
    ("", 1),
    ("hmjournal 1", 1),
    ("hmjournal 1\n", 2),
    (
        "hmjournal 1\nconfig 4 34359738368 1099511627776 1 1 1 32 1 1",
        2,
    ),
];

/// Texts that say something else in their first lines, and the line at fault: no journal begins with the lines up to it.
const FIRST_LINES: [(&str, u64); 2] = [
    ("hmjournal 2\n", 1),
    (
        "hmjournal 1\nconfig 5 34359738368 1099511627776 1 1 1 32 1 1\n",
        2,
    ),
];

/// What stands behind the first three lines of a journal, and the line at fault. In the last one the region's line is not:
/// some journal has so many entries, though no text that a run reads.
const REGIONS: [(&str, u64, JournalFault); 7] = [
    ("", 4, JournalFault::BadText),
    ("region 1 0 0\n", 4, JournalFault::BadText),
    ("region 0 0 0\n", 4, JournalFault::NotDrawn),
    (
        "region 0 1105945169920 0\nclosed 1\n",
        5,
        JournalFault::NotLegal,
    ),
    (
        "region 0 1105945169920 1\nclosed 0\n",
        5,
        JournalFault::BadText,
    ),
    (
        "region 0 1105945169920 0\nclosed 0\n",
        6,
        JournalFault::BadText,
    ),
    (
        "region 0 1105945169920 18446744073709551615\n",
        5,
        JournalFault::BadText,
    ),
];

/// The verdict on the first three lines of a journal with this behind them.
fn verdict_behind(alloc: Global, rest: &str) -> Result<Verdict, Fail> {
    let head = "hmjournal 1\nconfig 4 34359738368 1099511627776 1 1 1 32 1 1\nseed 0\n";
    let text = format!(in alloc; "{head}{rest}")?;
    Ok(check_journal(alloc, text.as_bytes())?)
}

#[test]
fn beginnings(rt: HostRuntime) -> Result<(), Fail> {
    for (text, line) in BEGINNINGS {
        let fault = JournalFault::BadText;
        let verdict = check_journal(rt.alloc(), text.as_bytes())?;
        assert_eq!(rt; verdict, Verdict::No { line, fault });
    }
    Ok(())
}

#[test]
fn first_lines(rt: HostRuntime) -> Result<(), Fail> {
    for (text, line) in FIRST_LINES {
        let fault = JournalFault::BadText;
        let verdict = check_journal(rt.alloc(), text.as_bytes())?;
        assert_eq!(rt; verdict, Verdict::No { line, fault });
    }
    Ok(())
}

#[test]
fn first_region(rt: HostRuntime) -> Result<(), Fail> {
    for (rest, line, fault) in REGIONS {
        let verdict = verdict_behind(rt.alloc(), rest)?;
        assert_eq!(rt; verdict, Verdict::No { line, fault });
    }
    Ok(())
}
