//! Journals of single entries: each call and each reply once, runs of bytes, choices, words and faults. The lines
//! are written out by hand.
use crate::{
    RegionLine, closed_in, config_in, entry_in, is_end, is_header, region_in, seed_in,
    write_journal,
};
use hm_base::{NoMemory, RegionId};
use hm_heap::History;
use hm_model::{Call, Choices, Draws, Entries, Entry, Reply, Runs, Who};
use hm_sizes::Config;
use std::alloc::Global;
use std::test::Fail;

const WHO: Who = Who {
    caller: 1,
    round: 2,
    thread: 3,
    step: 4,
    part: 5,
};

/// Calls and replies that have no runs, and what an entry's line says of them.
const CASES: [(Call, Reply, &str); 14] = [
    (
        Call::Allot {
            asked: 100,
            align: 16,
        },
        Reply::Given {
            addr: 1099511635968,
            usable: 104,
        },
        "allot 100 16 : 1 1099511635968 104",
    ),
    (
        Call::Allot {
            asked: 0,
            align: 4096,
        },
        Reply::Overwritten {
            addr: 4096,
            at: 10,
            found: 11,
        },
        "allot 0 4096 : 2 4096 10 0b",
    ),
    (
        Call::Allot {
            asked: u64::MAX,
            align: 1,
        },
        Reply::Exhausted,
        "allot 18446744073709551615 1 : 3",
    ),
    (
        Call::Allot { asked: 1, align: 2 },
        Reply::NoSpace,
        "allot 1 2 : 4",
    ),
    (
        Call::Allot { asked: 1, align: 2 },
        Reply::PagesFailed,
        "allot 1 2 : 5",
    ),
    (
        Call::GiveBack {
            addr: 4096,
            stated: None,
        },
        Reply::Freed,
        "giveback 4096 - : 7",
    ),
    (
        Call::GiveBack {
            addr: 4096,
            stated: Some(0),
        },
        Reply::NoSlot,
        "giveback 4096 0 : 8",
    ),
    (Call::Measure { addr: 0 }, Reply::Unused, "measure 0 : 9"),
    (
        Call::Measure { addr: 7 },
        Reply::DoubleFree,
        "measure 7 : 10",
    ),
    (
        Call::GiveBack {
            addr: 4096,
            stated: Some(105),
        },
        Reply::WrongSize {
            block: 112,
            stated: 128,
        },
        "giveback 4096 105 : 11 112 128",
    ),
    (
        Call::GiveBack {
            addr: 4096,
            stated: None,
        },
        Reply::Canary {
            kept: 256,
            found: 65,
        },
        "giveback 4096 - : 12 256 65",
    ),
    (
        Call::Measure { addr: 7 },
        Reply::Usable(104),
        "measure 7 : 13 104",
    ),
    (
        Call::Fetch { addr: 1, len: 2 },
        Reply::Trap { addr: 3 },
        "fetch 1 2 : 16 3",
    ),
    (Call::Measure { addr: 7 }, Reply::NotLive, "measure 7 : 17"),
];

fn of_region(
    alloc: Global,
    region: u32,
    first: u64,
    entries: Vec<Entry>,
    faults: u64,
) -> Result<History, NoMemory> {
    let mut history = Entries::new(alloc);
    for entry in entries {
        history.reserve(1)?;
        history.push_reserved(entry);
    }
    Ok(History {
        region: RegionId(region),
        first,
        entries: history.into_list(),
        faults,
    })
}

#[test]
fn lines_of_calls_and_replies(rt: HostRuntime) -> Result<(), Fail> {
    let alloc = rt.alloc();
    for (call, reply, text) in CASES {
        let entries = vec![in alloc; Entry::plain(WHO, call, reply, 0, 0)]?;
        let histories = [of_region(alloc, 7, 1099511635968, entries, 0)?];
        let lines = format!(in alloc;
            "hmjournal 1\nconfig 4 34359738368 1099511627776 1 1 1 32 1 1\nseed 7\n\
            region 7 1099511635968 1\n1 2 3 4 5 0 0 0 0 0 0 - - - - - - - {text}\nclosed 0\nend\n"
        )?;
        assert_eq!(rt;
            write_journal(alloc, &Config::standard(), 7, &histories)?.as_slice(),
            lines.as_bytes(),
            "{text}"
        );
    }
    Ok(())
}

#[test]
fn lines_of_runs(rt: HostRuntime) -> Result<(), Fail> {
    let alloc = rt.alloc();
    let none = Runs::same(alloc, 7, 0)?;
    let one = Runs::same(alloc, 0x41, u64::MAX)?;
    let pairs = vec![in alloc; (0, 13), (255, 1), (10, 2)]?;
    let three = Runs::from_pairs(pairs).ok_or("no runs")?;
    let fetch = Call::Fetch { addr: 1, len: 2 };
    let entries = vec![in alloc;
        Entry::plain(
            WHO,
            Call::Fill {
                addr: 1,
                runs: none
            },
            Reply::Filled,
            0,
            0
        ),
        Entry::plain(WHO, Call::Fill { addr: 2, runs: one }, Reply::Filled, 0, 0),
        Entry::plain(WHO, fetch, Reply::Bytes(three), 0, 0),
    ]?;
    let histories = [of_region(alloc, 196, 70368744177664, entries, 0)?];
    let text = "hmjournal 1\nconfig 4 34359738368 1099511627776 1 1 1 32 1 1\nseed 0\n\
        region 196 70368744177664 3\n\
        1 2 3 4 5 0 0 0 0 0 0 - - - - - - - fill 1 - : 15\n\
        1 2 3 4 5 0 0 0 0 0 0 - - - - - - - fill 2 41*18446744073709551615 : 15\n\
        1 2 3 4 5 0 0 0 0 0 0 - - - - - - - fetch 1 2 : 14 00*13,ff*1,0a*2\n\
        closed 0\nend\n";
    assert_eq!(rt;
        write_journal(alloc, &Config::standard(), 0, &histories)?.as_slice(),
        text.as_bytes()
    );
    Ok(())
}

/// A configuration in which each field has a value of its own, as far as it can.
const CONFIG: Config = Config {
    arenas: 3,
    class_region: 1048576,
    large_space: 2097152,
    guard_interval: 8,
    array_base: 0,
    ring_base: 1,
    park_length: 2,
    check_reuse: true,
    random_slots: false,
};

#[test]
fn lines_of_no_region(rt: HostRuntime) -> Result<(), Fail> {
    let text =
        b"hmjournal 1\nconfig 3 1048576 2097152 8 0 1 2 1 0\nseed 18446744073709551615\nend\n";
    assert_eq!(rt;
        write_journal(rt.alloc(), &CONFIG, u64::MAX, &[])?.as_slice(),
        text.as_slice()
    );
    Ok(())
}

/// An entry that chose and drew all that one has.
fn full_entry() -> Entry {
    Entry {
        who: Who {
            caller: u32::MAX,
            part: 255,
            ..WHO
        },
        call: Call::Measure { addr: 9 },
        reply: Reply::NoSlot,
        choices: Choices {
            canary: Some(11),
            opened: Some(12),
            released: Some(13),
            retired: Some(14),
            purged: Some(15),
            unparked: Some(16),
            guard: Some(17),
        },
        draws: Draws {
            used: 3,
            w0: 20,
            w1: 21,
            w2: u32::MAX,
        },
        faults_before: 30,
        faults_after: 31,
    }
}

#[test]
fn lines_of_two_regions(rt: HostRuntime) -> Result<(), Fail> {
    let alloc = rt.alloc();
    let histories = [
        of_region(alloc, 0, 5, Vec::new(alloc), 1)?,
        of_region(alloc, 1, 6, vec![in alloc; full_entry()]?, 31)?,
    ];
    let text = "hmjournal 1\nconfig 3 1048576 2097152 8 0 1 2 1 0\nseed 2\n\
        region 0 5 0\nclosed 1\nregion 1 6 1\n\
        4294967295 2 3 4 255 30 31 3 20 21 4294967295 11 12 13 14 15 16 17 measure 9 : 8\n\
        closed 31\nend\n";
    assert_eq!(rt;
        write_journal(alloc, &CONFIG, 2, &histories)?.as_slice(),
        text.as_bytes()
    );
    Ok(())
}

#[test]
fn lines_of_entries(rt: HostRuntime) -> Result<(), Fail> {
    let alloc = rt.alloc();
    let cases: [(&str, bool); 9] = [
        (
            "4294967295 2 3 4 255 30 31 3 20 21 4294967295 11 12 13 14 15 16 17 measure 9 : 8\n",
            true,
        ),
        (
            "1 2 3 4 5 0 0 0 0 0 0 - - - - - - - fetch 9 3 : 14 41*1,00*2\n",
            true,
        ),
        (
            "1 2 3 4 5 0 0 0 0 0 0 - - - - - - - fetch 9 3 : 14 41*1,00*1,00*1\n",
            false,
        ),
        (
            "1 2 3 4 5 0 0 0 0 0 0 - - - - - - - measure 09 : 8\n",
            false,
        ),
        (
            "1 2 3 4 5 0 0 0 0 0 0 - - - - - - - measure 9  : 8\n",
            false,
        ),
        (
            "1 2 3 4 256 0 0 0 0 0 0 - - - - - - - measure 9 : 8\n",
            false,
        ),
        ("1 2 3 4 5 0 0 0 0 0 0 - - - - - - - measure 9 : 6\n", false),
        ("1 2 3 4 5 0 0 0 0 0 0 - - - - - - - measure 9 : 8", false),
        ("\n", false),
    ];
    for (line, is_entry) in cases {
        let entry = entry_in(alloc, line.as_bytes())?;
        assert_eq!(rt; entry.is_some(), is_entry, "{line}");
    }
    Ok(())
}

#[test]
fn other_lines(rt: HostRuntime) -> Result<(), Fail> {
    let alloc = rt.alloc();
    let region = RegionLine {
        region: RegionId(7),
        first: 5,
        entries: 0,
    };
    assert!(rt; is_header(b"hmjournal 1\n"));
    assert!(rt; is_end(b"end\n"));
    assert!(rt; !is_end(b"end"));
    assert_eq!(rt;
        config_in(alloc, b"config 3 1048576 2097152 8 0 1 2 1 0\n")?,
        Some(CONFIG)
    );
    assert_eq!(rt;
        config_in(alloc, b"config 5 1048576 2097152 8 0 1 2 1 0\n")?,
        None
    );
    assert_eq!(rt;
        config_in(alloc, b"config 3 1048576 2097152 8 0 1 2 1 2\n")?,
        None
    );
    assert_eq!(rt;
        seed_in(alloc, b"seed 18446744073709551615\n")?,
        Some(u64::MAX)
    );
    assert_eq!(rt; seed_in(alloc, b"seed 18446744073709551616\n")?, None);
    assert_eq!(rt; region_in(alloc, b"region 7 5 0\n")?, Some(region));
    assert_eq!(rt; region_in(alloc, b"region 7 5 -0\n")?, None);
    assert_eq!(rt; closed_in(alloc, b"closed 0\n")?, Some(0));
    assert_eq!(rt; closed_in(alloc, b"closed 0 \n")?, None);
    Ok(())
}
