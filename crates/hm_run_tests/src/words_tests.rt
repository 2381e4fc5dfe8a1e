//! Lists of words after the program's name: which of them are accepted, by the status that the run of an empty trace
//! ends with, and what accepted ones ask for.

use crate::test_runs::{replay_plain, source, words};
use hm_fakes::VecSink;
use hm_run::{Asked, Command, Options, Output, Template, read_words};
use std::alloc::Global;
use std::sync::Wait;
use std::test::Fail;
use std::thread::Threads;

/// Words, and the status that they end with over an empty trace: 2 where they are not accepted; else 0, or 1 for `check`,
/// as it is no journal.
const WORDS: [(&str, u8); 47] = [
    ("run --seed 7", 0),
    ("run --seed 0007 --large-space 1048576", 0),
    (
        "run --large-space 1099511627776 --seed 18446744073709551615 --class-region 34359738368",
        0,
    ),
    ("run --class-region 00000000000001048576", 0),
    ("run --seed 18446744073709551616", 2),
    ("run --seed 000000000000000000007", 2),
    ("run --seed=7", 2),
    ("run --seed +7", 2),
    ("run --seed -7", 2),
    ("run --seed 1 --seed 1", 2),
    ("run --seed 7 --class-region 1048576 --seed 7", 2),
    ("run --seed", 2),
    ("run --class-region 1048577", 2),
    ("run --class-region 1044480", 2),
    ("run --class-region 34359742464", 2),
    ("run --large-space 1099511631872", 2),
    ("run --config light", 0),
    ("run --config standard --seed 7", 0),
    ("run --config heavy", 2),
    ("run --config", 2),
    ("run --config light --config light", 2),
    ("run --config light --seed 7 --config standard", 2),
    ("run --config 0", 2),
    ("run --seed light", 2),
    ("run --", 2),
    ("run ", 2),
    ("run --help 1", 2),
    ("run 7", 2),
    ("run --seed 7 stress 7", 2),
    ("journal --seed 7", 0),
    ("journal 7", 2),
    ("journal --seed 7 --config light", 0),
    ("stats --seed 7 --large-space 1048576", 0),
    ("stats --config light", 0),
    ("stats 7", 2),
    ("check", 1),
    ("check --seed 7", 2),
    ("check run", 2),
    ("stress", 2),
    ("stress --seed 7", 2),
    ("stress --config light", 2),
    ("stress x", 2),
    ("stress 18446744073709551616", 2),
    ("stress 7 --seed", 2),
    ("stress 7 run", 2),
    ("help", 2),
    ("--seed 7 run", 2),
];

// The status of the run of an empty trace with these words.
fn status_of<R: Threads + Wait + Sync>(
    rt: &R,
    alloc: Global,
    asked: &[String],
) -> Result<u8, Fail> {
    let mut sink = VecSink::build(alloc, 65_536, 65_536, Vec::new(alloc))?;
    let mut source = source(alloc, b"hmtrace 1\nend\n", 99, 0)?;
    let run = replay_plain(rt, alloc, asked, &mut source, &mut sink);
    Ok(run.status)
}

#[test]
fn accepted_words(rt: HostRuntime) -> Result<(), Fail> {
    let alloc = rt.alloc();
    for (line, status) in WORDS {
        let asked = words(alloc, line)?;
        assert_eq!(rt; status_of(&rt, alloc, &asked)?, status, "{line}");
    }
    assert_eq!(rt; status_of(&rt, alloc, &[])?, 2);
    Ok(())
}

#[test]
fn options_of_words(rt: HostRuntime) -> Result<(), Fail> {
    let asked = words(rt.alloc(), "run --seed 0007 --large-space 1048576")?;
    let wanted = Asked {
        command: Command::Run {
            output: Output::Report,
        },
        options: Options {
            template: Template::Standard,
            seed: 7,
            class_region: 34_359_738_368,
            large_space: 1_048_576,
        },
    };
    assert_eq!(rt; read_words(&asked), Some(wanted));
    let light = words(rt.alloc(), "stress 3 --class-region 1048576 --config light")?;
    let wanted = Asked {
        command: Command::Stress { seed: 3 },
        options: Options {
            template: Template::Light,
            seed: 0,
            class_region: 1_048_576,
            large_space: 1_099_511_627_776,
        },
    };
    assert_eq!(rt; read_words(&light), Some(wanted));
    Ok(())
}
