//! The text of each answer and whether it is a finding, the lines of reports, and what summaries count.
ghost use Rattle.std.specs.Prelude.{◌≡◌, IfOk};

use crate::{Note, Results, RoundNotes, StepResult, has_finding, report, summary, write_totals};
use hm_base::List;
use hm_model::{Answer, Reply, Runs};
use std::alloc::{AllocError, Global};
use std::test::Fail;

/// What a step referred to and was answered, its text, and whether it is a finding.
const CASES: [(u64, Option<Answer>, &str, bool); 31] = [
    (
        0,
        Some(Answer::Reply(Reply::Given {
            addr: 4096,
            usable: 104,
        })),
        "given 104",
        false,
    ),
    (
        0,
        Some(Answer::Reply(Reply::Overwritten {
            addr: 4096,
            at: 0,
            found: 0x41,
        })),
        "overwritten at 0 found 41",
        true,
    ),
    (
        0,
        Some(Answer::Reply(Reply::Overwritten {
            addr: 0,
            at: u64::MAX,
            found: 12,
        })),
        "overwritten at 18446744073709551615 found 0c",
        true,
    ),
    (0, Some(Answer::Reply(Reply::Exhausted)), "exhausted", false),
    (0, Some(Answer::Reply(Reply::NoSpace)), "no space", false),
    (
        0,
        Some(Answer::Reply(Reply::PagesFailed)),
        "pages failed",
        false,
    ),
    (0, Some(Answer::Reply(Reply::Freed)), "freed", false),
    (0, Some(Answer::Reply(Reply::NoSlot)), "no slot", true),
    (0, Some(Answer::Reply(Reply::Unused)), "unused", true),
    (
        0,
        Some(Answer::Reply(Reply::DoubleFree)),
        "double free",
        true,
    ),
    (
        0,
        Some(Answer::Reply(Reply::WrongSize {
            block: 112,
            stated: 128,
        })),
        "wrong size 112 128",
        true,
    ),
    (
        0,
        Some(Answer::Reply(Reply::Canary {
            kept: 0x4100,
            found: 0x4141,
        })),
        "canary at 0",
        true,
    ),
    (
        0,
        Some(Answer::Reply(Reply::Canary {
            kept: 0,
            found: 0x0100_0000_0000_0000,
        })),
        "canary at 7",
        true,
    ),
    (
        0,
        Some(Answer::Reply(Reply::Canary {
            kept: 0x4100,
            found: 0x4100,
        })),
        "canary at 8",
        true,
    ),
    (
        0,
        Some(Answer::Reply(Reply::Usable(u64::MAX))),
        "size 18446744073709551615",
        false,
    ),
    (0, Some(Answer::Reply(Reply::Filled)), "written", false),
    (
        4096,
        Some(Answer::Reply(Reply::Trap { addr: 4200 })),
        "trap at +104",
        true,
    ),
    (
        4096,
        Some(Answer::Reply(Reply::Trap { addr: 4095 })),
        "trap at +0",
        true,
    ),
    (0, Some(Answer::Reply(Reply::NotLive)), "not live", true),
    (0, Some(Answer::Overflow), "overflow", false),
    (0, Some(Answer::BadAlignment), "bad alignment", false),
    (0, Some(Answer::TooLarge), "too large", false),
    (0, Some(Answer::Outside), "outside", true),
    (0, Some(Answer::Busy), "busy", false),
    (
        0,
        Some(Answer::HalfMoved {
            addr: 1,
            usable: 120,
            cause: Reply::DoubleFree,
        }),
        "half moved 120: double free",
        true,
    ),
    (
        0,
        Some(Answer::HalfMoved {
            addr: 1,
            usable: 229376,
            cause: Reply::PagesFailed,
        }),
        "half moved 229376: pages failed",
        true,
    ),
    (
        0,
        Some(Answer::HalfMoved {
            addr: 1,
            usable: 120,
            cause: Reply::WrongSize {
                block: 16,
                stated: 32,
            },
        }),
        "half moved 120: wrong size 16 32",
        true,
    ),
    (
        0,
        Some(Answer::HalfMoved {
            addr: 1,
            usable: 120,
            cause: Reply::Trap { addr: 4200 },
        }),
        "half moved 120: trap",
        true,
    ),
    (
        0,
        Some(Answer::Kept {
            addr: 4096,
            usable: 504,
        }),
        "kept 504",
        false,
    ),
    (0, Some(Answer::Nothing), "nothing", false),
    (0, None, "skipped", false),
];

#[test]
fn texts_of_answers(rt: HostRuntime) -> Result<(), Fail> {
    for (base, answer, text, is_finding) in CASES {
        let items = List::of(vec![in rt.alloc(); StepResult { base, answer }]?);
        let results = [Results {
            round: 1,
            thread: 2,
            items,
        }];
        assert_eq!(rt; has_finding(&results), is_finding, "{text}");
        let line = format!(in rt.alloc(); "1.2.1 {text}\n")?;
        assert_eq!(rt;
            report(rt.alloc(), &[], &results)?.as_slice(),
            line.as_bytes(),
            "{text}"
        );
    }
    Ok(())
}

#[test]
fn lines_of_scripts(rt: HostRuntime) -> Result<(), Fail> {
    let alloc = rt.alloc();
    assert_eq!(rt; report(alloc, &[], &[])?.len(), 0);
    let runs: [&[(u8, u64)]; 2] = [&[(0, u64::MAX)], &[(0x61, 13), (0, 1), (0xff, 2)]];
    let mut steps = Vec::new(alloc);
    for pairs in runs {
        let runs = Runs::from_pairs(pairs.to_vec(alloc)?).ok_or("no runs")?;
        steps.push(StepResult {
            base: 0,
            answer: Some(Answer::Reply(Reply::Bytes(runs))),
        })?;
    }
    let skipped = vec![in alloc;
        StepResult {
            base: 0,
            answer: None
        },
    ]?;
    let results = [
        Results {
            round: 1,
            thread: 2,
            items: List::of(steps),
        },
        Results {
            round: 1,
            thread: 16,
            items: List::of(Vec::new(alloc)),
        },
        Results {
            round: u32::MAX,
            thread: 1,
            items: List::of(skipped),
        },
    ];
    let text =
        b"1.2.1 bytes 00*18446744073709551615\n1.2.2 bytes 61*13 00*1 ff*2\n4294967295.1.1 skipped\n";
    assert_eq!(rt; report(alloc, &[], &results)?.as_slice(), text.as_slice());
    Ok(())
}

/// The notes of a round.
fn notes(alloc: Global, round: u32, texts: &[&str]) -> Result<RoundNotes, Fail>
    ensures { IfOk result (λ made. made.round ≡ round) }
{
    let mut notes = Vec::new(alloc);
    for text in texts {
        notes.push(Note::of(Vec::from_slice(alloc, text.as_bytes())?))?;
    }
    Ok(RoundNotes {
        round,
        notes: List::of(notes),
    })
}

/// A script of this round with one skipped step.
fn skipped(alloc: Global, round: u32, thread: u32) -> Result<Results, Fail>
    ensures round { IfOk result (λ made. made.round ≡ round) }
    ensures thread { IfOk result (λ made. made.thread ≡ thread) }
{
    let step = StepResult {
        base: 0,
        answer: None,
    };
    Ok(Results {
        round,
        thread,
        items: List::of(vec![in alloc; step]?),
    })
}

#[test]
fn notes_stand_before_their_rounds(rt: HostRuntime) -> Result<(), Fail> {
    let alloc = rt.alloc();
    let notes = [
        notes(alloc, 1, &["warm up", "~!0"])?,
        notes(alloc, 2, &[])?,
        notes(alloc, 3, &["a"])?,
        notes(alloc, 5, &["end"])?,
    ];
    let results = [
        skipped(alloc, 1, 63)?,
        skipped(alloc, 1, 64)?,
        skipped(alloc, 2, 1)?,
        skipped(alloc, 4, 1)?,
    ];
    let text =
        b"1 note warm up\n1 note ~!0\n1.63.1 skipped\n1.64.1 skipped\n2.1.1 skipped\n3 note a\n4.1.1 skipped\n5 note end\n";
    assert_eq!(rt;
        report(alloc, &notes, &results)?.as_slice(),
        text.as_slice()
    );
    assert_eq!(rt; report(alloc, &notes, &[])?.len(), 46);
    Ok(())
}

/// The results of one script with these answers.
fn results_of(
    alloc: Global,
    thread: u32,
    answers: Vec<Option<Answer>>,
) -> Result<Results, AllocError> {
    let mut steps = Vec::new(alloc);
    for answer in answers {
        steps.push(StepResult { base: 0, answer })?;
    }
    Ok(Results {
        round: 1,
        thread,
        items: List::of(steps),
    })
}

/// Three scripts: each kind of result that has a word, more of one of them and steps that were skipped, and results
/// that no word counts.
fn three_scripts(alloc: Global) -> Result<Vec<Results>, Fail> {
    let bytes = Runs::from_pairs(vec![in alloc; (0x41, 1)]?).ok_or("no runs")?;
    let first = vec![in alloc;
        Some(Answer::Reply(Reply::Given {
            addr: 4096,
            usable: 104,
        })),
        Some(Answer::Reply(Reply::Filled)),
        Some(Answer::Reply(Reply::Usable(104))),
        Some(Answer::Reply(Reply::Bytes(bytes))),
        Some(Answer::Reply(Reply::Freed)),
    ]?;
    let second = vec![in alloc; Some(Answer::Reply(Reply::Freed)), None, None, None]?;
    let third = vec![in alloc;
        Some(Answer::Reply(Reply::Exhausted)),
        Some(Answer::Nothing),
        Some(Answer::Kept {
            addr: 4096,
            usable: 104,
        }),
        Some(Answer::Reply(Reply::DoubleFree)),
    ]?;
    let mut results = Vec::new(alloc);
    results.push(results_of(alloc, 1, first)?)?;
    results.push(results_of(alloc, 2, second)?)?;
    results.push(results_of(alloc, 3, third)?)?;
    Ok(results)
}

/// A seed, how many of the three scripts it has, its summary, and whether an answer in it is a finding.
const SUMMARIES: [(u64, usize, &str, bool); 3] = [
    (
        0,
        0,
        "stress 0: steps 0 given 0 written 0 size 0 bytes 0 freed 0 skipped 0\n",
        false,
    ),
    (
        u64::MAX,
        2,
        "stress 18446744073709551615: steps 9 given 1 written 1 size 1 bytes 1 freed 2 skipped 3\n",
        false,
    ),
    (
        7,
        3,
        "stress 7: steps 13 given 1 written 1 size 1 bytes 1 freed 2 skipped 3 other 4\n",
        true,
    ),
];

#[test]
fn summaries(rt: HostRuntime) -> Result<(), Fail> {
    let results = three_scripts(rt.alloc())?;
    for (seed, scripts, text, found) in SUMMARIES {
        let results = results.get(..scripts).ok_or("no such scripts")?;
        let summed = summary(rt.alloc(), seed, results)?;
        assert_eq!(rt; summed.text.as_slice(), text.as_bytes(), "{text}");
        assert_eq!(rt; summed.found, found, "{text}");
    }
    Ok(())
}

/// Sums after each round, and their lines.
const TOTALS: [(&[u128], &str); 3] = [
    (&[], ""),
    (&[0], "round 1 large 0\n"),
    (
        &[229376, u128::MAX],
        "round 1 large 229376\nround 2 large 340282366920938463463374607431768211455\n",
    ),
];

#[test]
fn lines_of_sums(rt: HostRuntime) -> Result<(), Fail> {
    for (totals, text) in TOTALS {
        let lines = write_totals(rt.alloc(), totals)?;
        assert_eq!(rt; lines.as_slice(), text.as_bytes(), "{text}");
    }
    Ok(())
}
