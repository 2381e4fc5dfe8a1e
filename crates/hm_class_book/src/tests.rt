//! Entries by hand, and what a book says of the last of them. The addresses, the canary and the words of class 7 were
//! computed by another program; they are those of `first_entries` and `light_entries` in `hm_class_rules`.
ghost use Rattle.std.specs.Prelude.{◌<◌};
ghost use Rattle.hm_sizes.specs.Classes.{class_count};
ghost use Rattle.hm_sizes.specs.Configs.{IsValid};

use crate::ClassBook;
use hm_choice::Stream;
use hm_model::{Call, Choices, Draws, Entry, Judgement, Reply, Runs, Who};
use hm_sizes::{ClassId, Config};
use std::alloc::Global;
use std::test::Fail;

/// Where slab 0 of class 7 begins in arena 0 of seed 0, the first block there, and the slab's canary.
const FIRST: u64 = 1_592_101_122_048;

const BLOCK: u64 = 1_592_101_124_736;

const CANARY: u64 = 14_572_588_304_984_079_872;

const WHO: Who = Who {
    caller: 1,
    round: 1,
    thread: 1,
    step: 1,
    part: 1,
};

/// What a book of a region of arena 0 in run 0 says of the first entry that it does not take, or of the last one.
fn judge(alloc: Global, config: &Config, class: u8, entries: &[Entry]) -> Result<Judgement, Fail>
    requires valid { IsValid config.now }
    requires class { class < class_count }
{
    let mut book = ClassBook::build(alloc, config, 0, 0, ClassId(class))?;
    for entry in entries {
        match book.take(entry)? {
            Judgement::Taken => {}
            Judgement::NotLegal => return Ok(Judgement::NotLegal),
            Judgement::NotDrawn => return Ok(Judgement::NotDrawn),
        }
    }
    Ok(Judgement::Taken)
}

/// An entry that chooses and draws nothing.
fn plain(call: Call, reply: Reply, before: u64, now: u64) -> Entry {
    Entry::plain(WHO, call, reply, before, now)
}

/// A request of 100 bytes.
fn request() -> Call {
    Call::Allot {
        asked: 100,
        align: 1,
    }
}

fn give_back(addr: u64) -> Call {
    Call::GiveBack { addr, stated: None }
}

/// A block of slab 0, which is opened.
fn opening(addr: u64, canary: u64, used: u8, last: u32) -> Entry {
    let reply = Reply::Given { addr, usable: 104 };
    Entry {
        choices: Choices {
            canary: Some(canary),
            opened: Some(0),
            ..Choices::none()
        },
        draws: Draws {
            used,
            w0: 3_231_088_256,
            w1: 3_392_945_114,
            w2: last,
        },
        ..plain(request(), reply, 0, 0)
    }
}

fn first() -> Entry {
    opening(BLOCK, CANARY, 3, 2_935_142_444)
}

fn freed(addr: u64, word: u32) -> Entry {
    Entry {
        draws: Draws::one(word),
        ..plain(give_back(addr), Reply::Freed, 0, 0)
    }
}

/// A free that releases what it frees, at which no word is drawn.
fn freed_at_once(addr: u64) -> Entry {
    Entry {
        choices: Choices {
            released: Some(addr),
            ..Choices::none()
        },
        ..plain(give_back(addr), Reply::Freed, 0, 0)
    }
}

#[test]
fn standard_entries(rt: HostRuntime) -> Result<(), Fail> {
    let config = Config::standard();
    let double = plain(give_back(BLOCK), Reply::DoubleFree, 0, 0);
    let taken = [first(), freed(BLOCK, 2_409_532_924), double];
    assert_eq!(rt; judge(rt.alloc(), &config, 7, &taken)?, Judgement::Taken);
    let first_slot = [opening(FIRST, CANARY, 3, 2_935_142_444)];
    assert_eq!(rt;
        judge(rt.alloc(), &config, 7, &first_slot)?,
        Judgement::NotDrawn
    );
    let no_canary = [opening(BLOCK, 0, 3, 2_935_142_444)];
    assert_eq!(rt;
        judge(rt.alloc(), &config, 7, &no_canary)?,
        Judgement::NotDrawn
    );
    let other_word = [opening(BLOCK, CANARY, 3, 2_935_142_445)];
    assert_eq!(rt;
        judge(rt.alloc(), &config, 7, &other_word)?,
        Judgement::NotDrawn
    );
    let not_given = [first(), plain(give_back(BLOCK), Reply::DoubleFree, 0, 0)];
    assert_eq!(rt;
        judge(rt.alloc(), &config, 7, &not_given)?,
        Judgement::NotLegal
    );
    Ok(())
}

#[test]
fn counts_of_faults(rt: HostRuntime) -> Result<(), Fail> {
    let config = Config::standard();
    let measure = Call::Measure { addr: BLOCK };
    let later = [first(), plain(measure, Reply::Usable(104), 0, 3)];
    assert_eq!(rt; judge(rt.alloc(), &config, 7, &later)?, Judgement::Taken);
    let measure = Call::Measure { addr: BLOCK };
    let forgotten = [first(), plain(measure, Reply::Usable(104), 1, 1)];
    assert_eq!(rt;
        judge(rt.alloc(), &config, 7, &forgotten)?,
        Judgement::NotLegal
    );
    let failed = [plain(request(), Reply::PagesFailed, 0, 1)];
    assert_eq!(rt; judge(rt.alloc(), &config, 7, &failed)?, Judgement::Taken);
    let no_fault = [plain(request(), Reply::PagesFailed, 0, 0)];
    assert_eq!(rt;
        judge(rt.alloc(), &config, 7, &no_fault)?,
        Judgement::NotLegal
    );
    Ok(())
}

#[test]
fn light_entries(rt: HostRuntime) -> Result<(), Fail> {
    let config = Config::light();
    let fill = Call::Fill {
        addr: FIRST,
        runs: Runs::same(rt.alloc(), 65, 4)?,
    };
    let reply = Reply::Given {
        addr: FIRST,
        usable: 104,
    };
    let taken = [
        opening(FIRST, CANARY, 2, 0),
        freed_at_once(FIRST),
        plain(fill, Reply::Filled, 0, 0),
        plain(request(), reply, 0, 0),
    ];
    assert_eq!(rt; judge(rt.alloc(), &config, 7, &taken)?, Judgement::Taken);
    Ok(())
}

/// In class 0 there are no bytes and no canary.
#[test]
fn no_bytes(rt: HostRuntime) -> Result<(), Fail> {
    let config = Config::light();
    let addr = ClassBook::build(rt.alloc(), &config, 0, 0, ClassId(0))?.first();
    let call = Call::Allot { asked: 0, align: 1 };
    let opening = Entry {
        choices: Choices {
            opened: Some(0),
            ..Choices::none()
        },
        ..plain(call, Reply::Given { addr, usable: 0 }, 0, 0)
    };
    assert_eq!(rt;
        judge(rt.alloc(), &config, 0, &[opening])?,
        Judgement::Taken
    );
    Ok(())
}

/// A block of the greatest class, whose slabs have one slot each.
fn greatest(stream: &mut Stream, slab: u64, addr: u64) -> Entry {
    let (w0, w1, canary) = stream.canary();
    let call = Call::Allot {
        asked: 131_000,
        align: 1,
    };
    let reply = Reply::Given {
        addr,
        usable: 131_064,
    };
    Entry {
        choices: Choices {
            canary: Some(canary),
            opened: Some(slab),
            ..Choices::none()
        },
        draws: Draws {
            used: 2,
            w0,
            w1,
            w2: 0,
        },
        ..plain(call, reply, 0, 0)
    }
}

/// The second of two free slabs is one too many, and is purged where its pages did not go.
fn purging(alloc: Global, now: u64) -> Result<Judgement, Fail> {
    let config = Config::light();
    let addr = ClassBook::build(alloc, &config, 0, 0, ClassId(48))?.first();
    let mut stream = Stream::start(0, 48);
    let _gap = stream.word();
    let second = addr.saturating_add(131_072);
    let purge = Entry {
        choices: Choices {
            released: Some(second),
            purged: Some(1),
            ..Choices::none()
        },
        ..plain(give_back(second), Reply::Freed, 0, now)
    };
    let entries = [
        greatest(&mut stream, 0, addr),
        greatest(&mut stream, 1, second),
        freed_at_once(addr),
        purge,
    ];
    judge(alloc, &config, 48, &entries)
}

#[test]
fn purged_slab(rt: HostRuntime) -> Result<(), Fail> {
    assert_eq!(rt; purging(rt.alloc(), 1)?, Judgement::Taken);
    assert_eq!(rt; purging(rt.alloc(), 0)?, Judgement::NotLegal);
    Ok(())
}
