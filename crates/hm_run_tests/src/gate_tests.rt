//! Gates that look at what a round does: that as many threads run as there are scripts, for which region and caller a
//! gate is called, and that this is before the region works.
ghost use Rattle.std.specs.Prelude.{None};

use crate::test_runs::{report_of, text_of};
use hm_base::{NoMemory, RegionId};
use hm_fakes::{Meeting, PlainMaker, SilentPages};
use hm_outside::{Gate, PageFault, PageMaker, PageRefusal, Pages, Piece};
use std::alloc::{AllocError, Global};
use std::fmt::Write;
use std::marker::Model;
use std::sync::Wait;
use std::sync::atomic::{AtomicU64, Ordering};
use std::test::Fail;
use std::thread::Threads;

/// A request of each of four classes, whose blocks have so many usable bytes.
const CLASSES: [(u64, u64); 4] = [(8, 8), (100, 104), (1000, 1016), (4000, 4088)];

// A round of 16 scripts of one step, each in a region of its own, and its report.
fn sixteen_regions(alloc: Global) -> Result<(String, String), AllocError> {
    let mut text = String::new(alloc);
    let mut report = String::new(alloc);
    text.push_str("hmtrace 1\nround\n")?;
    let mut thread = 0u32;
    for (size, usable) in CLASSES {
        for _ in 0..4 {
            thread = thread.wrapping_add(1);
            write!(text, "thread {thread}\nmalloc n{thread} {size}\n")?;
            write!(report, "1.{thread}.1 given {usable}\n")?;
        }
    }
    text.push_str("end\n")?;
    Ok((text, report))
}

#[test]
fn as_many_threads_as_scripts(rt: HostRuntime) -> Result<(), Fail> {
    let alloc = rt.alloc();
    let gate = Meeting::of(16);
    let (text, report) = sixteen_regions(alloc)?;
    let (status, written) = report_of(&rt, alloc, &text, &mut PlainMaker, &gate)?;
    assert_eq!(rt; status, 0);
    assert_eq!(rt; gate.counts(), (16, 0));
    assert_eq!(rt; written.as_slice(), report.as_bytes());
    Ok(())
}

/// A gate that counts the calls of caller 1 in region 1, those of caller 2 in region 77, and all others.
#[derive(Drop)]
struct Naming {
    first: AtomicU64,
    second: AtomicU64,
    others: AtomicU64,
}

impl Gate for Naming {
    fn inside(&self, region: RegionId, caller: u32) {
        let word = match (region.0, caller) {
            (1, 1) => &self.first,
            (77, 2) => &self.second,
            _ => &self.others,
        };
        word.fetch_add(1, Ordering::SeqCst);
    }
}

// Thread 1 has arena 0, where blocks of 8 bytes are in region 1; thread 2 has arena 1, where those of 4,000 are in 77.
#[test]
fn a_gate_hears_which_region_and_who(rt: HostRuntime) -> Result<(), Fail> {
    let alloc = rt.alloc();
    let gate = Naming {
        first: AtomicU64::new(0),
        second: AtomicU64::new(0),
        others: AtomicU64::new(0),
    };
    let text = text_of(alloc, "malloc a 8\nfree a\nthread 2\nmalloc b 4000\n")?;
    let (status, written) = report_of(&rt, alloc, &text, &mut PlainMaker, &gate)?;
    assert_eq!(rt; status, 0);
    assert_eq!(rt;
        written.as_slice(),
        b"1.1.1 given 8\n1.1.2 freed\n1.2.1 given 4088\n".as_slice()
    );
    assert_eq!(rt; gate.first.load(Ordering::SeqCst), 2);
    assert_eq!(rt; gate.second.load(Ordering::SeqCst), 1);
    assert_eq!(rt; gate.others.load(Ordering::SeqCst), 0);
    Ok(())
}

/// A gate that counts the calls that are inside or were.
#[derive(Drop)]
struct Entering<'a> {
    entered: &'a AtomicU64,
}

impl Gate for Entering<'_> {
    fn inside(&self, _region: RegionId, _caller: u32) {
        self.entered.fetch_add(1, Ordering::SeqCst);
    }
}

/// Pages that tell nothing, and count how often they are made accessible after a call was entered, and how often before.
#[derive(Drop)]
struct WatchingPages<'a> {
    silent: SilentPages,
    entered: &'a AtomicU64,
    after: &'a AtomicU64,
    before: &'a AtomicU64,
}

impl<'a> Model for WatchingPages<'a> {
    ghost use Rattle.std.specs.FinMap as map;
    ghost use Rattle.std.specs.Coded.{coded_ℕ, coded_list};
    ghost use Rattle.hm_outside.specs.PageRuns.{PageRuns};

    ghost Value = { PageRuns };

    ghost coded = { map.code coded_ℕ (coded_list coded_ℕ) };

    ghost view = { λ p. p.silent };
}

impl<'a> Pages for WatchingPages<'a> {
    ghost use Rattle.std.specs.Prelude.{◌≡◌, false, None, refl};
    ghost use Rattle.std.specs.FinMap as map;
    ghost use Rattle.std.proofs.lemmas.Bool.{false≢true};
    ghost use Rattle.hm_outside.specs.RunLists.{CanWrite};
    ghost use Rattle.hm_fakes.specs.PlainRuns.{with_range};

    ghost told = { λ p. false };

    ghost runs = { λ p. map.empty };

    ghost faults = { λ p. 0 };

    ghost owner = { λ p. None };

    ghost can_write = { λ p addr len. (addr ≡ 0) × CanWrite p addr len };

    ghost after_write = { λ p addr len bytes. with_range p addr len bytes };

    ghost written = { λ p addr bytes can. record {
      same_telling = refl;
      same_count = refl;
      same_owner = refl;
      over = λ tells. absurd (false≢true tells);
    } };

    fn make_accessible(&mut self, _first: u64, _pages: u32) -> Result<(), PageRefusal> {
        let word = if self.entered.load(Ordering::SeqCst) > 0 {
            self.after
        } else {
            self.before
        };
        word.fetch_add(1, Ordering::SeqCst);
        Ok(())
    }

    fn drop_contents(&mut self, _first: u64, _pages: u32) -> Result<(), PageFault> {
        Ok(())
    }

    fn purge(&mut self, _first: u64, _pages: u32) {}

    fn piece(&self, addr: u64, len: usize, from: usize) -> Option<Piece<'_>> {
        self.silent.piece(addr, len, from)
    }

    fn holds(&self, addr: u64, len: usize) -> bool {
        self.silent.holds(addr, len)
    }

    fn bytes_mut(&mut self, addr: u64, len: usize) -> &mut [u8] {
        self.silent.bytes_mut(addr, len)
    }

    fn fill(&mut self, addr: u64, len: usize, byte: u8) -> bool {
        self.silent.fill(addr, len, byte)
    }

    fn faults(&self) -> u64 {
        0
    }
}

/// It makes pages that watch the same words.
#[derive(Drop)]
struct WatchingMaker<'a> {
    entered: &'a AtomicU64,
    after: &'a AtomicU64,
    before: &'a AtomicU64,
}

impl<'a> PageMaker for WatchingMaker<'a> {
    type P = WatchingPages<'a>;

    ghost made = { λ m. None };

    fn make(&mut self, alloc: Global, _region: RegionId) -> Result<WatchingPages<'a>, NoMemory> {
        Ok(WatchingPages {
            silent: SilentPages::new(alloc),
            entered: self.entered,
            after: self.after,
            before: self.before,
        })
    }
}

#[test]
fn a_gate_is_called_before_the_region_works(rt: HostRuntime) -> Result<(), Fail> {
    let alloc = rt.alloc();
    let entered = AtomicU64::new(0);
    let after = AtomicU64::new(0);
    let before = AtomicU64::new(0);
    let gate = Entering { entered: &entered };
    let mut maker = WatchingMaker {
        entered: &entered,
        after: &after,
        before: &before,
    };
    let text = text_of(alloc, "malloc y 200000\n")?;
    let (status, written) = report_of(&rt, alloc, &text, &mut maker, &gate)?;
    assert_eq!(rt; status, 0);
    assert_eq!(rt; written.as_slice(), b"1.1.1 given 229376\n".as_slice());
    assert_eq!(rt; entered.load(Ordering::SeqCst), 1);
    assert_eq!(rt; after.load(Ordering::SeqCst), 1);
    assert_eq!(rt; before.load(Ordering::SeqCst), 0);
    Ok(())
}
