//! Pages in memory, some of whose calls fail.
ghost use Rattle.std.specs.Prelude.{◌≡◌, ◌≤◌, ◌*◌, ◌+◌, ◌%◌, ◌^◌, IsTrue, ◌↔◌, IsErrOf, is_err, OnOk, OnErr, if◌then◌else◌};
ghost use Rattle.std.specs.FinMap as map;
ghost use Rattle.hm_base.specs.Lists.{zeros};
ghost use Rattle.hm_outside.specs.PageRuns.{MeetsNone, IsPageRun};
ghost use Rattle.hm_outside.specs.Causes.{HasRefusalCause, HasFaultCause};
ghost use Rattle.hm_fakes.specs.FailingPages.{fails_next, fresh_failing, Numbers};
ghost use Rattle.hm_outside.specs.Counts.{raised};
ghost use Rattle.hm_fakes.specs.Numbered.{is_named};
ghost use Rattle.hm_outside.specs.declared.pages.PageRefusal.TheVariants.{Failed};

use crate::PlainPages;
use crate::numbered::number_call;
use hm_base::RegionId;
use hm_outside::{PageFault, PageRefusal, Pages, Piece};
use std::alloc::Global;
use std::marker::Model;

/// Pages whose `make_accessible` and `drop_contents` calls, numbered together from 1, fail where the
/// list names their number; no call past number 2^64 - 2 does.
#[derive(Drop)]
pub struct FailingPages {
    plain: PlainPages,
    fail_calls: Vec<u64>,
    calls: u64,
    faults: u64,
}

impl Model for FailingPages {
    ghost use Rattle.std.specs.Prelude.{◌≤◌};
    ghost use Rattle.hm_fakes.specs.FailingPages.{Failing, failing_code};

    ghost Value = { Failing };

    ghost coded = { failing_code };

    ghost view = { λ p. record {
      region = p.plain.region;
      runs = p.plain.runs;
      fail_calls = p.fail_calls.items;
      calls = p.calls;
      faults = p.faults;
    } };

    ghost invariant = { λ p. p.faults ≤ p.calls };
}

impl FailingPages {
    /// Pages of a region with nothing accessible, of which no call was made. It takes no memory.
    pub fn build(alloc: Global, region: RegionId, fail_calls: Vec<u64>) -> FailingPages
        ensures { result ≡ fresh_failing region.0 fail_calls.items }
    {
        FailingPages {
            plain: PlainPages::new(alloc, region),
            fail_calls,
            calls: 0,
            faults: 0,
        }
    }
}

// Numbers a call, and says whether it fails.
fn number_failing(fail_calls: &[u64], calls: &mut u64, faults: &mut u64) -> bool
    requires { faults.old ≤ calls.old }
    ensures fewer { faults.new ≤ calls.new }
    ensures number { calls.new ≡ raised calls.old }
    ensures named { result ≡ is_named fail_calls.now calls.new }
    ensures count { faults.new ≡ (if result then faults.old + 1 else faults.old) }
{
    let named = number_call(fail_calls, calls);
    if named {
        *faults += 1;
    }
    named
}

impl Pages for FailingPages {
    ghost use Rattle.std.specs.Prelude.{true, Some};
    ghost use Rattle.hm_outside.specs.RunLists.{CanWrite};
    ghost use Rattle.hm_fakes.specs.FailingPages.{failing_with_range, failing_written};

    ghost told = { λ p. true };

    ghost runs = { λ p. p.runs };

    ghost faults = { λ p. p.faults };

    ghost owner = { λ p. Some p.region };

    ghost can_write = { λ p addr len. CanWrite p.runs addr len };

    ghost after_write = { failing_with_range };

    ghost written = { failing_written };

    fn make_accessible(&mut self, first: u64, pages: u32) -> Result<(), PageRefusal>
        requires whole { first % 4096 ≡ 0 }
        requires some { 1 ≤ pages }
        requires few { pages ≤ 262144 }
        requires below { first + 4096 * pages ≤ 2 ^ 47 }
        requires apart { MeetsNone self.old.runs first (4096 * pages) }
        ensures made { OnOk result (self.new.runs ≡ map.insert self.old.runs first (zeros (4096 * pages))) }
        ensures unchanged { OnErr result (self.new.runs ≡ self.old.runs) }
        ensures cause { HasRefusalCause self.old.faults self.new.faults result }
        ensures named { IsErrOf result Failed ↔ IsTrue (fails_next self.old) }
        ensures numbers { Numbers self.old self.new }
    {
        if number_failing(&self.fail_calls, &mut self.calls, &mut self.faults) {
            return Err(PageRefusal::Failed);
        }
        self.plain.make_accessible(first, pages)
    }

    fn drop_contents(&mut self, first: u64, pages: u32) -> Result<(), PageFault>
        requires run { IsPageRun self.old.runs first (4096 * pages) }
        ensures dropped { OnOk result (self.new.runs ≡ map.remove self.old.runs first) }
        ensures unchanged { OnErr result (self.new.runs ≡ self.old.runs) }
        ensures cause { HasFaultCause self.old.faults self.new.faults result }
        ensures named { is_err result ≡ fails_next self.old }
        ensures numbers { Numbers self.old self.new }
    {
        if number_failing(&self.fail_calls, &mut self.calls, &mut self.faults) {
            return Err(PageFault);
        }
        self.plain.drop_contents(first, pages)
    }

    fn purge(&mut self, first: u64, pages: u32)
        requires run { IsPageRun self.old.runs first (4096 * pages) }
        ensures zeroed { self.new ≡ record self.old { runs = map.insert self.old.runs first (zeros (4096 * pages)) } }
    {
        self.plain.purge(first, pages)
    }

    fn piece(&self, addr: u64, len: usize, from: usize) -> Option<Piece<'_>> {
        self.plain.piece(addr, len, from)
    }

    fn holds(&self, addr: u64, len: usize) -> bool {
        self.plain.holds(addr, len)
    }

    fn bytes_mut(&mut self, addr: u64, len: usize) -> &mut [u8] {
        self.plain.bytes_mut(addr, len)
    }

    fn fill(&mut self, addr: u64, len: usize, byte: u8) -> bool {
        self.plain.fill(addr, len, byte)
    }

    fn faults(&self) -> u64 {
        self.faults
    }
}
