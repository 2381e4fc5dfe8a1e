//! A maker of pages in memory, some of whose calls fail in one region.
ghost use Rattle.std.specs.Prelude.{None, ◌≡◌, ◌≢◌, [], IfOk, IsOkAnd};
ghost use Rattle.std.specs.FinMap as map;
ghost use Rattle.hm_fakes.specs.FailingPages.{fresh_failing};

use crate::FailingPages;
use hm_base::{NoMemory, RegionId};
use hm_outside::PageMaker;
use std::alloc::Global;

/// It hands its list, each time a copy, to the pages of its region. Those of other regions never fail.
#[derive(Debug, Drop)]
pub struct FailingMaker {
    pub region: RegionId,
    pub fail_calls: Vec<u64>,
}

impl PageMaker for FailingMaker {
    type P = FailingPages;

    ghost made = { λ m. None };

    fn make(&mut self, alloc: Global, region: RegionId) -> Result<FailingPages, NoMemory>
        ensures nothing { IfOk result (λ p. p.runs ≡ map.empty) }
        ensures count { IfOk result (λ p. p.faults ≡ 0) }
        ensures named { region.0 ≡ self.old.region.0
            → IfOk result (λ p. p ≡ fresh_failing region.0 self.old.fail_calls.items) }
        ensures others { region.0 ≢ self.old.region.0 → IsOkAnd result (λ p. p ≡ fresh_failing region.0 []) }
        ensures same { self.new ≡ self.old }
    {
        let fail_calls = if region == self.region {
            Vec::from_slice(alloc, &self.fail_calls)?
        } else {
            Vec::new(alloc)
        };
        Ok(FailingPages::build(alloc, region, fail_calls))
    }
}
