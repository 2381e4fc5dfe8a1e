//! A maker of pages in memory.
ghost use Rattle.std.specs.Prelude.{None, ◌≡◌, IfOk, IsOk};
ghost use Rattle.hm_fakes.specs.PlainPages.{fresh_plain};

use crate::PlainPages;
use hm_base::{NoMemory, RegionId};
use hm_outside::PageMaker;
use std::alloc::Global;

/// It makes `PlainPages` for each region, and takes no memory.
#[derive(Debug, Drop)]
pub struct PlainMaker;

impl PageMaker for PlainMaker {
    type P = PlainPages;

    ghost made = { λ m. None };

    fn make(&mut self, alloc: Global, region: RegionId) -> Result<PlainPages, NoMemory>
        ensures always { IsOk result }
        ensures fresh { IfOk result (λ p. p ≡ fresh_plain region.0) }
    {
        Ok(PlainPages::new(alloc, region))
    }
}
