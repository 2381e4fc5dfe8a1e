//! A maker of pages that tell nothing.
ghost use Rattle.std.specs.Prelude.{None, ◌≡◌, IfOk, IsOk};
ghost use Rattle.std.specs.FinMap as map;

use crate::SilentPages;
use hm_base::{NoMemory, RegionId};
use hm_outside::PageMaker;
use std::alloc::Global;

/// It makes `SilentPages` for each region, and takes no memory.
#[derive(Debug, Drop)]
pub struct SilentMaker;

impl PageMaker for SilentMaker {
    type P = SilentPages;

    ghost made = { λ m. None };

    fn make(&mut self, alloc: Global, _region: RegionId) -> Result<SilentPages, NoMemory>
        ensures always { IsOk result }
        ensures nothing { IfOk result (λ p. p ≡ map.empty) }
    {
        Ok(SilentPages::new(alloc))
    }
}
