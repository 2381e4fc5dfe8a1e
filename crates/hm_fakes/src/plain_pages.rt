//! Pages in memory, each accessible run a vector.
ghost use Rattle.std.specs.Prelude.{◌≡◌};
ghost use Rattle.hm_fakes.specs.PlainPages.{fresh_plain};

use crate::run::Run;
use hm_base::RegionId;
use hm_outside::{PageFault, PageRefusal, Pages, Piece, RunMap};
use std::alloc::Global;
use std::marker::Model;

/// The bytes of a page.
const PAGE: usize = 4096;

/// Contracts see their region, and the bytes of each accessible run by its first address.
#[derive(Drop)]
pub struct PlainPages {
    alloc: Global,
    region: RegionId,
    runs: RunMap<Run>,
}

impl Model for PlainPages {
    ghost use Rattle.hm_fakes.specs.PlainPages.{Plain, plain_code};

    ghost Value = { Plain };

    ghost coded = { plain_code };

    ghost view = { λ p. record { region = p.region.0; runs = p.runs.runs } };
}

impl PlainPages {
    /// Pages of a region with nothing accessible. It takes no memory.
    pub fn new(alloc: Global, region: RegionId) -> Self
        ensures { result ≡ fresh_plain region.0 }
    {
        PlainPages {
            alloc,
            region,
            runs: RunMap::new(alloc),
        }
    }
}

impl Pages for PlainPages {
    ghost use Rattle.std.specs.Prelude.{true, Some};
    ghost use Rattle.hm_outside.specs.RunLists.{CanWrite};
    ghost use Rattle.hm_fakes.specs.PlainPages.{plain_with_range, plain_written};

    ghost told = { λ p. true };

    ghost runs = { λ p. p.runs };

    ghost faults = { λ p. 0 };

    ghost owner = { λ p. Some p.region };

    ghost can_write = { λ p addr len. CanWrite p.runs addr len };

    ghost after_write = { plain_with_range };

    ghost written = { plain_written };

    fn make_accessible(&mut self, first: u64, pages: u32) -> Result<(), PageRefusal> {
        let run = Run::zeroed(self.alloc, first, pages as usize * PAGE)?;
        self.runs.insert(run)?;
        Ok(())
    }

    fn drop_contents(&mut self, first: u64, _pages: u32) -> Result<(), PageFault> {
        let _run = self.runs.remove(first);
        Ok(())
    }

    fn purge(&mut self, first: u64, _pages: u32) {
        self.runs.clear(first);
    }

    fn piece(&self, addr: u64, len: usize, from: usize) -> Option<Piece<'_>> {
        self.runs.piece(addr, len, from)
    }

    fn holds(&self, addr: u64, len: usize) -> bool {
        self.runs.holds(addr, len)
    }

    fn bytes_mut(&mut self, addr: u64, len: usize) -> &mut [u8] {
        self.runs.bytes_mut(addr, len)
    }

    fn fill(&mut self, addr: u64, len: usize, byte: u8) -> bool {
        self.runs.fill(addr, len, byte)
    }

    fn faults(&self) -> u64 {
        0
    }
}
