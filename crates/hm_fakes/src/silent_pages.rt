//! Pages that tell nothing of what they hold.
ghost use Rattle.std.specs.Prelude.{◌≡◌, IsOk, IsNone};
ghost use Rattle.std.specs.FinMap as map;

use crate::run::Run;
use hm_outside::{PageFault, PageRefusal, Pages, Piece, RunMap};
use std::alloc::Global;
use std::marker::Model;

/// Pages that tell nothing: making a range accessible and dropping it succeed and change nothing, and no byte is ever
/// lent.
#[derive(Drop)]
pub struct SilentPages {
    runs: RunMap<Run>,
}

impl Model for SilentPages {
    ghost use Rattle.std.specs.FinMap as map;
    ghost use Rattle.std.specs.Coded.{coded_ℕ, coded_list};
    ghost use Rattle.hm_outside.specs.PageRuns.{PageRuns};

    ghost Value = { PageRuns };

    ghost coded = { map.code coded_ℕ (coded_list coded_ℕ) };

    ghost view = { λ p. p.runs.runs };
}

impl SilentPages {
    /// Pages that hold nothing. It takes no memory.
    pub fn new(alloc: Global) -> SilentPages
        ensures { result ≡ map.empty }
    {
        SilentPages {
            runs: RunMap::new(alloc),
        }
    }
}

impl Pages for SilentPages {
    ghost use Rattle.std.specs.Prelude.{false, refl, None};
    ghost use Rattle.std.specs.FinMap as map;
    ghost use Rattle.std.proofs.lemmas.Bool.{false≢true};
    ghost use Rattle.hm_outside.specs.RunLists.{CanWrite};
    ghost use Rattle.hm_fakes.specs.PlainRuns.{with_range};

    ghost told = { λ p. false };

    ghost runs = { λ p. map.empty };

    ghost faults = { λ p. 0 };

    ghost owner = { λ p. None };

    ghost can_write = { λ p addr len. (addr ≡ 0) × CanWrite p addr len };

    ghost after_write = { λ p addr len bytes. with_range p addr len bytes };

    ghost written = { λ p addr bytes can. record {
      same_telling = refl;
      same_count = refl;
      same_owner = refl;
      over = λ tells. absurd (false≢true tells);
    } };

    fn make_accessible(&mut self, _first: u64, _pages: u32) -> Result<(), PageRefusal>
        ensures always { IsOk result }
        ensures same { self.new ≡ self.old }
    {
        Ok(())
    }

    fn drop_contents(&mut self, _first: u64, _pages: u32) -> Result<(), PageFault>
        ensures always { IsOk result }
        ensures same { self.new ≡ self.old }
    {
        Ok(())
    }

    fn purge(&mut self, _first: u64, _pages: u32)
        ensures same { self.new ≡ self.old }
    {}

    fn piece(&self, _addr: u64, _len: usize, _from: usize) -> Option<Piece<'_>>
        ensures nothing { IsNone result }
    {
        None
    }

    fn holds(&self, addr: u64, len: usize) -> bool {
        addr == 0 && self.runs.holds(addr, len)
    }

    fn bytes_mut(&mut self, addr: u64, len: usize) -> &mut [u8] {
        self.runs.bytes_mut(addr, len)
    }

    fn fill(&mut self, addr: u64, len: usize, byte: u8) -> bool {
        addr == 0 && self.runs.fill(addr, len, byte)
    }

    fn faults(&self) -> u64 {
        0
    }
}
