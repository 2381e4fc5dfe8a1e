//! A run of whole pages for callers that ask for its bytes alone.
ghost use Rattle.std.specs.Prelude.{◌≡◌, ◌+◌, ◌*◌, ◌<◌, ◌≤◌, length, take, drop, IfOk};
ghost use Rattle.std.specs.Borrow.{sem};
ghost use Rattle.hm_base.specs.Lists.{zeros};
ghost use Rattle.hm_outside.specs.Piece.{bytes_in};
ghost use Rattle.hm_frames.specs.Part.{with_byte};
ghost use Rattle.hm_frames.specs.RunLends.{LendsPart};

use crate::unit_run::UnitRun;
use hm_base::NoMemory;
use hm_outside::Piece;
use std::alloc::Global;
use std::marker::Model;

/// Whole pages of bytes in raw memory, which take memory only for the units whose bytes differ. Contracts see the list
/// of all bytes.
#[derive(Drop)]
pub struct PageRun {
    run: UnitRun,
}

impl Model for PageRun {
    ghost use Rattle.std.specs.Prelude.{ℕ, List};
    ghost use Rattle.std.specs.Coded.{coded_ℕ, coded_list};

    ghost Value = { List ℕ };

    ghost coded = { coded_list coded_ℕ };

    ghost view = { λ r. r.run.bytes };
}

impl PageRun {
    /// Whole pages of zero bytes. None takes memory.
    pub fn zeroed(alloc: Global, pages: u32) -> Result<PageRun, NoMemory>
        requires some { 1 ≤ pages }
        requires few { pages ≤ 262144 }
        ensures { IfOk result (λ r. r ≡ zeros (4096 * pages)) }
    {
        let run = UnitRun::zeroed(alloc, pages)?;
        Ok(PageRun { run })
    }

    /// How many bytes it has.
    pub fn len(&self) -> usize
        ensures { result ≡ length self.now }
    {
        self.run.len()
    }

    /// Bytes at the front of a range, at least one: the same byte so many times, or bytes that stand in memory.
    pub fn front(&self, from: usize, len: usize) -> Piece<'_>
        requires some { 0 < len }
        requires within { from + len ≤ length self.now }
        ensures some { 0 < length (bytes_in result) }
        ensures most { length (bytes_in result) ≤ len }
        ensures value { bytes_in result ≡ take (length (bytes_in result)) (drop from self.now) }
    {
        self.run.front(from, len)
    }

    /// Some of its bytes, to be written. Their units take memory from then on.
    pub fn part_mut(&mut self, from: usize, len: usize) -> &mut [u8]
        requires { from + len ≤ length self.old }
        ensures* writes_back { sem 𝓛 (LendsPart self.entry from len result) }
        ensures value { result.now ≡ take len (drop from self.old) }
    {
        self.run.part_mut(from, len)
    }

    /// Writes one byte over some of its own. Over whole units it touches no memory.
    pub fn fill(&mut self, from: usize, len: usize, byte: u8)
        requires { from + len ≤ length self.old }
        ensures { self.new ≡ with_byte self.old from len byte }
    {
        self.run.fill(from, len, byte);
    }

    /// Makes all its bytes zero. It touches no memory.
    pub fn clear(&mut self)
        ensures { self.new ≡ zeros (length self.old) }
    {
        self.run.clear();
    }
}
