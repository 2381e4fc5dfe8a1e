//! A space of addresses: its free ranges in order, and the room for further ones.
ghost use Rattle.std.specs.Prelude.{◌≡◌, ◌+◌, ◌^◌, ◌<◌, ◌≤◌, ℕ, IfOk, IfSome, IfNone, IsOk, OnOk, OnErr, length};
ghost use Rattle.hm_space.specs.Ranges.{range_or_none};
ghost use Rattle.hm_space.specs.Space.{IsSpace, IsFreeRange, MeetsNoFree, IsFit, IsLowestFit, TakesRange, GivesRange};

use crate::FreeRange;
use crate::free_list::{count_begun, cut, join};
use hm_base::NoMemory;
use std::alloc::Global;
use std::marker::Model;

/// Free ranges of addresses. Putting a range back takes no memory: there is room for each that is out.
#[derive(Drop)]
pub struct Space {
    ranges: Vec<FreeRange>,
    out: usize,
}

impl Model for Space {
    ghost use Rattle.std.specs.Prelude.{◌-◌, ◌≤◌};
    ghost use Rattle.hm_space.specs.Ranges.{AreApart};
    ghost use Rattle.hm_space.specs.Space.{FreeSpace};

    ghost Value = { FreeSpace };

    ghost view = { λ s. record { ranges = s.ranges.items; out = s.out; spare = s.ranges.cap - s.ranges.len } };

    ghost invariant = { λ s. AreApart 0 s.ranges.items × (s.out ≤ s.ranges.cap - s.ranges.len) };
}

impl Space {
    /// A space that is free from `start` on for `len` addresses.
    pub fn build(alloc: Global, start: u64, len: u64) -> Result<Space, NoMemory>
        requires { start + len < 2 ^ 64 }
        ensures ranges { IfOk result (λ space. space.ranges ≡ range_or_none start len) }
        ensures out { IfOk result (λ space. space.out ≡ 0) }
        ensures space { IfOk result IsSpace }
        ensures nothing { len ≡ 0 → IsOk result }
    {
        let mut ranges = Vec::new(alloc);
        if len > 0 {
            ranges.push(FreeRange { start, len })?;
        }
        Ok(Space { ranges, out: 0 })
    }

    /// The lowest address from which `len` are free, such that `front` past it is a multiple of `align`. It looks
    /// at the free ranges in order, so its time grows with their number.
    pub fn find(&self, len: u64, align: u64, front: u64) -> Option<u64>
        requires some { 1 ≤ len }
        requires align { 1 ≤ align }
        requires front { front ≤ len }
        ensures lowest { IfSome result (IsLowestFit self.now len align front) }
        ensures below { IfSome result (λ at. at + len < 2 ^ 64) }
        ensures none { IfNone result ((at : ℕ) → IsFit self.now len align front at → ⊥) }
    {
        for range in &self.ranges {
            if let Some(at) = range.lowest_fit(len, align, front) {
                return Some(at);
            }
        }
        None
    }

    /// Makes the room that the next `take` asks for.
    pub fn reserve_two(&mut self) -> Result<(), NoMemory>
        ensures room { OnOk result (self.new.out + 2 ≤ self.new.spare) }
        ensures ranges { self.new.ranges ≡ self.old.ranges }
        ensures out { self.new.out ≡ self.old.out }
        ensures kept { self.old.spare ≤ self.new.spare }
        ensures err { OnErr result (self.new ≡ self.old) }
        ensures enough { self.old.out + 2 ≤ self.old.spare → IsOk result }
        ensures space { IsSpace self.new }
    {
        self.ranges.reserve(self.out + 2)?;
        Ok(())
    }

    /// Takes a range that is free.
    pub fn take(&mut self, at: u64, len: u64)
        requires some { 1 ≤ len }
        requires free { IsFreeRange self.old at len }
        requires room { self.old.out + 2 ≤ self.old.spare }
        ensures taken { TakesRange self.old self.new at len }
        ensures out { self.new.out ≡ self.old.out + 1 }
        ensures room_in_all { self.new.spare + length self.new.ranges ≡ self.old.spare + length self.old.ranges }
        ensures space { IsSpace self.new }
    {
        let index = count_begun(&self.ranges, at) - 1;
        self.out += 1;
        cut(&mut self.ranges, index, at, len);
    }

    /// Puts a range back of which nothing is free.
    pub fn put_back(&mut self, at: u64, len: u64)
        requires some { 1 ≤ len }
        requires below { at + len < 2 ^ 64 }
        requires apart { MeetsNoFree self.old at len }
        requires out { 1 ≤ self.old.out }
        ensures given { GivesRange self.old self.new at len }
        ensures out { self.new.out + 1 ≡ self.old.out }
        ensures room_in_all { self.new.spare + length self.new.ranges ≡ self.old.spare + length self.old.ranges }
        ensures space { IsSpace self.new }
    {
        let index = count_begun(&self.ranges, at);
        self.out -= 1;
        join(&mut self.ranges, index, at, len);
    }
}
