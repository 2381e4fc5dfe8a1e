//! Reading and writing.
ghost use Rattle.std.specs.Prelude.{◌≡◌, ◌≢◌, ◌+◌, ◌<◌, ◌^◌, ◌↔◌, ℕ, IsTrue, IfOk, Some, None, length};
ghost use Rattle.hm_model.specs.Calls.{AsksRange, no_choices};
ghost use Rattle.hm_model.specs.Runs.{expand};
ghost use Rattle.hm_sizes.specs.Shapes.{IsShape};
ghost use Rattle.hm_class_rules.specs.Bytes.{first_trap, bytes_read, write};
ghost use Rattle.hm_class_rules.specs.Rules.{Allows};
ghost use Rattle.hm_class_book.specs.Book.{state_in, terms};

use crate::book::Book;
use crate::choices::are_none;
use crate::region::Region;
use crate::slabs::write_runs;
use crate::sources::is_same;
use hm_base::NoMemory;
use hm_model::{Call, Choices, Reply, Runs};
use hm_sizes::Shape;
use std::alloc::Global;

fn are_same(bytes: &[u8], others: &[u8]) -> bool
    ensures { IsTrue result ↔ bytes.now ≡ others.now }
{
    bytes == others
}

impl Book {
    // Whether the bytes of an accessible range are these.
    fn holds(
        &self,
        alloc: Global,
        shape: &Shape,
        addr: u64,
        len: u64,
        runs: &Runs,
    ) -> Result<bool, NoMemory>
        requires shape { IsShape shape.now }
        requires range { addr + len < 2 ^ 64 }
        ensures { IfOk result (λ r. IsTrue r ↔ expand runs.now ≡ bytes_read shape.now (state_in self.now) addr len) }
    {
        let read = self.bytes_read(alloc, shape, addr, len)?;
        let said = runs.to_vec(alloc)?;
        Ok(are_same(&said, &read))
    }

    // Whether a range is accessible and has these bytes.
    fn says_bytes(
        &self,
        alloc: Global,
        shape: &Shape,
        choices: &Choices,
        addr: u64,
        len: u64,
        runs: &Runs,
    ) -> Result<bool, NoMemory>
        requires shape { IsShape shape.now }
        requires range { addr + len < 2 ^ 64 }
        ensures { IfOk result (λ r. IsTrue r ↔ ((length (expand runs.now) ≡ len)
            × ((first_trap shape.now (state_in self.now) addr len ≡ None)
            × (expand runs.now ≡ bytes_read shape.now (state_in self.now) addr len))
            × (choices.now ≡ no_choices))) }
    {
        if runs.len() != len {
            return Ok(false);
        }
        if self.first_trap(shape, addr, len).is_some() {
            return Ok(false);
        }
        if !are_none(choices) {
            return Ok(false);
        }
        self.holds(alloc, shape, addr, len, runs)
    }

    fn says_trap(&self, shape: &Shape, choices: &Choices, addr: u64, len: u64, trap: u64) -> bool
        requires shape { IsShape shape.now }
        requires range { addr + len < 2 ^ 64 }
        ensures { IsTrue result ↔ ((first_trap shape.now (state_in self.now) addr len ≡ Some trap)
            × (choices.now ≡ no_choices)) }
    {
        let same = is_same(self.first_trap(shape, addr, len), trap);
        let none = are_none(choices);
        same & none
    }

    /// Whether reading may have a reply.
    pub fn may_fetch(
        &self,
        alloc: Global,
        region: &Region,
        choices: &Choices,
        addr: u64,
        len: u64,
        reply: &Reply,
    ) -> Result<bool, NoMemory>
        requires shape { IsShape region.now.shape }
        requires range { AsksRange (Call.Fetch addr len) }
        ensures { (before now : ℕ) → IfOk result (λ r. IsTrue r
            ↔ Allows (terms region.now) (state_in self.now) before now choices.now (Call.Fetch addr len) reply.now) }
    {
        let shape = &region.shape;
        match reply {
            Reply::Bytes(runs) => self.says_bytes(alloc, shape, choices, addr, len, runs),
            Reply::Trap { addr: trap } => Ok(self.says_trap(shape, choices, addr, len, *trap)),
            _ => Ok(false),
        }
    }

    /// Whether writing may trap with a reply.
    pub fn may_trap(
        &self,
        region: &Region,
        choices: &Choices,
        addr: u64,
        runs: &Runs,
        reply: &Reply,
    ) -> bool
        requires shape { IsShape region.now.shape }
        requires range { AsksRange (Call.Fill addr runs.now) }
        requires trapped { reply.now ≢ Reply.Filled }
        ensures { (before now : ℕ) → IsTrue result
            ↔ Allows (terms region.now) (state_in self.now) before now choices.now (Call.Fill addr runs.now) reply.now }
    {
        match reply {
            Reply::Trap { addr: trap } => {
                self.says_trap(&region.shape, choices, addr, runs.len(), *trap)
            }
            _ => false,
        }
    }

    /// Writes bytes, where all are accessible. It says whether they are.
    pub fn fill(&mut self, region: &Region, choices: &Choices, addr: u64, runs: &Runs) -> bool
        requires shape { IsShape region.now.shape }
        requires range { AsksRange (Call.Fill addr runs.now) }
        ensures legal { (before now : ℕ) → IsTrue result
            ↔ Allows (terms region.now) (state_in self.old) before now choices.now (Call.Fill addr runs.now) Reply.Filled }
        ensures state { IsTrue result
            → state_in self.new ≡ write region.now.shape addr (expand runs.now) (state_in self.old) }
    {
        let trap = self.first_trap(&region.shape, addr, runs.len());
        if trap.is_some() {
            return false;
        }
        if !are_none(choices) {
            return false;
        }
        write_runs(&mut self.opens, &region.shape, addr, runs.pairs());
        true
    }
}
