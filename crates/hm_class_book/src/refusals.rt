//! Giving back and measuring, where nothing changes but the count of page faults.
ghost use Rattle.std.specs.Prelude.{◌≡◌, ◌≢◌, ◌<◌, ◌↔◌, ℕ, IsTrue, Some, None, true};
ghost use Rattle.hm_model.specs.Calls.{no_choices};
ghost use Rattle.hm_sizes.specs.Shapes.{IsShape, usable, has_bytes};
ghost use Rattle.hm_class_rules.specs.Rules.{Allows, IsNoSlot, IsUnused, IsDoubleFree, IsLiveBlock, wrong_size, wrong_canary};
ghost use Rattle.hm_class_book.specs.Book.{state_in, terms};

use crate::book::Book;
use crate::choices::are_none;
use crate::region::Region;
use hm_model::{Call, Choices, Reply};
use hm_sizes::{Shape, block_size};

/// The size of the blocks and that of the stated size, where they differ.
pub(crate) fn wrong_size(shape: &Shape, stated: Option<u64>) -> Option<(u64, u64)>
    ensures { result ≡ wrong_size shape.now stated }
{
    let size = block_size(stated?);
    let block = shape.class_size();
    if size == block {
        None
    } else {
        Some((block, size))
    }
}

// Whether an option is this pair.
fn is_pair(option: Option<(u64, u64)>, first: u64, second: u64) -> bool
    ensures { IsTrue result ↔ option ≡ Some (first, second) }
{
    match option {
        Some((x, y)) => (x == first) & (y == second),
        None => false,
    }
}

impl Book {
    fn says_no_slot(&self, shape: &Shape, choices: &Choices, addr: u64) -> bool
        requires { IsShape shape.now }
        ensures { IsTrue result ↔ (IsNoSlot shape.now (state_in self.now) addr × (choices.now ≡ no_choices)) }
    {
        let refused = self.is_no_slot(shape, addr);
        let none = are_none(choices);
        refused & none
    }

    fn says_unused(&self, shape: &Shape, choices: &Choices, addr: u64) -> bool
        requires { IsShape shape.now }
        ensures { IsTrue result ↔ (IsUnused shape.now (state_in self.now) addr × (choices.now ≡ no_choices)) }
    {
        let refused = self.is_unused(shape, addr);
        let none = are_none(choices);
        refused & none
    }

    fn says_double_free(&self, shape: &Shape, choices: &Choices, addr: u64) -> bool
        requires { IsShape shape.now }
        ensures { IsTrue result ↔ (IsDoubleFree shape.now (state_in self.now) addr × (choices.now ≡ no_choices)) }
    {
        let refused = self.is_double_free(shape, addr);
        let none = are_none(choices);
        refused & none
    }

    fn says_wrong_size(
        &self,
        shape: &Shape,
        choices: &Choices,
        addr: u64,
        stated: Option<u64>,
        block: u64,
        other: u64,
    ) -> bool
        requires { IsShape shape.now }
        ensures { IsTrue result ↔ (IsLiveBlock shape.now (state_in self.now) addr
            × (wrong_size shape.now stated ≡ Some (block, other)) × (choices.now ≡ no_choices)) }
    {
        let live = self.is_live_block(shape, addr);
        let size = is_pair(wrong_size(shape, stated), block, other);
        let none = are_none(choices);
        live & size & none
    }

    /// The slab's canary and what was found, where they differ.
    pub fn wrong_canary(&self, shape: &Shape, addr: u64) -> Option<(u64, u64)>
        requires shape { IsShape shape.now }
        requires block { IsLiveBlock shape.now (state_in self.now) addr }
        ensures { result ≡ wrong_canary shape.now (state_in self.now) addr }
    {
        if !shape.has_bytes() {
            return None;
        }
        let kept = self.kept_canary(shape, addr);
        let found = self.found_canary(shape, addr);
        if found == kept {
            None
        } else {
            Some((kept, found))
        }
    }

    fn says_canary(
        &self,
        shape: &Shape,
        choices: &Choices,
        addr: u64,
        stated: Option<u64>,
        kept: u64,
        found: u64,
    ) -> bool
        requires { IsShape shape.now }
        ensures { IsTrue result ↔ (IsLiveBlock shape.now (state_in self.now) addr
            × (wrong_size shape.now stated ≡ None) × (has_bytes shape.now ≡ true)
            × (wrong_canary shape.now (state_in self.now) addr ≡ Some (kept, found)) × (choices.now ≡ no_choices)) }
    {
        if !self.is_live_block(shape, addr) {
            return false;
        }
        let size = wrong_size(shape, stated).is_none();
        let bytes = shape.has_bytes();
        let canary = is_pair(self.wrong_canary(shape, addr), kept, found);
        let none = are_none(choices);
        size & bytes & canary & none
    }

    /// Whether giving back may be refused with a reply.
    pub fn may_refuse(
        &self,
        region: &Region,
        choices: &Choices,
        addr: u64,
        stated: Option<u64>,
        reply: &Reply,
    ) -> bool
        requires shape { IsShape region.now.shape }
        requires refused { reply.now ≢ Reply.Freed }
        ensures { (before now : ℕ) → IsTrue result
            ↔ Allows (terms region.now) (state_in self.now) before now choices.now (Call.GiveBack addr stated) reply.now }
    {
        let shape = &region.shape;
        match reply {
            Reply::NoSlot => self.says_no_slot(shape, choices, addr),
            Reply::Unused => self.says_unused(shape, choices, addr),
            Reply::DoubleFree => self.says_double_free(shape, choices, addr),
            Reply::WrongSize {
                block,
                stated: other,
            } => { self.says_wrong_size(shape, choices, addr, stated, *block, *other) }
            Reply::Canary { kept, found } => {
                self.says_canary(shape, choices, addr, stated, *kept, *found)
            }
            _ => false,
        }
    }

    fn says_usable(&self, shape: &Shape, choices: &Choices, addr: u64, size: u64) -> bool
        requires { IsShape shape.now }
        ensures { IsTrue result ↔ (IsLiveBlock shape.now (state_in self.now) addr × (size ≡ usable shape.now)
            × (choices.now ≡ no_choices)) }
    {
        let live = self.is_live_block(shape, addr);
        let same = size == shape.usable();
        let none = are_none(choices);
        live & same & none
    }

    /// Whether measuring may have a reply.
    pub fn may_measure(&self, region: &Region, choices: &Choices, addr: u64, reply: &Reply) -> bool
        requires { IsShape region.now.shape }
        ensures { (before now : ℕ) → IsTrue result
            ↔ Allows (terms region.now) (state_in self.now) before now choices.now (Call.Measure addr) reply.now }
    {
        let shape = &region.shape;
        match reply {
            Reply::NoSlot => self.says_no_slot(shape, choices, addr),
            Reply::Unused => self.says_unused(shape, choices, addr),
            Reply::DoubleFree => self.says_double_free(shape, choices, addr),
            Reply::Usable(size) => self.says_usable(shape, choices, addr, *size),
            _ => false,
        }
    }
}
