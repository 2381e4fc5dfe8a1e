//! Giving a slot, or finding it overwritten, or having none to give.
ghost use Rattle.std.specs.Prelude.{◌≡◌, ◌≢◌, ◌+◌, ◌<◌, ◌^◌, ◌↔◌, ◌&&◌, ℕ, IsTrue, IfOk, IfSome, OnOk, Some, None, true, is_some, unwrap_or};
ghost use Rattle.hm_model.specs.Calls.{no_choices};
ghost use Rattle.hm_sizes.specs.Shapes.{IsShape, IsPlace, has_bytes, usable, slab_of, after};
ghost use Rattle.hm_class_rules.specs.State.{is_partial, is_empty, unopened};
ghost use Rattle.hm_class_rules.specs.Steps.{opened, taken_new, new_slab, gives, condemns};
ghost use Rattle.hm_class_rules.specs.Rules.{Allows, AllowsGiven, AllowsOverwritten, NoneServes, Picks, Source, reuse_finds};
ghost use Rattle.hm_class_book.specs.Book.{state_in, slab_in, terms};
ghost use Rattle.hm_class_book.specs.Sources.{Holds};
ghost use Rattle.hm_class_book.specs.Picks.{with_opened, IsFirst, Judges};

use crate::book::{Book, OpenSlab};
use crate::changes::{put_first, put_front, remove_block, remove_slab};
use crate::choices::{are_none, are_picking};
use crate::kinds::Lists;
use crate::places::{is_place, slab_of};
use crate::region::Region;
use crate::slab_bytes::SlabBytes;
use crate::slabs::write_slabs;
use crate::sources::opens;
use hm_base::NoMemory;
use hm_model::{Call, Choices, Reply};
use hm_sizes::Shape;
use std::alloc::Global;

// The least number above this one that is no guard.
fn after(shape: &Shape, slab: u64) -> u64
    requires { slab < 2 ^ 32 }
    ensures { result ≡ after shape.now slab }
{
    if shape.is_guard(slab + 1) {
        slab + 2
    } else {
        slab + 1
    }
}

// A slab that is opened.
fn fresh(alloc: Global, shape: &Shape, canary: Option<u64>) -> Result<OpenSlab, NoMemory>
    requires { IsShape shape.now }
    ensures { IfOk result (λ b. slab_in b ≡ new_slab shape.now (unwrap_or canary 0)) }
{
    let len = if shape.has_bytes() { shape.slab } else { 0 };
    Ok(OpenSlab {
        bytes: SlabBytes::zeroed(alloc, len)?,
        canary: canary.unwrap_or(0),
    })
}

fn is_stain(stain: Option<(u64, u8)>, at: u64, found: u8) -> bool
    ensures { IsTrue result ↔ stain ≡ Some (at, found) }
{
    match stain {
        Some((x, y)) => (x == at) & (y == found),
        None => false,
    }
}

impl Book {
    // Takes the next slab from those that are shut, or a fresh one.
    fn take_new(&mut self, shape: &Shape)
        requires shape { IsShape shape.now }
        requires some { is_some (unopened shape.now (state_in self.old).shut (state_in self.old).next) ≡ true }
        ensures { state_in self.new ≡ taken_new shape.now (state_in self.old).shut (state_in self.old) }
    {
        if self.shut.is_empty() {
            self.next = after(shape, self.next);
        } else {
            self.shut.remove(0);
        }
    }

    // Opens the slab that is said to be, if one is.
    fn open(
        &mut self,
        alloc: Global,
        shape: &Shape,
        number: Option<u64>,
        canary: Option<u64>,
    ) -> Result<(), NoMemory>
        requires shape { IsShape shape.now }
        requires next { IfSome number
            (λ n. unopened shape.now (state_in self.old).shut (state_in self.old).next ≡ Some n) }
        ensures { OnOk result (state_in self.new ≡ opened shape.now number canary (state_in self.old)) }
    {
        match number {
            None => Ok(()),
            Some(slab) => self.open_slab(alloc, shape, slab, canary),
        }
    }

    fn open_slab(
        &mut self,
        alloc: Global,
        shape: &Shape,
        slab: u64,
        canary: Option<u64>,
    ) -> Result<(), NoMemory>
        requires shape { IsShape shape.now }
        requires next { unopened shape.now (state_in self.old).shut (state_in self.old).next ≡ Some slab }
        ensures { OnOk result (state_in self.new ≡ opened shape.now (Some slab) canary (state_in self.old)) }
    {
        let fresh = fresh(alloc, shape, canary)?;
        self.take_new(shape);
        remove_slab(&mut self.opens, slab);
        self.opens.insert(0, (slab, fresh))?;
        Ok(())
    }
}

// Whether a slot of a region may be picked, by what is known before a slab is opened.
fn are_choices(shape: &Shape, choices: &Choices) -> bool
    ensures { IsTrue result ↔ ((is_some choices.now.canary ≡ (has_bytes shape.now && is_some choices.now.opened))
        × (choices.now ≡ record no_choices { canary = choices.now.canary; opened = choices.now.opened })) }
{
    let canary = choices.canary.is_some() == (shape.has_bytes() & choices.opened.is_some());
    let picking = are_picking(choices);
    canary & picking
}

impl Book {
    fn may_pick(&self, shape: &Shape, lists: &Lists, choices: &Choices, addr: u64) -> bool
        requires shape { IsShape shape.now }
        requires partial { Holds lists.now.partial.items (is_partial shape.now (state_in self.now)) }
        requires empty { Holds lists.now.empty.items (is_empty shape.now (state_in self.now)) }
        ensures { IsTrue result ↔ (IsPlace shape.now addr
            × (Source shape.now (state_in self.now) choices.now.opened (slab_of shape.now addr))
            × ((is_some choices.now.canary ≡ (has_bytes shape.now && is_some choices.now.opened))
            × (choices.now ≡ record no_choices { canary = choices.now.canary; opened = choices.now.opened }))) }
    {
        let place = is_place(shape, addr);
        let slab = slab_of(shape, addr);
        let source = self.is_source(shape, &lists.partial, &lists.empty, choices.opened, slab);
        let choices = are_choices(shape, choices);
        place & source & choices
    }

    // Picks a slot, once the slab that is said to be opened is so. It says whether the slot is the first available one.
    fn pick(
        &mut self,
        alloc: Global,
        shape: &Shape,
        lists: &Lists,
        choices: &Choices,
        addr: u64,
        from: u32,
    ) -> Result<Option<bool>, NoMemory>
        requires shape { IsShape shape.now }
        requires partial { Holds lists.now.partial.items (is_partial shape.now (state_in self.old)) }
        requires empty { Holds lists.now.empty.items (is_empty shape.now (state_in self.old)) }
        requires from { from < shape.now.slots }
        ensures { IfOk result (Judges
            (Picks shape.now (state_in self.old) (with_opened shape.now choices.now (state_in self.old)) choices.now
            addr)
            (IsFirst shape.now (state_in self.old) choices.now from addr)
            (state_in self.new ≡ with_opened shape.now choices.now (state_in self.old))) }
    {
        if !self.may_pick(shape, lists, choices, addr) {
            return Ok(None);
        }
        self.open(alloc, shape, choices.opened, choices.canary)?;
        let slab = slab_of(shape, addr);
        if !self.is_open(slab) {
            return Ok(None);
        }
        if self.is_taken(addr) {
            return Ok(None);
        }
        Ok(Some(self.is_first(shape, addr, from)))
    }

    // What the check on reuse finds.
    fn reuse(&self, region: &Region, addr: u64) -> Option<(u64, u8)>
        requires { IsShape region.now.shape }
        ensures { result ≡ reuse_finds region.now.config region.now.shape (state_in self.now) addr }
    {
        if region.config.check_reuse {
            self.stain(&region.shape, addr)
        } else {
            None
        }
    }

    // A picked slot is live from now on.
    fn give(&mut self, shape: &Shape, addr: u64, asked: u64) -> Result<(), NoMemory>
        requires shape { IsShape shape.now }
        requires below { addr + 131072 < 2 ^ 64 }
        ensures { OnOk result (state_in self.new ≡ gives shape.now addr asked (state_in self.old)) }
    {
        let canary = self.kept_canary(shape, addr).to_le_bytes();
        write_slabs(&mut self.opens, shape, addr + shape.usable(), &canary);
        remove_block(&mut self.live, addr);
        self.live.insert(0, (addr, asked))?;
        put_front(&mut self.given, addr)
    }

    // Whether a picked slot may be given, with this usable size.
    fn may_give(&self, region: &Region, addr: u64, size: u64) -> bool
        requires { IsShape region.now.shape }
        ensures { IsTrue result ↔ ((size ≡ usable region.now.shape)
            × (reuse_finds region.now.config region.now.shape (state_in self.now) addr ≡ None)) }
    {
        let same = size == region.shape.usable();
        let clean = self.reuse(region, addr).is_none();
        same & clean
    }

    // Whether a picked slot may be found overwritten so.
    fn may_condemn(&self, region: &Region, addr: u64, stain: (u64, u8)) -> bool
        requires { IsShape region.now.shape }
        ensures { IsTrue result ↔ ((region.now.config.check_reuse ≡ true)
            × (reuse_finds region.now.config region.now.shape (state_in self.now) addr ≡ Some (stain.0, stain.1))) }
    {
        let checked = region.config.check_reuse;
        let same = is_stain(self.reuse(region, addr), stain.0, stain.1);
        checked & same
    }

    /// Gives a slot. It says whether it is the first available one, or nothing, where it may not be given so.
    pub fn take_given(
        &mut self,
        alloc: Global,
        region: &Region,
        lists: &Lists,
        choices: &Choices,
        asked: u64,
        addr: u64,
        size: u64,
        from: u32,
    ) -> Result<Option<bool>, NoMemory>
        requires shape { IsShape region.now.shape }
        requires partial { Holds lists.now.partial.items (is_partial region.now.shape (state_in self.old)) }
        requires empty { Holds lists.now.empty.items (is_empty region.now.shape (state_in self.old)) }
        requires from { from < region.now.shape.slots }
        ensures { IfOk result (Judges
            (AllowsGiven (terms region.now) (state_in self.old) choices.now addr size)
            (IsFirst region.now.shape (state_in self.old) choices.now from addr)
            (state_in self.new ≡ gives region.now.shape addr asked
            (with_opened region.now.shape choices.now (state_in self.old)))) }
    {
        let picked = self.pick(alloc, &region.shape, lists, choices, addr, from)?;
        match picked {
            None => Ok(None),
            Some(first) => {
                if !self.may_give(region, addr, size) {
                    return Ok(None);
                }
                self.give(&region.shape, addr, asked)?;
                Ok(Some(first))
            }
        }
    }

    /// Finds a slot overwritten. It says whether it is the first available one, or nothing, where it may not be so.
    pub fn take_overwritten(
        &mut self,
        alloc: Global,
        region: &Region,
        lists: &Lists,
        choices: &Choices,
        addr: u64,
        stain: (u64, u8),
        from: u32,
    ) -> Result<Option<bool>, NoMemory>
        requires shape { IsShape region.now.shape }
        requires partial { Holds lists.now.partial.items (is_partial region.now.shape (state_in self.old)) }
        requires empty { Holds lists.now.empty.items (is_empty region.now.shape (state_in self.old)) }
        requires from { from < region.now.shape.slots }
        ensures { IfOk result (Judges
            (AllowsOverwritten (terms region.now) (state_in self.old) choices.now addr stain.0 stain.1)
            (IsFirst region.now.shape (state_in self.old) choices.now from addr)
            (state_in self.new ≡ condemns addr (with_opened region.now.shape choices.now (state_in self.old)))) }
    {
        let picked = self.pick(alloc, &region.shape, lists, choices, addr, from)?;
        match picked {
            None => Ok(None),
            Some(first) => {
                if !self.may_condemn(region, addr, stain) {
                    return Ok(None);
                }
                put_first(&mut self.condemned, addr)?;
                Ok(Some(first))
            }
        }
    }

    /// Whether no open slab serves, by the lists of those that would.
    fn none_serves(&self, shape: &Shape, lists: &Lists) -> bool
        requires shape { IsShape shape.now }
        requires partial { Holds lists.now.partial.items (is_partial shape.now (state_in self.now)) }
        requires empty { Holds lists.now.empty.items (is_empty shape.now (state_in self.now)) }
        ensures { IsTrue result ↔ NoneServes shape.now (state_in self.now) }
    {
        opens(&lists.partial, &lists.empty)
    }

    fn says_exhausted(&self, shape: &Shape, lists: &Lists, choices: &Choices) -> bool
        requires shape { IsShape shape.now }
        requires partial { Holds lists.now.partial.items (is_partial shape.now (state_in self.now)) }
        requires empty { Holds lists.now.empty.items (is_empty shape.now (state_in self.now)) }
        ensures { IsTrue result ↔ (NoneServes shape.now (state_in self.now)
            × (unopened shape.now (state_in self.now).shut (state_in self.now).next ≡ None)
            × (choices.now ≡ no_choices)) }
    {
        let serves = self.none_serves(shape, lists);
        let unopened = self.unopened(shape).is_none();
        let none = are_none(choices);
        serves & unopened & none
    }

    fn says_fault(
        &self,
        shape: &Shape,
        lists: &Lists,
        choices: &Choices,
        before: u64,
        now: u64,
    ) -> bool
        requires shape { IsShape shape.now }
        requires partial { Holds lists.now.partial.items (is_partial shape.now (state_in self.now)) }
        requires empty { Holds lists.now.empty.items (is_empty shape.now (state_in self.now)) }
        ensures { IsTrue result ↔ (NoneServes shape.now (state_in self.now)
            × (is_some (unopened shape.now (state_in self.now).shut (state_in self.now).next) ≡ true)
            × (has_bytes shape.now ≡ true) × (before < now) × (choices.now ≡ no_choices)) }
    {
        let serves = self.none_serves(shape, lists);
        let unopened = self.unopened(shape).is_some();
        let bytes = shape.has_bytes();
        let more = before < now;
        let none = are_none(choices);
        serves & unopened & bytes & more & none
    }

    /// Whether no slot may be given, with a reply.
    pub fn may_not_give(
        &self,
        region: &Region,
        lists: &Lists,
        choices: &Choices,
        counts: (u64, u64),
        reply: &Reply,
    ) -> bool
        requires shape { IsShape region.now.shape }
        requires partial { Holds lists.now.partial.items (is_partial region.now.shape (state_in self.now)) }
        requires empty { Holds lists.now.empty.items (is_empty region.now.shape (state_in self.now)) }
        requires given { (a size : ℕ) → reply.now ≢ Reply.Given a size }
        requires overwritten { (a at found : ℕ) → reply.now ≢ Reply.Overwritten a at found }
        ensures { (asked align : ℕ) → IsTrue result ↔ Allows (terms region.now) (state_in self.now) counts.0 counts.1
            choices.now (Call.Allot asked align) reply.now }
    {
        match reply {
            Reply::Exhausted => self.says_exhausted(&region.shape, lists, choices),
            Reply::PagesFailed => {
                self.says_fault(&region.shape, lists, choices, counts.0, counts.1)
            }
            _ => false,
        }
    }
}
