//! A live block is taken back: what leaves the quarantine, and what becomes of a slab that this empties.
ghost use Rattle.std.specs.Prelude.{◌≡◌, ◌+◌, ◌<◌, ◌^◌, ◌↔◌, IsTrue, IfOk, IfSome, OnOk, Some, None, true, length};
ghost use Rattle.hm_model.specs.Calls.{no_choices};
ghost use Rattle.hm_sizes.specs.Shapes.{IsShape, usable, slab_of, has_bytes};
ghost use Rattle.hm_class_rules.specs.State.{is_empty, empty_slabs};
ghost use Rattle.hm_class_rules.specs.Steps.{takes_back, releases, unparks, retires, purges, changed};
ghost use Rattle.hm_class_rules.specs.Rules.{Releases, surplus, Unparks, Empties, IsLiveBlock, wrong_size, wrong_canary, AllowsFreed};
ghost use Rattle.hm_class_book.specs.Book.{state_in, terms, IsKept};

use crate::book::{Book, count_without, is_among};
use crate::changes::{put_first, put_front, remove_block, remove_number, remove_slab};
use crate::choices::are_freeing;
use crate::places::slab_of;
use crate::refusals::wrong_size;
use crate::region::Region;
use crate::slabs::fill_slabs;
use crate::sources::is_same;
use hm_base::NoMemory;
use hm_model::{Call, Choices, Reply};
use hm_sizes::Shape;

// The bytes that the empty slabs may come to.
const EMPTY_BYTES: u128 = 131_072;

impl Book {
    // The live slot at an address goes into quarantine, zeroed.
    fn take_back(&mut self, shape: &Shape, addr: u64) -> Result<(), NoMemory>
        requires { addr + usable shape.now < 2 ^ 64 }
        ensures { OnOk result (state_in self.new ≡ takes_back shape.now addr (state_in self.old)) }
    {
        fill_slabs(&mut self.opens, shape, addr, 0, shape.usable());
        remove_block(&mut self.live, addr);
        put_front(&mut self.frees, addr)?;
        put_first(&mut self.quarantined, addr)?;
        Ok(())
    }

    // What is said to leave the quarantine does so, where it may.
    fn release(&mut self, shape: &Shape, released: Option<u64>) -> bool
        ensures may { IsTrue result ↔ Releases shape.now (state_in self.old) released }
        ensures state { IsTrue result → state_in self.new ≡ releases released (state_in self.old) }
    {
        if !self.may_release(shape, released) {
            return false;
        }
        if let Some(slot) = released {
            remove_number(&mut self.quarantined, slot);
        }
        true
    }

    // The slab that is to go. `others` is how many slabs are empty beside it.
    fn surplus(&self, shape: &Shape, others: usize, released: Option<u64>) -> Option<u64>
        requires shape { IsShape shape.now }
        requires count { IfSome released (λ b. is_empty shape.now (state_in self.now) (slab_of shape.now b) ≡ true
            → length (empty_slabs shape.now (state_in self.now)) ≡ others + 1) }
        ensures { result ≡ surplus shape.now (state_in self.now) released }
    {
        let slab = slab_of(shape, released?);
        let (_, empty) = self.availability(shape, slab);
        if empty && EMPTY_BYTES < (others as u128 + 1) * u128::from(shape.slab) {
            Some(slab)
        } else {
            None
        }
    }

    // Whether the parking array may let go of this slab, or of none.
    fn may_unpark(&self, most: u32, unparked: Option<u64>) -> bool
        ensures { IsTrue result ↔ Unparks most (state_in self.now).parked unparked }
    {
        match unparked {
            None => self.parked.len() < most as usize,
            Some(slab) => {
                let parked = is_among(&self.parked, slab);
                let room = count_without(&self.parked, slab) < most as usize;
                parked & room
            }
        }
    }

    // Whether the slab that is to go is retired.
    fn is_retired(&self, region: &Region, choices: &Choices, slab: u64) -> bool
        ensures { IsTrue result ↔ ((choices.now.retired ≡ Some slab) × (choices.now.purged ≡ None)
            × Unparks region.now.config.park_length (state_in self.now).parked choices.now.unparked) }
    {
        let retired = is_same(choices.retired, slab);
        let purged = choices.purged.is_none();
        let parks = self.may_unpark(region.config.park_length, choices.unparked);
        retired & purged & parks
    }

    // Whether what becomes of the slab that is to go may become of it.
    fn may_empty(
        &self,
        region: &Region,
        counts: (u64, u64),
        choices: &Choices,
        surplus: Option<u64>,
    ) -> bool
        ensures { IsTrue result
            ↔ Empties (terms region.now) (state_in self.now) counts.0 counts.1 choices.now surplus }
    {
        match surplus {
            None => is_kept(choices),
            Some(slab) => {
                let retired = self.is_retired(region, choices, slab);
                let purged = is_purged(&region.shape, counts, choices, slab);
                retired | purged
            }
        }
    }

    // A slab leaves the parking array, if one does, and is shut.
    fn unpark(&mut self, unparked: Option<u64>) -> Result<(), NoMemory>
        ensures { OnOk result (state_in self.new ≡ unparks unparked (state_in self.old)) }
    {
        if let Some(slab) = unparked {
            remove_number(&mut self.parked, slab);
            self.shut.push(slab)?;
        }
        Ok(())
    }

    // A slab is retired, if one is.
    fn retire(&mut self, retired: Option<u64>) -> Result<(), NoMemory>
        ensures { OnOk result (state_in self.new ≡ retires retired (state_in self.old)) }
    {
        if let Some(slab) = retired {
            remove_slab(&mut self.opens, slab);
            put_first(&mut self.parked, slab)?;
        }
        Ok(())
    }

    // Whether a block may be taken back, by what is known before it is.
    fn may_free(&self, shape: &Shape, choices: &Choices, addr: u64, stated: Option<u64>) -> bool
        requires { IsShape shape.now }
        ensures { IsTrue result ↔ (IsLiveBlock shape.now (state_in self.now) addr × (wrong_size shape.now stated ≡ None)
            × (wrong_canary shape.now (state_in self.now) addr ≡ None) × (choices.now ≡ record no_choices {
              released = choices.now.released;
              retired = choices.now.retired;
              purged = choices.now.purged;
              unparked = choices.now.unparked;
            })) }
    {
        if !self.is_live_block(shape, addr) {
            return false;
        }
        let size = wrong_size(shape, stated).is_none();
        let canary = self.wrong_canary(shape, addr).is_none();
        let freeing = are_freeing(choices);
        size & canary & freeing
    }

    /// Takes a live block back. It says whether it may be taken back so. `others` is how many slabs are empty.
    pub fn take_freed(
        &mut self,
        region: &Region,
        others: usize,
        counts: (u64, u64),
        choices: &Choices,
        addr: u64,
        stated: Option<u64>,
    ) -> Result<bool, NoMemory>
        requires kept { IsKept region.now.shape (state_in self.old) }
        requires count { others ≡ length (empty_slabs region.now.shape (state_in self.old)) }
        ensures legal { IfOk result (λ r. IsTrue r
            ↔ AllowsFreed (terms region.now) (state_in self.old) counts.0 counts.1 choices.now addr stated) }
        ensures state { IfOk result (λ r. IsTrue r → state_in self.new
            ≡ changed region.now.shape choices.now (Call.GiveBack addr stated) Reply.Freed (state_in self.old)) }
    {
        let shape = &region.shape;
        if !self.may_free(shape, choices, addr, stated) {
            return Ok(false);
        }
        self.take_back(shape, addr)?;
        if !self.release(shape, choices.released) {
            return Ok(false);
        }
        let surplus = self.surplus(shape, others, choices.released);
        if !self.may_empty(region, counts, choices, surplus) {
            return Ok(false);
        }
        self.unpark(choices.unparked)?;
        self.retire(choices.retired)?;
        self.purge(shape, choices.purged);
        Ok(true)
    }

    // The bytes of a slab become zero, if they are purged.
    fn purge(&mut self, shape: &Shape, purged: Option<u64>)
        requires shape { IsShape shape.now }
        requires below { IfSome purged (λ n. n < shape.now.limit) }
        ensures { state_in self.new ≡ purges shape.now purged (state_in self.old) }
    {
        if let Some(slab) = purged {
            let addr = shape.first + slab * shape.slab;
            fill_slabs(&mut self.opens, shape, addr, 0, shape.slab);
        }
    }
}

// Whether nothing becomes of a slab.
fn is_kept(choices: &Choices) -> bool
    ensures { IsTrue result ↔ ((choices.now.retired ≡ None) × (choices.now.purged ≡ None)
        × (choices.now.unparked ≡ None)) }
{
    let retired = choices.retired.is_none();
    let purged = choices.purged.is_none();
    let unparked = choices.unparked.is_none();
    retired & purged & unparked
}

// Whether the slab that is to go is purged, as its pages did not go.
fn is_purged(shape: &Shape, counts: (u64, u64), choices: &Choices, slab: u64) -> bool
    ensures { IsTrue result ↔ ((choices.now.retired ≡ None) × (choices.now.purged ≡ Some slab)
        × (choices.now.unparked ≡ None) × (has_bytes shape.now ≡ true) × (counts.0 < counts.1)) }
{
    let retired = choices.retired.is_none();
    let purged = is_same(choices.purged, slab);
    let unparked = choices.unparked.is_none();
    let bytes = shape.has_bytes();
    let more = counts.0 < counts.1;
    retired & purged & unparked & bytes & more
}
