//! The slabs of a region by number, the lists in which they stand, and how many of their slots are live; and
//! what stands at an address.
ghost use Rattle.std.specs.Prelude.{◌≡◌, ℕ, ◌+◌, ◌<◌, ◌≤◌, ◌^◌, Some, None, true, length, slice_index_or, IfOk, IsOk, OnOk, OnErr};
ghost use Rattle.hm_sizes.specs.Shapes.{place, slab_of, slot_of};
ghost use Rattle.hm_class_rules.specs.Kinds.{Empty, same_kind};
ghost use Rattle.hm_slab_lists.specs.Lists.{placed};
ghost use Rattle.hm_slab_meta.specs.Uses.{Live, Quarantined, Free, was_given};
ghost use Rattle.hm_class.specs.Slabs.{HasRoom, no_slabs, with_spare, list_of, OpensSlab, SameLists, SameSlots, Parks};
ghost use Rattle.hm_class.specs.Sources.{IsAvailable, IsWithin, AreWhole, CanTake, OpensNext, Sources, Judges};
ghost use Rattle.hm_class.specs.Uses.{numbers_of, open_at, kind_at, use_at, passes_at, lives, canary_at, first_at, with_use, with_condemned, with_canary_at, live_count};

use crate::identity::Identity;
use hm_base::NoMemory;
use hm_model::Reply;
use hm_sizes::place_of;
use hm_slab_lists::{Place, SlabLists};
use hm_slab_meta::SlotState;
use std::alloc::Global;
use std::marker::Model;

/// A slot of a slab.
#[derive(Clone, Copy, Drop)]
pub struct Slot {
    pub slab: u64,
    pub index: u32,
}

/// The slabs of a region.
#[derive(Drop)]
pub struct Slabs {
    lists: SlabLists,
    /// How many slots are live.
    live: usize,
}

impl Model for Slabs {
    ghost use Rattle.std.specs.Prelude.{◌≡◌};
    ghost use Rattle.hm_class.specs.Slabs.{Slabs, slabs_of, uses_of, IsFiled};
    ghost use Rattle.hm_class.specs.Uses.{live_count};

    ghost Value = { Slabs };

    ghost view = { λ s. slabs_of s.lists };

    ghost invariant = { λ s. IsFiled s.lists × (s.live ≡ live_count (uses_of s.lists)) };
}

/// The address of a slot.
pub fn address_of(identity: &Identity, slot: Slot) -> u64
    requires slab { slot.slab < identity.now.shape.limit }
    requires index { slot.index < identity.now.shape.slots }
    ensures { result ≡ place identity.now.shape slot.slab slot.index }
{
    identity.shape.first
        + slot.slab * identity.shape.slab
        + u64::from(slot.index) * identity.shape.slot
}

/// The slot at an address.
pub fn slot_at(identity: &Identity, addr: u64) -> Slot
    requires from { identity.now.shape.first ≤ addr }
    ensures slab { result.slab ≡ slab_of identity.now.shape addr }
    ensures index { result.index ≡ slot_of identity.now.shape addr }
{
    let offset = addr - identity.shape.first;
    Slot {
        slab: offset / identity.shape.slab,
        index: (offset % identity.shape.slab / identity.shape.slot) as u32,
    }
}

impl Slabs {
    /// No slab, and an empty parking array.
    pub fn build(alloc: Global, identity: &Identity) -> Result<Slabs, NoMemory>
        ensures { IfOk result (λ k. k ≡ no_slabs (numbers_of identity.now.shape) identity.now.config.park_length) }
    {
        let lists = SlabLists::build(
            alloc,
            identity.shape.limit,
            identity.shape.guard_interval,
            identity.config.park_length,
            identity.shape.slots,
        )?;
        Ok(Slabs { lists, live: 0 })
    }

    /// How many slots are live.
    pub fn live(&self) -> usize
        ensures { result ≡ live_count self.now.slabs }
    {
        self.live
    }

    /// Where the next block comes from.
    pub fn source(&self) -> Place
        ensures { Sources self.now result }
    {
        self.lists.next_source()
    }

    /// Whether a slab is open.
    pub fn is_open(&self, slab: u64) -> bool
        ensures { result ≡ open_at self.now.slabs slab }
    {
        self.lists.is_open(slab)
    }

    /// Whether a slab is open with all its slots available.
    pub fn is_empty(&self, slab: u64) -> bool
        ensures { result ≡ same_kind (kind_at self.now.slabs slab) Empty }
    {
        match self.lists.meta(slab) {
            Some(meta) => self.lists.is_open(slab) && meta.is_all_free(),
            None => false,
        }
    }

    /// How many slabs are in the empty list.
    pub fn empty_count(&self) -> u64
        ensures { result ≡ length self.now.lists.empty }
    {
        self.lists.empty_count()
    }

    /// The canary of a slab: 0 where it is not open.
    pub fn canary_of(&self, slab: u64) -> u64
        ensures { result ≡ canary_at self.now.slabs slab }
    {
        match self.lists.meta(slab) {
            Some(meta) => meta.canary(),
            None => 0,
        }
    }

    /// The first available slot of a slab from one on, and else from the first on.
    pub fn first_from(&self, slab: u64, start: u32) -> Option<u32>
        requires { IsWithin self.now.slabs slab start }
        ensures { result ≡ first_at self.now.slabs slab start }
    {
        self.lists.meta(slab)?.first_free_from(start)
    }

    // Whether a slot is live.
    fn is_live(&self, slot: Slot) -> bool
        requires { IsWithin self.now.slabs slot.slab slot.index }
        ensures { result ≡ passes_at lives self.now.slabs slot.slab slot.index }
    {
        match self.lists.meta(slot.slab) {
            Some(meta) => matches!(meta.state(slot.index), SlotState::Live),
            None => false,
        }
    }

    // Whether a slot was ever given.
    fn was_given(&self, slot: Slot) -> bool
        requires { IsWithin self.now.slabs slot.slab slot.index }
        ensures { result ≡ passes_at was_given self.now.slabs slot.slab slot.index }
    {
        match self.lists.meta(slot.slab) {
            Some(meta) => meta.was_given(slot.index),
            None => false,
        }
    }

    /// The live slot that starts at an address, or why none does.
    pub fn judge(&self, identity: &Identity, addr: u64) -> Result<Slot, Reply>
        requires whole { AreWhole identity.now.shape self.now.slabs }
        ensures { Judges identity.now.shape self.now.slabs addr result }
    {
        let Some((slab, index)) = place_of(&identity.shape, addr) else {
            return Err(Reply::NoSlot);
        };
        let slot = Slot { slab, index };
        if self.is_live(slot) {
            Ok(slot)
        } else if self.was_given(slot) {
            Err(Reply::DoubleFree)
        } else {
            Err(Reply::Unused)
        }
    }

    /// Makes room for the slab that comes next: a fresh one takes some, a retired one has its own.
    pub fn reserve(&mut self) -> Result<(), NoMemory>
        requires { (n : ℕ) × OpensNext self.old n }
        ensures rest { self.new ≡ with_spare self.new.spare self.old }
        ensures room { OnOk result (HasRoom self.new) }
        ensures more { self.old.spare ≤ self.new.spare }
        ensures err { OnErr result (self.new ≡ self.old) }
        ensures enough { HasRoom self.old → IsOk result }
    {
        match self.lists.next_source() {
            Place::Retired(_) => Ok(()),
            Place::Fresh(_) => self.lists.reserve_one(),
            Place::Partial(_) => unreachable!(),
            Place::Empty(_) => unreachable!(),
            Place::Exhausted => unreachable!(),
        }
    }

    // Sets the canary of a slab that was opened once.
    fn set_canary(&mut self, slab: u64, canary: u64)
        ensures slabs { self.new.slabs ≡ with_canary_at self.old.slabs slab canary }
        ensures lists { SameLists self.old self.new }
    {
        if let Some(meta) = self.lists.meta_mut(slab) {
            meta.set_canary(canary);
        }
    }

    // Opens the first of the slabs that are shut, or a fresh one. It takes no memory.
    fn take_new(&mut self, slab: u64)
        requires { CanTake self.old slab }
        ensures { OpensSlab slab (canary_at self.old.slabs slab) self.old self.new }
    {
        match self.lists.next_source() {
            Place::Retired(_) => self.lists.open_retired(slab),
            Place::Fresh(_) => self.lists.open_fresh(slab),
            Place::Partial(_) => unreachable!(),
            Place::Empty(_) => unreachable!(),
            Place::Exhausted => unreachable!(),
        }
    }

    /// Opens the slab that comes next, with a canary. It takes no memory.
    pub fn open(&mut self, slab: u64, canary: u64)
        requires { CanTake self.old slab }
        ensures { OpensSlab slab canary self.old self.new }
    {
        self.take_new(slab);
        self.set_canary(slab, canary);
    }

    /// An available slot becomes live.
    pub fn give(&mut self, slot: Slot)
        requires available { IsAvailable self.old.slabs slot }
        requires few { live_count self.old.slabs < 2 ^ 63 }
        ensures slabs { self.new.slabs ≡ with_use self.old.slabs slot.slab slot.index Live }
        ensures lists { SameLists self.old self.new }
    {
        self.live += 1;
        if let Some(meta) = self.lists.meta_mut(slot.slab) {
            meta.give(slot.index);
        }
    }

    /// An available slot is never given again.
    pub fn condemn(&mut self, slot: Slot)
        requires available { IsAvailable self.old.slabs slot }
        ensures slabs { self.new.slabs ≡ with_condemned self.old.slabs slot.slab slot.index }
        ensures lists { SameLists self.old self.new }
    {
        if let Some(meta) = self.lists.meta_mut(slot.slab) {
            meta.condemn(slot.index);
        }
    }

    /// A live slot goes into quarantine.
    pub fn quarantine(&mut self, slot: Slot)
        requires live { use_at self.old.slabs slot.slab slot.index ≡ Some Live }
        ensures slabs { self.new.slabs ≡ with_use self.old.slabs slot.slab slot.index Quarantined }
        ensures lists { SameLists self.old self.new }
    {
        self.live -= 1;
        if let Some(meta) = self.lists.meta_mut(slot.slab) {
            meta.quarantine(slot.index);
        }
    }

    /// A slot in quarantine is available again.
    pub fn release(&mut self, slot: Slot)
        requires quarantined { use_at self.old.slabs slot.slab slot.index ≡ Some Quarantined }
        ensures slabs { self.new.slabs ≡ with_use self.old.slabs slot.slab slot.index Free }
        ensures lists { SameLists self.old self.new }
    {
        if let Some(meta) = self.lists.meta_mut(slot.slab) {
            meta.release(slot.index);
        }
    }

    /// Puts an open slab of which a slot was given or condemned into the list of its kind.
    pub fn after_take(&mut self, slab: u64)
        requires { open_at self.old.slabs slab ≡ true }
        ensures same { SameSlots self.old self.new }
        ensures lists { self.new.lists ≡ placed (list_of (kind_at self.old.slabs slab)) slab self.old.lists }
    {
        self.lists.after_take(slab);
    }

    /// Puts an open slab of which a slot was released into the list of its kind.
    pub fn after_release(&mut self, slab: u64)
        requires { open_at self.old.slabs slab ≡ true }
        ensures same { SameSlots self.old self.new }
        ensures lists { self.new.lists ≡ placed (list_of (kind_at self.old.slabs slab)) slab self.old.lists }
    {
        self.lists.after_release(slab);
    }

    /// Retires an open slab to an index of the parking array, and answers the slab that stood there.
    pub fn retire(&mut self, slab: u64, park: u32) -> Option<u64>
        requires open { open_at self.old.slabs slab ≡ true }
        requires park { park < length self.old.parking }
        ensures unparked { result ≡ slice_index_or self.old.parking park None }
        ensures retired { Parks slab park self.old self.new }
    {
        self.set_canary(slab, 0);
        self.lists.retire(slab, park)
    }
}
