//! How the slots of one slab are used, and its canary.
//! A slot is at most one of live, quarantined and condemned; whether it was ever given is kept beside.
ghost use Rattle.std.specs.Prelude.{◌≡◌, ◌<◌, ◌≤◌, ◌↔◌, length, slice_get, option_map, Some, IsNone, IfSome, IfNone, true, false};
ghost use Rattle.std.specs.List.{list_any, list_all};
ghost use Rattle.hm_slab_meta.specs.Marks.{Marks};
ghost use Rattle.hm_slab_meta.specs.Uses.{Live, Quarantined, Free, state_of, is_available, was_given, fresh_slab, with_use, with_canary, condemned_in, AreTaken, IsFirstFree, first_from};

use crate::bit_map::BitMap;
use std::marker::Model;

/// How a slot is used.
#[derive(Clone, Copy, Debug, PartialEq, Eq, Drop)]
pub enum SlotState {
    /// It is available, and was never given.
    Never,
    /// It is available again.
    Free,
    Live,
    /// It was given back, and is in quarantine.
    Quarantined,
    /// It is never given again.
    Condemned,
}

/// What is kept of a slab of at most 256 slots.
#[derive(Drop)]
pub struct SlabMeta {
    canary: u64,
    slots: u32,
    live: BitMap,
    quarantined: BitMap,
    condemned: BitMap,
    given: BitMap,
}

impl Model for SlabMeta {
    ghost use Rattle.hm_slab_meta.specs.Uses.{SlabUse};
    ghost use Rattle.hm_slab_meta.specs.Kept.{uses_of, IsKept};

    ghost Value = { SlabUse };

    ghost view = { λ m. record { slots = uses_of m.live m.quarantined m.condemned m.given m.slots; canary = m.canary } };

    ghost invariant = { λ m. IsKept m.live m.quarantined m.condemned m.given m.slots };
}

impl SlabMeta {
    /// A slab whose slots were never given.
    pub fn fresh(slots: u32) -> SlabMeta
        requires some { 1 ≤ slots }
        requires few { slots ≤ 256 }
        ensures { result ≡ fresh_slab slots }
    {
        SlabMeta {
            canary: 0,
            slots,
            live: BitMap::empty(),
            quarantined: BitMap::empty(),
            condemned: BitMap::empty(),
            given: BitMap::empty(),
        }
    }

    /// The number that stands behind the usable bytes of each slot that is given.
    pub fn canary(&self) -> u64
        ensures { result ≡ self.now.canary }
    {
        self.canary
    }

    /// Sets that number. It writes no byte of a slot.
    pub fn set_canary(&mut self, canary: u64)
        ensures { self.new ≡ with_canary self.old canary }
    {
        self.canary = canary;
    }

    /// How a slot is used. Of a condemned one it does not say whether it was ever given.
    pub fn state(&self, slot: u32) -> SlotState
        requires { slot < length self.now.slots }
        ensures { option_map state_of (slice_get self.now.slots slot) ≡ Some result }
    {
        if self.live.contains(slot) {
            SlotState::Live
        } else if self.quarantined.contains(slot) {
            SlotState::Quarantined
        } else if self.condemned.contains(slot) {
            SlotState::Condemned
        } else if self.given.contains(slot) {
            SlotState::Free
        } else {
            SlotState::Never
        }
    }

    /// Whether the slot was ever given, also where it is condemned.
    pub fn was_given(&self, slot: u32) -> bool
        requires { slot < length self.now.slots }
        ensures { option_map was_given (slice_get self.now.slots slot) ≡ Some result }
    {
        self.given.contains(slot)
    }

    /// An available slot becomes live.
    pub fn give(&mut self, slot: u32)
        requires { option_map is_available (slice_get self.old.slots slot) ≡ Some true }
        ensures { self.new ≡ with_use self.old slot Live }
    {
        self.live.insert(slot);
        self.given.insert(slot);
    }

    /// A live slot goes into quarantine.
    pub fn quarantine(&mut self, slot: u32)
        requires { slice_get self.old.slots slot ≡ Some Live }
        ensures { self.new ≡ with_use self.old slot Quarantined }
    {
        self.live.remove(slot);
        self.quarantined.insert(slot);
    }

    /// A slot in quarantine is available again.
    pub fn release(&mut self, slot: u32)
        requires { slice_get self.old.slots slot ≡ Some Quarantined }
        ensures { self.new ≡ with_use self.old slot Free }
    {
        self.quarantined.remove(slot);
    }

    /// An available slot is never given again.
    pub fn condemn(&mut self, slot: u32)
        requires { option_map is_available (slice_get self.old.slots slot) ≡ Some true }
        ensures { self.new ≡ with_use self.old slot (condemned_in self.old slot) }
    {
        self.condemned.insert(slot);
    }

    // The slots that are not available.
    fn taken(&self) -> BitMap
        ensures few { length self.now.slots ≤ 256 }
        ensures marks { Marks result self.now.slots }
    {
        self.live.union(&self.quarantined).union(&self.condemned)
    }

    // The first slot from this one on that is not taken.
    fn first_past(&self, taken: &BitMap, from: u32) -> Option<u32>
        requires from { from < length self.now.slots }
        requires few { length self.now.slots ≤ 256 }
        requires taken { Marks taken.now self.now.slots }
        ensures found { IfSome result (IsFirstFree self.now.slots from) }
        ensures none { IfNone result (AreTaken self.now.slots from (length self.now.slots)) }
    {
        let slot = taken.first_clear_from(from)?;
        if slot < self.slots { Some(slot) } else { None }
    }

    /// The first available slot from this one on, and else from the first on.
    pub fn first_free_from(&self, start: u32) -> Option<u32>
        requires { start < length self.now.slots }
        ensures first { result ≡ first_from start self.now.slots }
        ensures available { IfSome result
            (λ slot. option_map is_available (slice_get self.now.slots slot) ≡ Some true) }
        ensures none { IsNone result ↔ (list_any is_available self.now.slots ≡ false) }
    {
        let taken = self.taken();
        match self.first_past(&taken, start) {
            Some(slot) => Some(slot),
            None => self.first_past(&taken, 0),
        }
    }

    /// Whether every slot is available.
    pub fn is_all_free(&self) -> bool
        ensures { result ≡ list_all is_available self.now.slots }
    {
        self.taken().is_empty()
    }
}
