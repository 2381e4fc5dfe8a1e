//! The numbers of one class region.
ghost use Rattle.std.specs.Prelude.{◌≡◌, ◌+◌, ◌*◌, ◌%◌, ◌^◌, ◌<◌, ◌≤◌};
ghost use Rattle.hm_sizes.specs.Classes.{class_count};
ghost use Rattle.hm_sizes.specs.Configs.{IsValid};
ghost use Rattle.hm_sizes.specs.Shapes.{shape_of, is_guard, has_bytes, usable, class_size_of, IsShape, PlaceGives};

use crate::table::{CLASSES, numbers_of};
use crate::{ClassId, Config};

/// Where the address space of the class regions begins.
pub(crate) const REGIONS_START: u64 = 1 << 40;

/// The numbers of one class region. Sizes are in bytes.
#[derive(Clone, Copy, Debug, PartialEq, Eq, Drop)]
pub struct Shape {
    pub class: ClassId,
    /// From one slot to the next.
    pub slot: u64,
    /// The slots of a slab.
    pub slots: u32,
    /// From one slab to the next: a number of whole pages.
    pub slab: u64,
    /// The address of slab 0.
    pub first: u64,
    /// Slabs are numbered below it.
    pub limit: u64,
    pub guard_interval: u32,
    /// The cells of the quarantine's array, and of its ring.
    pub array: u32,
    pub ring: u32,
}

/// The numbers of the region of this class in this arena. `gap` is the distance in bytes from the start
/// of the region's address space to its first slab.
pub fn shape_of(config: &Config, arena: u32, class: ClassId, gap: u64) -> Shape
    requires valid { IsValid config.now }
    requires arena { arena < config.now.arenas }
    requires class { class.0 < class_count }
    requires gap_pages { gap % 4096 ≡ 0 }
    requires gap_least { 4096 ≤ gap }
    requires gap_most { gap ≤ config.now.class_region }
    ensures value { result ≡ shape_of config.now arena class gap }
    ensures fits { IsShape result }
{
    let numbers = numbers_of(class);
    let region = u64::from(arena) * CLASSES + u64::from(class.0);
    Shape {
        class,
        slot: numbers.slot,
        slots: numbers.slots,
        slab: numbers.slab,
        first: REGIONS_START + region * 2 * config.class_region + gap,
        limit: config.class_region / numbers.slab,
        guard_interval: config.guard_interval,
        array: config.array_base * numbers.length,
        ring: config.ring_base * numbers.length,
    }
}

/// The slab and the slot that stand at this address.
pub fn place_of(shape: &Shape, addr: u64) -> Option<(u64, u32)>
    requires slot { 1 ≤ shape.now.slot }
    requires slots { 1 ≤ shape.now.slots }
    requires slots_fit { shape.now.slots * shape.now.slot ≤ shape.now.slab }
    requires guards_some { 1 ≤ shape.now.guard_interval }
    requires guards_most { shape.now.guard_interval ≤ 8 }
    requires space { shape.now.first + shape.now.limit * shape.now.slab < 2 ^ 64 }
    ensures { PlaceGives shape.now addr result }
{
    let offset = addr.checked_sub(shape.first)?;
    let slab = offset / shape.slab;
    let within = offset % shape.slab;
    let slot = within / shape.slot;
    if slab >= shape.limit || shape.is_guard(slab) {
        return None;
    }
    if slot >= u64::from(shape.slots) || within % shape.slot != 0 {
        return None;
    }
    Some((slab, slot as u32))
}

impl Shape {
    /// Whether the slab of this number is a guard.
    pub fn is_guard(&self, slab: u64) -> bool
        ensures { result ≡ is_guard self.now slab }
    {
        slab % (u64::from(self.guard_interval) + 1) == u64::from(self.guard_interval)
    }

    /// Whether slots have bytes and canaries: all but those of class 0.
    pub fn has_bytes(&self) -> bool
        ensures { result ≡ has_bytes self.now }
    {
        self.class.0 != 0
    }

    /// The bytes of a slot that its owner may use: all but the canary's 8, and none in class 0.
    pub fn usable(&self) -> u64
        ensures { result ≡ usable self.now }
    {
        if self.has_bytes() {
            self.slot.saturating_sub(8)
        } else {
            0
        }
    }

    /// The size of a block: a slot's, but 0 in class 0.
    pub fn class_size(&self) -> u64
        ensures { result ≡ class_size_of self.now }
    {
        if self.has_bytes() { self.slot } else { 0 }
    }
}
