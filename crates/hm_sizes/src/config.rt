//! The configuration of an allocator.

/// The bytes of a page.
pub const PAGE: u64 = 4096;

/// The fewest bytes of a class region, and of the large one.
pub const LEAST_SPACE: u64 = 1 << 20;

/// The most bytes of a class region, which it has in the standard configuration.
pub const MOST_CLASS_REGION: u64 = 1 << 35;

/// The most bytes of the large region, which it has in the standard configuration.
pub const MOST_LARGE_SPACE: u64 = 1 << 40;

/// The configuration of an allocator.
#[derive(Clone, Copy, Debug, PartialEq, Eq, Drop)]
pub struct Config {
    pub arenas: u32,
    /// The bytes of a class region: half of its address space, the other half being for its gap.
    pub class_region: u64,
    /// The bytes of the large region.
    pub large_space: u64,
    /// So many slabs stand between two guards.
    pub guard_interval: u32,
    /// 0 or 1 times a class's length is the length of the quarantine's array.
    pub array_base: u32,
    /// The same for its ring.
    pub ring_base: u32,
    /// The cells of the parking array, where a retired slab waits before it may be opened again.
    pub park_length: u32,
    /// Whether the usable bytes of a slot are looked at before it is given again.
    pub check_reuse: bool,
    /// Whether the search for a slot starts at a drawn one.
    pub random_slots: bool,
}

impl Config {
    ghost use Rattle.std.specs.Prelude.{◌≡◌, ◌↔◌, IsTrue};
    ghost use Rattle.hm_sizes.specs.Configs.{standard, light, IsValid};

    /// Four arenas, class regions of 32 GiB, a large region of 1 TiB, and every second slab a guard.
    pub fn standard() -> Config
        ensures value { result ≡ standard }
        ensures valid { IsValid result }
    {
        Config {
            arenas: 4,
            class_region: MOST_CLASS_REGION,
            large_space: MOST_LARGE_SPACE,
            guard_interval: 1,
            array_base: 1,
            ring_base: 1,
            park_length: 32,
            check_reuse: true,
            random_slots: true,
        }
    }

    /// The standard configuration with no quarantine of slots, no look at what a free slot holds, the first
    /// available slot in place of a drawn one, and a guard after eight slabs.
    pub fn light() -> Config
        ensures value { result ≡ light }
        ensures valid { IsValid result }
    {
        Config {
            guard_interval: 8,
            array_base: 0,
            ring_base: 0,
            check_reuse: false,
            random_slots: false,
            ..Config::standard()
        }
    }

    /// Whether the numbers are in range.
    pub fn is_valid(&self) -> bool
        ensures { IsTrue result ↔ IsValid self.now }
    {
        let space = self.class_region.is_multiple_of(PAGE)
            && (LEAST_SPACE..=MOST_CLASS_REGION).contains(&self.class_region)
            && self.large_space.is_multiple_of(PAGE)
            && (LEAST_SPACE..=MOST_LARGE_SPACE).contains(&self.large_space);
        let quarantine = self.array_base <= 1 && self.ring_base <= 1;
        (1..=4).contains(&self.arenas)
            && space
            && (1..=8).contains(&self.guard_interval)
            && quarantine
            && (1..=32).contains(&self.park_length)
    }
}
