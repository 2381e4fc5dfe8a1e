//! The table of the size classes.
ghost use Rattle.std.specs.Prelude.{◌≡◌, ◌<◌};
ghost use Rattle.hm_sizes.specs.Classes.{
  class_count,
  quarantine_length,
  slab_size,
  slot_count,
  slot_size,
};

use crate::ClassId;

/// How many size classes there are.
pub const CLASSES: u64 = 49;

/// The numbers of a size class.
#[derive(Clone, Copy, Drop)]
pub struct SizeClass {
    /// From one slot to the next.
    pub slot: u64,
    /// The slots of a slab.
    pub slots: u32,
    /// From one slab to the next.
    pub slab: u64,
    /// The cells of the quarantine's array, and of its ring, for a base of 1.
    pub length: u32,
    /// The greatest request that goes to the class.
    pub greatest: u64,
}

macro_rules! size_classes {
    ($($slot:literal $slots:literal $slab:literal $length:literal $greatest:literal;)*) => {
        [$(SizeClass {
            slot: $slot,
            slots: $slots,
            slab: $slab,
            length: $length,
            greatest: $greatest,
        }),*]
    };
}

/// The size classes, smallest first.
pub static SIZE_CLASSES: [SizeClass; 49] = size_classes![
    16 256 4096 8192 0;
    16 256 4096 8192 8;
    32 128 4096 4096 24;
    48 85 4096 4096 40;
    64 64 4096 2048 56;
    80 51 4096 2048 72;
    96 42 4096 2048 88;
    112 36 4096 2048 104;
    128 64 8192 1024 120;
    160 51 8192 1024 152;
    192 64 12288 1024 184;
    224 54 12288 1024 216;
    256 64 16384 512 248;
    320 64 20480 512 312;
    384 64 24576 512 376;
    448 64 28672 512 440;
    512 64 32768 256 504;
    640 64 40960 256 632;
    768 64 49152 256 760;
    896 64 57344 256 888;
    1024 64 65536 128 1016;
    1280 16 20480 128 1272;
    1536 16 24576 128 1528;
    1792 16 28672 128 1784;
    2048 16 32768 64 2040;
    2560 8 20480 64 2552;
    3072 8 24576 64 3064;
    3584 8 28672 64 3576;
    4096 8 32768 32 4088;
    5120 8 40960 32 5112;
    6144 8 49152 32 6136;
    7168 8 57344 32 7160;
    8192 8 65536 16 8184;
    10240 6 61440 16 10232;
    12288 5 61440 16 12280;
    14336 4 57344 16 14328;
    16384 4 65536 8 16376;
    20480 1 20480 8 20472;
    24576 1 24576 8 24568;
    28672 1 28672 8 28664;
    32768 1 32768 4 32760;
    40960 1 40960 4 40952;
    49152 1 49152 4 49144;
    57344 1 57344 4 57336;
    65536 1 65536 2 65528;
    81920 1 81920 2 81912;
    98304 1 98304 2 98296;
    114688 1 114688 2 114680;
    131072 1 131072 1 131064;
];

/// The numbers of a class.
pub fn numbers_of(class: ClassId) -> &'static SizeClass
    requires { class.0 < class_count }
    ensures slot { result.now.slot ≡ slot_size class.0 }
    ensures slots { result.now.slots ≡ slot_count class.0 }
    ensures slab { result.now.slab ≡ slab_size class.0 }
    ensures length { result.now.length ≡ quarantine_length class.0 }
{
    &SIZE_CLASSES[usize::from(class.0)]
}
