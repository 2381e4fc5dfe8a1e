//! The table of classes, where requests go, the shapes of regions, and the home of an address.

use crate::{
    ClassId, Config, Home, Kind, Shape, class_aligned, class_of, home_of, place_of, shape_of,
};
use hm_base::RegionId;

/// Slot, slots, slab, length of the quarantine's parts and greatest request, class by class.
const CLASSES: [(u64, u32, u64, u32, u32); 49] = [
    (16, 256, 4096, 8192, 0),
    (16, 256, 4096, 8192, 8),
    (32, 128, 4096, 4096, 24),
    (48, 85, 4096, 4096, 40),
    (64, 64, 4096, 2048, 56),
    (80, 51, 4096, 2048, 72),
    (96, 42, 4096, 2048, 88),
    (112, 36, 4096, 2048, 104),
    (128, 64, 8192, 1024, 120),
    (160, 51, 8192, 1024, 152),
    (192, 64, 12288, 1024, 184),
    (224, 54, 12288, 1024, 216),
    (256, 64, 16384, 512, 248),
    (320, 64, 20480, 512, 312),
    (384, 64, 24576, 512, 376),
    (448, 64, 28672, 512, 440),
    (512, 64, 32768, 256, 504),
    (640, 64, 40960, 256, 632),
    (768, 64, 49152, 256, 760),
    (896, 64, 57344, 256, 888),
    (1024, 64, 65536, 128, 1016),
    (1280, 16, 20480, 128, 1272),
    (1536, 16, 24576, 128, 1528),
    (1792, 16, 28672, 128, 1784),
    (2048, 16, 32768, 64, 2040),
    (2560, 8, 20480, 64, 2552),
    (3072, 8, 24576, 64, 3064),
    (3584, 8, 28672, 64, 3576),
    (4096, 8, 32768, 32, 4088),
    (5120, 8, 40960, 32, 5112),
    (6144, 8, 49152, 32, 6136),
    (7168, 8, 57344, 32, 7160),
    (8192, 8, 65536, 16, 8184),
    (10240, 6, 61440, 16, 10232),
    (12288, 5, 61440, 16, 12280),
    (14336, 4, 57344, 16, 14328),
    (16384, 4, 65536, 8, 16376),
    (20480, 1, 20480, 8, 20472),
    (24576, 1, 24576, 8, 24568),
    (28672, 1, 28672, 8, 28664),
    (32768, 1, 32768, 4, 32760),
    (40960, 1, 40960, 4, 40952),
    (49152, 1, 49152, 4, 49144),
    (57344, 1, 57344, 4, 57336),
    (65536, 1, 65536, 2, 65528),
    (81920, 1, 81920, 2, 81912),
    (98304, 1, 98304, 2, 98296),
    (114688, 1, 114688, 2, 114680),
    (131072, 1, 131072, 1, 131064),
];

#[test]
fn classes(rt: HostRuntime) {
    let config = Config::standard();
    let mut number = 0;
    for (slot, slots, slab, length, greatest) in CLASSES {
        let class = ClassId(number);
        let next = if number < 48 {
            Kind::Small(ClassId(number + 1))
        } else {
            Kind::Large(163840)
        };
        assert_eq!(rt; class_of(u64::from(greatest)), Kind::Small(class));
        assert_eq!(rt; class_of(u64::from(greatest) + 1), next);
        let shape = shape_of(&config, 0, class, 4096);
        assert_eq!(rt; (shape.slot, shape.slots, shape.slab), (slot, slots, slab));
        assert_eq!(rt; (shape.array, shape.ring), (length, length));
        number += 1;
    }
}

#[test]
fn requests(rt: HostRuntime) {
    let most: u64 = 1 << 30;
    for (asked, kind) in [
        (0, Kind::Small(ClassId(0))),
        (1, Kind::Small(ClassId(1))),
        (100, Kind::Small(ClassId(7))),
        (131064, Kind::Small(ClassId(48))),
        (131065, Kind::Large(163840)),
        (131072, Kind::Large(163840)),
        (163841, Kind::Large(196608)),
        (most, Kind::Large(most)),
        (most + 1, Kind::TooLarge),
        (u64::MAX, Kind::TooLarge),
    ] {
        assert_eq!(rt; class_of(asked), kind, "at {asked}");
    }
}

#[test]
fn aligned_requests(rt: HostRuntime) {
    for (asked, align, kind) in [
        (100, 64, Some(Kind::Small(ClassId(8)))),
        (1, 4096, Some(Kind::Small(ClassId(28)))),
        (10, 3, None),
        (131064, 16, Some(Kind::Small(ClassId(48)))),
        (131065, 32, Some(Kind::Large(163840))),
        (1, 2097152, Some(Kind::Large(4096))),
        (1, 4194304, None),
        (0, 0, None),
        (0, 16, Some(Kind::Small(ClassId(0)))),
        (0, 32, Some(Kind::Small(ClassId(2)))),
        (1 << 31, 32, Some(Kind::TooLarge)),
        (1 << 31, 48, None),
    ] {
        assert_eq!(rt; class_aligned(asked, align), kind, "{asked} at {align}");
    }
}

#[test]
fn places(rt: HostRuntime) {
    let first = (1 << 40) + 4096;
    let shape = Shape {
        class: ClassId(3),
        slot: 48,
        slots: 85,
        slab: 4096,
        first,
        limit: 4,
        guard_interval: 1,
        array: 4096,
        ring: 4096,
    };
    for (addr, place) in [
        (first, Some((0, 0))),
        (first + 48, Some((0, 1))),
        (first + 84 * 48, Some((0, 84))),
        (first + 85 * 48, None),
        (first + 1, None),
        (first + 47, None),
        (first + 4096, None),
        (first + 2 * 4096, Some((2, 0))),
        (first + 2 * 4096 + 96, Some((2, 2))),
        (first + 3 * 4096, None),
        (first + 4 * 4096, None),
        (first - 48, None),
        (0, None),
        (u64::MAX, None),
    ] {
        assert_eq!(rt; place_of(&shape, addr), place, "at {addr}");
    }
}

#[test]
fn region_numbers(rt: HostRuntime) {
    let config = Config {
        arenas: 2,
        class_region: 1 << 20,
        guard_interval: 8,
        ring_base: 0,
        ..Config::standard()
    };
    assert!(rt; config.is_valid());
    let shape = shape_of(&config, 1, ClassId(33), 8192);
    assert_eq!(rt; shape.first, (1 << 40) + (49 + 33) * 2097152 + 8192);
    assert_eq!(rt; (shape.limit, shape.guard_interval), (17, 8));
    assert_eq!(rt; (shape.array, shape.ring), (16, 0));
}

/// The first and the last address of each region, and those beside them.
#[test]
fn homes(rt: HostRuntime) {
    let config = Config {
        arenas: 2,
        class_region: 1 << 20,
        large_space: 1 << 21,
        ..Config::standard()
    };
    for region in 0..98 {
        let start = (1 << 40) + u64::from(region) * 2097152;
        let home = Home::Class(RegionId(region));
        assert_eq!(rt; home_of(&config, start), home);
        assert_eq!(rt; home_of(&config, start + 2097151), home);
    }
    for (addr, home) in [
        ((1 << 40) - 1, Home::Outside),
        ((1 << 40) + 98 * 2097152, Home::Outside),
        ((1 << 46) - 1, Home::Outside),
        (1 << 46, Home::Large),
        ((1 << 46) + 2097151, Home::Large),
        ((1 << 46) + 2097152, Home::Outside),
        (0, Home::Outside),
        (u64::MAX, Home::Outside),
    ] {
        assert_eq!(rt; home_of(&config, addr), home, "at {addr}");
    }
}

#[test]
fn valid_configs(rt: HostRuntime) {
    let standard = Config::standard();
    for config in [
        standard,
        Config {
            arenas: 1,
            guard_interval: 8,
            park_length: 1,
            ..standard
        },
        Config {
            class_region: 1 << 20,
            large_space: 1 << 20,
            ..standard
        },
        Config {
            array_base: 0,
            ring_base: 0,
            ..standard
        },
        Config {
            check_reuse: false,
            ..standard
        },
        Config {
            random_slots: false,
            ..standard
        },
        Config::light(),
    ] {
        assert!(rt; config.is_valid(), "{config:?}");
    }
}

#[test]
fn light_config(rt: HostRuntime) {
    let light = Config {
        arenas: 4,
        class_region: 1 << 35,
        large_space: 1 << 40,
        guard_interval: 8,
        array_base: 0,
        ring_base: 0,
        park_length: 32,
        check_reuse: false,
        random_slots: false,
    };
    assert_eq!(rt; Config::light(), light);
}

#[test]
fn invalid_spaces(rt: HostRuntime) {
    let standard = Config::standard();
    for config in [
        Config {
            arenas: 0,
            ..standard
        },
        Config {
            arenas: 5,
            ..standard
        },
        Config {
            class_region: (1 << 20) - 4096,
            ..standard
        },
        Config {
            class_region: (1 << 20) + 1,
            ..standard
        },
        Config {
            class_region: (1 << 35) + 4096,
            ..standard
        },
        Config {
            large_space: (1 << 20) - 4096,
            ..standard
        },
        Config {
            large_space: (1 << 20) + 1,
            ..standard
        },
        Config {
            large_space: (1 << 40) + 4096,
            ..standard
        },
    ] {
        assert!(rt; !config.is_valid(), "{config:?}");
    }
}

#[test]
fn invalid_settings(rt: HostRuntime) {
    let standard = Config::standard();
    for config in [
        Config {
            guard_interval: 0,
            ..standard
        },
        Config {
            guard_interval: 9,
            ..standard
        },
        Config {
            array_base: 2,
            ..standard
        },
        Config {
            ring_base: 2,
            ..standard
        },
        Config {
            park_length: 0,
            ..standard
        },
        Config {
            park_length: 33,
            ..standard
        },
    ] {
        assert!(rt; !config.is_valid(), "{config:?}");
    }
}
