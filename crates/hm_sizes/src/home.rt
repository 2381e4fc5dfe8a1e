//! The region to which an address belongs: the class region that reserves it, or the large one.
ghost use Rattle.std.specs.Prelude.{◌≡◌, ◌↔◌};
ghost use Rattle.hm_base.specs.declared.region.RegionId.{RegionId};
ghost use Rattle.hm_sizes.specs.Configs.{IsValid};
ghost use Rattle.hm_sizes.specs.Homes.{home_of, IsInRegion, IsInLargeSpace, IsOutside};

use crate::Config;
use crate::shape::REGIONS_START;
use crate::table::CLASSES;
use hm_base::RegionId;

/// Where the large space begins.
pub const LARGE_START: u64 = 1 << 46;

/// The region to which an address belongs.
#[derive(Clone, Copy, Debug, PartialEq, Eq, Drop)]
pub enum Home {
    Class(RegionId),
    Large,
    Outside,
}

/// The region whose reserved range, or whose space, has this address.
pub fn home_of(config: &Config, addr: u64) -> Home
    requires { IsValid config.now }
    ensures value { result ≡ home_of config.now addr }
    ensures class { (region : RegionId) → (result ≡ Home.Class region) ↔ IsInRegion config.now region.0 addr }
    ensures large { (result ≡ Home.Large) ↔ IsInLargeSpace config.now addr }
    ensures outside { (result ≡ Home.Outside) ↔ IsOutside config.now addr }
{
    let reserved = 2 * config.class_region;
    let regions = u64::from(config.arenas) * CLASSES;
    if (REGIONS_START..REGIONS_START + regions * reserved).contains(&addr) {
        Home::Class(RegionId(((addr - REGIONS_START) / reserved) as u32))
    } else if (LARGE_START..LARGE_START + config.large_space).contains(&addr) {
        Home::Large
    } else {
        Home::Outside
    }
}
