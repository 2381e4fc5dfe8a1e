//! Where the regions stand that serve a call.
ghost use Rattle.std.specs.Prelude.{◌≡◌, ◌+◌, ◌<◌, ◌≤◌, ◌^◌, IfSome};
ghost use Rattle.hm_model.specs.declared.entry.Call.TheVariants as call;
ghost use Rattle.hm_sizes.specs.Classes.{class_count};
ghost use Rattle.hm_sizes.specs.Configs.{IsValid};
ghost use Rattle.hm_sizes.specs.Homes.{region_count};
ghost use Rattle.hm_sizes.specs.Sizes.{IsKindOf};
ghost use Rattle.hm_heap.specs.Passes.{region_at};
ghost use Rattle.hm_heap.specs.Requests.{Asks, IsInReach};
ghost use Rattle.hm_heap.specs.Calls.{class_index, large_index, home_index, index_for};

use crate::heap::CLASSES;
use hm_sizes::{ClassId, Config, Home, Kind, home_of};

/// The index of the region of a class in the arena of a thread.
pub(crate) fn class_index(config: &Config, thread: u32, class: ClassId) -> usize
    requires valid { IsValid config.now }
    requires thread { 1 ≤ thread }
    requires class { class.0 < class_count }
    ensures index { result ≡ class_index config.now thread class.0 }
    ensures below { result < region_count config.now }
{
    let arena = (thread - 1) % config.arenas;
    (arena * CLASSES + u32::from(class.0)) as usize
}

/// The index of the large region.
pub(crate) fn large_index(config: &Config) -> usize
    requires { config.now.arenas ≤ 4 }
    ensures { result ≡ large_index config.now }
{
    (config.arenas * CLASSES) as usize
}

/// The index of the region in which a block of this kind is asked for. None is for one that is too large. `asked` is
/// read by the clauses alone.
pub(crate) fn index_for(config: &Config, thread: u32, kind: Kind, asked: u64) -> Option<usize>
    requires valid { IsValid config.now }
    requires thread { 1 ≤ thread }
    requires kind { IsKindOf asked kind }
    ensures index { result ≡ index_for config.now thread kind }
    ensures below { IfSome result (λ index. index < region_count config.now + 1) }
    ensures asks { IfSome result (λ index. Asks (region_at config.now index) (call.Allot asked 1)) }
    ensures few { IfSome result (λ index. asked ≤ 2 ^ 30) }
{
    match kind {
        Kind::TooLarge => None,
        Kind::Small(class) => Some(class_index(config, thread, class)),
        Kind::Large(_size) => Some(large_index(config)),
    }
}

/// The index of the region to which an address belongs.
pub(crate) fn home_index(config: &Config, addr: u64) -> Option<usize>
    requires { IsValid config.now }
    ensures index { result ≡ home_index config.now addr }
    ensures below { IfSome result (λ index. index < region_count config.now + 1) }
    ensures reach { IfSome result (λ index. IsInReach addr) }
{
    match home_of(config, addr) {
        Home::Class(region) => Some(region.0 as usize),
        Home::Large => Some(large_index(config)),
        Home::Outside => None,
    }
}
