//! The blocks of the large region: those that are live, those in quarantine, and the ranges that are free.
ghost use Rattle.std.specs.Prelude.{◌≡◌, ◌↔◌, ◌&&◌, ◌+◌, ◌<◌, nat_le, nat_lt, length, option_map, slice_get, Some, IfSome, IfNone, IsTrue, false};
ghost use Rattle.std.specs.List.{list_any};
ghost use Rattle.hm_model.specs.Maps.{at, has};
ghost use Rattle.hm_large_rules.specs.State.{Block};
ghost use Rattle.hm_large_rules.specs.Rules.{wrong_size};
ghost use Rattle.hm_large_book.specs.Book.{blocks_in, extent_of, reaches, Accepts, IsAccepted};

use hm_frames::PageRun;
use hm_sizes::block_size;
use hm_space::Space;

/// A live block, with its bytes.
#[derive(Drop)]
pub struct LiveBlock {
    pub asked: u64,
    pub size: u64,
    pub guard: u64,
    pub failed: bool,
    pub bytes: PageRun,
}

/// How far a block reaches: its size, and the pages of its guard on each side.
#[derive(Clone, Copy)]
pub struct Extent {
    pub size: u64,
    pub guard: u64,
}

/// Blocks by their addresses, newest first. Those in quarantine keep no bytes, and of the frees that went into
/// quarantine the latest are kept.
#[derive(Drop)]
pub struct BlockBook {
    pub live: Vec<(u64, LiveBlock)>,
    pub quarantined: Vec<(u64, Extent)>,
    pub recent: Vec<u64>,
    pub space: Space,
}

/// How far the live block at an address reaches.
pub(crate) fn extent_at(live: &[(u64, LiveBlock)], addr: u64) -> Option<Extent>
    ensures { result ≡ option_map extent_of (at addr (blocks_in live.now)) }
{
    for (start, block) in live {
        if *start == addr {
            return Some(Extent {
                size: block.size,
                guard: block.guard,
            });
        }
    }
    None
}

/// How far the block in quarantine at an address reaches.
pub(crate) fn quarantined_at(quarantined: &[(u64, Extent)], addr: u64) -> Option<Extent>
    ensures { result ≡ at addr quarantined.now }
{
    for (start, extent) in quarantined {
        if *start == addr {
            return Some(*extent);
        }
    }
    None
}

// Whether this is one of so many addresses from the first on.
fn has(start: u64, len: u64, addr: u64) -> bool
    ensures { result ≡ (nat_le start addr && nat_lt addr (start + len)) }
{
    start <= addr && addr - start < len
}

/// Which live block has a byte at an address, if one has.
pub(crate) fn holder(live: &[(u64, LiveBlock)], addr: u64) -> Option<usize>
    ensures within { IfSome result (λ i. i < length live.now) }
    ensures some { IfSome result (λ i. IfSome (slice_get live.now i) (λ e. IsTrue (reaches addr e))) }
    ensures none { IfNone result (list_any (reaches addr) live.now ≡ false) }
{
    for index in 0..live.len() {
        let (start, block) = &live[index];
        if has(*start, block.bytes.len() as u64, addr) {
            return Some(index);
        }
    }
    None
}

/// A block's size and that of the stated size, where they differ.
pub(crate) fn wrong_size(size: u64, stated: Option<u64>) -> Option<(u64, u64)>
    ensures { (b : Block) → b.size ≡ size → result ≡ wrong_size (Some b) stated }
{
    let stated = block_size(stated?);
    if stated == size {
        None
    } else {
        Some((size, stated))
    }
}

/// Whether a live block begins at an address.
pub(crate) fn is_live(live: &[(u64, LiveBlock)], addr: u64) -> bool
    ensures { result ≡ has addr (blocks_in live.now) }
{
    extent_at(live, addr).is_some()
}

/// Whether the live block at an address has this size.
pub(crate) fn is_size(live: &[(u64, LiveBlock)], addr: u64, size: u64) -> bool
    ensures { IsTrue result ↔ (option_map (λ (b : Block). b.size) (at addr (blocks_in live.now)) ≡ Some size) }
{
    match extent_at(live, addr) {
        Some(extent) => extent.size == size,
        None => false,
    }
}

// Whether the sizes that differ are these.
fn are_sizes(sizes: Option<(u64, u64)>, block: u64, other: u64) -> bool
    ensures { IsTrue result ↔ (sizes ≡ Some (block, other)) }
{
    match sizes {
        Some((size, stated)) => (size == block) & (stated == other),
        None => false,
    }
}

/// Whether the block's size and that of the stated size differ, and are these.
pub(crate) fn is_wrong(
    live: &[(u64, LiveBlock)],
    addr: u64,
    stated: Option<u64>,
    block: u64,
    other: u64,
) -> bool
    ensures { IsTrue result ↔ (wrong_size (at addr (blocks_in live.now)) stated ≡ Some (block, other)) }
{
    match extent_at(live, addr) {
        Some(extent) => are_sizes(wrong_size(extent.size, stated), block, other),
        None => false,
    }
}

/// How far the live block at an address reaches, where the stated size is its own.
pub(crate) fn accepted(live: &[(u64, LiveBlock)], addr: u64, stated: Option<u64>) -> Option<Extent>
    ensures some { IfSome result (Accepts (blocks_in live.now) addr stated) }
    ensures none { IfNone result ((extent : Extent) → Accepts (blocks_in live.now) addr stated extent → ⊥) }
{
    match extent_at(live, addr) {
        Some(extent) => {
            let differs = wrong_size(extent.size, stated).is_some();
            if differs { None } else { Some(extent) }
        }
        None => None,
    }
}

/// Whether a live block begins at an address, and the stated size is its own.
pub(crate) fn is_accepted(live: &[(u64, LiveBlock)], addr: u64, stated: Option<u64>) -> bool
    ensures { IsTrue result ↔ IsAccepted (blocks_in live.now) addr stated }
{
    match accepted(live, addr, stated) {
        Some(_) => true,
        None => false,
    }
}
