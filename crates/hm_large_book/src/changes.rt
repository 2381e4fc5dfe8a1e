//! What an entry changes of the blocks.
ghost use Rattle.std.specs.Prelude.{◌≡◌, ◌∷◌, ◌+◌, ◌*◌, ◌%◌, ◌≤◌, ◌^◌, ◌↔◌, ℕ, IsTrue, true, IfOk, OnOk, Some, length, take};
ghost use Rattle.std.specs.Bool.{MatchBool};
ghost use Rattle.hm_base.specs.Lists.{zeros};
ghost use Rattle.hm_model.specs.Maps.{at, removed};
ghost use Rattle.hm_sizes.specs.Configs.{IsValid};
ghost use Rattle.hm_sizes.specs.declared.config.Config.{Config};
ghost use Rattle.hm_large_rules.specs.State.{Block, size_for, is_quarantined, State, start};
ghost use Rattle.hm_large_rules.specs.Steps.{new_block, mark, marked, takes_back, releases};
ghost use Rattle.hm_large_rules.specs.Rules.{IsCandidate, Releases};
ghost use Rattle.hm_large_rules.specs.Laws.{IsSound};
ghost use Rattle.hm_large_book.specs.Book.{block_in, blocks_in, extent_of, ShowsBlocks};
ghost use Rattle.hm_large_book.specs.Changes.{HasSpace, IsLive, IsShown};

use crate::blocks::{BlockBook, Extent, LiveBlock, quarantined_at};
use hm_base::NoMemory;
use hm_frames::PageRun;
use hm_sizes::{Config, LARGE_START, PAGE, large_size, raised};
use hm_space::Space;
use std::alloc::Global;

/// The most blocks in quarantine.
const MOST_QUARANTINED: usize = 1280;

/// Of how many of the latest frees no block leaves the quarantine.
const DELAY: usize = 1025;

/// The size of the block for a request.
pub(crate) fn size_of_block(asked: u64) -> u64
    requires { asked ≤ 2 ^ 30 }
    ensures value { result ≡ size_for asked }
    ensures some { 1 ≤ result }
    ensures most { result ≤ 2 ^ 30 }
    ensures pages { result % 4096 ≡ 0 }
{
    large_size(raised(asked))
}

// So many zeros, in whole pages.
fn zero_bytes(alloc: Global, size: u64) -> Result<PageRun, NoMemory>
    requires some { 1 ≤ size }
    requires most { size ≤ 2 ^ 30 }
    requires pages { size % 4096 ≡ 0 }
    ensures { IfOk result (λ bytes. bytes ≡ zeros size) }
{
    PageRun::zeroed(alloc, (size / PAGE) as u32)
}

// How many addresses a block has with its guards.
fn span(size: u64, guard: u64) -> u64
    requires size { size ≤ 2 ^ 32 }
    requires guard { guard ≤ 2 ^ 32 }
    ensures { result ≡ size + 2 * (4096 * guard) }
{
    size + 2 * (PAGE * guard)
}

fn remove_live(live: &mut Vec<(u64, LiveBlock)>, addr: u64)
    ensures { blocks_in live.new.items ≡ removed addr (blocks_in live.old.items) }
{
    live.retain(|block| block.0 != addr);
}

fn remove_quarantined(quarantined: &mut Vec<(u64, Extent)>, addr: u64)
    ensures { quarantined.new.items ≡ removed addr quarantined.old.items }
{
    quarantined.retain(|block| block.0 != addr);
}

// Notes the latest free.
fn note(recent: &mut Vec<u64>, addr: u64) -> Result<(), NoMemory>
    ensures { OnOk result (recent.new.items ≡ addr ∷ take 1024 recent.old.items) }
{
    recent.truncate(DELAY - 1);
    recent.insert(0, addr)?;
    Ok(())
}

// Notes of one block, if it is the one at this address, that a page fault occurred.
fn mark_block(entry: &mut (u64, LiveBlock), addr: u64)
    ensures { block_in entry.new ≡ mark addr (block_in entry.old) }
{
    if entry.0 == addr {
        entry.1.failed = true;
    }
}

// Notes that a page fault occurred as the block at an address was to be taken back.
fn mark(live: &mut [(u64, LiveBlock)], addr: u64)
    ensures { blocks_in live.new ≡ marked addr (blocks_in live.old) }
{
    for entry in live.iter_mut() {
        mark_block(entry, addr);
    }
}

/// Notes that a page fault occurred as the block at an address was to be taken back.
pub(crate) fn mark_live(live: &mut Vec<(u64, LiveBlock)>, addr: u64)
    ensures { blocks_in live.new.items ≡ marked addr (blocks_in live.old.items) }
{
    mark(live, addr);
}

// How many of these begin at other addresses.
fn count_others(quarantined: &[(u64, Extent)], addr: u64) -> usize
    ensures value { result ≡ length (removed addr quarantined.now) }
    ensures few { result ≤ length quarantined.now }
{
    let mut count = 0;
    for (start, _) in quarantined {
        if *start != addr {
            count += 1;
        }
    }
    count
}

impl BlockBook {
    /// A book with no block.
    pub(crate) fn build(alloc: Global, config: &Config) -> Result<BlockBook, NoMemory>
        requires { IsValid config.now }
        ensures { IfOk result (ShowsBlocks config.now start) }
    {
        let space = Space::build(alloc, LARGE_START, config.large_space)?;
        Ok(BlockBook {
            live: Vec::new(alloc),
            quarantined: Vec::new(alloc),
            recent: Vec::new(alloc),
            space,
        })
    }

    /// Adds a live block of zeros at an address where it may stand.
    pub(crate) fn insert(
        &mut self,
        alloc: Global,
        addr: u64,
        asked: u64,
        guard: u64,
    ) -> Result<(), NoMemory>
        requires asked { asked ≤ 2 ^ 30 }
        requires space { HasSpace self.old addr asked guard }
        ensures { OnOk result ((c : Config) (s : State) (align : ℕ) → ShowsBlocks c s self.old
            → IsCandidate c s align (size_for asked) guard addr
            → ShowsBlocks c (record s { live = (addr, new_block asked guard) ∷ s.live }) self.new) }
    {
        let size = size_of_block(asked);
        self.space.reserve_two()?;
        let bytes = zero_bytes(alloc, size)?;
        let block = LiveBlock {
            asked,
            size,
            guard,
            failed: false,
            bytes,
        };
        self.live.insert(0, (addr, block))?;
        self.space.take(addr - PAGE * guard, span(size, guard));
        Ok(())
    }

    /// The live block at an address goes into quarantine.
    pub(crate) fn quarantine(&mut self, addr: u64, extent: Extent) -> Result<(), NoMemory>
        ensures { OnOk result ((c : Config) (s : State) (x : Block) (word : ℕ) → IsSound c s
            → ShowsBlocks c s self.old → at addr s.live ≡ Some x → extent ≡ extent_of x → is_quarantined x ≡ true
            → ShowsBlocks c (takes_back addr word (Some x) s) self.new) }
    {
        remove_live(&mut self.live, addr);
        self.quarantined.insert(0, (addr, extent))?;
        note(&mut self.recent, addr)?;
        Ok(())
    }

    /// The live block at an address leaves, and its range is free again.
    pub(crate) fn leave(&mut self, addr: u64, extent: Extent)
        requires { IsLive self.old addr extent }
        ensures { (c : Config) (s : State) (x : Block) → IsSound c s → ShowsBlocks c s self.old
            → at addr s.live ≡ Some x → extent ≡ extent_of x
            → ShowsBlocks c (record s { live = removed addr s.live }) self.new }
    {
        remove_live(&mut self.live, addr);
        self.space.put_back(addr - PAGE * extent.guard, span(extent.size, extent.guard));
    }

    // Whether the quarantine may let go of a block, or of none.
    fn may_release(&self, released: Option<u64>) -> bool
        ensures { (c : Config) (s : State) → ShowsBlocks c s self.now → IsTrue result ↔ Releases s released }
    {
        match released {
            None => self.quarantined.len() <= MOST_QUARANTINED,
            Some(addr) => {
                let quarantined = quarantined_at(&self.quarantined, addr).is_some();
                let late = self.recent.contains(&addr);
                let left = count_others(&self.quarantined, addr);
                quarantined & !late & (left <= MOST_QUARANTINED)
            }
        }
    }

    // What the quarantine lets go leaves, and its range is free again.
    fn let_go(&mut self, addr: u64)
        requires { IsShown self.old }
        ensures { (c : Config) (s : State) (x : Block) → IsSound c s → ShowsBlocks c s self.old
            → at addr s.quarantined ≡ Some x
            → ShowsBlocks c (record s { quarantined = removed addr s.quarantined }) self.new }
    {
        if let Some(extent) = quarantined_at(&self.quarantined, addr) {
            remove_quarantined(&mut self.quarantined, addr);
            self.space.put_back(addr - PAGE * extent.guard, span(extent.size, extent.guard));
        }
    }

    /// What is said to leave the quarantine does so, where it may. Answers whether it may.
    pub(crate) fn release(&mut self, released: Option<u64>) -> bool
        requires { IsShown self.old }
        ensures { (c : Config) (s : State) → IsSound c s → ShowsBlocks c s self.old
            → MatchBool result (Releases s released × ShowsBlocks c (releases released s) self.new)
            (Releases s released → ⊥) }
    {
        if !self.may_release(released) {
            return false;
        }
        if let Some(addr) = released {
            self.let_go(addr);
        }
        true
    }
}
